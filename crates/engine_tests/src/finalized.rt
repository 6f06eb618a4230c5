//! Orders that are finalized, over a plant that loses a signature and a write.

use crate::blocked::{block, block_under, operator};
use crate::commands::{
    BEGUN, BLOCKED, DISK_FAULT, ENTROPY_FAULT, ENTROPY_REPEAT, Gate, ISSUED, NO_SUCH_ORDER, PLACED,
    REFUSED, SIGNER_FAULT, Said, bytes, caller, command, content_of, gate_over, said,
};
use crate::requests::{few, key, request};
use crate::settings::begin_journal;
use gate_base::{Bytes, Sequence, Sixteen};
use gate_entries::{Command, Reply};
use plant::{Fail, ListEntropy, MemoryPlant};
use std::alloc::Global;
use std::process::Abort;

/// What is asked when orders are finalized.
#[derive(Clone, Copy, Debug)]
pub enum Turn {
    /// Caller `acme` orders under this key, with this content.
    Order(u8, u8),
    /// The account with this number has the order finalized.
    Finalize(u8, u64),
    /// The operator blocks the key with these bytes of its point.
    Block(u8),
    /// The operator blocks all bytes of the request with that key.
    BlockRequest(u8),
    /// The operator blocks so many zero bytes, under this number in four letters. The group takes 65 bytes more.
    BlockLong(u16, usize),
}

/// The example's body: the serial number 40 and fifteen zeros, and `example.com`.
pub const BODY: &[u8] =
    b"\x30\x21\x02\x10\x40\0\0\0\0\0\0\0\0\0\0\0\0\0\0\0\x30\x0d\x82\x0bexample.com";

/// Over a plant whose call 20, the first of the signer, loses its reply, and whose call 43, the write of a signature's group, fails.
const TURNS: &[(Turn, Said)] = &[
    (Turn::Order(0, 0), (PLACED, 2)),
    (Turn::Finalize(1, 2), (NO_SUCH_ORDER, 0)),
    (Turn::Finalize(0, 1), (NO_SUCH_ORDER, 0)),
    (Turn::Finalize(0, 3), (NO_SUCH_ORDER, 0)),
    (Turn::Finalize(0, 2), (SIGNER_FAULT, 0)),
    (Turn::Finalize(0, 2), (ISSUED, 2)),
    (Turn::Finalize(0, 2), (ISSUED, 2)),
    // The drawn bytes stand already, with other bits where they are masked.
    (Turn::Order(1, 4), (PLACED, 6)),
    // These bytes are no order's key.
    (Turn::BlockRequest(0x12), (BLOCKED, 7)),
    (Turn::Finalize(0, 6), (ENTROPY_REPEAT, 0)),
    // The signature's entry isn't written: what was sent is sent again.
    (Turn::Finalize(0, 6), (DISK_FAULT, 0)),
    (Turn::Finalize(0, 6), (ISSUED, 6)),
    (Turn::Order(2, 4), (PLACED, 11)),
    (Turn::Finalize(0, 11), (ENTROPY_FAULT, 0)),
    (Turn::Block(0x12), (BLOCKED, 12)),
    (Turn::Finalize(0, 11), (REFUSED, 12)),
    // A key that is blocked after the signature takes nothing back.
    (Turn::Finalize(0, 6), (ISSUED, 6)),
];

/// Random bytes: zeros, the same with the bit that is masked, and others that are drawn twice.
pub fn draws(rt: &impl Abort, alloc: Global) -> ListEntropy {
    let mut draws = Sequence::new(alloc);
    for first in [0, 0x80, 1] {
        let mut bytes = [0; 16];
        bytes[0] = first;
        draws.push(Some(Sixteen(bytes))).expect(rt, "memory");
    }
    draws.push(None).expect(rt, "memory");
    let mut last = [0; 16];
    last[0] = 2;
    draws.push(Some(Sixteen(last))).expect(rt, "memory");
    ListEntropy::new(draws)
}

/// A number in four letters from a to p, of 16 values each.
fn letters(number: u16) -> [u8; 4] {
    let [high, low] = number.to_be_bytes();
    [
        b'a'.saturating_add(high / 16),
        b'a'.saturating_add(high % 16),
        b'a'.saturating_add(low / 16),
        b'a'.saturating_add(low % 16),
    ]
}

fn block_long(rt: &impl Abort, alloc: Global, gate: &mut Gate, number: u16, size: usize) -> Reply {
    let mut zeros = Vec::new(alloc);
    zeros.resize(size, 0).expect(rt, "memory");
    let zeros = few(rt, zeros);
    let asked = block_under(rt, alloc, &letters(number), zeros.as_slice());
    gate.ask(&operator(rt, alloc), &asked)
}

pub fn take_turn(rt: &impl Abort, alloc: Global, gate: &mut Gate, turn: Turn) -> Reply {
    match turn {
        Turn::Order(key, content) => {
            let asked = command(rt, alloc, key, content_of(content));
            gate.ask(&caller(rt, alloc, 0), &asked)
        }
        Turn::Finalize(asker, order) => {
            gate.ask(&caller(rt, alloc, asker), &Command::Finalize { order })
        }
        Turn::Block(byte) => {
            let key = key(rt, alloc, byte);
            let asked = block(rt, alloc, 0, key.as_slice());
            gate.ask(&operator(rt, alloc), &asked)
        }
        Turn::BlockRequest(byte) => {
            let request = request(rt, alloc, byte);
            let asked = block(rt, alloc, 1, request.as_slice());
            gate.ask(&operator(rt, alloc), &asked)
        }
        Turn::BlockLong(number, size) => block_long(rt, alloc, gate, number, size),
    }
}

#[test]
fn orders_are_sent_signed_and_told(rt: HostRuntime) {
    let alloc = rt.alloc();
    let mut fails = Sequence::new(alloc);
    fails.push((20, Fail::ReplyLost)).expect(&rt, "memory");
    fails.push((43, Fail::Disk)).expect(&rt, "memory");
    let secret = bytes(&rt, alloc, b"secret");
    let mut plant = MemoryPlant::new(alloc, Bytes::new(alloc), secret, fails);
    begin_journal(&rt, alloc, &mut plant);
    let mut gate = gate_over(&rt, alloc, plant, &[Some(BEGUN)]);
    gate.entropy = draws(&rt, alloc);
    for (turn, want) in TURNS {
        let reply = take_turn(&rt, alloc, &mut gate, *turn);
        if let Reply::Issued { certificate, .. } = &reply {
            assert_eq!(rt; certificate.len(), 84);
            assert!(rt; certificate.as_slice().get(..2) == Some(b"\x30\x52".as_slice()));
        }
        assert_eq!(rt; said(reply), *want);
    }
    // Of the first order the same body was sent twice, and so was that of the second.
    let sent = gate.plant.sent();
    assert_eq!(rt; sent.len(), 4);
    assert!(rt; sent.get(0).map(|body| body.as_slice()) == Some(BODY));
    assert!(rt; sent.get(1).map(|body| body.as_slice()) == Some(BODY));
    assert!(rt; sent.get(2) == sent.get(3));
    assert!(rt; sent.get(2) != sent.get(0));
}
