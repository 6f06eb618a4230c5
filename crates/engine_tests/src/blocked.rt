//! Keys that operators block.
ghost use Rattle.std.specs.Prelude.{◌<◌, ◌^◌, length};
ghost use Rattle.gate_entries.specs.Command.{IsCommand, IsCaller};

use crate::commands::{
    BAD_FIELDS, BEGUN, BLOCKED, KEY_REUSED, ROLE_DENIED, Said, bytes, caller, command, content_of,
    empty_plant, gate_over, said,
};
use crate::settings::begin_journal;
use gate_base::Role;
use gate_entries::{Caller, Command};
use std::alloc::Global;
use std::process::Abort;

/// What is blocked under the retry key of that number.
pub fn block(rt: &impl Abort, alloc: Global, key: usize, spki: &[u8]) -> Command
    requires { length spki.now < 2 ^ 16 }
    ensures { IsCommand result }
{
    let key: &[u8] = match key {
        0 => b"k1",
        1 => b"~!",
        2 => b"k 1",
        3 => b"",
        _ => b"0123456789abcdef0123456789abcdef0123456789abcdef0123456789abcdef0",
    };
    block_under(rt, alloc, key, spki)
}

pub fn block_under(rt: &impl Abort, alloc: Global, key: &[u8], spki: &[u8]) -> Command
    requires key { length key.now < 2 ^ 8 }
    requires spki { length spki.now < 2 ^ 16 }
    ensures { IsCommand result }
{
    Command::Block {
        key: bytes(rt, alloc, key),
        spki: bytes(rt, alloc, spki),
    }
}

pub fn operator(rt: &impl Abort, alloc: Global) -> Caller
    ensures { IsCaller result }
{
    Caller {
        id: bytes(rt, alloc, b"op"),
        role: Role::Operator,
    }
}

/// The three bytes that the operator `op` blocks under `k1` in the example.
pub const EXAMPLE_KEY: &[u8] = &[0xaa, 0xbb, 0xcc];

/// The group of that entry, the second one: its length, the chain as Python's hashlib computes it, and the payload. With
/// the gate behind it, it takes 66 bytes.
pub const EXAMPLE_GROUP: &[u8] = b"\0\0\0\x1d\
    \xd3\xee\x7f\xe3\x74\x52\x63\x4f\x40\xce\x9f\x00\x51\x69\xfd\xb9\
    \x23\xad\xed\x36\x48\x63\xd7\xa0\xc5\xf2\x17\x85\xb0\x84\x5e\x8f\
    \x08\0\0\0\0\0\0\0\x02\0\0\0\0\x6a\xb1\x3b\x80\0\x02op\x02k1\0\x03\xaa\xbb\xcc";

/// The retry key and the blocked key of each command of the operator, and its reply.
const BLOCKS: &[(usize, u8, Said)] = &[
    (0, 3, (BLOCKED, 2)),
    (0, 3, (BLOCKED, 2)),
    (0, 2, (KEY_REUSED, 2)),
    (0, 0, (KEY_REUSED, 2)),
    (1, 0, (BAD_FIELDS, 17)),
    (2, 3, (BAD_FIELDS, 1)),
    (3, 0, (BAD_FIELDS, 1)),
    (4, 3, (BAD_FIELDS, 1)),
    // the same key again, under another retry key
    (1, 3, (BLOCKED, 3)),
    (1, 3, (BLOCKED, 3)),
];

#[test]
fn keys_are_blocked_by_operators(rt: HostRuntime) {
    let alloc = rt.alloc();
    let mut plant = empty_plant(&rt, alloc, &[]);
    begin_journal(&rt, alloc, &mut plant);
    let mut gate = gate_over(&rt, alloc, plant, &[Some(BEGUN)]);
    // Neither may do what the other does.
    let asked = block(&rt, alloc, 0, &[1]);
    let denied = said(gate.ask(&caller(&rt, alloc, 0), &asked));
    assert_eq!(rt; denied, (ROLE_DENIED, 0));
    let asked = command(&rt, alloc, 0, content_of(0));
    let denied = said(gate.ask(&operator(&rt, alloc), &asked));
    assert_eq!(rt; denied, (ROLE_DENIED, 0));
    for (key, size, want) in BLOCKS {
        let spki: &[u8] = match size {
            0 => &[],
            2 => &[0xaa, 0xbb],
            _ => EXAMPLE_KEY,
        };
        let asked = block(&rt, alloc, *key, spki);
        let got = said(gate.ask(&operator(&rt, alloc), &asked));
        assert_eq!(rt; got, *want, "under key {key}");
    }
    assert_eq!(rt; gate.engine.count(), 3);
    assert!(rt; gate.plant.disk().get(1_307..1_372) == Some(EXAMPLE_GROUP));
}
