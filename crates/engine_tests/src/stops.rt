//! Disks as a stop leaves them, byte by byte, and what the next engine finds.

use crate::blocked::{EXAMPLE_GROUP, EXAMPLE_KEY, block, operator};
use crate::commands::{
    BEGUN, BEGUN_ENTRY, BEGUN_HEAD, BLOCKED, ISSUED, ORDER, count_again, empty_plant, gate_over,
    is_begun, plant_of, said,
};
use crate::finalized::{BODY, Turn, draws, take_turn};
use crate::listed::{payload, put};
use crate::settings::{SETTINGS, begin_journal};
use gate_base::{Bytes, Sequence};
use plant::MemoryPlant;
use std::alloc::Global;
use std::process::Abort;

#[test]
fn a_begun_journal_has_its_bytes(rt: HostRuntime) {
    let alloc = rt.alloc();
    let mut plant = empty_plant(&rt, alloc, &[]);
    begin_journal(&rt, alloc, &mut plant);
    assert!(rt; is_begun(plant.disk()));
    assert!(rt; plant.disk().get(1_306..) == Some(b"\0".as_slice()));
    assert_eq!(rt; EXAMPLE_GROUP.len() + 1, 66);
}

// ---- the stop of one commit

/// Of the example's commit: the gate, how much of the group is there, what stands behind it, and how many entries are found.
const STOPS: &[(u8, usize, &[u8], u64)] = &[
    // before the gate's write: nothing of the group, a part of it, all of it
    (0, 0, b"", 1),
    (0, 1, b"", 1),
    (0, 3, b"", 1),
    (0, 36, b"", 1),
    (0, 64, b"", 1),
    (0, 65, b"", 1),
    (0, 65, b"\0", 1),
    // a group that is torn, with other bytes inside it and behind it
    (0, 0, b"\xff\xff\xff\xff\xff", 1),
    (
        0,
        40,
        b"\0\0\0\0\0\0\0\0\0\0\0\0\0\0\0\0\0\0\0\0\0\0\0\0\0\0\x01",
        1,
    ),
    (0, 64, b"\xcd\x01\x01\x01", 1),
    // the gate torn: another byte than 1 is closed
    (2, 65, b"\0", 1),
    (0xff, 65, b"\0", 1),
    // after the gate's write
    (1, 65, b"\0", 2),
    (1, 65, b"\0\x01\xff\xff", 2),
];

/// A plant with a begun journal, a gate, a part of the example's group, and what stands behind it.
fn stopped_plant(
    rt: &impl Abort,
    alloc: Global,
    gate: u8,
    kept: usize,
    behind: &[u8],
) -> MemoryPlant {
    let group = EXAMPLE_GROUP.get(..kept).expect(rt, "a part");
    let mut disk = Vec::new(alloc);
    put(rt, &mut disk, BEGUN_HEAD);
    put(rt, &mut disk, BEGUN_ENTRY);
    put(rt, &mut disk, SETTINGS);
    put(rt, &mut disk, &[gate]);
    put(rt, &mut disk, group);
    put(rt, &mut disk, behind);
    MemoryPlant::new(
        alloc,
        Bytes::from_vec(disk),
        Bytes::new(alloc),
        Sequence::new(alloc),
    )
}

/// The example's commit stands whole on the disk.
fn is_committed(disk: &[u8]) -> bool {
    is_begun(disk)
        && disk.get(1_306..1_307) == Some(b"\x01".as_slice())
        && disk.get(1_307..1_372) == Some(EXAMPLE_GROUP)
        && disk.get(1_372..1_373) == Some(b"\0".as_slice())
}

/// The place of the first stop behind which an engine finds something else, or answers otherwise.
fn wrong_stop(rt: &impl Abort, alloc: Global) -> Option<usize> {
    for (place, (byte, kept, behind, want)) in STOPS.iter().enumerate() {
        let plant = stopped_plant(rt, alloc, *byte, *kept, behind);
        let mut gate = gate_over(rt, alloc, plant, &[Some(BEGUN)]);
        let found = gate.engine.count();
        let asked = block(rt, alloc, 0, EXAMPLE_KEY);
        let got = said(gate.ask(&operator(rt, alloc), &asked));
        let again = count_again(rt, alloc, &mut gate.plant);
        if found != *want || got != (BLOCKED, 2) || !is_committed(gate.plant.disk()) || again != 2 {
            return Some(place);
        }
    }
    None
}

// ---- the stop of a finalization

/// The length and the chain of the example's order, which is entry 2.
const ORDER_HEAD: &[u8] = b"\0\0\0\xa4\
    \xf0\x08\xb0\x51\x10\xb9\xd0\x7b\x64\xa8\xdf\x77\x94\xee\x45\xf5\
    \xb1\xce\x57\x8a\x3c\x46\x8f\x60\x8f\x3e\x11\xe1\x71\xdb\xf8\xea";

/// The group of its body, which is sent as entry 3.
const SENT_GROUP: &[u8] = b"\0\0\0\x44\
    \xc0\x2f\x7b\xd4\x64\xdc\xa9\x60\x50\x4c\xea\x8e\x82\x5c\x0d\xde\
    \x4f\x17\xa3\xcc\xfe\xcd\xfb\x9f\x94\x31\x0b\x98\x8c\xe3\x52\xec\
    \x06\0\0\0\0\0\0\0\x03\0\0\0\0\x6a\xb1\x3b\x80\0\x04acme\0\0\0\0\0\0\0\x02\0\x23\
    \x30\x21\x02\x10\x40\0\0\0\0\0\0\0\0\0\0\0\0\0\0\0\x30\x0d\x82\x0bexample.com";

/// The group of a signature of 32 bytes, which is entry 4.
const SIGNED_GROUP: &[u8] = b"\0\0\0\x41\
    \x16\xad\x30\x5b\x7c\xdc\x39\x11\xd8\x17\x08\xc3\xff\xfd\xa0\x21\
    \x0e\xf8\x65\x7e\xad\x87\x9f\x1e\x3a\x9f\xb8\x59\x8f\x28\x99\x46\
    \x07\0\0\0\0\0\0\0\x04\0\0\0\0\x6a\xb1\x3b\x80\0\x04acme\0\0\0\0\0\0\0\x02\0\x20\
    \x11\x11\x11\x11\x11\x11\x11\x11\x11\x11\x11\x11\x11\x11\x11\x11\
    \x11\x11\x11\x11\x11\x11\x11\x11\x11\x11\x11\x11\x11\x11\x11\x11";

/// The gates before the body's group and before the signature's, the entries that are found, and those after a finalization.
const FINALIZED: &[(u8, u8, u64, u64)] = &[(0, 0, 2, 4), (1, 0, 3, 5), (1, 1, 4, 4), (0, 1, 2, 4)];

/// The place of the first stop behind which an engine finds something else, answers otherwise, or sends another body.
fn wrong_finalization(rt: &impl Abort, alloc: Global) -> Option<usize> {
    let order = payload(rt, alloc, ORDER);
    for (place, (sent, signed, found, want)) in FINALIZED.iter().enumerate() {
        let pieces: &[&[u8]] = &[
            BEGUN_HEAD,
            BEGUN_ENTRY,
            SETTINGS,
            b"\x01",
            ORDER_HEAD,
            order.as_slice(),
            &[*sent],
            SENT_GROUP,
            &[*signed],
            SIGNED_GROUP,
            b"\0",
        ];
        let plant = plant_of(rt, alloc, pieces, 0);
        let mut gate = gate_over(rt, alloc, plant, &[Some(BEGUN)]);
        gate.entropy = draws(rt, alloc);
        let before = gate.engine.count();
        let got = said(take_turn(rt, alloc, &mut gate, Turn::Finalize(0, 2)));
        let right = match gate.plant.sent().get(0) {
            Some(body) => *want != *found && body.as_slice() == BODY,
            None => *want == *found,
        };
        if before != *found || got != (ISSUED, 2) || gate.engine.count() != *want || !right {
            return Some(place);
        }
    }
    None
}

#[test]
fn what_a_stop_leaves_is_taken_up(rt: HostRuntime) {
    let alloc = rt.alloc();
    assert_eq!(rt; wrong_stop(&rt, alloc), None);
    assert_eq!(rt; wrong_finalization(&rt, alloc), None);
}
