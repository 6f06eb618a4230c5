//! A journal that fills up to its last byte.

use crate::commands::{BEGUN, BLOCKED, FULL, Gate, ISSUED, PLACED, Said, begun_gate_at, said};
use crate::finalized::{Turn, draws, take_turn};
use std::alloc::Global;
use std::process::Abort;

/// What is asked first.
const FIRST_TURNS: &[(Turn, Said, usize)] = &[
    (Turn::Order(0, 0), (PLACED, 2), 0),
    (Turn::Order(1, 3), (PLACED, 3), 0),
];

/// How many keys of 65,535 bytes are blocked then, as the entries 4 to 1025.
const LONG_BLOCKS: u16 = 1_022;

/// What is asked where 63,950 bytes are left, the reply, and how many bodies the signer has then.
const LAST_TURNS: &[(Turn, Said, usize)] = &[
    (Turn::BlockLong(1026, 62_686), (BLOCKED, 1026), 0),
    // 1,199 bytes are left: the body of order 3 takes 109, and 1,094 are kept for its signature
    (Turn::Finalize(0, 3), (FULL, 0), 0),
    // the body of order 2 takes 105, and its signature 102
    (Turn::Finalize(0, 2), (ISSUED, 2), 1),
    (Turn::Finalize(0, 3), (FULL, 0), 1),
    (Turn::BlockLong(1029, 861), (BLOCKED, 1029), 1),
    // one byte more than the 66 that are left, and then as many
    (Turn::BlockLong(1030, 2), (FULL, 0), 1),
    (Turn::BlockLong(1030, 1), (BLOCKED, 1030), 1),
    (Turn::BlockLong(1030, 1), (BLOCKED, 1030), 1),
    (Turn::BlockLong(1031, 1), (FULL, 0), 1),
    (Turn::Order(2, 0), (FULL, 0), 1),
    (Turn::Finalize(0, 2), (ISSUED, 2), 1),
];

fn take_turns(rt: &impl Abort, alloc: Global, gate: &mut Gate, turns: &[(Turn, Said, usize)]) {
    for (turn, want, sent) in turns {
        let reply = said(take_turn(rt, alloc, gate, *turn));
        assert_eq!(rt; reply, *want, "{turn:?}");
        assert_eq!(rt; gate.plant.sent().len(), *sent, "{turn:?}");
    }
}

fn fill(rt: &impl Abort, alloc: Global, gate: &mut Gate) {
    for number in 0..LONG_BLOCKS {
        let turn = Turn::BlockLong(number, 65_535);
        let (kind, _) = said(take_turn(rt, alloc, gate, turn));
        assert_eq!(rt; kind, BLOCKED);
    }
}

#[test]
fn a_journal_fills_up_to_its_last_byte(rt: HostRuntime) {
    let alloc = rt.alloc();
    let mut gate = begun_gate_at(&rt, alloc, BEGUN);
    gate.entropy = draws(&rt, alloc);
    take_turns(&rt, alloc, &mut gate, FIRST_TURNS);
    fill(&rt, alloc, &mut gate);
    take_turns(&rt, alloc, &mut gate, LAST_TURNS);
    assert_eq!(rt; gate.plant.disk().len(), 67_108_864);
    assert_eq!(rt; gate.engine.count(), 1030);
}
