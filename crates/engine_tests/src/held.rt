//! An engine together with what it stands over.

use crate::blocked::{EXAMPLE_KEY, block, operator};
use crate::commands::BEGUN;
use crate::settings::{SETTINGS, check_settings};
use gate_base::{Bytes, Moment, Sequence};
use gate_engine::{Held, begin};
use gate_entries::Reply;
use plant::{ListClock, ListEntropy, MemoryPlant};
use std::alloc::Global;
use std::process::Abort;

/// A gate over a journal that begins at that moment.
fn begun_gate(rt: &impl Abort, alloc: Global) -> Held<MemoryPlant, ListClock, ListEntropy> {
    let mut plant = MemoryPlant::new(
        alloc,
        Bytes::new(alloc),
        Bytes::new(alloc),
        Sequence::new(alloc),
    );
    let readings = Sequence::from_slice(alloc, &[Some(BEGUN)]).expect(rt, "memory");
    let clock = ListClock::new(readings);
    let entropy = ListEntropy::new(Sequence::new(alloc));
    check_settings(rt, alloc, SETTINGS);
    match begin(alloc, &mut plant, Moment(BEGUN), SETTINGS) {
        Ok(()) => match Held::start(alloc, plant, clock, entropy, SETTINGS) {
            Ok(gate) => gate,
            Err((_, _, _, fault)) => panic!(rt; "{fault:?}"),
        },
        Err(fault) => panic!(rt; "{fault:?}"),
    }
}

fn blocked_number(reply: &Reply) -> u64 {
    match reply {
        Reply::Blocked { number } => *number,
        _ => 0,
    }
}

#[test]
fn a_gate_counts_what_it_wrote(rt: HostRuntime) {
    let alloc = rt.alloc();
    let mut gate = begun_gate(&rt, alloc);
    let asked = block(&rt, alloc, 0, EXAMPLE_KEY);
    for wrote in [1, 0] {
        let said = gate.ask(&operator(&rt, alloc), &asked);
        assert_eq!(rt; blocked_number(said.reply()), 2);
        assert_eq!(rt; said.wrote(), wrote);
    }
    assert_eq!(rt; gate.count(), 2);
    let (engine, plant, _, _) = gate.into_parts();
    assert_eq!(rt; engine.count(), 2);
    assert_eq!(rt; plant.disk().len(), 1_373);
}
