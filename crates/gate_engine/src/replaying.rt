//! How payloads become a history.
ghost use Rattle.std.specs.Prelude.{◌≡◌, ◌≢◌, ◌≤◌, ◌+◌, ℕ, [], length, sum_by, IfOk, IsErrOf};
ghost use Rattle.journal_core.specs.Journal.{gate_place, HasRoom};
ghost use Rattle.gate_entries.specs.declared.entry.Entry.{Entry as EntryValue};
ghost use Rattle.gate_entries.specs.Spelling.{entry_bytes};
ghost use Rattle.gate_machine.specs.History.{payloads_of, Legal, EachFollows, Follows};
ghost use Rattle.gate_engine.specs.Engine.{StraysAt, IsIllegalAt};

use crate::fault::ReplayFault;
use gate_base::{Bytes, Payloads};
use gate_entries::{Entry, EntryRead, read_entry};
use gate_machine::{follows, one_entry_more};
use journal_core::{FIRST_GATE, group_total};
use std::alloc::Global;

/// The history that the payloads are; or the place of the first group that may not come behind those before it.
pub fn replay(alloc: Global, payloads: &Payloads) -> Result<Vec<Entry>, ReplayFault>
    requires { HasRoom (gate_place payloads.now) 0 }
    ensures payloads { IfOk result (λ history. payloads.now ≡ payloads_of history.items) }
    ensures legal { IfOk result (λ history. Legal history.items) }
    ensures illegal { (at : ℕ) → IsErrOf result (ReplayFault.Illegal at) → IsIllegalAt payloads.now at }
{
    let history = replay_each(alloc, payloads.as_slice())?;
    if history.is_empty() {
        return Err(ReplayFault::Illegal { at: FIRST_GATE });
    }
    Ok(history)
}

/// The entries that the payloads spell, each of which may come behind those before it.
fn replay_each(alloc: Global, payloads: &[Bytes]) -> Result<Vec<Entry>, ReplayFault>
    requires { HasRoom (gate_place payloads.now) 0 }
    ensures payloads { IfOk result (λ history. payloads.now ≡ payloads_of history.items) }
    ensures each { IfOk result (λ history. EachFollows [] history.items) }
    ensures illegal { (at : ℕ) → IsErrOf result (ReplayFault.Illegal at) → StraysAt payloads.now at }
{
    one_entry_more();
    let mut history = Vec::new(alloc);
    let mut at = FIRST_GATE;
    let mut rest = payloads;
    while let [payload, after @ ..] = rest {
        let entry = match next_entry(alloc, &history, payload, at) {
            Ok(entry) => entry,
            Err(fault) => return Err(fault),
        };
        history.push(entry)?;
        at = at.saturating_add(group_total(payload.len() as u64));
        rest = after;
    }
    Ok(history)
}

/// The entry that a payload spells, where it may come behind these.
fn next_entry(
    alloc: Global,
    before: &[Entry],
    payload: &Bytes,
    at: u64,
) -> Result<Entry, ReplayFault>
    requires { EachFollows [] before.now }
    ensures spelled { IfOk result (λ entry. payload.now ≡ entry_bytes entry) }
    ensures follows { IfOk result (λ entry. Follows before.now entry) }
    ensures place { (place : ℕ) → IsErrOf result (ReplayFault.Illegal place) → place ≡ at }
    ensures stray { (place : ℕ) → IsErrOf result (ReplayFault.Illegal place) → (entry : EntryValue) → Follows before.now entry → payload.now ≢ entry_bytes entry }
{
    match read_entry(alloc, payload.as_slice()) {
        Ok(entry) => {
            if !follows(alloc, before, &entry)? {
                return Err(ReplayFault::Illegal { at });
            }
            Ok(entry)
        }
        Err(EntryRead::Fault(_)) => Err(ReplayFault::Illegal { at }),
        Err(EntryRead::NoMemory) => Err(ReplayFault::NoMemory),
    }
}
