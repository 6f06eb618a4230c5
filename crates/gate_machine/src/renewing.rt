//! Settings that aren't in force.
ghost use Rattle.std.specs.Prelude.{◌≡◌, IfOk};
ghost use Rattle.gate_settings.specs.Meaning.{IsReadable};
ghost use Rattle.gate_machine.specs.Answer.{IsInRange, IsReady};
ghost use Rattle.gate_machine.specs.Commands.Settings.{AreInForce};
ghost use Rattle.gate_machine.specs.Ends.{EndsFull};
ghost use Rattle.gate_machine.specs.History.{Follows, IsNextPlace, Legal, journal_place};
ghost use Rattle.gate_machine.specs.Renewal as spec;
ghost use Rattle.gate_machine.specs.Renewal.{renewal_of};

use crate::answer::Answer;
use crate::ending::fitted_entry;
use crate::place::{Place, place_of};
use gate_base::NoMemory;
use gate_entries::Entry;
use gate_settings::readable_settings_are_short;
use journal_core::Journal;
use std::alloc::Global;

/// What becomes of readable settings that aren't in force, at a reading of the clock: an entry to write, or that the journal is full.
pub fn renewal(
    alloc: Global,
    entries: &[Entry],
    journal: &Journal,
    reading: u64,
    bytes: &[u8],
) -> Result<Answer, NoMemory>
    requires legal { Legal entries.now }
    requires place { journal.now.at ≡ journal_place entries.now }
    requires in_range { IsInRange reading }
    requires readable { IsReadable bytes.now }
    requires other { ¬ (AreInForce bytes.now entries.now) }
    ensures answers { IfOk result (renewal_of entries.now reading bytes.now) }
    ensures ready { IfOk result (IsReady entries.now) }
{
    let place = place_of(entries, reading);
    let entry = renewal_at(alloc, entries, &place, bytes)?;
    Ok(fitted_entry(entries, journal, entry))
}

/// The entry of these settings at a place.
#[tactic(auto, using(crate::proofs::InForce::settings_follow))]
fn renewal_at(
    alloc: Global,
    entries: &[Entry],
    place: &Place,
    bytes: &[u8],
) -> Result<Entry, NoMemory>
    requires next { IsNextPlace entries.now place.now }
    requires readable { IsReadable bytes.now }
    requires other { ¬ (AreInForce bytes.now entries.now) }
    ensures entry { IfOk result (λ entry. entry ≡ spec.renewal_at place.now bytes.now) }
    ensures follows { IfOk result (Follows entries.now) }
{
    readable_settings_are_short();
    Entry::settings(alloc, place.number, place.moment, bytes)
}
