//! Observations of challenges.
ghost use Rattle.std.specs.Prelude.{◌≡◌, ◌↔◌, IsTrue};
ghost use Rattle.std.specs.Option.{option_copied};
ghost use Rattle.gate_machine.specs.Commands.Observe as spec;
ghost use Rattle.gate_machine.specs.Commands.Observe.{ObservationComes};

use crate::rules::{broken_by_key, is_timely};
use crate::sight::is_new_key;
use gate_base::{Bytes, Moment};
use gate_entries::{Entry, What};

fn is_challenge(what: &What) -> bool
    ensures { result ≡ spec.is_challenge what.now }
{
    match what {
        What::Challenge { .. } => true,
        _ => false,
    }
}

fn is_challenge_at(entry: &Entry, number: u64) -> bool
    ensures { result ≡ spec.is_challenge_at number entry.now }
{
    entry.number == number && is_challenge(&entry.what)
}

/// The challenge with this number.
pub fn challenge_at(history: &[Entry], number: u64) -> Option<&Entry>
    ensures { option_copied result ≡ spec.challenge_at number history.now }
{
    history.iter().find(|entry| is_challenge_at(entry, number))
}

/// Whether an observation may come behind these entries.
pub fn observation_comes(
    before: &[Entry],
    caller: &Bytes,
    moment: Moment,
    key: &Bytes,
    challenge: u64,
    seen_at: u64,
) -> bool
    ensures { IsTrue result ↔ ObservationComes before.now caller.now moment key.now challenge seen_at }
{
    if !is_new_key(before, caller, key) || !is_timely(seen_at, moment) {
        return false;
    }
    if challenge_at(before, challenge).is_none() {
        return false;
    }
    broken_by_key(key).is_none()
}
