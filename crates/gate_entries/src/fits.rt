//! Whether a command's sizes can be spelled.
ghost use Rattle.std.specs.Prelude.{◌≡◌, ◌+◌, ◌<◌, ◌≤◌, ◌^◌, ◌∷◌, ◌↔◌, length, IsTrue};
ghost use Rattle.std.specs.List.{flat_map, AllByRecursion};
ghost use Rattle.gate_entries.specs.Command.{HasNames, IsCommand};
ghost use Rattle.gate_entries.specs.Observation.{IsSeen};
ghost use Rattle.gate_entries.specs.CaaAnswer.{IsAnswer};
ghost use Rattle.gate_entries.specs.Field.{AreItems};
ghost use Rattle.gate_entries.specs.Spelling.{most_bytes};
ghost use Rattle.gate_entries.specs.Target.{labels_text};
ghost use Rattle.gate_entries.specs.Fits.{TargetFits, FieldsFit, observed_length, answered_length, given_length, Fits};

use crate::caa::answers_fit;
use crate::command::Command;
use crate::field::{Field, MOST_COUNTED8, MOST_COUNTED16};
use crate::list::list_len;
use crate::seen::seen_fits;
use crate::target::target_len;
use gate_base::{Bytes, CaaSeen, Labels, Seen, Target};

/// The most bytes that a command gives its entry: those of an entry, but for 17 of its kind, number and moment and 66 of a
/// caller.
const MOST_GIVEN: u64 = 1_114_029;

impl Command {
    /// Whether each field is within its limit: keys, names and lists have at most 255 bytes or members, requests, blocked
    /// keys and each record, address, location and body that was seen at most 65,535 bytes, and the entry at most 1,114,112
    /// bytes.
    #[tactic(auto, using(crate::proofs::Sizes::fits_command))]
    pub fn fits(&self) -> bool
        ensures fits { IsTrue result ↔ Fits self.now }
        // What fits has a spelling, where its names are names.
        ensures command { IsTrue result → HasNames self.now → IsCommand self.now }
    {
        self.fields_fit() && self.is_small()
    }

    fn fields_fit(&self) -> bool
        ensures { IsTrue result ↔ FieldsFit self.now }
    {
        match self {
            Command::Order {
                key,
                targets,
                request,
                ..
            } => {
                key.len() <= MOST_COUNTED8
                    && targets.len() <= MOST_COUNTED8
                    && targets_fit(targets.as_slice())
                    && request.len() <= MOST_COUNTED16
            }
            Command::Challenge { key, target, .. } => {
                key.len() <= MOST_COUNTED8 && target_fits(target)
            }
            Command::Observe { key, seen, .. } => key.len() <= MOST_COUNTED8 && seen_fits(seen),
            Command::ObserveCaa {
                key,
                target,
                caa,
                ..
            } => { key.len() <= MOST_COUNTED8 && target_fits(target) && answers_fit(&caa.answers) }
            Command::Finalize { .. } => true,
            Command::Block { key, spki } => {
                key.len() <= MOST_COUNTED8 && spki.len() <= MOST_COUNTED16
            }
        }
    }

    /// Whether the entry is within its limit. Such fields of the other commands are far below it.
    fn is_small(&self) -> bool
        requires { FieldsFit self.now }
        ensures { IsTrue result ↔ (17 + (2 + 64) + given_length self.now ≤ most_bytes) }
    {
        match self {
            Command::Observe { key, seen, .. } => observed_len(key, seen) <= MOST_GIVEN,
            Command::ObserveCaa {
                key,
                target,
                caa,
                ..
            } => answered_len(key, target, caa) <= MOST_GIVEN,
            Command::Order { .. }
            | Command::Challenge { .. }
            | Command::Finalize { .. }
            | Command::Block { .. } => true,
        }
    }
}

#[tactic(auto, using(crate::proofs::Sizes::seen_size))]
fn observed_len(key: &Bytes, seen: &Seen) -> u64
    requires key { length key.now < 2 ^ 8 }
    requires seen { IsSeen seen.now }
    ensures { result ≡ observed_length key.now seen.now }
{
    17 + key.len() as u64 + seen.len()
}

#[tactic(auto, using(crate::proofs::Sizes::answers_size))]
fn answered_len(key: &Bytes, target: &Target, caa: &CaaSeen) -> u64
    requires key { length key.now < 2 ^ 8 }
    requires target { TargetFits target.now }
    requires answers { AreItems IsAnswer caa.now.answers }
    ensures { result ≡ answered_length key.now target.now caa.now }
{
    17 + key.len() as u64 + target_len(target) + list_len(caa.answers.as_slice())
}

fn targets_fit(targets: &[Target]) -> bool
    ensures { IsTrue result ↔ AllByRecursion TargetFits targets.now }
{
    targets.iter().all(|target| target_fits(target))
}

fn target_fits(target: &Target) -> bool
    ensures { IsTrue result ↔ TargetFits target.now }
{
    match target {
        Target::Dns(name) => text_fits(&name.labels),
        Target::Ip(_) => true,
    }
}

#[tactic(auto, using(crate::proofs::Names::labels_length))]
fn text_fits(labels: &Labels) -> bool
    ensures { IsTrue result ↔ (length (labels_text labels.now) < 2 ^ 8) }
{
    match labels.as_slice().split_first() {
        Some((first, others)) => {
            first.len() <= MOST_COUNTED8 && others_fit(others, MOST_COUNTED8 - first.len())
        }
        None => true,
    }
}

/// Whether labels, with a dot before each, take at most so many bytes.
fn others_fit(labels: &[Bytes], room: usize) -> bool
    ensures { IsTrue result ↔ (length (flat_map (λ next. 46 ∷ next) labels.now) ≤ room) }
{
    let mut left = room;
    let mut rest = labels;
    while let [label, after @ ..] = rest {
        if left <= label.len() {
            return false;
        }
        left -= label.len() + 1;
        rest = after;
    }
    true
}
