//! Answers for CAA records.
ghost use Rattle.std.specs.Prelude.{◌≡◌, ◌↔◌, IsTrue};
ghost use Rattle.std.specs.Option.{option_copied};
ghost use Rattle.gate_machine.specs.Commands.ObserveCaa as spec;
ghost use Rattle.gate_machine.specs.Commands.ObserveCaa.{IsNameOf, CaaBreaks, CaaComes};
ghost use Rattle.gate_machine.specs.Rules.{TellsLeast};

use crate::names::is_among;
use crate::rules::{KEY, is_key, is_timely};
use crate::sending::{is_order, targets_of};
use crate::sight::is_new_key;
use gate_base::{Bytes, Moment, Target};
use gate_entries::Entry;

/// F15: the target is no name of the order.
const NO_NAME: u8 = 15;

fn is_order_at(entry: &Entry, number: u64) -> bool
    ensures { result ≡ spec.is_order_at number entry.now }
{
    entry.number == number && is_order(&entry.what)
}

/// The order with this number, of any account.
pub fn order_at(history: &[Entry], number: u64) -> Option<&Entry>
    ensures { option_copied result ≡ spec.order_at number history.now }
{
    history.iter().find(|entry| is_order_at(entry, number))
}

/// Whether the target is a name, and one of these.
fn is_name_of(targets: &[Target], target: &Target) -> bool
    ensures { IsTrue result ↔ IsNameOf targets.now target.now }
{
    match target {
        Target::Dns(_) => is_among(target, targets),
        Target::Ip(_) => false,
    }
}

/// The least number of a rule that the fields break.
pub fn broken_by_caa(key: &Bytes, target: &Target, targets: &[Target]) -> Option<u8>
    ensures { TellsLeast (CaaBreaks key.now target.now targets.now) result }
{
    if !is_key(key) {
        return Some(KEY);
    }
    if !is_name_of(targets, target) {
        return Some(NO_NAME);
    }
    None
}

/// Whether answers for CAA records may come behind these entries.
pub fn caa_comes(
    before: &[Entry],
    caller: &Bytes,
    moment: Moment,
    key: &Bytes,
    number: u64,
    target: &Target,
    seen_at: u64,
) -> bool
    ensures { IsTrue result ↔ CaaComes before.now caller.now moment key.now number target.now seen_at }
{
    let Some(order) = order_at(before, number) else {
        return false;
    };
    if !is_new_key(before, caller, key) || !is_timely(seen_at, moment) {
        return false;
    }
    broken_by_caa(key, target, targets_of(&order.what)).is_none()
}
