//! The rules on the names and the days of an order.
ghost use Rattle.std.specs.Prelude.{◌≡◌, ◌≢◌, ◌<◌, ◌↔◌, false, IsTrue, IfOk};
ghost use Rattle.std.specs.List.{AllByRecursion};
ghost use Rattle.gate_machine.specs.Commands.Order.{AreDistinct, IsNoCommonName, HasBadCommonName, NamesBreak, IsAmong, IsSameSet};
ghost use Rattle.gate_machine.specs.Rules.{TellsLeast};

use gate_base::{NoMemory, Plain, Target};
use names_core::target_text;
use std::alloc::Global;

/// F02: there is no name, or more than 100.
const COUNT: u8 = 2;

/// F03: a name stands twice.
const TWICE: u8 = 3;

/// F04: the days are none, or more than 398.
const DAYS: u8 = 4;

/// F05: the first name is to be the common name, and it is an address or above 64 characters.
const COMMON_NAME: u8 = 5;

const MOST_NAMES: usize = 100;

const MOST_DAYS: u16 = 398;

const LONGEST_COMMON_NAME: usize = 64;

/// The least number of a rule that the names and the days of an order break.
pub fn broken_by_names(
    alloc: Global,
    common: bool,
    days: u16,
    targets: &[Target],
) -> Result<Option<u8>, NoMemory>
    ensures { IfOk result (TellsLeast (NamesBreak common days targets.now)) }
{
    if targets.is_empty() || targets.len() > MOST_NAMES {
        return Ok(Some(COUNT));
    }
    if !are_distinct(targets) {
        return Ok(Some(TWICE));
    }
    if days == 0 || days > MOST_DAYS {
        return Ok(Some(DAYS));
    }
    if has_bad_common_name(alloc, common, targets)? {
        return Ok(Some(COMMON_NAME));
    }
    Ok(None)
}

/// Whether no two targets are the same.
fn are_distinct(targets: &[Target]) -> bool
    ensures { IsTrue result ↔ AreDistinct targets.now }
{
    let mut rest = targets;
    while let [first, others @ ..] = rest {
        if is_among(first, others) {
            return false;
        }
        rest = others;
    }
    true
}

/// Whether a target is one of these.
pub fn is_among(target: &Target, targets: &[Target]) -> bool
    ensures among { IsTrue result ↔ IsAmong target.now targets.now }
    ensures none { AllByRecursion (λ other. other ≢ target.now) targets.now ↔ (result ≡ false) }
{
    let mut rest = targets;
    while let [other, others @ ..] = rest {
        if other.is_same(target) {
            return true;
        }
        rest = others;
    }
    false
}

/// Whether the first target is to be the common name and can't be.
fn has_bad_common_name(alloc: Global, common: bool, targets: &[Target]) -> Result<bool, NoMemory>
    ensures { IfOk result (λ bad. IsTrue bad ↔ HasBadCommonName common targets.now) }
{
    if !common {
        return Ok(false);
    }
    is_no_common_name(alloc, targets)
}

fn is_no_common_name(alloc: Global, targets: &[Target]) -> Result<bool, NoMemory>
    ensures { IfOk result (λ bad. IsTrue bad ↔ IsNoCommonName targets.now) }
{
    match targets {
        [] => Ok(false),
        [Target::Ip(_), ..] => Ok(true),
        [first, ..] => {
            let mut text = Vec::new(alloc);
            target_text(first, &mut text)?;
            Ok(text.len() > LONGEST_COMMON_NAME)
        }
    }
}

/// Whether the lists have the same targets, in any order.
pub fn is_same_set(targets: &[Target], others: &[Target]) -> bool
    ensures { IsTrue result ↔ IsSameSet targets.now others.now }
{
    are_among(targets, others) && are_among(others, targets)
}

/// Whether each target is one of the others.
fn are_among(targets: &[Target], others: &[Target]) -> bool
    ensures { IsTrue result ↔ AllByRecursion (λ target. IsAmong target others.now) targets.now }
{
    let mut rest = targets;
    while let [first, after @ ..] = rest {
        if !is_among(first, others) {
            return false;
        }
        rest = after;
    }
    true
}
