ghost use Rattle.std.specs.Prelude.{◌≡◌, ◌+◌, ◌↔◌, [], length, IsTrue, IfOk};
ghost use Rattle.gate_entries.specs.Spelling.{IsWhat, IsEntry};
ghost use Rattle.gate_machine.specs.History.{MeetsRow, Follows, IsInOrder, EachFollows};

use crate::commands::block::block_comes;
use crate::commands::finalize::{comes_signed, comes_to_signer};
use crate::commands::observe::observation_comes;
use crate::commands::observe_caa::caa_comes;
use crate::commands::order::order_comes;
use crate::commands::settings::settings_come;
use crate::place::{FIRST_MOMENT, LAST_MOMENT, last_moment};
use gate_base::{Bytes, Moment, NoMemory};
use gate_entries::{Entry, What};
use std::alloc::Global;

/// Whether an entry may come behind these.
pub fn follows(alloc: Global, before: &[Entry], entry: &Entry) -> Result<bool, NoMemory>
    requires spelled { IsEntry entry.now }
    requires each { EachFollows [] before.now }
    ensures { IfOk result (λ follows. IsTrue follows ↔ Follows before.now entry.now) }
{
    if !is_in_order(before, entry) {
        return Ok(false);
    }
    meets_row(alloc, before, &entry.caller, entry.moment, &entry.what)
}

/// Whether an entry's number and moment are right.
fn is_in_order(before: &[Entry], entry: &Entry) -> bool
    ensures { IsTrue result ↔ IsInOrder before.now entry.now }
{
    let moment = entry.moment.0;
    is_next(before, entry.number)
        && last_moment(before) <= moment
        && FIRST_MOMENT <= moment
        && moment <= LAST_MOMENT
}

fn is_next(before: &[Entry], number: u64) -> bool
    ensures { IsTrue result ↔ (number ≡ length before.now + 1) }
{
    number.checked_sub(1) == Some(before.len() as u64)
}

fn meets_row(
    alloc: Global,
    before: &[Entry],
    caller: &Bytes,
    moment: Moment,
    what: &What,
) -> Result<bool, NoMemory>
    requires each { EachFollows [] before.now }
    requires spelled { IsWhat what.now }
    ensures { IfOk result (λ meets. IsTrue meets ↔ MeetsRow before.now caller.now moment what.now) }
{
    match what {
        What::Settings { bytes } => settings_come(alloc, before, caller, bytes),
        What::Order {
            key,
            common,
            days,
            targets,
            request,
        } => order_comes(alloc, before, caller, key, *common, *days, targets, request),
        // Challenges have no place in a history as yet.
        What::Challenge { .. } => Ok(false),
        What::Observation {
            key,
            challenge,
            seen_at,
            ..
        } => Ok(observation_comes(before, caller, moment, key, *challenge, *seen_at)),
        What::CaaAnswer {
            key,
            order,
            target,
            seen_at,
            ..
        } => Ok(caa_comes(before, caller, moment, key, *order, target, *seen_at)),
        What::Send { order, body } => comes_to_signer(alloc, before, caller, *order, body),
        What::Signed { order, signature } => {
            Ok(comes_signed(before, caller, moment, *order, signature))
        }
        What::Blocked { key, spki } => Ok(block_comes(before, caller, key, spki)),
    }
}
