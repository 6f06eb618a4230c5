//! Orders.
ghost use Rattle.std.specs.Prelude.{◌≡◌, ◌↔◌, Option, IsTrue, IfOk};
ghost use Rattle.gate_base.specs.declared.sixteen.Sixteen.{Sixteen as SixteenValue};
ghost use Rattle.gate_entries.specs.Command.{IsCommand, IsCaller};
ghost use Rattle.gate_machine.specs.Answer.{MayBe};
ghost use Rattle.gate_machine.specs.Commands.Order as spec;
ghost use Rattle.gate_machine.specs.Commands.Order.{OrderBreaks, OrderComes, JudgesOrder};
ghost use Rattle.gate_machine.specs.Ends.{IsDue};
ghost use Rattle.gate_machine.specs.History.{IsNextPlace, Legal};
ghost use Rattle.gate_machine.specs.Rules.{TellsLeast};
ghost use Rattle.gate_machine.specs.Sight.{sight_of};

use crate::draft::{Draft, asked_entry, kept_draft, says, writes};
use crate::names::broken_by_names;
use crate::place::Place;
use crate::request::broken_by_request;
use crate::rules::{KEY, is_key};
use crate::sight::find_kept;
use gate_base::{Bytes, NoMemory, Targets};
use gate_entries::{Caller, Command, Entry, Reply};
use std::alloc::Global;

/// F06: the request is above 16,384 bytes.
const LONG_REQUEST: u8 = 6;

/// The most bytes of a request.
const MOST_REQUEST: usize = 16_384;

/// The least number of a rule that an order's fields break.
pub fn broken_by_order(
    alloc: Global,
    key: &Bytes,
    common: bool,
    days: u16,
    targets: &Targets,
    request: &Bytes,
) -> Result<Option<u8>, NoMemory>
    ensures { IfOk result (TellsLeast (OrderBreaks key.now common days targets.now request.now)) }
{
    if !is_key(key) {
        return Ok(Some(KEY));
    }
    let rule = broken_by_names(alloc, common, days, targets.as_slice())?;
    if rule.is_some() {
        return Ok(rule);
    }
    if request.len() > MOST_REQUEST {
        return Ok(Some(LONG_REQUEST));
    }
    broken_by_request(alloc, request.as_slice(), targets.as_slice())
}

/// The reply to an order that was placed.
pub fn placed(number: u64) -> Reply
    ensures { result ≡ spec.placed number }
{
    Reply::Placed { order: number }
}

/// The answer to an order.
pub fn judge_order(
    alloc: Global,
    history: &[Entry],
    caller: &Caller,
    place: &Place,
    command: &Command,
    key: &Bytes,
    targets: &Targets,
    days: u16,
    common: bool,
    request: &Bytes,
) -> Result<Draft, NoMemory>
    requires legal { Legal history.now }
    requires caller { IsCaller caller.now }
    requires next { IsNextPlace history.now place.now }
    requires command { IsCommand command.now }
    requires asked { command.now ≡ Command.Order key.now targets.now days common request.now }
    ensures judges { IfOk result (JudgesOrder (sight_of caller.now history.now) place.now caller.now key.now targets.now days common request.now) }
    ensures due { IfOk result (IsDue history.now) }
    ensures may { IfOk result (λ draft. (drawn : Option SixteenValue) → MayBe drawn draft.answer) }
{
    let entry = asked_entry(alloc, caller, place, command)?;
    if let Some(kept) = find_kept(history, &caller.id, key) {
        return Ok(kept_draft(command, kept, &entry, placed(kept.number)));
    }
    if let Some(rule) = broken_by_order(alloc, key, common, days, targets, request)? {
        return Ok(says(Reply::BadFields { rule }));
    }
    Ok(writes(entry))
}

/// Whether an order may come behind these entries.
pub fn order_comes(
    alloc: Global,
    before: &[Entry],
    caller: &Bytes,
    key: &Bytes,
    common: bool,
    days: u16,
    targets: &Targets,
    request: &Bytes,
) -> Result<bool, NoMemory>
    ensures { IfOk result (λ comes. IsTrue comes ↔ OrderComes before.now caller.now key.now common days targets.now request.now) }
{
    if before.is_empty() || find_kept(before, caller, key).is_some() {
        return Ok(false);
    }
    Ok(broken_by_order(alloc, key, common, days, targets, request)?.is_none())
}
