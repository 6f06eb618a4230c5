//! Keys that an operator blocks.
ghost use Rattle.std.specs.Prelude.{◌≡◌, ◌↔◌, Option, IsTrue, IfOk};
ghost use Rattle.gate_base.specs.declared.sixteen.Sixteen.{Sixteen as SixteenValue};
ghost use Rattle.gate_entries.specs.Command.{IsCommand, IsCaller};
ghost use Rattle.gate_machine.specs.Answer.{MayBe};
ghost use Rattle.gate_machine.specs.Commands.Block as spec;
ghost use Rattle.gate_machine.specs.Commands.Block.{BlockBreaks, BlockComes, JudgesBlock};
ghost use Rattle.gate_machine.specs.Ends.{IsDue};
ghost use Rattle.gate_machine.specs.History.{IsNextPlace, Legal};
ghost use Rattle.gate_machine.specs.Rules.{TellsLeast};
ghost use Rattle.gate_machine.specs.Sight.{sight_of};

use crate::draft::{Draft, asked_entry, kept_draft, says, writes};
use crate::place::Place;
use crate::rules::{KEY, is_key};
use crate::sight::find_kept;
use gate_base::{Bytes, NoMemory};
use gate_entries::{Caller, Command, Entry, Reply};
use std::alloc::Global;

/// F17: the key that is blocked is empty.
const EMPTY_KEY: u8 = 17;

/// The least number of a rule that the fields break.
pub fn broken_by_block(key: &Bytes, spki: &Bytes) -> Option<u8>
    ensures { TellsLeast (BlockBreaks key.now spki.now) result }
{
    if !is_key(key) {
        return Some(KEY);
    }
    if spki.is_empty() {
        return Some(EMPTY_KEY);
    }
    None
}

/// The reply to a key that was blocked.
pub fn blocked(number: u64) -> Reply
    ensures { result ≡ spec.blocked number }
{
    Reply::Blocked { number }
}

/// The answer to a command that blocks a key.
pub fn judge_block(
    alloc: Global,
    history: &[Entry],
    caller: &Caller,
    place: &Place,
    command: &Command,
    key: &Bytes,
    spki: &Bytes,
) -> Result<Draft, NoMemory>
    requires legal { Legal history.now }
    requires caller { IsCaller caller.now }
    requires next { IsNextPlace history.now place.now }
    requires command { IsCommand command.now }
    requires asked { command.now ≡ Command.Block key.now spki.now }
    ensures judges { IfOk result (JudgesBlock (sight_of caller.now history.now) place.now caller.now key.now spki.now) }
    ensures due { IfOk result (IsDue history.now) }
    ensures may { IfOk result (λ draft. (drawn : Option SixteenValue) → MayBe drawn draft.answer) }
{
    let entry = asked_entry(alloc, caller, place, command)?;
    if let Some(kept) = find_kept(history, &caller.id, key) {
        return Ok(kept_draft(command, kept, &entry, blocked(kept.number)));
    }
    if let Some(rule) = broken_by_block(key, spki) {
        return Ok(says(Reply::BadFields { rule }));
    }
    Ok(writes(entry))
}

/// Whether a blocked key may come behind these entries.
pub fn block_comes(before: &[Entry], caller: &Bytes, key: &Bytes, spki: &Bytes) -> bool
    ensures { IsTrue result ↔ BlockComes before.now caller.now key.now spki.now }
{
    if before.is_empty() || find_kept(before, caller, key).is_some() {
        return false;
    }
    broken_by_block(key, spki).is_none()
}
