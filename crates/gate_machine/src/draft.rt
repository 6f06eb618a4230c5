//! What a command is answered by its caller's sight alone.
ghost use Rattle.std.specs.Prelude.{◌≡◌, ◌≢◌, Some, Option, IfOk};
ghost use Rattle.gate_entries.specs.Spelling.{IsEntry};
ghost use Rattle.gate_entries.specs.Command.{what_of, entry_for, IsCommand, IsCaller};
ghost use Rattle.gate_machine.specs.Asked.{asked_in};
ghost use Rattle.gate_machine.specs.Cases.{Is, Test};
ghost use Rattle.gate_machine.specs.Draft as spec;

use crate::answer::Answer;
use crate::place::Place;
use gate_base::{NoMemory, Plain, Sixteen};
use gate_entries::{Caller, Command, Entry, Reply};
use std::alloc::Global;

/// What drawn bytes are used for.
#[derive(Debug, Drop)]
pub enum Used {
    /// None were drawn, or none are used.
    Nothing,
    /// They make a body's serial number.
    Serial(Sixteen),
}

/// An answer that stands unless its drawn bytes stand in the history already, or the journal is full.
#[derive(Debug, Drop)]
pub struct Draft {
    pub used: Used,
    pub answer: Answer,
}

pub fn says(reply: Reply) -> Draft
    ensures { result ≡ spec.says reply }
{
    Draft {
        used: Used::Nothing,
        answer: Answer::Say(reply),
    }
}

pub fn writes(entry: Entry) -> Draft
    ensures { result ≡ spec.writes entry }
{
    Draft {
        used: Used::Nothing,
        answer: Answer::Write(entry),
    }
}

/// The entry of a command that says all of it.
pub fn asked_entry(
    alloc: Global,
    caller: &Caller,
    place: &Place,
    command: &Command,
) -> Result<Entry, NoMemory>
    requires caller { IsCaller caller.now }
    requires command { IsCommand command.now }
    requires all { what_of command.now ≢ Option.None }
    ensures entry { IfOk result (λ entry. entry_for place.now.number place.now.moment caller.now command.now ≡ Some entry) }
    ensures spelled { IfOk result IsEntry }
{
    match command.entry(alloc, place.number, place.moment, caller)? {
        Some(entry) => Ok(entry),
        None => unreachable!(),
    }
}

/// The reply under a key that stands: the kept one where the entry keeps the same command, whose own entry is this.
pub fn kept_draft(command: &Command, kept: &Entry, entry: &Entry, reply: Reply) -> Draft
    requires entry { what_of command.now ≡ Some entry.now.what }
    ensures { Test (asked_in kept.now.what ≡ Some command.now) (Is (spec.says reply)) (Is (spec.says (Reply.KeyReused kept.now.number))) result }
{
    if kept.what.is_same(&entry.what) {
        says(reply)
    } else {
        says(Reply::KeyReused { kept: kept.number })
    }
}
