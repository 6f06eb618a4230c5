ghost use Rattle.std.specs.Prelude.{◌≡◌, ◌≢◌, ◌↔◌, true, IsTrue, IfOk};
ghost use Rattle.gate_entries.specs.Command.{may_ask, IsCommand, IsCaller};
ghost use Rattle.gate_machine.specs.Answer.{Answers, Judges, IsReady, MayBe, IsInRange, reply_of};
ghost use Rattle.gate_machine.specs.Ends.{IsDue};
ghost use Rattle.gate_machine.specs.History.{IsNextPlace, journal_place, Legal};
ghost use Rattle.gate_machine.specs.Sight.{sight_of};

use crate::commands::block::{blocked, judge_block};
use crate::commands::finalize::judge_finalize;
use crate::commands::order::{judge_order, placed};
use crate::draft::{Draft, says};
use crate::ending::ended;
use crate::place::{FIRST_MOMENT, LAST_MOMENT, Place, place_of};
use gate_base::{NoMemory, Sixteen};
use gate_entries::{Caller, Command, Entry, Reply, What};
use journal_core::Journal;
use std::alloc::Global;

/// What a command is answered: a reply to say, an entry to write, the entry of a body to send, or that bytes must be drawn.
#[derive(Debug, Drop)]
pub enum Answer {
    Say(Reply),
    Write(Entry),
    Send(Entry),
    NeedDraw,
}

/// The answer over a history whose journal this is.
pub fn answer_command(
    alloc: Global,
    history: &[Entry],
    journal: &Journal,
    caller: &Caller,
    command: &Command,
    reading: u64,
    drawn: Option<Sixteen>,
) -> Result<Answer, NoMemory>
    requires legal { Legal history.now }
    requires place { journal.now.at ≡ journal_place history.now }
    requires caller { IsCaller caller.now }
    requires command { IsCommand command.now }
    ensures answers { IfOk result (Answers history.now caller.now command.now reading drawn) }
    ensures ready { IfOk result (IsReady history.now) }
    ensures may { IfOk result (MayBe drawn) }
{
    if !command.allowed(caller.role) {
        return Ok(Answer::Say(Reply::RoleDenied));
    }
    if !is_in_range(reading) {
        return Ok(Answer::Say(Reply::ClockRange { reading }));
    }
    let place = place_of(history, reading);
    let draft = judge(alloc, history, caller, &place, command, drawn)?;
    Ok(ended(history, journal, draft))
}

fn is_in_range(reading: u64) -> bool
    ensures { IsTrue result ↔ IsInRange reading }
{
    FIRST_MOMENT <= reading && reading <= LAST_MOMENT
}

/// What the command is answered by what its caller sees.
fn judge(
    alloc: Global,
    history: &[Entry],
    caller: &Caller,
    place: &Place,
    command: &Command,
    drawn: Option<Sixteen>,
) -> Result<Draft, NoMemory>
    requires legal { Legal history.now }
    requires caller { IsCaller caller.now }
    requires next { IsNextPlace history.now place.now }
    requires command { IsCommand command.now }
    requires role { may_ask caller.now.role command.now ≡ true }
    ensures judges { IfOk result (Judges (sight_of caller.now history.now) place.now caller.now command.now drawn) }
    ensures due { IfOk result (IsDue history.now) }
    ensures may { IfOk result (λ draft. MayBe drawn draft.answer) }
{
    match command {
        Command::Order {
            key,
            targets,
            days,
            common,
            request,
        } => judge_order(
            alloc, history, caller, place, command, key, targets, *days, *common, request,
        ),
        // Challenges, observations and CAA answers are denied to every role as yet.
        Command::Challenge { .. } | Command::Observe { .. } | Command::ObserveCaa { .. } => {
            Ok(says(Reply::RoleDenied))
        }
        Command::Finalize { order } => {
            judge_finalize(alloc, history, caller, place, *order, drawn)
        }
        Command::Block { key, spki } => {
            judge_block(alloc, history, caller, place, command, key, spki)
        }
    }
}

/// The reply to what was written under a key.
pub fn written_reply(entry: &Entry) -> Reply
    ensures reply { result ≡ reply_of entry.now }
    ensures may { result ≢ Reply.DiskFault }
{
    let number = entry.number;
    match &entry.what {
        What::Blocked { .. } => blocked(number),
        What::Settings { .. }
        | What::Order { .. }
        | What::Challenge { .. }
        | What::Observation { .. }
        | What::CaaAnswer { .. }
        | What::Send { .. }
        | What::Signed { .. } => placed(number),
    }
}
