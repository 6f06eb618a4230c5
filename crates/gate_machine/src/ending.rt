//! What becomes of a draft.
ghost use Rattle.std.specs.Prelude.{◌≡◌, Option};
ghost use Rattle.gate_base.specs.declared.sixteen.Sixteen.{Sixteen as SixteenValue};
ghost use Rattle.gate_machine.specs.Answer.{IsReady, MayBe};
ghost use Rattle.gate_machine.specs.Ends.{Ends, EndsFull, IsDue, MayEnd, MaySend};
ghost use Rattle.gate_machine.specs.History.{journal_place, Follows};

use crate::answer::Answer;
use crate::draft::{Draft, Used};
use crate::sending::{masked, send_with};
use gate_entries::{Entry, Reply, entry_len};
use journal_core::{Journal, group_total};

/// The longest payload of a signature's entry, without its caller.
const MOST_SIGNED: u64 = 1_053;

/// The draft's answer, unless its drawn bytes stand in the history already, or the journal is full.
pub fn ended(history: &[Entry], journal: &Journal, draft: Draft) -> Answer
    requires place { journal.now.at ≡ journal_place history.now }
    requires due { IsDue history.now draft }
    ensures ends { Ends history.now draft result }
    ensures ready { IsReady history.now result }
    ensures may { (drawn : Option SixteenValue) → MayBe drawn draft.answer → MayBe drawn result }
{
    match draft.used {
        Used::Nothing => fitted(history, journal, draft.answer),
        Used::Serial(draw) => {
            if send_with(history, &masked(&draw).0).is_some() {
                return Answer::Say(Reply::EntropyRepeat { value: draw });
            }
            fitted(history, journal, draft.answer)
        }
    }
}

/// The answer, or that the journal has no room for what it writes.
fn fitted(history: &[Entry], journal: &Journal, answer: Answer) -> Answer
    requires place { journal.now.at ≡ journal_place history.now }
    requires may_end { MayEnd history.now answer }
    ensures ends { EndsFull history.now answer result }
    ensures ready { IsReady history.now result }
    ensures may { (drawn : Option SixteenValue) → MayBe drawn answer → MayBe drawn result }
{
    match answer {
        Answer::Say(reply) => Answer::Say(reply),
        Answer::Write(entry) => fitted_entry(history, journal, entry),
        Answer::Send(entry) => fitted_send(history, journal, entry),
        Answer::NeedDraw => Answer::NeedDraw,
    }
}

/// The entry, or that the journal has no room for it.
pub fn fitted_entry(history: &[Entry], journal: &Journal, entry: Entry) -> Answer
    requires place { journal.now.at ≡ journal_place history.now }
    requires follows { Follows history.now entry }
    ensures ends { EndsFull history.now (Answer.Write entry) result }
    ensures ready { IsReady history.now result }
    ensures may { (drawn : Option SixteenValue) → MayBe drawn result }
{
    if !journal.has_room(group_total(entry_len(&entry))) {
        return Answer::Say(Reply::Full);
    }
    Answer::Write(entry)
}

/// A body needs room for the longest signature too.
fn fitted_send(history: &[Entry], journal: &Journal, entry: Entry) -> Answer
    requires place { journal.now.at ≡ journal_place history.now }
    requires may_send { MaySend history.now entry }
    ensures ends { EndsFull history.now (Answer.Send entry) result }
    ensures ready { IsReady history.now result }
    ensures may { (drawn : Option SixteenValue) → MayBe drawn result }
{
    let signed = MOST_SIGNED + entry.caller.len() as u64;
    if !journal.has_room(group_total(entry_len(&entry)) + group_total(signed)) {
        return Answer::Say(Reply::Full);
    }
    Answer::Send(entry)
}
