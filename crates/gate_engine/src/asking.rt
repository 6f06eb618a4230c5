//! How a command is asked.
ghost use Rattle.std.specs.Prelude.{◌≡◌, ◌≢◌, ℕ, ◌≤◌, ◌↔◌, ◌⊎◌, ◌++◌, None, OnOk, OnErr, Some, IfOk, IfErr, IsErrOf, IsTrue, IsFalse, option_to_list};
ghost use Rattle.std.specs.Option.{ForSome};
ghost use Rattle.plant.specs.Causes.{Rose};
ghost use Rattle.plant.specs.Joining.{Stays};
ghost use Rattle.gate_entries.specs.Command.{IsCommand, IsCaller};
ghost use Rattle.gate_machine.specs.History.{Follows, Legal};
ghost use Rattle.gate_base.specs.declared.sixteen.Sixteen.{Sixteen as SixteenValue};
ghost use Rattle.gate_machine.specs.Answer.{Answers, IsReady, MayBe};
ghost use Rattle.gate_machine.specs.Move.{IsSound, Settles, EndsRemount};
ghost use Rattle.gate_machine.specs.Step.{Step, IsRecorded};
ghost use Rattle.gate_machine.specs.Sends.{HasOneBodyEach};
ghost use Rattle.gate_machine.specs.Serials.{HasOneOrderEach};
ghost use Rattle.gate_engine.specs.Engine.{CarriesOut, ActsBy, AsksBy, GoesBy, IsOther, outside_of, state_of};
ghost use Rattle.gate_engine.specs.Gate.{Wrote};
ghost use Rattle.gate_engine.specs.Kept.{Stands, IsSentOf, KeepsLegal};

use crate::answered::Said;
use crate::engine::Engine;
use crate::fault::StartFault;
use crate::starting::open;
use gate_base::{NoMemory, Plain, Sixteen, are_same};
use gate_entries::{Caller, Command, Entry, Reply};
use gate_machine::{
    Answer, a_serial_number_has_one_order, an_order_has_one_body, answer_command, fronts_are_legal,
    one_entry_more, what_a_move_keeps, what_is_sent_is_recorded, what_steps_keep,
};
use journal_core::FIRST_GATE;
use plant::{Clock, Entropy, Plant, runs_join};

impl Engine {
    /// Answers one command. Where an entry is loose, since its commit failed, the journal is mounted again first.
    pub fn ask<P: Plant, C: Clock, E: Entropy>(
        &mut self,
        plant: &mut P,
        clock: &mut C,
        entropy: &mut E,
        caller: &Caller,
        command: &Command,
    ) -> Reply
        requires stands { Stands self.old (P.stops plant.old) }
        requires caller { IsCaller caller.now }
        requires command { IsCommand command.now }
        ensures step { Step (state_of self.old (P.told plant.old) (C.told clock.old) (E.told entropy.old)) caller.now command.now result
            (state_of self.new (P.told plant.new) (C.told clock.new) (E.told entropy.new)) }
        // At every moment since the start recovery finds a legal history that begins with the old one, or this and what was loose,
        // and in which each body that the signer was sent has an entry of its own, where it had one before.
        ensures stops { KeepsLegal (IsSentOf self.old.history (P.stops plant.old)) self.old self.new (P.stops plant.old) (P.stops plant.new) }
        ensures stands { Stands self.new (P.stops plant.new) }
        ensures kept { IsSentOf self.old.history (P.stops plant.old) → IsSentOf self.new.history (P.stops plant.new) }
        // A disk that tells its bytes is never told as another journal.
        ensures good { (at : ℕ) → result ≡ Reply.JournalBad at → (P.told plant.old).disk.bytes ≡ None }
        // Each body that the signer was sent has an entry of its own, in order, where it had before.
        ensures recorded { IsRecorded (P.told plant.old).signer self.old.history → IsRecorded (P.told plant.new).signer self.new.history }
        ensures legal { Legal self.new.history }
        // All bodies that were sent for an order are the same.
        ensures one_body { HasOneBodyEach self.new.history }
    {
        what_steps_keep();
        let said = self.ask_once(plant, clock, entropy, caller, command);
        self.keeps_a_legal_history();
        said.reply
    }

    /// A law of every engine: its history is legal, so all bodies that were sent for an order are the same, and no serial number was
    /// sent for two orders. It does nothing.
    pub fn keeps_a_legal_history(&self)
        ensures legal { Legal self.now.history }
        ensures one_body { HasOneBodyEach self.now.history }
        ensures one_order { HasOneOrderEach self.now.history }
        ensures sound { IsSound self.now }
    {
        let _ = &self.history;
        an_order_has_one_body();
        a_serial_number_has_one_order();
    }

    /// Answers one command, and counts the entries that it added.
    #[tactic(auto, using(crate::proofs::Steps::step_settled, crate::proofs::Steps::step_nowhere))]
    pub(crate) fn ask_once<P: Plant, C: Clock, E: Entropy>(
        &mut self,
        plant: &mut P,
        clock: &mut C,
        entropy: &mut E,
        caller: &Caller,
        command: &Command,
    ) -> Said
        requires stands { Stands self.old (P.stops plant.old) }
        requires caller { IsCaller caller.now }
        requires command { IsCommand command.now }
        ensures step { Step (state_of self.old (P.told plant.old) (C.told clock.old) (E.told entropy.old)) caller.now command.now result.reply
            (state_of self.new (P.told plant.new) (C.told clock.new) (E.told entropy.new)) }
        ensures stops { KeepsLegal (IsSentOf self.old.history (P.stops plant.old)) self.old self.new (P.stops plant.old) (P.stops plant.new) }
        ensures stands { Stands self.new (P.stops plant.new) }
        ensures kept { IsSentOf self.old.history (P.stops plant.old) → IsSentOf self.new.history (P.stops plant.new) }
        ensures good { (at : ℕ) → result.reply ≡ Reply.JournalBad at → (P.told plant.old).disk.bytes ≡ None }
        ensures wrote { Wrote self.old caller.now command.now result.reply self.new result.wrote }
    {
        self.keeps_a_legal_history();
        what_a_move_keeps();
        fronts_are_legal();
        one_entry_more();
        what_is_sent_is_recorded();
        runs_join::<P>();
        match self.settle(plant) {
            Ok(()) => {
                let before = self.count();
                let reply = self.ask_settled(plant, clock, entropy, caller, command);
                let wrote = self.count().saturating_sub(before);
                Said { reply, wrote }
            }
            Err(reply) => Said { reply, wrote: 0 },
        }
    }

    /// Mounts the journal again, where an entry is loose.
    fn settle<P: Plant>(&mut self, plant: &mut P) -> Result<(), Reply>
        requires { Stands self.old (P.stops plant.old) }
        ensures settled { OnOk result (self.new.loose ≡ None) }
        ensures settles { OnOk result (Settles self.old self.new.history) }
        ensures some { OnErr result (self.old.loose ≢ None) }
        ensures same { OnErr result (self.new ≡ self.old) }
        ensures ends { IfErr result EndsRemount }
        ensures good { IfErr result (λ reply. (at : ℕ) → reply ≡ Reply.JournalBad at → (P.told plant.old).disk.bytes ≡ None) }
        ensures disk { IsErrOf result Reply.DiskFault → Rose (P.told plant.old).disk.faults (P.told plant.new).disk.faults }
        ensures stands { Stands self.new (P.stops plant.new) }
        ensures kept { IsSentOf self.old.history (P.stops plant.old) → IsSentOf self.new.history (P.stops plant.new) }
        ensures stays { Stays (P.stops plant.old) (P.stops plant.new) }
        ensures signer { (P.told plant.new).signer ≡ (P.told plant.old).signer }
        ensures later { (P.told plant.old).disk.faults ≤ (P.told plant.new).disk.faults }
    {
        runs_join::<P>();
        if self.is_settled() {
            return Ok(());
        }
        self.remount(plant)
    }

    fn is_settled(&self) -> bool
        ensures { IsTrue result ↔ (self.now.loose ≡ None) }
    {
        self.loose.is_none()
    }

    /// Takes up the journal that the disk holds, where it is the history's, or the history's with the loose entry.
    fn remount<P: Plant>(&mut self, plant: &mut P) -> Result<(), Reply>
        requires loose { self.old.loose ≢ None }
        requires stands { Stands self.old (P.stops plant.old) }
        ensures settled { OnOk result (self.new.loose ≡ None) }
        ensures settles { OnOk result (Settles self.old self.new.history) }
        ensures same { OnErr result (self.new ≡ self.old) }
        ensures ends { IfErr result EndsRemount }
        ensures good { IfErr result (λ reply. (at : ℕ) → reply ≡ Reply.JournalBad at → (P.told plant.old).disk.bytes ≡ None) }
        ensures disk { IsErrOf result Reply.DiskFault → Rose (P.told plant.old).disk.faults (P.told plant.new).disk.faults }
        ensures stands { Stands self.new (P.stops plant.new) }
        ensures kept { IsSentOf self.old.history (P.stops plant.old) → IsSentOf self.new.history (P.stops plant.new) }
        ensures stays { Stays (P.stops plant.old) (P.stops plant.new) }
        ensures signer { (P.told plant.new).signer ≡ (P.told plant.old).signer }
        ensures later { (P.told plant.old).disk.faults ≤ (P.told plant.new).disk.faults }
    {
        self.keeps_a_legal_history();
        runs_join::<P>();
        match open(self.alloc, plant) {
            Ok(found) => {
                if !self.may_become(&found) {
                    return Err(Reply::JournalBad { at: FIRST_GATE });
                }
                *self = found;
                Ok(())
            }
            Err(StartFault::Disk) => Err(Reply::DiskFault),
            Err(StartFault::NotBegun) => Err(Reply::JournalBad { at: 0 }),
            Err(StartFault::JournalBad { at }) => Err(Reply::JournalBad { at }),
            Err(StartFault::NoMemory) => Err(Reply::NoMemory),
            Err(StartFault::Clock) => unreachable!(),
            Err(StartFault::ClockRange { .. }) => unreachable!(),
            Err(StartFault::Full) => unreachable!(),
        }
    }

    /// Whether another engine has this history, or this one with the loose entry behind it.
    fn may_become(&self, found: &Engine) -> bool
        ensures same { IsTrue result → Settles self.now found.now.history }
        ensures other { IsFalse result → IsOther self.now found.now.history }
    {
        comes_from(&self.history, &self.loose, &found.history)
    }

    /// Answers a command with nothing loose.
    #[tactic(auto, using(crate::proofs::Steps::goes_denied, crate::proofs::Steps::goes_allowed))]
    fn ask_settled<P: Plant, C: Clock, E: Entropy>(
        &mut self,
        plant: &mut P,
        clock: &mut C,
        entropy: &mut E,
        caller: &Caller,
        command: &Command,
    ) -> Reply
        requires settled { self.old.loose ≡ None }
        requires stands { Stands self.old (P.stops plant.old) }
        requires caller { IsCaller caller.now }
        requires command { IsCommand command.now }
        ensures goes { GoesBy self.old.history caller.now command.now (P.told plant.old) (P.told plant.new) (P.stops plant.old) (P.stops plant.new) (outside_of (P.told plant.old) (C.told clock.old) (E.told entropy.old))
            (outside_of (P.told plant.new) (C.told clock.new) (E.told entropy.new)) result self.new }
    {
        runs_join::<P>();
        if !command.allowed(caller.role) {
            return Reply::RoleDenied;
        }
        self.ask_allowed(plant, clock, entropy, caller, command)
    }

    /// Answers a command that the caller's role has.
    #[tactic(auto, using(crate::proofs::Steps::asks_read, crate::proofs::Steps::asks_unread))]
    fn ask_allowed<P: Plant, C: Clock, E: Entropy>(
        &mut self,
        plant: &mut P,
        clock: &mut C,
        entropy: &mut E,
        caller: &Caller,
        command: &Command,
    ) -> Reply
        requires settled { self.old.loose ≡ None }
        requires stands { Stands self.old (P.stops plant.old) }
        requires caller { IsCaller caller.now }
        requires command { IsCommand command.now }
        ensures asks { AsksBy self.old.history caller.now command.now (P.told plant.old) (P.told plant.new) (P.stops plant.old) (P.stops plant.new) (outside_of (P.told plant.old) (C.told clock.old) (E.told entropy.old))
            (outside_of (P.told plant.new) (C.told clock.new) (E.told entropy.new)) result self.new }
    {
        runs_join::<P>();
        match clock.now() {
            Ok(reading) => self.act(plant, entropy, caller, command, reading),
            Err(_) => Reply::ClockFault,
        }
    }

    /// Does what is answered over a reading.
    #[tactic(auto, using(crate::proofs::Steps::acts_undrawn, crate::proofs::Steps::acts_memory, crate::proofs::Steps::may_none))]
    fn act<P: Plant, E: Entropy>(
        &mut self,
        plant: &mut P,
        entropy: &mut E,
        caller: &Caller,
        command: &Command,
        reading: u64,
    ) -> Reply
        requires settled { self.old.loose ≡ None }
        requires stands { Stands self.old (P.stops plant.old) }
        requires caller { IsCaller caller.now }
        requires command { IsCommand command.now }
        ensures acts { ActsBy self.old.history caller.now command.now reading (P.told plant.old) (P.told plant.new) (P.stops plant.old) (P.stops plant.new) (E.told entropy.old) (E.told entropy.new)
            result self.new }
    {
        runs_join::<P>();
        match self.answer(caller, command, reading, None) {
            Ok(Answer::NeedDraw) => self.act_drawn(plant, entropy, caller, command, reading),
            Ok(answer) => self.carry_out(plant, answer),
            Err(NoMemory) => Reply::NoMemory,
        }
    }

    /// Draws bytes, and does what is answered with them.
    #[tactic(auto, using(crate::proofs::Steps::acts_drawn, crate::proofs::Steps::acts_no_draw, crate::proofs::Steps::acts_drawn_memory, crate::proofs::Steps::may_some))]
    fn act_drawn<P: Plant, E: Entropy>(
        &mut self,
        plant: &mut P,
        entropy: &mut E,
        caller: &Caller,
        command: &Command,
        reading: u64,
    ) -> Reply
        requires settled { self.old.loose ≡ None }
        requires stands { Stands self.old (P.stops plant.old) }
        requires caller { IsCaller caller.now }
        requires command { IsCommand command.now }
        requires needs { Answers self.old.history caller.now command.now reading None Answer.NeedDraw }
        ensures acts { ActsBy self.old.history caller.now command.now reading (P.told plant.old) (P.told plant.new) (P.stops plant.old) (P.stops plant.new) (E.told entropy.old) (E.told entropy.new)
            result self.new }
    {
        runs_join::<P>();
        let Ok(draw) = entropy.draw16() else {
            return Reply::EntropyFault;
        };
        match self.answer(caller, command, reading, Some(draw)) {
            Ok(answer) => self.carry_out(plant, answer),
            Err(NoMemory) => Reply::NoMemory,
        }
    }

    fn answer(
        &self,
        caller: &Caller,
        command: &Command,
        reading: u64,
        drawn: Option<Sixteen>,
    ) -> Result<Answer, NoMemory>
        requires caller { IsCaller caller.now }
        requires command { IsCommand command.now }
        ensures answers { IfOk result (Answers self.now.history caller.now command.now reading drawn) }
        ensures ready { IfOk result (IsReady self.now.history) }
        ensures may { IfOk result (MayBe drawn) }
    {
        answer_command(
            self.alloc,
            &self.history,
            &self.journal,
            caller,
            command,
            reading,
            drawn,
        )
    }

    /// Says a reply, writes an entry, or sends a body.
    fn carry_out<P: Plant>(&mut self, plant: &mut P, answer: Answer) -> Reply
        requires settled { self.old.loose ≡ None }
        requires stands { Stands self.old (P.stops plant.old) }
        requires ready { IsReady self.old.history answer }
        requires may { (draw : SixteenValue) → MayBe (Some draw) answer }
        ensures carries { CarriesOut answer self.old.history (P.told plant.old) (P.told plant.new) (P.stops plant.old) (P.stops plant.new) result self.new }
    {
        runs_join::<P>();
        match answer {
            Answer::Say(reply) => reply,
            Answer::Write(entry) => self.write(plant, entry),
            Answer::Send(entry) => self.send(plant, entry),
            Answer::NeedDraw => unreachable!(),
        }
    }
}

/// Whether a history is this one, or this one with the loose entry behind it.
fn comes_from(history: &[Entry], loose: &Option<Entry>, found: &[Entry]) -> bool
    ensures { IsTrue result ↔ (found.now ≡ history.now) ⊎ (found.now ≡ history.now ++ option_to_list loose.now) }
{
    if are_same(found, history) {
        return true;
    }
    match (loose, found.split_last()) {
        (Some(entry), Some((last, front))) => are_same(front, history) && last.is_same(entry),
        _ => false,
    }
}
