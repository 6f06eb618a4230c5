//! How settings come into force behind a history that other settings are in force in.
ghost use Rattle.std.specs.Prelude.{◌≡◌, ◌≢◌, None, IfSome, IfNone, OnOk, IfErr, IsErrOf};
ghost use Rattle.plant.specs.Causes.{Rose};
ghost use Rattle.gate_settings.specs.Meaning.{IsReadable};
ghost use Rattle.gate_entries.specs.declared.entry.Entry.{Entry as EntryValue};
ghost use Rattle.gate_machine.specs.Answer.{IsInRange};
ghost use Rattle.gate_machine.specs.Commands.Settings.{AreInForce};
ghost use Rattle.gate_machine.specs.Move.{Extends};
ghost use Rattle.gate_engine.specs.Kept.{Stands, IsSentOf, Keeps};
ghost use Rattle.gate_engine.specs.Start.{Starts, Renewed, RenewedAt, Fails, Unrenewed, UnrenewedAt, KeepsDisk};

use crate::engine::Engine;
use crate::fault::{AddFault, StartFault};
use gate_base::NoMemory;
use gate_entries::Entry;
use gate_machine::{Answer, are_in_force, renewal};
use plant::{Clock, ClockFault, Plant, runs_join};

/// The first moment that a clock may give, 2025-09-15T00:00:00Z, and the last one, 2099-12-31T23:59:59Z.
const FIRST_MOMENT: u64 = 1_757_894_400;

const LAST_MOMENT: u64 = 4_102_444_799;

impl Engine {
    /// Lets settings come into force, where others are.
    pub(crate) fn renew<P: Plant, C: Clock>(
        &mut self,
        plant: &mut P,
        clock: &mut C,
        settings: &[u8],
    ) -> Result<(), StartFault>
        requires settled { self.old.loose ≡ None }
        requires stands { Stands self.old (P.stops plant.old) }
        requires readable { IsReadable settings.now }
        ensures starts { OnOk result (Starts settings.now self.old.history (P.told plant.old) (P.told plant.new) (P.stops plant.old) (P.stops plant.new)
            (C.told clock.old) (C.told clock.new) self.new) }
        ensures refused { IfErr result (λ fault. Unrenewed settings.now self.old.history (C.told clock.old) (C.told clock.new) fault self.new) }
        ensures same { IfErr result (λ fault. fault ≢ StartFault.Disk → KeepsDisk (P.told plant.old) (P.told plant.new) (P.stops plant.old) (P.stops plant.new)) }
        ensures keeps { Keeps (IsSentOf self.old.history (P.stops plant.old)) self.old.history (P.told plant.old) (P.told plant.new) (P.stops plant.old) (P.stops plant.new) self.new }
        ensures extends { Extends self.old.history self.new.history }
        ensures disk { IsErrOf result StartFault.Disk → Rose (P.told plant.old).disk.faults (P.told plant.new).disk.faults }
        ensures signer { (P.told plant.new).signer ≡ (P.told plant.old).signer }
    {
        runs_join::<P>();
        if are_in_force(&self.history, settings) {
            return Ok(());
        }
        self.renew_other(plant, clock, settings)
    }

    /// Reads the clock, and adds the entry of settings that aren't in force.
    fn renew_other<P: Plant, C: Clock>(
        &mut self,
        plant: &mut P,
        clock: &mut C,
        settings: &[u8],
    ) -> Result<(), StartFault>
        requires settled { self.old.loose ≡ None }
        requires stands { Stands self.old (P.stops plant.old) }
        requires readable { IsReadable settings.now }
        requires other { ¬ (AreInForce settings.now self.old.history) }
        ensures renewed { OnOk result (Renewed settings.now self.old.history (C.told clock.old) (C.told clock.new) self.new) }
        ensures fails { IfErr result (λ fault. Fails settings.now self.old.history (C.told clock.old) (C.told clock.new) fault self.new) }
        ensures same { IfErr result (λ fault. fault ≢ StartFault.Disk → KeepsDisk (P.told plant.old) (P.told plant.new) (P.stops plant.old) (P.stops plant.new)) }
        ensures keeps { Keeps (IsSentOf self.old.history (P.stops plant.old)) self.old.history (P.told plant.old) (P.told plant.new) (P.stops plant.old) (P.stops plant.new) self.new }
        ensures extends { Extends self.old.history self.new.history }
        ensures disk { IsErrOf result StartFault.Disk → Rose (P.told plant.old).disk.faults (P.told plant.new).disk.faults }
        ensures signer { (P.told plant.new).signer ≡ (P.told plant.old).signer }
    {
        runs_join::<P>();
        let reading = match clock.now() {
            Ok(reading) => reading,
            Err(ClockFault) => return Err(StartFault::Clock),
        };
        if reading < FIRST_MOMENT || LAST_MOMENT < reading {
            return Err(StartFault::ClockRange { reading });
        }
        self.renew_at(plant, reading, settings)
    }

    /// Adds the entry of settings that aren't in force, over a reading of the clock.
    fn renew_at<P: Plant>(
        &mut self,
        plant: &mut P,
        reading: u64,
        settings: &[u8],
    ) -> Result<(), StartFault>
        requires settled { self.old.loose ≡ None }
        requires stands { Stands self.old (P.stops plant.old) }
        requires in_range { IsInRange reading }
        requires readable { IsReadable settings.now }
        requires other { ¬ (AreInForce settings.now self.old.history) }
        ensures renewed { OnOk result (RenewedAt settings.now self.old.history reading self.new) }
        ensures fails { IfErr result (λ fault. UnrenewedAt settings.now self.old.history reading fault self.new) }
        ensures same { IfErr result (λ fault. fault ≢ StartFault.Disk → KeepsDisk (P.told plant.old) (P.told plant.new) (P.stops plant.old) (P.stops plant.new)) }
        ensures keeps { Keeps (IsSentOf self.old.history (P.stops plant.old)) self.old.history (P.told plant.old) (P.told plant.new) (P.stops plant.old) (P.stops plant.new) self.new }
        ensures extends { Extends self.old.history self.new.history }
        ensures disk { IsErrOf result StartFault.Disk → Rose (P.told plant.old).disk.faults (P.told plant.new).disk.faults }
        ensures signer { (P.told plant.new).signer ≡ (P.told plant.old).signer }
    {
        runs_join::<P>();
        let answer = match renewal(self.alloc, &self.history, &self.journal, reading, settings) {
            Ok(answer) => answer,
            Err(NoMemory) => return Err(StartFault::NoMemory),
        };
        match entry_to_write(answer) {
            Some(entry) => match self.add(plant, entry) {
                Ok(()) => Ok(()),
                Err(AddFault::Disk) => Err(StartFault::Disk),
                Err(AddFault::NoMemory) => Err(StartFault::NoMemory),
            },
            None => Err(StartFault::Full),
        }
    }
}

/// The entry that an answer writes, if it writes one.
fn entry_to_write(answer: Answer) -> Option<Entry>
    ensures writes { IfSome result (λ entry. answer ≡ Answer.Write entry) }
    ensures other { IfNone result ((entry : EntryValue) → answer ≢ Answer.Write entry) }
{
    match answer {
        Answer::Write(entry) => Some(entry),
        Answer::Say(_) => None,
        Answer::Send(_) => None,
        Answer::NeedDraw => None,
    }
}
