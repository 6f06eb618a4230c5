//! How an entry is committed.
ghost use Rattle.std.specs.Prelude.{◌≡◌, ◌+◌, ◌≤◌, ◌<◌, ◌⊎◌, None, [], ◌∷◌, ◌++◌, length, vec_len, vec_capacity, IfOk, OnOk, IsErrOf, IsTrue, IsFalse};
ghost use Rattle.plant.specs.Causes.{Rose};
ghost use Rattle.gate_entries.specs.Spelling.{entry_bytes, IsEntry};
ghost use Rattle.gate_machine.specs.History.{Follows};
ghost use Rattle.gate_machine.specs.Answer.{HasRoom, IsReadyToWrite};
ghost use Rattle.gate_machine.specs.Move.{Holds, Waits};
ghost use Rattle.gate_engine.specs.Engine.{CarriesOut, Sound, held_as};
ghost use Rattle.gate_engine.specs.Kept.{Stands, IsSentOf, Keeps};
ghost use Rattle.gate_engine.specs.Start.{KeepsDisk};

use crate::engine::Engine;
use crate::fault::AddFault;
use gate_base::NoMemory;
use gate_entries::{Entry, Reply, write_entry};
use gate_machine::{Answer, one_entry_more, what_is_sent_is_recorded, written_reply};
use journal_core::{AppendDisk, Journal, one_group_more};
use plant::{Plant, runs_join};
use std::alloc::Global;

/// An entry's payload, and the room for its group.
pub fn spell(alloc: Global, journal: &mut Journal, entry: &Entry) -> Result<Vec<u8>, NoMemory>
    requires { IsEntry entry.now }
    ensures payload { IfOk result (λ payload. payload.items ≡ entry_bytes entry.now) }
    ensures spare { IfOk result (λ payload. length payload.items ≤ journal.new.spare) }
    ensures place { journal.new.at ≡ journal.old.at }
    ensures linked { journal.new.chain ≡ journal.old.chain }
    ensures broken { journal.new.broken ≡ journal.old.broken }
{
    let mut payload = Vec::new(alloc);
    write_entry(entry, &mut payload)?;
    journal.reserve(payload.len() as u64)?;
    Ok(payload)
}

/// Commits an entry, whose payload this is, in the room that was made for it; where the disk fails it is loose. It takes no memory.
pub fn commit<P: Plant>(
    journal: &mut Journal,
    history: &mut Vec<Entry>,
    loose: &mut Option<Entry>,
    plant: &mut P,
    entry: Entry,
    payload: &[u8],
) -> bool
    requires sound { Sound journal.old history.old.items loose.old }
    requires settled { loose.old ≡ None }
    requires stands { Stands (held_as history.old.items loose.old) (P.stops plant.old) }
    requires follows { Follows history.old.items entry }
    requires room { HasRoom history.old.items entry }
    requires payload { payload.now ≡ entry_bytes entry }
    requires spare { length payload.now ≤ journal.old.spare }
    requires capacity { vec_len history.old < vec_capacity history.old }
    ensures committed { IsTrue result → Holds (held_as history.new.items loose.new) (history.old.items ++ entry ∷ []) }
    ensures lost { IsFalse result → Waits history.old.items entry (held_as history.new.items loose.new) }
    ensures sound { Sound journal.new history.new.items loose.new }
    // A stop leaves the history, with the entry or without it, and what the signer was sent as before.
    ensures keeps { Keeps (IsSentOf history.old.items (P.stops plant.old)) history.old.items (P.told plant.old) (P.told plant.new) (P.stops plant.old) (P.stops plant.new)
        (held_as history.new.items loose.new) }
    ensures sent { IsSentOf history.old.items (P.stops plant.old) → IsSentOf history.old.items (P.stops plant.new) }
    ensures disk { IsFalse result → Rose (P.told plant.old).disk.faults (P.told plant.new).disk.faults }
    ensures signer { (P.told plant.new).signer ≡ (P.told plant.old).signer }
    ensures spare { journal.new.spare ≡ journal.old.spare }
    ensures length { IsTrue result → vec_len history.new ≡ vec_len history.old + 1 }
    ensures capacity { vec_capacity history.old ≤ vec_capacity history.new }
{
    one_group_more();
    one_entry_more();
    what_is_sent_is_recorded();
    match journal.append(plant, payload) {
        Ok(()) => match history.push(entry) {
            Ok(()) => true,
            Err(_) => unreachable!(),
        },
        Err(AppendDisk) => {
            *loose = Some(entry);
            false
        }
    }
}

impl Engine {
    /// Adds an entry at the end of the history; where the disk fails it is loose.
    pub(crate) fn add<P: Plant>(&mut self, plant: &mut P, entry: Entry) -> Result<(), AddFault>
        requires settled { self.old.loose ≡ None }
        requires stands { Stands self.old (P.stops plant.old) }
        requires ready { IsReadyToWrite self.old.history entry }
        ensures added { OnOk result (Holds self.new (self.old.history ++ entry ∷ [])) }
        ensures lost { IsErrOf result AddFault.Disk → Waits self.old.history entry self.new }
        ensures memory { IsErrOf result AddFault.NoMemory → Holds self.new self.old.history }
        ensures same { IsErrOf result AddFault.NoMemory → KeepsDisk (P.told plant.old) (P.told plant.new) (P.stops plant.old) (P.stops plant.new) }
        ensures keeps { Keeps (IsSentOf self.old.history (P.stops plant.old)) self.old.history (P.told plant.old) (P.told plant.new) (P.stops plant.old) (P.stops plant.new) self.new }
        ensures disk { IsErrOf result AddFault.Disk → Rose (P.told plant.old).disk.faults (P.told plant.new).disk.faults }
        ensures signer { (P.told plant.new).signer ≡ (P.told plant.old).signer }
    {
        runs_join::<P>();
        let Ok(payload) = spell(self.alloc, &mut self.journal, &entry) else {
            return Err(AddFault::NoMemory);
        };
        if self.history.reserve(1).is_err() {
            return Err(AddFault::NoMemory);
        }
        if commit(
            &mut self.journal,
            &mut self.history,
            &mut self.loose,
            plant,
            entry,
            &payload,
        ) {
            Ok(())
        } else {
            Err(AddFault::Disk)
        }
    }

    /// Commits an entry; where the disk fails it is loose.
    #[tactic(auto, using(crate::proofs::Steps::carries_written, crate::proofs::Steps::carries_lost, crate::proofs::Steps::carries_unadded))]
    pub(crate) fn write<P: Plant>(&mut self, plant: &mut P, entry: Entry) -> Reply
        requires settled { self.old.loose ≡ None }
        requires stands { Stands self.old (P.stops plant.old) }
        requires ready { IsReadyToWrite self.old.history entry }
        ensures carries { CarriesOut (Answer.Write entry) self.old.history (P.told plant.old) (P.told plant.new) (P.stops plant.old) (P.stops plant.new) result self.new }
    {
        let reply = written_reply(&entry);
        match self.add(plant, entry) {
            Ok(()) => reply,
            Err(AddFault::Disk) => Reply::DiskFault,
            Err(AddFault::NoMemory) => Reply::NoMemory,
        }
    }
}
