//! A mounted journal, which grows at its closed gate.
ghost use Rattle.std.specs.Prelude.{◌≡◌, ℕ, List, ◌+◌, ◌^◌, ◌<◌, ◌≤◌, ◌↔◌, [], ◌∷◌, ◌++◌, true, false, max, length, is_some, vec_capacity, IsTrue, IsOk, IfOk, IfErr, IsErrOf, OnOk, OnErr};
ghost use Rattle.std.specs.Option.{option_map, ForSome};
ghost use Rattle.std.specs.List.{AllByRecursion};
ghost use Rattle.plant.specs.Causes.{HasCause, Rose};
ghost use Rattle.plant.specs.Plant.{overwritten};
ghost use Rattle.plant.specs.Stops.{IsDurable};
ghost use Rattle.plant.specs.Joining.{Stays};
ghost use Rattle.journal_core.specs.Journal.{IsPayload, IsJournal, HasRoom, group, total_of, chained, chain_after, no_chain, gate_place, mounted_of};
ghost use Rattle.journal_core.specs.Mounting.{Refuses};
ghost use Rattle.journal_core.specs.Standing.{Stands, MayAppend, TornCommit};

use crate::fault::{AppendDisk, MountFault};
use crate::group::{BARE_BYTES, CHAIN_BYTES, push_group};
use crate::mounting::read_journal;
use crate::writing::commit;
use gate_base::{NoMemory, Payloads};
use plant::{DiskFault, MAX_BYTES, Plant};
use std::alloc::Global;
use std::marker::Model;

/// A journal that was mounted. It keeps the place of the closed gate, the chain of the last group, and room for one group.
#[derive(Debug, Drop)]
pub struct Journal {
    room: Vec<u8>,
    at: u64,
    chain: [u8; CHAIN_BYTES],
    spare: u64,
    broken: bool,
}

impl Model for Journal {
    ghost use Rattle.std.specs.Prelude.{◌+◌, ◌≤◌, vec_capacity};
    ghost use Rattle.journal_core.specs.Journal.{JournalState};

    ghost Value = { JournalState };

    ghost view = { λ j. record { at = j.at; chain = j.chain; spare = j.spare; broken = j.broken } };

    ghost invariant = { λ j. 1 ≤ j.spare → 37 + j.spare ≤ vec_capacity j.room };
}

impl Journal {
    /// Makes what is on the disk durable, and reads the journal that it is.
    pub fn mount<P: Plant>(alloc: Global, plant: &mut P) -> Result<(Journal, Payloads), MountFault>
        ensures ok { IfOk result (λ mounted. ForSome (P.told plant.old).disk.bytes (λ bytes. IsJournal mounted.1 bytes)) }
        // Then a stop leaves no other bytes.
        ensures durable { IfOk result (λ mounted. IsDurable (P.told plant.new).disk.bytes (P.stops plant.new)) }
        ensures stands { IfOk result (λ mounted. Stands (P.stops plant.new) mounted.0 mounted.1) }
        // Over every plant, told or not.
        ensures mounted { IfOk result (λ mounted. mounted.0 ≡ mounted_of mounted.1) }
        ensures count { IfOk result (λ mounted. length mounted.1 < 2 ^ 24) }
        ensures each { IfOk result (λ mounted. AllByRecursion IsPayload mounted.1) }
        ensures fits { IfOk result (λ mounted. HasRoom mounted.0.at 0) }
        ensures fault { IfErr result (λ fault. ForSome (P.told plant.old).disk.bytes (λ bytes. Refuses fault bytes)) }
        ensures bytes { (P.told plant.new).disk.bytes ≡ (P.told plant.old).disk.bytes }
        ensures signer { (P.told plant.new).signer ≡ (P.told plant.old).signer }
        ensures disk { IsErrOf result MountFault.Disk → Rose (P.told plant.old).disk.faults (P.told plant.new).disk.faults }
        ensures later { (P.told plant.old).disk.faults ≤ (P.told plant.new).disk.faults }
        ensures moments { Stays (P.stops plant.old) (P.stops plant.new) }
    {
        plant.sync()?;
        let groups = read_journal(alloc, plant)?;
        let chain = groups.chain;
        let journal = Journal {
            room: Vec::new(alloc),
            at: groups.at,
            chain,
            spare: 0,
            broken: false,
        };
        Ok((journal, groups.payloads))
    }

    /// Whether so many bytes more, and a closed gate behind them, fit in the file.
    pub fn has_room(&self, total: u64) -> bool
        ensures { IsTrue result ↔ HasRoom self.now.at total }
    {
        self.at < MAX_BYTES && total < MAX_BYTES - self.at
    }

    /// Makes room for a payload that long.
    pub fn reserve(&mut self, longest: u64) -> Result<(), NoMemory>
        ensures ok { OnOk result (self.new ≡ record self.old { spare = max self.old.spare longest }) }
        ensures room { OnOk result (longest ≤ self.new.spare) }
        ensures err { OnErr result (self.new ≡ self.old) }
        ensures enough { longest ≤ self.old.spare → IsOk result }
    {
        if longest > self.spare {
            make_room(&mut self.room, longest)?;
            self.spare = longest;
        }
        Ok(())
    }

    /// Writes a group behind the closed gate, makes it durable, opens the gate, and makes that durable. It takes no memory.
    pub fn append<P: Plant>(&mut self, plant: &mut P, payload: &[u8]) -> Result<(), AppendDisk>
        requires sound { self.old.broken ≡ false }
        requires stands { (payloads : List (List ℕ)) × Stands (P.stops plant.old) self.old payloads }
        requires room { HasRoom self.old.at (total_of payload.now) }
        requires spare { length payload.now ≤ self.old.spare }
        requires payload { IsPayload payload.now }
        // Each image then has the new payload behind those that it had.
        ensures ok { OnOk result ((payloads : List (List ℕ)) → Stands (P.stops plant.old) self.old payloads
            → Stands (P.stops plant.new) self.new (payloads ++ payload.now ∷ [])) }
        ensures durable { OnOk result (IsDurable (P.told plant.new).disk.bytes (P.stops plant.new)) }
        ensures grown { OnOk result (self.new ≡ record self.old { at = self.old.at + total_of payload.now; chain = chained self.old.chain payload.now }) }
        ensures err { OnErr result (self.new ≡ record self.old { broken = true }) }
        ensures written { OnOk result ((P.told plant.new).disk.bytes
            ≡ option_map (λ bytes. overwritten bytes self.old.at (1 ∷ (group self.old.chain payload.now ++ 0 ∷ []))) (P.told plant.old).disk.bytes) }
        // After a fault the new group or its gate is torn, and nothing else has changed.
        ensures torn { OnErr result (TornCommit self.old.at (group self.old.chain payload.now ++ 0 ∷ []) (P.told plant.old).disk.bytes (P.told plant.new).disk.bytes) }
        ensures tells { is_some (P.told plant.new).disk.bytes ≡ is_some (P.told plant.old).disk.bytes }
        ensures signer { (P.told plant.new).signer ≡ (P.told plant.old).signer }
        ensures cause { HasCause (P.told plant.old).disk.faults (P.told plant.new).disk.faults result }
        ensures moments { MayAppend payload.now self.old (P.stops plant.old) (P.stops plant.new) }
    {
        let chain = fill_room(&mut self.room, &self.chain, payload);
        match commit(plant, self.at, &self.room) {
            Ok(()) => {
                self.at += self.room.len() as u64;
                self.chain = chain;
                Ok(())
            }
            Err(DiskFault) => {
                self.broken = true;
                Err(AppendDisk)
            }
        }
    }

    /// Whether an append failed since the mount. Then only a new mount serves.
    pub fn broken(&self) -> bool
        ensures { result ≡ self.now.broken }
    {
        self.broken
    }

    /// The chain of the last group, or 32 zeros where there is none.
    pub fn chain(&self) -> [u8; CHAIN_BYTES]
        ensures { result ≡ self.now.chain }
    {
        self.chain
    }
}

fn make_room(room: &mut Vec<u8>, longest: u64) -> Result<(), NoMemory>
    ensures capacity { vec_capacity room.old ≤ vec_capacity room.new }
    ensures ok { OnOk result (37 + longest ≤ vec_capacity room.new) }
{
    let total = longest.checked_add(BARE_BYTES).ok_or(NoMemory)?;
    room.clear();
    room.reserve(total as usize)?;
    Ok(())
}

/// Puts a group and a closed gate into the room for them, and tells the group's chain.
fn fill_room(room: &mut Vec<u8>, chain: &[u8], payload: &[u8]) -> [u8; CHAIN_BYTES]
    requires payload { IsPayload payload.now }
    requires room { 37 + length payload.now ≤ vec_capacity room.old }
    ensures filled { room.new.items ≡ group chain.now payload.now ++ 0 ∷ [] }
    ensures chain { result ≡ chained chain.now payload.now }
    ensures capacity { vec_capacity room.old ≤ vec_capacity room.new }
{
    room.clear();
    match push_group(room, chain, payload) {
        Ok(next) => next,
        Err(_) => unreachable!(),
    }
}
