//! How a journal is read from the disk.
ghost use Rattle.std.specs.Prelude.{◌≡◌, ◌+◌, ◌*◌, ◌≤◌, length, drop, IfOk, IfErr, IsErrOf};
ghost use Rattle.std.specs.Option.{ForSome};
ghost use Rattle.std.specs.List.{AllByRecursion};
ghost use Rattle.plant.specs.Causes.{Rose};
ghost use Rattle.plant.specs.Joining.{Stays};
ghost use Rattle.journal_core.specs.Journal.{IsJournal, IsPayload, chain_after, gate_place, no_chain};
ghost use Rattle.journal_core.specs.Mounting.{IsBegun, Refuses};

use crate::fault::MountFault;
use crate::head::{HEAD_BYTES, is_head};
use crate::reading::{Groups, read_groups};
use gate_base::NoMemory;
use plant::{MAX_BYTES, Plant, runs_join};
use std::alloc::Global;

/// The file's length, where it begins with the head and a gate, and isn't too long.
fn begun_length<P: Plant>(plant: &mut P) -> Result<u64, MountFault>
    ensures begun { IfOk result (λ count. ForSome (P.told plant.old).disk.bytes (λ bytes. IsBegun bytes)) }
    ensures count { IfOk result (λ count. ForSome (P.told plant.old).disk.bytes (λ bytes. length bytes ≡ count)) }
    ensures some { IfOk result (λ count. 17 ≤ count) }
    ensures fits { IfOk result (λ count. count ≤ 67108864) }
    ensures fault { IfErr result (λ fault. ForSome (P.told plant.old).disk.bytes (λ bytes. Refuses fault bytes)) }
    ensures bytes { (P.told plant.new).disk.bytes ≡ (P.told plant.old).disk.bytes }
    ensures signer { (P.told plant.new).signer ≡ (P.told plant.old).signer }
    ensures disk { IsErrOf result MountFault.Disk → Rose (P.told plant.old).disk.faults (P.told plant.new).disk.faults }
    ensures later { (P.told plant.old).disk.faults ≤ (P.told plant.new).disk.faults }
    ensures moments { Stays (P.stops plant.old) (P.stops plant.new) }
{
    let end = plant.length()?;
    if end <= HEAD_BYTES as u64 {
        return Err(MountFault::NotBegun);
    }
    let mut front = [0; HEAD_BYTES];
    plant.read_at(0, &mut front)?;
    if !is_head(&front) {
        return Err(MountFault::NotBegun);
    }
    if end > MAX_BYTES {
        return Err(MountFault::TooLong { length: end });
    }
    Ok(end)
}

/// So many zeros.
fn zeros(alloc: Global, count: usize) -> Result<Vec<u8>, NoMemory>
    ensures { IfOk result (λ bytes. length bytes.items ≡ count) }
{
    let mut bytes = Vec::new(alloc);
    bytes.resize(count, 0)?;
    Ok(bytes)
}

/// The bytes behind the head, of a file of this length.
fn read_rest<P: Plant>(alloc: Global, plant: &mut P, end: u64) -> Result<Vec<u8>, MountFault>
    requires some { 17 ≤ end }
    requires fits { end ≤ 67108864 }
    requires end { ForSome (P.told plant.old).disk.bytes (λ bytes. length bytes ≡ end) }
    requires begun { ForSome (P.told plant.old).disk.bytes (λ bytes. IsBegun bytes) }
    ensures rest { IfOk result (λ rest. ForSome (P.told plant.old).disk.bytes (λ bytes. rest.items ≡ drop 16 bytes)) }
    ensures size { IfOk result (λ rest. length rest.items + 16 ≡ end) }
    ensures fault { IfErr result (λ fault. ForSome (P.told plant.old).disk.bytes (λ bytes. Refuses fault bytes)) }
    ensures bytes { (P.told plant.new).disk.bytes ≡ (P.told plant.old).disk.bytes }
    ensures signer { (P.told plant.new).signer ≡ (P.told plant.old).signer }
    ensures disk { IsErrOf result MountFault.Disk → Rose (P.told plant.old).disk.faults (P.told plant.new).disk.faults }
    ensures later { (P.told plant.old).disk.faults ≤ (P.told plant.new).disk.faults }
    ensures moments { Stays (P.stops plant.old) (P.stops plant.new) }
{
    let mut rest = zeros(alloc, end as usize - HEAD_BYTES)?;
    plant.read_at(HEAD_BYTES as u64, &mut rest)?;
    Ok(rest)
}

/// The groups of the journal that the file is.
pub fn read_journal<P: Plant>(alloc: Global, plant: &mut P) -> Result<Groups, MountFault>
    ensures ok { IfOk result (λ found. ForSome (P.told plant.old).disk.bytes (λ bytes. IsJournal found.payloads bytes)) }
    ensures place { IfOk result (λ found. found.at ≡ gate_place found.payloads) }
    ensures chain { IfOk result (λ found. found.chain ≡ chain_after no_chain found.payloads) }
    ensures count { IfOk result (λ found. 38 * length found.payloads ≤ 67108864) }
    ensures within { IfOk result (λ found. found.at + 1 ≤ 67108864) }
    ensures each { IfOk result (λ found. AllByRecursion IsPayload found.payloads) }
    ensures fault { IfErr result (λ fault. ForSome (P.told plant.old).disk.bytes (λ bytes. Refuses fault bytes)) }
    ensures bytes { (P.told plant.new).disk.bytes ≡ (P.told plant.old).disk.bytes }
    ensures signer { (P.told plant.new).signer ≡ (P.told plant.old).signer }
    ensures disk { IsErrOf result MountFault.Disk → Rose (P.told plant.old).disk.faults (P.told plant.new).disk.faults }
    ensures later { (P.told plant.old).disk.faults ≤ (P.told plant.new).disk.faults }
    ensures moments { Stays (P.stops plant.old) (P.stops plant.new) }
{
    runs_join::<P>();
    let end = begun_length(plant)?;
    let rest = read_rest(alloc, plant, end)?;
    let groups = read_groups(alloc, &rest)?;
    Ok(groups)
}
