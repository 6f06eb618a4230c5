//! How a journal is begun on an empty disk.
ghost use Rattle.std.specs.Prelude.{◌≡◌, ◌≢◌, ℕ, List, ◌+◌, ◌≤◌, ◌∷◌, [], ◌++◌, length, is_some, IfOk, IsErrOf, OnOk};
ghost use Rattle.std.specs.Option.{option_map, ForSome};
ghost use Rattle.plant.specs.Causes.{Rose, HasCause};
ghost use Rattle.plant.specs.Stops.{IsDurable};
ghost use Rattle.plant.specs.Joining.{Stays};
ghost use Rattle.journal_core.specs.Journal.{IsPayload, begun_of, group, head, no_chain};
ghost use Rattle.journal_core.specs.Standing.{KeepsSent, LeavesOnly};

use crate::fault::BeginFault;
use crate::group::{first_chain, push_group};
use crate::head::FIRST_GATE;
use crate::writing::{commit, write_synced};
use gate_base::NoMemory;
use plant::{DiskFault, Plant, runs_join};
use std::alloc::Global;

/// The head, and a closed gate behind it.
#[tactic(auto, unfolding(crate::specs::Journal::head))]
fn blank() -> &'static [u8]
    ensures bytes { result.now ≡ head ++ 0 ∷ [] }
    ensures size { length result.now ≡ 17 }
{
    b"gate journal 01\n\0"
}

/// The group of the first payload, and the closed gate behind it.
fn first_piece(alloc: Global, payload: &[u8]) -> Result<Vec<u8>, NoMemory>
    requires { IsPayload payload.now }
    ensures piece { IfOk result (λ piece. piece.items ≡ group no_chain payload.now ++ 0 ∷ []) }
    ensures size { IfOk result (λ piece. length piece.items ≡ 37 + length payload.now) }
{
    let mut piece = Vec::new(alloc);
    push_group(&mut piece, &first_chain(), payload)?;
    Ok(piece)
}

/// Writes the head and a closed gate, and then the group behind it.
fn write_first<P: Plant>(plant: &mut P, piece: &[u8]) -> Result<(), DiskFault>
    requires empty { ForSome (P.told plant.old).disk.bytes (λ bytes. bytes ≡ []) }
    requires ends { 17 + length piece.now ≤ 67_108_864 }
    ensures ok { OnOk result ((P.told plant.new).disk.bytes ≡ option_map (λ _. head ++ 1 ∷ piece.now) (P.told plant.old).disk.bytes) }
    ensures durable { OnOk result (IsDurable (P.told plant.new).disk.bytes (P.stops plant.new)) }
    ensures tells { is_some (P.told plant.new).disk.bytes ≡ is_some (P.told plant.old).disk.bytes }
    ensures signer { (P.told plant.new).signer ≡ (P.told plant.old).signer }
    ensures cause { HasCause (P.told plant.old).disk.faults (P.told plant.new).disk.faults result }
    ensures moments { KeepsSent (P.stops plant.old) (P.stops plant.new) }
{
    runs_join::<P>();
    write_synced(plant, 0, blank())?;
    commit(plant, FIRST_GATE, piece)
}

/// Begins a journal on an empty disk: writes the head and a closed gate, and then the group of the payload.
pub fn begin<P: Plant>(alloc: Global, plant: &mut P, payload: &[u8]) -> Result<(), BeginFault>
    requires { IsPayload payload.now }
    ensures ok { OnOk result ((P.told plant.new).disk.bytes ≡ option_map (λ _. begun_of payload.now) (P.told plant.old).disk.bytes) }
    // A stop then leaves the journal of the payload, and nothing else.
    ensures durable { OnOk result (LeavesOnly (begun_of payload.now) (P.stops plant.new)) }
    // It begins on an empty disk only, and says how long another is.
    ensures empty { OnOk result (ForSome (P.told plant.old).disk.bytes (λ bytes. bytes ≡ [])) }
    ensures not_empty { (count : ℕ) → IsErrOf result (BeginFault.NotEmpty count) → ForSome (P.told plant.old).disk.bytes (λ bytes. length bytes ≡ count) }
    ensures some { (count : ℕ) → IsErrOf result (BeginFault.NotEmpty count) → 1 ≤ count }
    // Where bytes stand, nothing is written, whatever it answers.
    ensures kept { ForSome (P.told plant.old).disk.bytes (λ bytes. bytes ≢ []
        → ((P.told plant.new).disk.bytes ≡ (P.told plant.old).disk.bytes) × Stays (P.stops plant.old) (P.stops plant.new)) }
    ensures memory { IsErrOf result BeginFault.NoMemory
        → ((P.told plant.new).disk.bytes ≡ (P.told plant.old).disk.bytes) × Stays (P.stops plant.old) (P.stops plant.new) }
    ensures memory_empty { IsErrOf result BeginFault.NoMemory → ForSome (P.told plant.old).disk.bytes (λ bytes. bytes ≡ []) }
    ensures tells { is_some (P.told plant.new).disk.bytes ≡ is_some (P.told plant.old).disk.bytes }
    ensures signer { (P.told plant.new).signer ≡ (P.told plant.old).signer }
    ensures disk { IsErrOf result BeginFault.Disk → Rose (P.told plant.old).disk.faults (P.told plant.new).disk.faults }
    ensures later { (P.told plant.old).disk.faults ≤ (P.told plant.new).disk.faults }
    ensures moments { KeepsSent (P.stops plant.old) (P.stops plant.new) }
{
    runs_join::<P>();
    let count = plant.length()?;
    if count != 0 {
        return Err(BeginFault::NotEmpty { length: count });
    }
    let piece = first_piece(alloc, payload)?;
    write_first(plant, &piece)?;
    Ok(())
}
