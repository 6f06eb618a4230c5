//! What is written, and in which order it is made durable.
ghost use Rattle.std.specs.Prelude.{◌≡◌, ℕ, ◌+◌, ◌≤◌, ◌∷◌, length, is_some, OnOk, OnErr};
ghost use Rattle.std.specs.Option.{option_map, ForSome};
ghost use Rattle.plant.specs.Causes.{HasCause};
ghost use Rattle.plant.specs.Plant.{overwritten};
ghost use Rattle.plant.specs.Tearing.{Torn, TornTold};
ghost use Rattle.plant.specs.Stops.{IsDurable};
ghost use Rattle.plant.specs.Joining.{Follows};
ghost use Rattle.journal_core.specs.Standing.{Commits, TornCommit};

use crate::group::OPEN;
use plant::{DiskFault, MAX_BYTES, Plant, runs_join};

/// Writes a piece, and makes it durable.
pub fn write_synced<P: Plant>(plant: &mut P, at: u64, piece: &[u8]) -> Result<(), DiskFault>
    requires begins { ForSome (P.told plant.old).disk.bytes (λ bytes. at ≤ length bytes) }
    requires ends { at + length piece.now ≤ MAX_BYTES }
    ensures ok { OnOk result ((P.told plant.new).disk.bytes ≡ option_map (λ bytes. overwritten bytes at piece.now) (P.told plant.old).disk.bytes) }
    ensures durable { OnOk result (IsDurable (P.told plant.new).disk.bytes (P.stops plant.new)) }
    ensures err { OnErr result (TornTold at (length piece.now) (P.told plant.old).disk.bytes (P.told plant.new).disk.bytes) }
    ensures tells { is_some (P.told plant.new).disk.bytes ≡ is_some (P.told plant.old).disk.bytes }
    ensures signer { (P.told plant.new).signer ≡ (P.told plant.old).signer }
    ensures cause { HasCause (P.told plant.old).disk.faults (P.told plant.new).disk.faults result }
    ensures moments { Follows (Torn at (length piece.now)) (P.stops plant.old) (P.stops plant.new) }
{
    plant.write_at(at, piece)?;
    plant.sync()
}

/// Writes a piece behind the closed gate at a place, and then opens the gate. The piece has to be durable first: behind an open
/// gate any bytes that a stop leaves would count.
pub fn commit<P: Plant>(plant: &mut P, at: u64, piece: &[u8]) -> Result<(), DiskFault>
    requires begins { ForSome (P.told plant.old).disk.bytes (λ bytes. at + 1 ≤ length bytes) }
    requires ends { at + 1 + length piece.now ≤ MAX_BYTES }
    ensures ok { OnOk result ((P.told plant.new).disk.bytes ≡ option_map (λ bytes. overwritten bytes at (1 ∷ piece.now)) (P.told plant.old).disk.bytes) }
    ensures durable { OnOk result (IsDurable (P.told plant.new).disk.bytes (P.stops plant.new)) }
    ensures err { OnErr result (TornCommit at piece.now (P.told plant.old).disk.bytes (P.told plant.new).disk.bytes) }
    ensures tells { is_some (P.told plant.new).disk.bytes ≡ is_some (P.told plant.old).disk.bytes }
    ensures signer { (P.told plant.new).signer ≡ (P.told plant.old).signer }
    ensures cause { HasCause (P.told plant.old).disk.faults (P.told plant.new).disk.faults result }
    ensures moments { Commits at piece.now (P.told plant.old).disk.bytes (P.stops plant.old) (P.stops plant.new) }
{
    runs_join::<P>();
    write_synced(plant, at + 1, piece)?;
    write_synced(plant, at, &[OPEN])
}
