ghost use Rattle.std.specs.Prelude.{◌≡◌, ℕ, List, Some, ◌+◌, ◌<◌, ◌≤◌, ◌⊎◌, [], ◌∷◌, ◌++◌, length, take, drop, is_some, IfOk, IfSome, OnOk, OnErr};
ghost use Rattle.std.specs.Option.{option_map, ForSome};
ghost use Rattle.plant.specs.Causes.{HasCause};
ghost use Rattle.plant.specs.Plant.{PlantTold, overwritten};
ghost use Rattle.plant.specs.Tearing.{Torn, TornTold};
ghost use Rattle.plant.specs.Stops.{Stops as StopsValue, LeftNow, IsDurable};
ghost use Rattle.plant.specs.Joining.{Stays, Follows, MaySend};

use crate::fault::{DiskFault, SignerFault};

/// The greatest length of a journal's file.
pub const MAX_BYTES: u64 = 67_108_864;

/// The room for a signature.
pub const SIGNATURE_ROOM: usize = 1_024;

/// The disk that holds the journal, and the signing device.
pub trait Plant {
    ghost told: { Self → PlantTold };

    /// What a stop may leave.
    ghost stops: { Self → StopsValue };

    /// The file's length.
    fn length(&mut self) -> Result<u64, DiskFault>
        ensures count { IfOk result (λ count. IfSome (told self.old).disk.bytes (λ bytes. count ≡ length bytes)) }
        ensures bytes { (told self.new).disk.bytes ≡ (told self.old).disk.bytes }
        ensures signer { (told self.new).signer ≡ (told self.old).signer }
        ensures cause { HasCause (told self.old).disk.faults (told self.new).disk.faults result }
        ensures moments { Stays (stops self.old) (stops self.new) };

    /// Fills the piece with the bytes from a place on.
    fn read_at(&mut self, at: u64, out: &mut [u8]) -> Result<(), DiskFault>
        requires { ForSome (told self.old).disk.bytes (λ bytes. at + length out.old ≤ length bytes) }
        ensures given { OnOk result (IfSome (told self.old).disk.bytes (λ bytes. out.new ≡ take (length out.old) (drop at bytes))) }
        ensures bytes { (told self.new).disk.bytes ≡ (told self.old).disk.bytes }
        ensures signer { (told self.new).signer ≡ (told self.old).signer }
        ensures cause { HasCause (told self.old).disk.faults (told self.new).disk.faults result }
        ensures moments { Stays (stops self.old) (stops self.new) };

    /// Writes over what is there, and past the end. Until a sync a stop may leave any bytes in the range and past the old end.
    fn write_at(&mut self, at: u64, piece: &[u8]) -> Result<(), DiskFault>
        requires begins { ForSome (told self.old).disk.bytes (λ bytes. at ≤ length bytes) }
        requires ends { at + length piece.now ≤ MAX_BYTES }
        ensures ok { OnOk result ((told self.new).disk.bytes ≡ option_map (λ bytes. overwritten bytes at piece.now) (told self.old).disk.bytes) }
        // After a fault the range is torn, and nothing else has changed.
        ensures err { OnErr result (TornTold at (length piece.now) (told self.old).disk.bytes (told self.new).disk.bytes) }
        ensures tells { is_some (told self.new).disk.bytes ≡ is_some (told self.old).disk.bytes }
        ensures signer { (told self.new).signer ≡ (told self.old).signer }
        ensures cause { HasCause (told self.old).disk.faults (told self.new).disk.faults result }
        ensures moments { Follows (Torn at (length piece.now)) (stops self.old) (stops self.new) };

    /// Makes what was written durable: a stop then leaves what a read gives.
    fn sync(&mut self) -> Result<(), DiskFault>
        ensures durable { OnOk result (IsDurable (told self.new).disk.bytes (stops self.new)) }
        ensures bytes { (told self.new).disk.bytes ≡ (told self.old).disk.bytes }
        ensures signer { (told self.new).signer ≡ (told self.old).signer }
        ensures cause { HasCause (told self.old).disk.faults (told self.new).disk.faults result }
        ensures moments { Stays (stops self.old) (stops self.new) };

    /// Has a body signed, and answers the length of the signature at the front of the piece.
    fn sign(&mut self, body: &[u8], out: &mut [u8]) -> Result<usize, SignerFault>
        requires room { length out.old ≡ SIGNATURE_ROOM }
        requires body { 0 < length body.now }
        ensures size { IfOk result (λ count. (1 ≤ count) × (count ≤ SIGNATURE_ROOM)) }
        ensures sent { OnOk result ((told self.new).signer.sent ≡ option_map (λ list. list ++ body.now ∷ []) (told self.old).signer.sent) }
        ensures unsure { OnErr result (((told self.new).signer.sent ≡ (told self.old).signer.sent)
            ⊎ ((told self.new).signer.sent ≡ option_map (λ list. list ++ body.now ∷ []) (told self.old).signer.sent)) }
        ensures answered { IfOk result (λ count. (told self.new).signer.answers
            ≡ option_map (λ list. list ++ (body.now, take count out.new) ∷ []) (told self.old).signer.answers) }
        ensures unanswered { OnErr result ((told self.new).signer.answers ≡ (told self.old).signer.answers) }
        ensures disk { (told self.new).disk ≡ (told self.old).disk }
        ensures cause { HasCause (told self.old).signer.faults (told self.new).signer.faults result }
        ensures moments { MaySend body.now (stops self.old) (stops self.new) };

    /// The disk as it reads is one of the images that a stop now may leave.
    ghost reads: { (plant : Self) (bytes : List ℕ) → (told plant).disk.bytes ≡ Some bytes
        → (list : List (List ℕ)) × LeftNow (stops plant) bytes list };

    /// A stop now leaves the bodies that were handed to the signer, as they are told.
    ghost beside: { (plant : Self) (image : List ℕ) (list : List (List ℕ)) → LeftNow (stops plant) image list
        → (told plant).signer.sent ≡ Some list };
}
