//! What holds of what a stop may leave, for the proofs above.
ghost use Rattle.std.specs.Prelude.{ℕ, List, ◌≤◌, length};
ghost use Rattle.plant.specs.Plant.{overwritten};
ghost use Rattle.plant.specs.Tearing.{Torn};
ghost use Rattle.plant.specs.Joining.{Joins, Stays, Follows, MaySend};

use crate::device::Plant;

/// Two runs of calls, one behind the other, are a run; behind one that leaves nothing new, what the first may leave stays.
#[tactic(auto, using(crate::proofs::Joins::joins_on, crate::proofs::Joins::stays_still, crate::proofs::Joins::stays_on, crate::proofs::Joins::follows_on, crate::proofs::Joins::sends_on))]
pub fn runs_join<P: Plant>()
    ensures joins { (old mid new : P) → Joins (P.stops old) (P.stops mid) → Joins (P.stops mid) (P.stops new) → Joins (P.stops old) (P.stops new) }
    ensures still { (plant : P) → Stays (P.stops plant) (P.stops plant) }
    ensures stays { (old mid new : P) → Stays (P.stops old) (P.stops mid) → Stays (P.stops mid) (P.stops new) → Stays (P.stops old) (P.stops new) }
    ensures follows { (old mid new : P) (at count : ℕ) → Follows (Torn at count) (P.stops old) (P.stops mid) → Stays (P.stops mid) (P.stops new)
        → Follows (Torn at count) (P.stops old) (P.stops new) }
    ensures sends { (old mid new : P) (body : List ℕ) → MaySend body (P.stops old) (P.stops mid) → Stays (P.stops mid) (P.stops new)
        → MaySend body (P.stops old) (P.stops new) }
{}

/// A write that is done whole is torn within its range, and so is one that is not done at all.
#[tactic(auto, using(crate::proofs::Tears::torn_whole, crate::proofs::Tears::torn_none))]
pub fn writes_are_torn()
    ensures whole { (at : ℕ) (piece bytes : List ℕ) → at ≤ length bytes → Torn at (length piece) bytes (overwritten bytes at piece) }
    ensures none { (at count : ℕ) (bytes : List ℕ) → Torn at count bytes bytes }
{}
