//! What holds of all bytes and of all wires, for the proofs above.
ghost use Rattle.std.specs.Prelude.{ℕ, List, [], ◌++◌};
ghost use Rattle.plant.specs.Stream.{SourceTold};
ghost use Rattle.http_frames.specs.Frames.{AtMostOneFront, FrontsStay};
ghost use Rattle.http_frames.specs.Stream.{WireState, Passes};

/// What is answered of bytes is the only answer, and stays it whatever bytes follow.
pub fn one_front()
    ensures one { AtMostOneFront }
    ensures stays { FrontsStay }
{}

/// Bytes that pass one after another have passed together.
pub fn one_passing()
    ensures none { (wire : WireState) (source : SourceTold) → Passes wire source wire source [] }
    ensures more { (old mid new : WireState) (source source' source'' : SourceTold) (left right : List ℕ) → Passes old source mid source' left
        → Passes mid source' new source'' right → Passes old source new source'' (left ++ right) }
{}
