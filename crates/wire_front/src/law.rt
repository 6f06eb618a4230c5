//! What holds of all messages and of all streams, for the proofs above.
ghost use Rattle.std.specs.Prelude.{ℕ, List, [], ◌++◌};
ghost use Rattle.plant.specs.Stream.{SourceTold};
ghost use Rattle.wire_front.specs.Law.{AtMostOneMessage};
ghost use Rattle.wire_front.specs.Stream.{StreamState, Passes};

/// No bytes begin with two messages, so what a reader answers is the only answer.
pub fn one_message()
    ensures { AtMostOneMessage }
{}

/// Bytes that pass one after another have passed together.
pub fn one_passing()
    ensures none { (stream : StreamState) (source : SourceTold) → Passes stream source stream source [] }
    ensures more { (old mid new : StreamState) (source source' source'' : SourceTold) (left right : List ℕ) → Passes old source mid source' left
        → Passes mid source' new source'' right → Passes old source new source'' (left ++ right) }
{}
