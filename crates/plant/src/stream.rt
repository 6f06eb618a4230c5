ghost use Rattle.std.specs.Prelude.{◌≡◌, OnOk, OnErr};
ghost use Rattle.std.specs.Io.{ReadsAtMost};
ghost use Rattle.std.specs.Io.KnownBytes.{ReadConsumes, Appends};
ghost use Rattle.plant.specs.Causes.{HasCause};
ghost use Rattle.plant.specs.Stream.{SourceTold, SinkTold, AppendsFront};

use crate::fault::{PutFault, TakeFault};

/// Where bytes come from.
pub trait Source {
    ghost told: { Self → SourceTold };

    /// What the object tells as a sink, where it is one too.
    ghost beside: { Self → SinkTold };

    /// Moves bytes into the piece and answers how many; for a piece that isn't empty, none only at the end of input.
    fn take(&mut self, out: &mut [u8]) -> Result<usize, TakeFault>
        ensures bound { ReadsAtMost result out.new }
        ensures bytes { ReadConsumes (told self.old).left (told self.new).left result out.new }
        ensures cause { HasCause (told self.old).faults (told self.new).faults result }
        ensures beside { beside self.new ≡ beside self.old };
}

/// Where bytes go.
pub trait Sink {
    ghost told: { Self → SinkTold };

    /// What the object tells as a source, where it is one too.
    ghost beside: { Self → SourceTold };

    /// Appends the bytes; after a fault a front of them.
    fn put(&mut self, bytes: &[u8]) -> Result<(), PutFault>
        ensures ok { OnOk result (Appends (told self.old).held (told self.new).held bytes.now) }
        ensures err { OnErr result (AppendsFront (told self.old).held (told self.new).held bytes.now) }
        ensures cause { HasCause (told self.old).faults (told self.new).faults result }
        ensures beside { beside self.new ≡ beside self.old };

    /// Says that nothing more is put.
    fn end(&mut self)
        ensures told { told self.new ≡ told self.old }
        ensures beside { beside self.new ≡ beside self.old };
}
