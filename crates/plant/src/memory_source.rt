ghost use Rattle.std.specs.Prelude.{◌≡◌, ◌+◌, ◌<◌, ◌≤◌, ◌↔◌, [], ◌++◌, length, take, drop, Contains, IsTrue, IsErr};
ghost use Rattle.std.specs.Io.{ReadsAtMost};
ghost use Rattle.std.specs.Io.KnownBytes.{ReadConsumes};
ghost use Rattle.plant.specs.Causes.{HasCause};
ghost use Rattle.plant.specs.Memory.{one_more};

use crate::fault::TakeFault;
use crate::stream::Source;
use gate_base::{Bytes, Sequence};
use std::marker::Model;

/// The numbers of calls that fail, counted from 1.
pub type Calls = Sequence<u64>;

/// Counts a call, and tells whether the list has its number.
pub fn begins_failing(calls: &mut u64, fails: &Calls) -> bool
    ensures calls { calls.new ≡ one_more calls.old }
    ensures fails { IsTrue result ↔ Contains fails.now calls.new }
{
    *calls = calls.saturating_add(1);
    fails.as_slice().contains(calls)
}

/// A source of known bytes.
#[derive(Debug, Drop)]
pub struct MemorySource {
    bytes: Bytes,
    next: usize,
    fails: Calls,
    calls: u64,
    faults: u64,
}

impl Model for MemorySource {
    ghost use Rattle.std.specs.Prelude.{◌≤◌, drop, length};
    ghost use Rattle.plant.specs.Memory.{SourceMemory};

    ghost Value = { SourceMemory };

    ghost view = { λ s. record { left = drop s.next s.bytes; fails = s.fails; calls = s.calls; faults = s.faults } };

    ghost invariant = { λ s. s.next ≤ length s.bytes };
}

impl MemorySource {
    pub fn new(bytes: Bytes, fails: Calls) -> MemorySource
        ensures { result ≡ record { left = bytes; fails = fails; calls = 0; faults = 0 } }
    {
        MemorySource {
            bytes,
            next: 0,
            fails,
            calls: 0,
            faults: 0,
        }
    }
}

impl Source for MemorySource {
    ghost use Rattle.std.specs.Prelude.{None};
    ghost use Rattle.plant.specs.Memory.{source_told};

    ghost told = { source_told };

    ghost beside = { λ s. record { held = None; faults = 0 } };

    fn take(&mut self, out: &mut [u8]) -> Result<usize, TakeFault>
        ensures bound { ReadsAtMost result out.new }
        ensures bytes { ReadConsumes (Some self.old.left) (Some self.new.left) result out.new }
        ensures cause { HasCause self.old.faults self.new.faults result }
        ensures calls { self.new.calls ≡ one_more self.old.calls }
        ensures fails { self.new.fails ≡ self.old.fails }
        // It fails exactly where its list says so.
        ensures failing { IsErr result ↔ Contains self.old.fails self.new.calls }
    {
        if begins_failing(&mut self.calls, &self.fails) {
            self.faults = self.faults.saturating_add(1);
            return Err(TakeFault);
        }
        let (count, next) = copy_front(&self.bytes, self.next, out);
        self.next = next;
        Ok(count)
    }
}

/// Copies the bytes from a place on into the front of a piece, as many as fit, and answers how many, and the place behind them.
fn copy_front(bytes: &Bytes, at: usize, out: &mut [u8]) -> (usize, usize)
    requires { at ≤ length bytes.now }
    ensures fits { result.0 ≤ length out.new }
    ensures within { result.1 ≤ length bytes.now }
    ensures given { drop at bytes.now ≡ take result.0 out.new ++ drop result.1 bytes.now }
    ensures end { result.0 ≡ 0 → 0 < length out.new → drop result.1 bytes.now ≡ [] }
{
    let (_, left) = bytes.as_slice().split_at(at);
    let count = left.len().min(out.len());
    let (piece, _) = left.split_at(count);
    put_front(piece, out);
    (count, at + count)
}

/// Copies a piece to the front of another.
pub fn put_front(piece: &[u8], out: &mut [u8])
    requires { length piece.now ≤ length out.old }
    ensures whole { out.new ≡ piece.now ++ drop (length piece.now) out.old }
    ensures front { take (length piece.now) out.new ≡ piece.now }
{
    out[..piece.len()].copy_from_slice(piece);
}
