ghost use Rattle.std.specs.Prelude.{◌≡◌, ◌↔◌, ◌⊎◌, [], Contains, IsErr, OnOk, OnErr};
ghost use Rattle.std.specs.Io.KnownBytes.{Appends};
ghost use Rattle.plant.specs.Causes.{HasCause, Rose};
ghost use Rattle.plant.specs.Stream.{AppendsFront};
ghost use Rattle.plant.specs.Memory.{one_more};

use crate::fault::PutFault;
use crate::memory_source::{Calls, begins_failing};
use crate::stream::Sink;
use std::alloc::Global;
use std::marker::Model;

/// A sink that holds its bytes in memory.
#[derive(Debug, Drop)]
pub struct MemorySink {
    held: Vec<u8>,
    fails: Calls,
    calls: u64,
    faults: u64,
    short: u64,
}

impl Model for MemorySink {
    ghost use Rattle.plant.specs.Memory.{SinkMemory};

    ghost Value = { SinkMemory };

    ghost view = { λ s. record { held = s.held.items; fails = s.fails; calls = s.calls; faults = s.faults; short = s.short } };
}

impl MemorySink {
    pub fn new(alloc: Global, fails: Calls) -> MemorySink
        ensures { result ≡ record { held = []; fails = fails; calls = 0; faults = 0; short = 0 } }
    {
        MemorySink {
            held: Vec::new(alloc),
            fails,
            calls: 0,
            faults: 0,
            short: 0,
        }
    }

    pub fn bytes(&self) -> &[u8]
        ensures { result.now ≡ self.now.held }
    {
        &self.held
    }

    /// How many calls found no memory.
    pub fn short(&self) -> u64
        ensures { result ≡ self.now.short }
    {
        self.short
    }
}

impl Sink for MemorySink {
    ghost use Rattle.std.specs.Prelude.{None};
    ghost use Rattle.plant.specs.Memory.{sink_told};

    ghost told = { sink_told };

    ghost beside = { λ s. record { left = None; faults = 0 } };

    fn put(&mut self, bytes: &[u8]) -> Result<(), PutFault>
        ensures ok { OnOk result (Appends (Some self.old.held) (Some self.new.held) bytes.now) }
        ensures err { OnErr result (AppendsFront (Some self.old.held) (Some self.new.held) bytes.now) }
        ensures cause { HasCause self.old.faults self.new.faults result }
        ensures calls { self.new.calls ≡ one_more self.old.calls }
        ensures fails { self.new.fails ≡ self.old.fails }
        // It fails where its list says so, and otherwise only when out of memory.
        ensures listed { Contains self.old.fails self.new.calls → IsErr result }
        ensures failing { OnErr result (Contains self.old.fails self.new.calls ⊎ Rose self.old.short self.new.short) }
    {
        if begins_failing(&mut self.calls, &self.fails) {
            self.faults = self.faults.saturating_add(1);
            return Err(PutFault);
        }
        match self.held.extend_from_slice(bytes) {
            Ok(()) => Ok(()),
            Err(_) => {
                self.short = self.short.saturating_add(1);
                self.faults = self.faults.saturating_add(1);
                Err(PutFault)
            }
        }
    }

    fn end(&mut self) {}
}
