ghost use Rattle.std.specs.Prelude.{◌≡◌};
ghost use Rattle.gate_engine.specs.declared.fault.ReplayFault.TheVariants as replays;

use gate_base::NoMemory;
use std::alloc::{AllocError, AllocFailed};

/// Why an engine didn't start.
#[derive(Clone, Copy, Debug, PartialEq, Eq)]
pub enum StartFault {
    Disk,
    NotBegun,
    /// The bytes are no legal journal, from this place on.
    JournalBad { at: u64 },
    /// Other settings are in force, and the clock gave no reading.
    Clock,
    /// Other settings are in force, and the clock's reading is out of range.
    ClockRange { reading: u64 },
    /// Other settings are in force, and the journal has no room for the new ones.
    Full,
    NoMemory,
}

/// Why an entry was not added.
#[derive(Clone, Copy, Debug, PartialEq, Eq)]
pub enum AddFault {
    /// Its commit failed, and it is loose.
    Disk,
    NoMemory,
}

/// Why payloads were not replayed.
#[derive(Clone, Copy, Debug, PartialEq, Eq)]
pub enum ReplayFault {
    /// The record at this place of the file may not come behind those before it.
    Illegal { at: u64 },
    NoMemory,
}

impl From<NoMemory> for ReplayFault {
    ghost from_gives = { λ _ e. e ≡ replays.NoMemory };

    fn from(_: NoMemory) -> ReplayFault {
        ReplayFault::NoMemory
    }
}

impl From<AllocError> for ReplayFault {
    ghost from_gives = { λ _ e. e ≡ replays.NoMemory };

    fn from(_: AllocError) -> ReplayFault {
        ReplayFault::NoMemory
    }
}

impl<T: Drop> From<AllocFailed<T>> for ReplayFault {
    ghost from_gives = { λ _ e. e ≡ replays.NoMemory };

    fn from(_: AllocFailed<T>) -> ReplayFault {
        ReplayFault::NoMemory
    }
}
