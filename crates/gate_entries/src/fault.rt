ghost use Rattle.std.specs.Prelude.{◌≡◌};
ghost use Rattle.gate_entries.specs.declared.fault.FieldFault.TheVariants as fields;

use gate_base::NoMemory;
use std::alloc::{AllocError, AllocFailed};

/// Where the first field begins that is cut off or breaks a rule.
#[derive(Clone, Copy, Debug, PartialEq, Eq)]
pub struct EntryFault {
    pub at: u64,
}

/// Why bytes were not read as an entry.
#[derive(Clone, Copy, Debug, PartialEq, Eq)]
pub enum EntryRead {
    Fault(EntryFault),
    NoMemory,
}

/// Why a field was not read, with the number of bytes that were left at its start.
#[derive(Clone, Copy, Debug, PartialEq, Eq)]
pub enum FieldFault {
    Left(usize),
    NoMemory,
}

impl From<NoMemory> for FieldFault {
    ghost from_gives = { λ _ e. e ≡ fields.NoMemory };

    fn from(_: NoMemory) -> FieldFault {
        FieldFault::NoMemory
    }
}

impl From<AllocError> for FieldFault {
    ghost from_gives = { λ _ e. e ≡ fields.NoMemory };

    fn from(_: AllocError) -> FieldFault {
        FieldFault::NoMemory
    }
}

impl<T: Drop> From<AllocFailed<T>> for FieldFault {
    ghost from_gives = { λ _ e. e ≡ fields.NoMemory };

    fn from(_: AllocFailed<T>) -> FieldFault {
        FieldFault::NoMemory
    }
}
