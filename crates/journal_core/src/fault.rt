//! Why a journal was not begun, mounted or made longer.
ghost use Rattle.std.specs.Prelude.{◌≡◌};

use gate_base::NoMemory;
use plant::DiskFault;

#[derive(Clone, Copy, Debug, PartialEq, Eq)]
pub enum BeginFault {
    Disk,
    NotEmpty { length: u64 },
    NoMemory,
}

#[derive(Clone, Copy, Debug, PartialEq, Eq)]
pub enum MountFault {
    NotBegun,
    /// At this place of the file no record lies whole, or its length is none of a payload.
    BadHead { at: u64 },
    TooLong { length: u64 },
    Disk,
    NoMemory,
}

/// The disk failed while a record was appended. It may be there or not, or in part.
#[derive(Clone, Copy, Debug, PartialEq, Eq)]
pub struct AppendDisk;

impl From<DiskFault> for BeginFault {
    ghost use Rattle.journal_core.specs.declared.fault.BeginFault.TheVariants as begin_faults;

    ghost from_gives = { λ _ e. e ≡ begin_faults.Disk };

    fn from(_: DiskFault) -> BeginFault {
        BeginFault::Disk
    }
}

impl From<NoMemory> for BeginFault {
    ghost use Rattle.journal_core.specs.declared.fault.BeginFault.TheVariants as begin_faults;

    ghost from_gives = { λ _ e. e ≡ begin_faults.NoMemory };

    fn from(_: NoMemory) -> BeginFault {
        BeginFault::NoMemory
    }
}

impl From<DiskFault> for MountFault {
    ghost use Rattle.journal_core.specs.declared.fault.MountFault.TheVariants as mount_faults;

    ghost from_gives = { λ _ e. e ≡ mount_faults.Disk };

    fn from(_: DiskFault) -> MountFault {
        MountFault::Disk
    }
}

impl From<NoMemory> for MountFault {
    ghost use Rattle.journal_core.specs.declared.fault.MountFault.TheVariants as mount_faults;

    ghost from_gives = { λ _ e. e ≡ mount_faults.NoMemory };

    fn from(_: NoMemory) -> MountFault {
        MountFault::NoMemory
    }
}
