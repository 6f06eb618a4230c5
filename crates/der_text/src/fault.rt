ghost use Rattle.std.specs.Prelude.{◌≡◌};
ghost use Rattle.der_text.specs.declared.fault.ReadFault.TheVariants as read_faults;

use std::alloc::{AllocError, AllocFailed};
use std::error::Error;
use std::fmt;

/// Which test is broken first.
#[derive(Clone, Copy, Debug, PartialEq, Eq)]
pub enum DerKind {
    /// The bytes end, or the element around ends, before the element does.
    Short = 1,
    /// A tag of several bytes, or a length of indefinite form or of more than four bytes.
    LongForm,
    /// A length that has a shorter form.
    NotShortest,
    /// A content that the rule of its tag forbids.
    BadContent,
    /// An element below the 32nd level.
    TooDeep,
    /// Bytes after the outermost element.
    Trailing,
}

/// The first broken test, and where its element begins.
#[derive(Clone, Copy, Debug, PartialEq, Eq)]
pub struct DerFault {
    pub kind: DerKind,
    pub place: u64,
}

/// Why no tree was read.
#[derive(Clone, Copy, Debug, PartialEq, Eq)]
pub enum ReadFault {
    Der(DerFault),
    NoMemory,
}

impl fmt::Display for ReadFault {
    fn fmt<W: fmt::Write>(&self, f: &mut fmt::Formatter<W>) -> fmt::Result {
        match self {
            ReadFault::Der(fault) => write!(f, "{:?} at byte {}", fault.kind, fault.place),
            ReadFault::NoMemory => f.write_str("out of memory"),
        }
    }
}

impl Error for ReadFault {}

impl From<AllocError> for ReadFault {
    ghost from_gives = { λ _ e. e ≡ read_faults.NoMemory };

    fn from(_: AllocError) -> ReadFault {
        ReadFault::NoMemory
    }
}

impl<T: Drop> From<AllocFailed<T>> for ReadFault {
    ghost from_gives = { λ _ e. e ≡ read_faults.NoMemory };

    fn from(_: AllocFailed<T>) -> ReadFault {
        ReadFault::NoMemory
    }
}
