ghost use Rattle.std.specs.Prelude.{◌≡◌};
ghost use Rattle.csr10.specs.declared.fault.CsrFault.TheVariants as csr_faults;

use der_text::DerFault;
use gate_base::NoMemory;
use std::alloc::{AllocError, AllocFailed};
use std::error::Error;
use std::fmt;

/// Why bytes were not read as a request. Of several faults the first in this order is told.
#[derive(Clone, Copy, Debug, PartialEq, Eq)]
pub enum CsrFault {
    /// The bytes spell no DER tree.
    Der(DerFault),
    /// The tree is no request.
    Shape,
    /// The version isn't 0.
    Version,
    /// The key is none that is certified.
    Key,
    /// There is more than one subjectAltName.
    SanTwice,
    /// The name at this place, from 0, is no target.
    SanName(u64),
    NoMemory,
}

impl fmt::Display for CsrFault {
    fn fmt<W: fmt::Write>(&self, f: &mut fmt::Formatter<W>) -> fmt::Result {
        match self {
            CsrFault::Der(fault) => write!(f, "{:?} at byte {}", fault.kind, fault.place),
            CsrFault::Shape => f.write_str("no certificate request"),
            CsrFault::Version => f.write_str("a version other than 0"),
            CsrFault::Key => f.write_str("a key that is not certified"),
            CsrFault::SanTwice => f.write_str("two subjectAltName extensions"),
            CsrFault::SanName(place) => write!(f, "name {place} is no target"),
            CsrFault::NoMemory => f.write_str("out of memory"),
        }
    }
}

impl Error for CsrFault {}

impl From<NoMemory> for CsrFault {
    ghost from_gives = { λ _ e. e ≡ csr_faults.NoMemory };

    fn from(_: NoMemory) -> CsrFault {
        CsrFault::NoMemory
    }
}

impl From<AllocError> for CsrFault {
    ghost from_gives = { λ _ e. e ≡ csr_faults.NoMemory };

    fn from(_: AllocError) -> CsrFault {
        CsrFault::NoMemory
    }
}

impl<T: Drop> From<AllocFailed<T>> for CsrFault {
    ghost from_gives = { λ _ e. e ≡ csr_faults.NoMemory };

    fn from(_: AllocFailed<T>) -> CsrFault {
        CsrFault::NoMemory
    }
}
