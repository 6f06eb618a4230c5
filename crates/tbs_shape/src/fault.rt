ghost use Rattle.std.specs.Prelude.{◌≡◌};
ghost use Rattle.tbs_shape.specs.declared.fault.BodyFault.TheVariants as faults;

use gate_base::NoMemory;
use std::alloc::{AllocError, AllocFailed};
use std::error::Error;
use std::fmt;

/// Why bytes were not read as the body of a certificate.
#[derive(Clone, Copy, Debug, PartialEq, Eq)]
pub enum BodyFault {
    /// The bytes spell no DER tree, or a tree that has not the shape of a body.
    Shape,
    NoMemory,
}

impl fmt::Display for BodyFault {
    fn fmt<W: fmt::Write>(&self, f: &mut fmt::Formatter<W>) -> fmt::Result {
        f.write_str(match self {
            BodyFault::Shape => "no body of a certificate",
            BodyFault::NoMemory => "out of memory",
        })
    }
}

impl Error for BodyFault {}

impl From<NoMemory> for BodyFault {
    ghost from_gives = { λ _ e. e ≡ faults.NoMemory };

    fn from(_: NoMemory) -> BodyFault {
        BodyFault::NoMemory
    }
}

impl From<AllocError> for BodyFault {
    ghost from_gives = { λ _ e. e ≡ faults.NoMemory };

    fn from(_: AllocError) -> BodyFault {
        BodyFault::NoMemory
    }
}

impl<T: Drop> From<AllocFailed<T>> for BodyFault {
    ghost from_gives = { λ _ e. e ≡ faults.NoMemory };

    fn from(_: AllocFailed<T>) -> BodyFault {
        BodyFault::NoMemory
    }
}
