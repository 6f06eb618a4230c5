ghost use Rattle.std.specs.Prelude.{◌≡◌};
ghost use Rattle.sample_body.specs.Sample.{IsFromRequest};
ghost use Rattle.sample_body.specs.declared.fault.Fault.TheVariants as faults;

use csr10::CsrFault;
use gate_base::NoMemory;
use std::alloc::{AllocError, AllocFailed};
use std::{fmt, io};

/// Why no body is printed.
#[derive(Debug, Drop)]
pub enum Fault {
    /// The words are none that are known.
    Usage,
    /// The request has more than 16,384 bytes.
    Long,
    /// The bytes are no request that is certified.
    Request(CsrFault),
    /// The request has no subjectAltName.
    NoNames,
    /// It has no name, more than 255 or one that is too long, or begins with an address where a commonName is wanted.
    Names,
    /// Its key has more than 16,384 bytes.
    Key,
    Input(io::Error),
    Output(io::Error),
    NoMemory,
}

impl Fault {
    /// The exit status of the program.
    pub fn exit(&self) -> u8 {
        match self {
            Fault::Usage => 2,
            Fault::Request(_) => 3,
            Fault::NoNames => 4,
            Fault::Names => 5,
            Fault::Key => 6,
            Fault::Long => 7,
            Fault::Input(_) => 8,
            Fault::Output(_) => 9,
            Fault::NoMemory => 20,
        }
    }
}

impl fmt::Display for Fault {
    fn fmt<W: fmt::Write>(&self, f: &mut fmt::Formatter<W>) -> fmt::Result {
        match self {
            Fault::Usage => f.write_str(
                "usage: sample_body SERIAL NOT_BEFORE empty-subject|common-name \
                 ecdsa-with-SHA256|ecdsa-with-SHA384|sha256WithRSAEncryption",
            ),
            Fault::Long => f.write_str("a request of more than 16384 bytes"),
            Fault::Request(fault) => write!(f, "{fault}"),
            Fault::NoNames => f.write_str("no subjectAltName"),
            Fault::Names => f.write_str("names that can't stand in a certificate"),
            Fault::Key => f.write_str("a key that is too long"),
            Fault::Input(fault) => write!(f, "{fault}"),
            Fault::Output(fault) => write!(f, "{fault}"),
            Fault::NoMemory => f.write_str("out of memory"),
        }
    }
}

impl From<CsrFault> for Fault {
    ghost from_gives = { λ fault e. IsFromRequest fault e };

    fn from(fault: CsrFault) -> Fault {
        match fault {
            CsrFault::NoMemory => Fault::NoMemory,
            other => Fault::Request(other),
        }
    }
}

impl From<io::Error> for Fault {
    fn from(fault: io::Error) -> Fault {
        Fault::Output(fault)
    }
}

impl From<NoMemory> for Fault {
    ghost from_gives = { λ _ e. e ≡ faults.NoMemory };

    fn from(_: NoMemory) -> Fault {
        Fault::NoMemory
    }
}

impl From<AllocError> for Fault {
    ghost from_gives = { λ _ e. e ≡ faults.NoMemory };

    fn from(_: AllocError) -> Fault {
        Fault::NoMemory
    }
}

impl<T: Drop> From<AllocFailed<T>> for Fault {
    ghost from_gives = { λ _ e. e ≡ faults.NoMemory };

    fn from(_: AllocFailed<T>) -> Fault {
        Fault::NoMemory
    }
}
