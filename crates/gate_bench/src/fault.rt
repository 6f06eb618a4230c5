use der_text::ReadFault;
use gate_base::NoMemory;
use names_core::{NameRead, SuffixFault};
use std::alloc::{AllocError, AllocFailed};
use std::io;

/// Why a measure was not taken.
#[derive(Debug, Drop)]
pub enum Fault {
    Tree(ReadFault),
    Rules(SuffixFault),
    Name(NameRead),
    /// A body has no name, or one or a key that can't stand in a certificate.
    Body,
    Output(io::Error),
    NoMemory,
}

impl From<io::Error> for Fault {
    fn from(fault: io::Error) -> Fault {
        Fault::Output(fault)
    }
}

impl From<NoMemory> for Fault {
    fn from(_: NoMemory) -> Fault {
        Fault::NoMemory
    }
}

impl From<AllocError> for Fault {
    fn from(_: AllocError) -> Fault {
        Fault::NoMemory
    }
}

impl<T: Drop> From<AllocFailed<T>> for Fault {
    fn from(_: AllocFailed<T>) -> Fault {
        Fault::NoMemory
    }
}
