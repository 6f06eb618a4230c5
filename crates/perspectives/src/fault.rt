ghost use Rattle.std.specs.Prelude.{◌≡◌};

use gate_base::NoMemory as OutOfMemory;
use std::alloc::{AllocError, AllocFailed};
use std::error::Error;
use std::fmt;

/// Why a list of perspectives is no panel. Places count from 0.
#[derive(Clone, Copy, Debug, PartialEq, Eq)]
pub enum PanelFault {
    /// More than 33 members.
    TooMany,
    NoPrimary,
    /// More than one primary.
    TwicePrimary,
    /// Two members with one name.
    TwiceNamed,
    /// This member has a coordinate outside -20,000 to 20,000.
    BadPlace(u64),
    /// These two members are less than 500 kilometres apart.
    TooNear(u64, u64),
    NoMemory,
}

impl fmt::Display for PanelFault {
    fn fmt<W: fmt::Write>(&self, f: &mut fmt::Formatter<W>) -> fmt::Result {
        match self {
            PanelFault::TooMany => f.write_str("more than 33 perspectives"),
            PanelFault::NoPrimary => f.write_str("no primary perspective"),
            PanelFault::TwicePrimary => f.write_str("more than one primary perspective"),
            PanelFault::TwiceNamed => f.write_str("two perspectives with one name"),
            PanelFault::BadPlace(at) => write!(f, "perspective {at} has a place out of range"),
            PanelFault::TooNear(first, second) => {
                write!(f, "perspectives {first} and {second} are too near")
            }
            PanelFault::NoMemory => f.write_str("out of memory"),
        }
    }
}

impl Error for PanelFault {}

impl From<OutOfMemory> for PanelFault {
    ghost use Rattle.perspectives.specs.declared.fault.PanelFault.TheVariants.{NoMemory as Exhausted};

    ghost from_gives = { λ _ fault. fault ≡ Exhausted };

    fn from(_: OutOfMemory) -> PanelFault {
        PanelFault::NoMemory
    }
}
