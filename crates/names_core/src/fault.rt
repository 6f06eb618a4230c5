use gate_base::NoMemory;
use std::alloc::{AllocError, AllocFailed};
use std::error::Error;
use std::fmt;

/// What is wrong with a text that should be a name or an address.
#[derive(Clone, Copy, Debug, PartialEq, Eq, PartialOrd, Ord, Hash)]
pub enum NameFault {
    /// There is no text, or an empty label.
    Empty = 1,
    /// A label has more than 63 bytes.
    LongLabel,
    /// The text has more than 253 bytes.
    LongName,
    /// A byte is no letter, digit, hyphen or asterisk.
    BadByte,
    /// A hyphen stands where none may.
    BadHyphen,
    /// A label begins with `xn--`, and its rest is no Punycode.
    BadPunycode,
    /// An asterisk stands elsewhere than in `*.` at the front.
    BadStar,
    /// The text has the form of an address, and isn't written as one.
    BadAddress,
}

/// Why a text was not read.
#[derive(Clone, Copy, Debug, PartialEq, Eq)]
pub enum NameRead {
    Fault(NameFault),
    NoMemory,
}

impl fmt::Display for NameFault {
    fn fmt<W: fmt::Write>(&self, f: &mut fmt::Formatter<W>) -> fmt::Result {
        f.write_str(match self {
            NameFault::Empty => "an empty label",
            NameFault::LongLabel => "a label above 63 bytes",
            NameFault::LongName => "a name above 253 bytes",
            NameFault::BadByte => "a byte that no name has",
            NameFault::BadHyphen => "a misplaced hyphen",
            NameFault::BadPunycode => "bad Punycode",
            NameFault::BadStar => "a misplaced asterisk",
            NameFault::BadAddress => "a malformed address",
        })
    }
}

impl fmt::Display for NameRead {
    fn fmt<W: fmt::Write>(&self, f: &mut fmt::Formatter<W>) -> fmt::Result {
        match self {
            NameRead::Fault(fault) => write!(f, "{fault}"),
            NameRead::NoMemory => f.write_str("out of memory"),
        }
    }
}

impl Error for NameFault {}

impl Error for NameRead {}

impl From<NoMemory> for NameRead {
    ghost use Rattle.std.specs.Prelude.{◌≡◌};
    ghost use Rattle.names_core.specs.declared.fault.NameRead.TheVariants as errors;

    ghost from_gives = { λ _ e. e ≡ errors.NoMemory };

    fn from(_: NoMemory) -> NameRead {
        NameRead::NoMemory
    }
}
