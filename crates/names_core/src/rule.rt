use gate_base::{Labels, NoMemory};
use std::error::Error;
use std::fmt;

/// How a rule of a public suffix list stands to the names below it.
#[derive(Clone, Copy, Debug, PartialEq, Eq, PartialOrd, Ord, Hash)]
pub enum RuleKind {
    /// The labels are a suffix.
    Plain,
    /// The labels with any one label in front are a suffix.
    Wild,
    /// The labels without the first are a suffix, whatever other rules say.
    Exception,
}

#[derive(Clone, Debug, PartialEq, Eq, Drop)]
pub struct Rule {
    pub kind: RuleKind,
    pub labels: Labels,
}

/// Why a list of rules was not read.
#[derive(Clone, Copy, Debug, PartialEq, Eq)]
pub enum SuffixFault {
    /// The line of this number, from 1, is no rule.
    Line(u64),
    TooMany,
    NoMemory,
}

impl fmt::Display for SuffixFault {
    fn fmt<W: fmt::Write>(&self, f: &mut fmt::Formatter<W>) -> fmt::Result {
        match self {
            SuffixFault::Line(number) => write!(f, "line {number} is no rule"),
            SuffixFault::TooMany => f.write_str("too many rules"),
            SuffixFault::NoMemory => f.write_str("out of memory"),
        }
    }
}

impl Error for SuffixFault {}

impl From<NoMemory> for SuffixFault {
    ghost use Rattle.std.specs.Prelude.{◌≡◌};
    ghost use Rattle.names_core.specs.declared.rule.SuffixFault.TheVariants as errors;

    ghost from_gives = { λ _ e. e ≡ errors.NoMemory };

    fn from(_: NoMemory) -> SuffixFault {
        SuffixFault::NoMemory
    }
}
