use std::error::Error;
use std::fmt;

/// Why settings were not read.
#[derive(Clone, Copy, Debug, PartialEq, Eq)]
pub enum SettingsFault {
    /// The rule of this number is broken, and none with a lesser one. The item counts from 1, and is 0 where
    /// no place is told.
    Rule { rule: u8, item: u64 },
    NoMemory,
}

impl fmt::Display for SettingsFault {
    fn fmt<W: fmt::Write>(&self, f: &mut fmt::Formatter<W>) -> fmt::Result {
        match self {
            SettingsFault::Rule { rule, item } => write!(f, "settings break S{rule:02} at {item}"),
            SettingsFault::NoMemory => f.write_str("out of memory"),
        }
    }
}

impl Error for SettingsFault {}
