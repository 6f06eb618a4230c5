//! How the program ends.
ghost use Rattle.std.specs.Prelude.{◌≡◌};
ghost use Rattle.gate_server.specs.Exit.{exit_of, name_of};

/// What `run` answers.
#[derive(Clone, Copy, Debug, PartialEq, Eq)]
pub enum Status {
    /// All output was written, and the source was read to its end.
    Ok,
    /// The words are none that are known.
    Usage,
    /// The settings break the rule of this number, at this item, and none with a lesser number.
    SettingsBad { rule: u8, item: u64 },
    /// Bytes are no message of the two forms, or no caller has the token of these.
    NotBuilt,
    /// The disk has no journal's head.
    NotBegun,
    /// A journal is begun on an empty disk only.
    NotEmpty { length: u64 },
    /// The bytes are no legal journal, from this place on.
    JournalBad { at: u64 },
    DiskFault,
    /// The settings' source failed, or the session's.
    ReadFault { settings: bool },
    WriteFault,
    /// So many bytes were taken without an end.
    StreamLong,
    /// The journal has no room for the changed settings.
    Full,
    ClockFault,
    /// The clock gave a reading before 2025-09-15 or after 2099-12-31.
    ClockRange { reading: u64 },
    NoMemory,
}

impl Status {
    /// The exit status of the program.
    pub fn exit(self) -> u8
        ensures { result ≡ exit_of self }
    {
        match self {
            Status::Ok => 0,
            Status::Usage => 2,
            Status::SettingsBad { .. } => 3,
            Status::NotBegun => 4,
            Status::NotEmpty { .. } => 5,
            Status::JournalBad { .. } => 6,
            Status::DiskFault => 7,
            Status::ReadFault { .. } => 8,
            Status::WriteFault => 9,
            Status::StreamLong => 12,
            Status::ClockFault => 15,
            Status::ClockRange { .. } => 16,
            Status::Full => 17,
            Status::NoMemory => 20,
            Status::NotBuilt => 21,
        }
    }

    /// Its name, as it is told on standard error.
    pub fn name(self) -> &'static str
        ensures { result.now ≡ name_of self }
    {
        match self {
            Status::Ok => "Ok",
            Status::Usage => "Usage",
            Status::SettingsBad { .. } => "SettingsBad",
            Status::NotBegun => "NotBegun",
            Status::NotEmpty { .. } => "NotEmpty",
            Status::JournalBad { .. } => "JournalBad",
            Status::DiskFault => "DiskFault",
            Status::ReadFault { .. } => "ReadFault",
            Status::WriteFault => "WriteFault",
            Status::StreamLong => "StreamLong",
            Status::ClockFault => "ClockFault",
            Status::ClockRange { .. } => "ClockRange",
            Status::Full => "Full",
            Status::NoMemory => "NoMemory",
            Status::NotBuilt => "NotBuilt",
        }
    }
}
