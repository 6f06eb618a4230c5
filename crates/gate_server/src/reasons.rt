//! What is printed on standard error: the line `gate: STATUS`, and behind it, indented by two spaces, why.

use crate::rule_texts::rule_text;
use crate::status::Status;
use journal_core::FIRST_GATE;
use plant::FileFault;
use std::io::{self, ErrorKind};

/// What of the words a cause may tell: the two paths, and whether a journal was to be begun.
#[derive(Clone, Copy)]
pub struct Paths<'a> {
    pub journal: &'a str,
    pub settings: &'a str,
    pub begins: bool,
}

/// What is known of the cause beside the status.
#[derive(Clone, Copy)]
pub enum Why {
    Unknown,
    /// The word for the signer is of neither form.
    Signer,
    /// The system's error of the file or stream that the status names.
    System(io::Error),
    /// What is wrong with the journal's file.
    File(FileFault),
}

/// Prints the lines of a status; Ok has none. Where standard error can't be written, nothing is told.
pub fn tell(rt: &HostRuntime, paths: Paths<'_>, status: Status, why: Why) {
    if status == Status::Ok {
        return;
    }
    let name = status.name();
    let _ = eprintln!(rt; "gate: {name}");
    let _ = match status {
        Status::Usage => tell_usage(rt, why),
        Status::SettingsBad { rule, item } => tell_rule(rt, paths.settings, rule, item),
        Status::DiskFault => tell_disk(rt, paths, why),
        Status::ReadFault { settings: true } => tell_system(rt, paths.settings, why),
        Status::ReadFault { settings: false } => tell_system(rt, "standard input", why),
        Status::WriteFault => tell_system(rt, "standard output", why),
        _ => tell_rest(rt, paths.journal, status),
    };
}

fn tell_usage(rt: &HostRuntime, why: Why) -> io::Result<()> {
    eprintln!(rt; "usage: gate JOURNAL CONF SIGNER WORDS")?;
    match why {
        Why::Signer => {
            eprintln!(rt;
                "  SIGNER is standin:HEX with 2 to 128 hexadecimal digits, an even number,"
            )?;
            eprintln!(rt; "  or loopback:PORT with a port from 1 to 65535")
        }
        _ => eprintln!(rt; "  JOURNAL and CONF are paths, WORDS is begin or session"),
    }
}

fn tell_disk(rt: &HostRuntime, paths: Paths<'_>, why: Why) -> io::Result<()> {
    let path = paths.journal;
    match why {
        Why::File(FileFault::System(error)) | Why::System(error) => {
            eprintln!(rt; "  {path}: {error}")?;
            tell_help(rt, error.kind(), paths.begins)
        }
        Why::File(FileFault::NotRegular) => eprintln!(rt; "  {path}: it is no regular file"),
        Why::File(FileFault::Locked) => eprintln!(rt; "  {path}: another gate has the journal"),
        Why::File(FileFault::Unlinked) => {
            eprintln!(rt; "  {path}: the file was removed while the gate had it")
        }
        Why::File(FileFault::Cut { length, known }) => {
            eprintln!(rt;
                "  {path}: the file was cut from {known} bytes to {length} while the gate had it"
            )
        }
        Why::File(FileFault::TooLong { limit }) => {
            eprintln!(rt; "  {path}: files may have {limit} bytes at most (ulimit -f)")
        }
        _ => Ok(()),
    }
}

fn tell_help(rt: &HostRuntime, kind: ErrorKind, begins: bool) -> io::Result<()> {
    match kind {
        ErrorKind::NotFound => {
            eprintln!(rt;
                "  no journal was begun there: begin creates the file, but not its folder"
            )
        }
        ErrorKind::StorageFull | ErrorKind::QuotaExceeded if begins => {
            eprintln!(rt;
                "  there is no room, and no journal was begun: make room, remove the file, and begin again"
            )
        }
        ErrorKind::StorageFull | ErrorKind::QuotaExceeded => {
            eprintln!(rt;
                "  there is no room: what was answered stands, and the next session goes on with more room"
            )
        }
        _ => Ok(()),
    }
}

fn tell_system(rt: &HostRuntime, what: &str, why: Why) -> io::Result<()> {
    match why {
        Why::System(error) => eprintln!(rt; "  {what}: {error}"),
        _ => Ok(()),
    }
}

fn tell_rule(rt: &HostRuntime, path: &str, rule: u8, item: u64) -> io::Result<()> {
    let text = rule_text(rule);
    let broken = text.broken;
    eprintln!(rt; "  {path}: it breaks S{rule:02}: {broken}")?;
    let counts = text.counts;
    if item > 0 && !counts.is_empty() {
        eprintln!(rt; "  the first is {counts} {item}")?;
    }
    let remedy = text.remedy;
    eprintln!(rt; "  {remedy}")
}

fn tell_bad(rt: &HostRuntime, path: &str, at: u64) -> io::Result<()> {
    eprintln!(rt; "  {path}: it is no legal journal from byte {at} on")?;
    if at != FIRST_GATE {
        return Ok(());
    }
    eprintln!(rt;
        "  where no session was answered over it, its begin was stopped: remove the file, and begin again"
    )?;
    eprintln!(rt; "  otherwise it is damaged: keep it")
}

fn tell_rest(rt: &HostRuntime, path: &str, status: Status) -> io::Result<()> {
    match status {
        Status::NotBegun => eprintln!(rt;
            "  {path}: no journal was begun in this file: begin does, in an empty or absent one"
        ),
        Status::NotEmpty { length } => {
            eprintln!(rt;
                "  {path}: it has {length} bytes, and a journal is begun in an empty or absent file"
            )
        }
        Status::JournalBad { at } => tell_bad(rt, path, at),
        Status::NotBuilt => eprintln!(rt;
            "  standard input: what stands next is no message, or no caller has its token"
        ),
        Status::StreamLong => eprintln!(rt;
            "  standard input: 1073741824 bytes came without an end"
        ),
        Status::ClockFault => eprintln!(rt; "  the system's clock can't be read"),
        Status::ClockRange { reading } => {
            eprintln!(rt;
                "  the system's clock reads {reading} seconds since 1970: before 2025-09-15 or after 2099-12-31"
            )
        }
        Status::Full => {
            eprintln!(rt; "  {path}: the journal has no room for the changed settings")?;
            eprintln!(rt; "  with the settings that it ends with a session still answers")
        }
        Status::NoMemory => eprintln!(rt; "  out of memory"),
        _ => Ok(()),
    }
}
