//! The program's words, files and streams.

use crate::reasons::{Paths, Why, tell};
use crate::running::run;
use crate::status::Status;
use gate_base::Bytes;
use plant::{
    FileFault, FilePlant, JournalFile, Signer, StandardNumbers, StdSink, StdSource, SystemClock,
    SystemEntropy,
};
use std::fs::{File, OpenFile};
use std::process::ExitCode;
use std::{env, io};

/// Runs the program with the words that it was started with.
pub fn run_program(rt: &HostRuntime) -> ExitCode {
    // Before any file is opened, so that none gets a standard number.
    let status = match StandardNumbers::hold(rt) {
        Ok(_held) => run_words(rt),
        Err(error) => {
            let paths = Paths {
                journal: "/",
                settings: "",
                begins: false,
            };
            tell(rt, paths, Status::DiskFault, Why::System(error));
            Status::DiskFault
        }
    };
    ExitCode::from(status.exit())
}

fn run_words(rt: &HostRuntime) -> Status {
    let Ok(args) = env::args(rt) else {
        return refused(rt, Status::Usage);
    };
    let Ok(words) = args.skip(1).collect::<Vec<String>>(rt.alloc()) else {
        return refused(rt, Status::NoMemory);
    };
    let [journal, settings, signer, words @ ..] = words.as_slice() else {
        return refused(rt, Status::Usage);
    };
    let paths = Paths {
        journal: journal.as_str(),
        settings: settings.as_str(),
        begins: begins(words),
    };
    let (status, why) = match read_signer(rt, signer.as_str()) {
        Ok(signer) => open_and_run(rt, paths, signer, words),
        Err(status) => (status, Why::Signer),
    };
    tell(rt, paths, status, why);
    status
}

/// Tells a status that comes before the words are known.
fn refused(rt: &HostRuntime, status: Status) -> Status {
    let paths = Paths {
        journal: "",
        settings: "",
        begins: false,
    };
    tell(rt, paths, status, Why::Unknown);
    status
}

/// `standin:HEX` or `loopback:PORT`.
fn read_signer(rt: &HostRuntime, text: &str) -> Result<Signer, Status> {
    if let Some(digits) = text.strip_prefix("standin:") {
        return read_secret(rt, digits);
    }
    match text.strip_prefix("loopback:").and_then(read_port) {
        Some(port) => Ok(Signer::Loopback { port }),
        None => Err(Status::Usage),
    }
}

/// A secret in 2 to 128 hexadecimal digits, an even number.
fn read_secret(rt: &HostRuntime, digits: &str) -> Result<Signer, Status> {
    if digits.is_empty() || digits.len() > 128 {
        return Err(Status::Usage);
    }
    match hex::decode(rt.alloc(), digits.as_bytes()) {
        Ok(secret) => Ok(Signer::StandIn(Bytes::from_vec(secret))),
        Err(hex::FromHexError::OutOfMemory) => Err(Status::NoMemory),
        Err(_) => Err(Status::Usage),
    }
}

/// A port from 1 to 65,535 in decimal, without leading zeros.
fn read_port(digits: &str) -> Option<u16> {
    match digits.as_bytes() {
        [b'1'..=b'9', ..] => digits.parse::<u16>().ok(),
        _ => None,
    }
}

/// Opens and locks the journal, and then opens the settings; `begin` creates the journal's file where it is absent.
fn open_and_run(
    rt: &HostRuntime,
    paths: Paths<'_>,
    signer: Signer,
    words: &[String],
) -> (Status, Why) {
    let journal = match open_journal(rt, paths.journal, words) {
        Ok(journal) => journal,
        Err(fault) => return (Status::DiskFault, Why::File(fault)),
    };
    let settings = match File::open(rt, paths.settings) {
        Ok(settings) => settings,
        Err(error) => return (Status::ReadFault { settings: true }, Why::System(error)),
    };
    run_over(rt, FilePlant::new(rt, journal, signer), settings, words)
}

fn begins(words: &[String]) -> bool {
    matches!(words, [word] if word.as_str() == "begin")
}

fn open_journal(rt: &HostRuntime, path: &str, words: &[String]) -> Result<JournalFile, FileFault> {
    if begins(words) {
        JournalFile::create(rt, rt.alloc(), path)
    } else {
        JournalFile::open(rt, path)
    }
}

/// Runs over the opened files and the standard streams, and returns the status and why it came.
fn run_over(
    rt: &HostRuntime,
    mut plant: FilePlant<'_, HostRuntime>,
    settings: File,
    words: &[String],
) -> (Status, Why) {
    let mut conf = StdSource::new(settings);
    let mut source = StdSource::new(rt.stdin());
    let mut sink = StdSink::new(rt.stdout());
    let mut clock = SystemClock::new(rt);
    let mut entropy = SystemEntropy::new(rt);
    let status = run(
        rt.alloc(),
        words,
        &mut conf,
        &mut plant,
        &mut clock,
        &mut entropy,
        &mut source,
        &mut sink,
    );
    let why = match status {
        Status::DiskFault => why_file(plant.last_fault()),
        Status::ReadFault { settings: true } => why_system(conf.last_fault()),
        Status::ReadFault { settings: false } => why_system(source.last_fault()),
        Status::WriteFault => why_system(sink.last_fault()),
        _ => Why::Unknown,
    };
    (status, why)
}

fn why_file(fault: Option<FileFault>) -> Why {
    match fault {
        Some(fault) => Why::File(fault),
        None => Why::Unknown,
    }
}

fn why_system(error: Option<io::Error>) -> Why {
    match error {
        Some(error) => Why::System(error),
        None => Why::Unknown,
    }
}
