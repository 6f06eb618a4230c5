//! Measures of the libraries: `WHAT SIZE TIMES` does one kind of work, and prints what it did in a line.
#![tactic(auto)]

mod bodies;
mod digests;
mod fault;
mod lints;
mod lookups;
mod profile;
mod trees;
mod words;

use crate::fault::Fault;
use crate::words::{Work, read_work};
use std::alloc::Global;
use std::process::ExitCode;

const USAGE: &str = "usage: gate_bench trees|suffixes|sha256|lints|body-sha256|all SIZE TIMES
SIZE is 1 to 255 kilobytes, of suffixes 1 to 16384 rules, of lints and body-sha256 1 to 255 names";

/// Does each kind of work at one size, a line each.
fn report_all(alloc: Global, size: u8, times: u32) -> Result<String, Fault> {
    let trees = trees::report(alloc, size, times)?;
    let lookups = lookups::report(alloc, u16::from(size), times)?;
    let digests = digests::report(alloc, size, times)?;
    let lints = lints::report(alloc, size, times)?;
    let bodies = digests::report_body(alloc, size, times)?;
    Ok(format!(in alloc; "{trees}\n{lookups}\n{digests}\n{lints}\n{bodies}")?)
}

/// Does the work so many times, and tells of it.
fn report(alloc: Global, work: Work, times: u32) -> Result<String, Fault> {
    match work {
        Work::Trees(kilobytes) => trees::report(alloc, kilobytes, times),
        Work::Suffixes(rules) => lookups::report(alloc, rules, times),
        Work::Sha256(kilobytes) => digests::report(alloc, kilobytes, times),
        Work::Lints(names) => lints::report(alloc, names, times),
        Work::BodySha256(names) => digests::report_body(alloc, names, times),
        Work::All(size) => report_all(alloc, size, times),
    }
}

fn main(rt: HostRuntime) -> Result<ExitCode, Fault> {
    let words: Vec<String> = std::env::args(&rt)?.collect(rt.alloc())?;
    let Some((work, times)) = read_work(words.as_slice()) else {
        eprintln!(rt; "{USAGE}")?;
        return Ok(ExitCode::from(2));
    };
    let report = report(rt.alloc(), work, times)?;
    println!(rt; "{report}")?;
    Ok(ExitCode::SUCCESS)
}
