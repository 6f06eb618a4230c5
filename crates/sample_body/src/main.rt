//! The body of a certificate for a request: `SERIAL NOT_BEFORE SUBJECT ALGORITHM` reads a request from standard input
//! as DER, and prints in hexadecimal the body that a plan for it has.
#![tactic(auto)]

mod fault;
mod names;
mod profile;
mod sample;
mod words;

use crate::fault::Fault;
use crate::sample::{LONGEST_REQUEST, body_for};
use crate::words::read_words;
use std::io::Read;
use std::process::ExitCode;

/// A request that is too long is read so far that this shows.
const ENOUGH: u64 = LONGEST_REQUEST as u64 + 1;

/// Reads the words and the request, and prints the body.
fn print_body(rt: &HostRuntime) -> Result<(), Fault> {
    let words: Vec<String> = std::env::args(rt)?.collect(rt.alloc())?;
    let Some(wanted) = read_words(words.as_slice()) else {
        return Err(Fault::Usage);
    };
    let mut request = Vec::new(rt.alloc());
    rt.stdin()
        .take(ENOUGH)
        .read_to_end(&mut request)
        .map_err(Fault::Input)?;
    let body = body_for(rt.alloc(), &wanted, request.as_slice())?;
    let text = hex::encode(rt.alloc(), body.as_slice())?;
    println!(rt; "{text}")?;
    Ok(())
}

fn main(rt: HostRuntime) -> ExitCode {
    match print_body(&rt) {
        Ok(()) => ExitCode::SUCCESS,
        Err(fault) => {
            let _ = eprintln!(rt; "sample_body: {fault}");
            ExitCode::from(fault.exit())
        }
    }
}
