//! The program `gate JOURNAL CONF SIGNER WORDS`: begins a journal, or answers a session's messages.
#![tactic(auto)]

mod conf;
#[cfg(test)]
mod faults;
mod opening;
mod reasons;
mod rule_texts;
mod running;
mod session;
mod status;
#[cfg(test)]
mod tests;

use std::process::ExitCode;

fn main(rt: HostRuntime) -> ExitCode {
    opening::run_program(&rt)
}
