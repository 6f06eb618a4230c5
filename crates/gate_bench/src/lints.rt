//! Bodies that are linted.
ghost use Rattle.std.specs.Prelude.{◌≡◌, length, IfOk};
ghost use Rattle.profile_lint.specs.Lint.{IsListOf};
ghost use Rattle.gate_bench.specs.Rounds as rounds;

use crate::bodies::{FIRST_SECOND, body_with_names};
use crate::fault::Fault;
use crate::profile::example_profile;
use gate_base::{Moment, NoMemory, Profile};
use names_core::Suffixes;
use profile_lint::lint_body;
use std::alloc::Global;

/// Lints the body so many times, and counts the broken rules.
fn lint_often(
    alloc: Global,
    body: &[u8],
    profile: &Profile,
    suffixes: &Suffixes,
    moment: Moment,
    times: u32,
) -> Result<u64, NoMemory>
    ensures { IfOk result (λ broken. rounds.Did (IsListOf body.now profile.now suffixes.now moment) length times broken) }
{
    let mut broken = 0u64;
    for _ in 0..times {
        let rules = lint_body(alloc, body, profile, suffixes, moment)?;
        broken = broken.saturating_add(rules.len() as u64);
    }
    Ok(broken)
}

pub fn report(alloc: Global, names: u8, times: u32) -> Result<String, Fault> {
    let profile = example_profile(alloc)?;
    let body = body_with_names(alloc, &profile, names)?;
    let suffixes = Suffixes::from_rules(alloc, b"com\nexample\n").map_err(Fault::Rules)?;
    let broken = lint_often(
        alloc,
        body.as_slice(),
        &profile,
        &suffixes,
        FIRST_SECOND,
        times,
    )?;
    let size = body.len();
    Ok(format!(in alloc; "lints: {size} bytes linted {times} times, {broken} rules broken in all")?)
}
