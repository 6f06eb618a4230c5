//! Names that are looked up among public suffix rules.
ghost use Rattle.std.specs.Prelude.{◌≡◌, ◌≤◌, length, Some, IfOk};
ghost use Rattle.gate_bench.specs.Rounds as rounds;

use crate::fault::Fault;
use gate_base::Name;
use names_core::{Suffixes, read_name};
use std::alloc::{AllocError, Global};

/// How many names are asked for in turn.
const NAMES: u32 = 64;

/// The text of so many rules, each with a name of its own.
fn rules_text(alloc: Global, rules: u16) -> Result<String, AllocError> {
    let mut text = String::new(alloc);
    for rule in 0..rules {
        writeln!(text, "a{rule}.example")?;
    }
    Ok(text)
}

/// Names spread over the rules, of which one in four is under no rule.
fn names_among(alloc: Global, rules: u16) -> Result<Vec<Name>, Fault>
    ensures { IfOk result (λ names. length names.items ≡ 64) }
{
    let mut names = Vec::new(alloc);
    for turn in 0..NAMES {
        let rule = u32::from(rules) * turn / NAMES;
        let letter = if turn % 4 == 3 { 'b' } else { 'a' };
        let text = format!(in alloc; "www.{letter}{rule}.example")?;
        names.push(read_name(alloc, text.as_bytes()).map_err(Fault::Name)?)?;
    }
    Ok(names)
}

/// One for a name that has a base, otherwise none.
fn has_base(suffixes: &Suffixes, name: &Name) -> u32
    ensures count { result ≡ rounds.has_base suffixes.now (Some name.now) }
    ensures one { result ≤ 1 }
{
    match suffixes.base_len(name) {
        Some(_) => 1,
        None => 0,
    }
}

/// Asks so many times for the base of a name, and counts the names that have one.
fn ask_often(suffixes: &Suffixes, names: &[Name], times: u32) -> u32
    requires { length names.now ≡ 64 }
    ensures { result ≡ rounds.bases_found suffixes.now names.now times }
{
    let mut found = 0u32;
    for turn in 0..times {
        found += has_base(suffixes, &names[(turn % NAMES) as usize]);
    }
    found
}

pub fn report(alloc: Global, rules: u16, times: u32) -> Result<String, Fault> {
    let text = rules_text(alloc, rules)?;
    let suffixes = Suffixes::from_rules(alloc, text.as_bytes()).map_err(Fault::Rules)?;
    let names = names_among(alloc, rules)?;
    let found = ask_often(&suffixes, names.as_slice(), times);
    Ok(format!(in alloc; "suffixes: {rules} rules asked {times} times, {found} names with a base")?)
}
