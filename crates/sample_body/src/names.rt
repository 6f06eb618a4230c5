//! Whether names can stand in a certificate.
ghost use Rattle.std.specs.Prelude.{◌≡◌, ◌↔◌, IsTrue, IfOk, IfErr, OnOk};
ghost use Rattle.std.specs.List.{AllByRecursion};
ghost use Rattle.tbs_build.specs.Names.{IsShort};
ghost use Rattle.tbs_build.specs.Plan as spec;
ghost use Rattle.sample_body.specs.Sample.{CanStand, IsNamesFault};

use crate::fault::Fault;
use gate_base::{NoMemory, Target};
use std::alloc::Global;
use tbs_build::is_short;

fn are_short(alloc: Global, targets: &[Target]) -> Result<bool, NoMemory>
    ensures { IfOk result (λ short. IsTrue short ↔ AllByRecursion IsShort targets.now) }
{
    let mut rest = targets;
    while let [first, others @ ..] = rest {
        if !is_short(alloc, first)? {
            return Ok(false);
        }
        rest = others;
    }
    Ok(true)
}

fn begins_with_name(targets: &[Target]) -> bool
    ensures { result ≡ spec.begins_with_name targets.now }
{
    match targets {
        [Target::Dns(_), ..] => true,
        [Target::Ip(_), ..] => false,
        [] => false,
    }
}

/// Passes names that can stand in a certificate, the first of them as a commonName where one is wanted.
pub fn check_names(alloc: Global, common: bool, targets: &[Target]) -> Result<(), Fault>
    ensures ok { OnOk result (CanStand common targets.now) }
    ensures err { IfErr result (IsNamesFault common targets.now) }
{
    if targets.is_empty() || targets.len() > 255 || !are_short(alloc, targets)? {
        return Err(Fault::Names);
    }
    if common && !begins_with_name(targets) {
        return Err(Fault::Names);
    }
    Ok(())
}
