//! Bodies of certificates.
ghost use Rattle.std.specs.Prelude.{◌≡◌, ◌+◌, ◌≤◌, ◌++◌, length, IsTrue, IfOk, OnOk};
ghost use Rattle.std.specs.List.{AllByRecursion};
ghost use Rattle.public_key.specs.Key.{IsKeyOf};
ghost use Rattle.tbs_build.specs.Names.{IsShort};
ghost use Rattle.cert_fields.specs.Profile.{IsSoundProfile};

use crate::fault::Fault;
use gate_base::{Bytes, KeyKind, Moment, Profile, Sixteen, Target, Targets};
use names_core::read_target;
use public_key::read_key_kind;
use std::alloc::Global;
use tbs_build::{Plan, build, is_short};

/// 2026-09-21T14:13:20Z.
pub const FIRST_SECOND: Moment = Moment(1_790_000_000);

/// 47 days, of which the first second and the last one count (RFC 5280, section 4.1.2.5).
const VALID_FOR: u64 = 47 * 86_400 - 1;

const SERIAL: Sixteen = Sixteen([0x40, 0, 0, 0, 0, 0, 0, 0, 0, 0, 0, 0, 0, 0, 0, 0]);

/// A point of P-256 whose coordinates are 64 bytes `11`.
const P256_KEY: &[u8] =
    b"0Y0\x13\x06\x07*\x86H\xce=\x02\x01\x06\x08*\x86H\xce=\x03\x01\x07\x03B\0\x04\x11\x11\x11\x11\x11\
    \x11\x11\x11\x11\x11\x11\x11\x11\x11\x11\x11\x11\x11\x11\x11\x11\x11\x11\x11\x11\x11\x11\x11\x11\
    \x11\x11\x11\x11\x11\x11\x11\x11\x11\x11\x11\x11\x11\x11\x11\x11\x11\x11\x11\x11\x11\x11\x11\x11\
    \x11\x11\x11\x11\x11\x11\x11\x11\x11\x11\x11";

/// The name with this number.
fn numbered_name(alloc: Global, number: u8) -> Result<Target, Fault>
    ensures { IfOk result IsShort }
{
    let text = format!(in alloc; "www{number:03}.example.com")?;
    let target = read_target(alloc, text.as_bytes()).map_err(Fault::Name)?;
    if is_short(alloc, &target)? {
        Ok(target)
    } else {
        Err(Fault::Body)
    }
}

/// So many names, each another.
fn numbered_names(alloc: Global, count: u8) -> Result<Targets, Fault>
    ensures count { IfOk result (λ targets. length targets ≡ count) }
    ensures short { IfOk result (λ targets. AllByRecursion IsShort targets) }
{
    let mut targets = Targets::new(alloc);
    for number in 0..count {
        targets.push(numbered_name(alloc, number)?)?;
    }
    Ok(targets)
}

fn kind_of(alloc: Global, spki: &[u8]) -> Result<KeyKind, Fault>
    ensures { IfOk result (IsKeyOf spki.now) }
{
    match read_key_kind(alloc, spki)? {
        Some(kind) => Ok(kind),
        None => Err(Fault::Body),
    }
}

/// The body of a certificate with so many names, each another.
pub fn body_with_names(alloc: Global, profile: &Profile, names: u8) -> Result<Bytes, Fault>
    requires { IsSoundProfile profile.now }
{
    if names == 0 {
        return Err(Fault::Body);
    }
    let plan = Plan {
        serial: &SERIAL,
        not_before: FIRST_SECOND,
        not_after: Moment(FIRST_SECOND.0 + VALID_FOR),
        spki: P256_KEY,
        kind: kind_of(alloc, P256_KEY)?,
        targets: &numbered_names(alloc, names)?,
        common: false,
        profile,
    };
    Ok(build(alloc, &plan)?)
}
