ghost use Rattle.std.specs.Prelude.{◌≡◌, length, IsTrue, IfOk};
ghost use Rattle.std.specs.List.{AllByRecursion};
ghost use Rattle.public_key.specs.Key.{IsKeyOf};
ghost use Rattle.tbs_build.specs.Names.{IsShort};
ghost use Rattle.tbs_build.specs.Plan.{IsSound, plan_of};
ghost use Rattle.cert_fields.specs.Profile.{IsSoundProfile};
ghost use Rattle.sound_body.specs.Rules.{CanBeBroken, HasItsOctets};

use crate::the_lint_of_a_sound_body;
use cert_fields::is_sound_profile;
use gate_base::{
    Address, Bytes, KeyKind, Moment, NoMemory, Profile, Rules, SigAlg, Sixteen, Sixteen4, Target,
    Targets,
};
use names_core::{Suffixes, read_target};
use profile_lint::lint_body;
use public_key::read_key_kind;
use std::alloc::Global;
use tbs_build::{Plan, build, is_short};

const SERIAL: Sixteen = Sixteen([0x40, 0, 0, 0, 0, 0, 0, 0, 0, 0, 0, 0, 0, 0, 0, 0]);

/// The shortest name, without attributes: here it only has to be the profile's.
const ISSUER: &[u8] = b"0\0";

/// A point of P-256 whose coordinates are 64 bytes `11`.
const P256_KEY: &[u8] =
    b"0Y0\x13\x06\x07*\x86H\xce=\x02\x01\x06\x08*\x86H\xce=\x03\x01\x07\x03B\0\x04\x11\x11\x11\x11\x11\
    \x11\x11\x11\x11\x11\x11\x11\x11\x11\x11\x11\x11\x11\x11\x11\x11\x11\x11\x11\x11\x11\x11\x11\x11\
    \x11\x11\x11\x11\x11\x11\x11\x11\x11\x11\x11\x11\x11\x11\x11\x11\x11\x11\x11\x11\x11\x11\x11\x11\
    \x11\x11\x11\x11\x11\x11\x11\x11\x11\x11\x11";

/// 2026-09-21T14:13:20Z, when 200 days are allowed.
const NOW: Moment = Moment(1_790_000_000);

fn has_length(octets: &[u8], len: usize) -> bool
    ensures { IsTrue result → length octets.now ≡ len }
{
    octets.len() == len
}

fn has_its_octets(target: &Target) -> bool
    ensures { IsTrue result → HasItsOctets target.now }
{
    match target {
        Target::Dns(_) => true,
        Target::Ip(Address::V4(octets)) => has_length(octets, 4),
        Target::Ip(Address::V6(octets)) => has_length(octets, 16),
    }
}

/// One target.
fn one(alloc: Global, text: &[u8]) -> Result<Targets, NoMemory>
    ensures { IfOk result (λ targets. (length targets ≡ 1) × AllByRecursion IsShort targets
        × AllByRecursion HasItsOctets targets) }
{
    let Ok(only) = read_target(alloc, text) else {
        return Err(NoMemory);
    };
    if !is_short(alloc, &only)? || !has_its_octets(&only) {
        return Err(NoMemory);
    }
    let mut targets = Targets::new(alloc);
    targets.push(only)?;
    Ok(targets)
}

fn profile(alloc: Global) -> Result<Profile, NoMemory>
    ensures { IfOk result (λ profile. IsSoundProfile profile) }
{
    let profile = Profile {
        issuer: Bytes::from_slice(alloc, ISSUER)?,
        alg: SigAlg::EcdsaSha384,
        key_id: Sixteen4([0x22; 20]),
        crl: Bytes::from_slice(alloc, b"http://c.example/1.crl")?,
        aia: Bytes::from_slice(alloc, b"http://c.example/1.cer")?,
    };
    if is_sound_profile(alloc, &profile)? {
        Ok(profile)
    } else {
        Err(NoMemory)
    }
}

fn key_kind(alloc: Global, spki: &[u8]) -> Result<KeyKind, NoMemory>
    ensures { IfOk result (IsKeyOf spki.now) }
{
    match read_key_kind(alloc, spki)? {
        Some(kind) => Ok(kind),
        None => Err(NoMemory),
    }
}

/// The rules that the plan's body breaks at its first second.
fn lint_at_first(alloc: Global, plan: &Plan<'_>, suffixes: &Suffixes) -> Result<Rules, NoMemory>
    requires sound { IsSound (plan_of plan.now) }
    requires octets { AllByRecursion HasItsOctets (plan_of plan.now).targets }
    ensures { IfOk result (λ list. AllByRecursion CanBeBroken list) }
{
    the_lint_of_a_sound_body();
    let body = build(alloc, plan)?;
    let list = lint_body(
        alloc,
        body.as_slice(),
        plan.profile,
        suffixes,
        plan.not_before,
    )?;
    Ok(list)
}

/// The rules that the body for a target breaks at its first second, where it is valid for so many more.
fn lint_of(alloc: Global, text: &[u8], seconds: u32) -> Result<Rules, NoMemory>
    ensures { IfOk result (λ list. AllByRecursion CanBeBroken list) }
{
    let profile = profile(alloc)?;
    let targets = one(alloc, text)?;
    let plan = Plan {
        serial: &SERIAL,
        not_before: NOW,
        not_after: Moment(NOW.0 + u64::from(seconds)),
        spki: P256_KEY,
        kind: key_kind(alloc, P256_KEY)?,
        targets: &targets,
        common: false,
        profile: &profile,
    };
    let Ok(suffixes) = Suffixes::from_rules(alloc, b"com\n") else {
        return Err(NoMemory);
    };
    lint_at_first(alloc, &plan, &suffixes)
}

/// Whether these are the rules that the body for a target breaks.
fn breaks(alloc: Global, text: &[u8], seconds: u32, want: &[u8]) -> Result<bool, NoMemory> {
    Ok(lint_of(alloc, text, seconds)?.as_slice() == want)
}

#[test]
fn a_sound_body_breaks_what_depends_on_more(rt: HostRuntime) {
    let rows: [(&[u8], u32, &[u8]); 5] = [
        // 47 days, and 200
        (b"example.com", 4_060_799, &[]),
        (b"example.com", 17_279_999, &[]),
        // 200 days and a second
        (b"example.com", 17_280_000, &[7]),
        (b"com", 0, &[21]),
        (b"127.0.0.1", 0, &[22]),
    ];
    for (text, seconds, want) in rows {
        let right = breaks(rt.alloc(), text, seconds, want);
        assert_eq!(rt; right, Ok(true), "{text:?} for {seconds} seconds");
    }
}
