ghost use Rattle.std.specs.Prelude.{◌≡◌, ◌≤◌, length, IsTrue, IfOk};
ghost use Rattle.std.specs.List.{AllByRecursion};
ghost use Rattle.public_key.specs.Key.{IsKeyOf};
ghost use Rattle.tbs_build.specs.Names.{IsShort};
ghost use Rattle.tbs_build.specs.Plan.{begins_with_name, is_name as spec_is_name};
ghost use Rattle.cert_fields.specs.Profile.{IsSoundProfile};

use cert_fields::is_sound_profile;
use gate_base::{
    Address, Bytes, KeyKind, Moment, NoMemory, Profile, SigAlg, Sixteen, Sixteen4, Target, Targets,
};
use names_core::read_target;
use public_key::read_key_kind;
use std::alloc::Global;
use tbs_build::{Plan, build, certificate, certificate_len, is_short, small_body};

const SERIAL: Sixteen = Sixteen([0x40, 0, 0, 0, 0, 0, 0, 0, 0, 0, 0, 0, 0, 0, 0, 0]);

/// The name with the commonName `Gate CA` alone.
const ISSUER: &[u8] = b"0\x121\x100\x0e\x06\x03U\x04\x03\x0c\x07Gate CA";

/// A point of P-256 whose coordinates are 64 bytes `11`.
const P256_KEY: &[u8] =
    b"0Y0\x13\x06\x07*\x86H\xce=\x02\x01\x06\x08*\x86H\xce=\x03\x01\x07\x03B\0\x04\x11\x11\x11\x11\x11\
    \x11\x11\x11\x11\x11\x11\x11\x11\x11\x11\x11\x11\x11\x11\x11\x11\x11\x11\x11\x11\x11\x11\x11\x11\
    \x11\x11\x11\x11\x11\x11\x11\x11\x11\x11\x11\x11\x11\x11\x11\x11\x11\x11\x11\x11\x11\x11\x11\x11\
    \x11\x11\x11\x11\x11\x11\x11\x11\x11\x11\x11";

/// A point of P-384 whose coordinates are 96 bytes `22`.
const P384_KEY: &[u8] =
    b"0v0\x10\x06\x07*\x86H\xce=\x02\x01\x06\x05+\x81\x04\0\"\x03b\0\x04\"\"\"\"\"\"\"\"\"\"\"\"\"\"\"\
    \"\"\"\"\"\"\"\"\"\"\"\"\"\"\"\"\"\"\"\"\"\"\"\"\"\"\"\"\"\"\"\"\"\"\"\"\"\"\"\"\"\"\"\"\"\"\"\"\
    \"\"\"\"\"\"\"\"\"\"\"\"\"\"\"\"\"\"\"\"\"\"\"\"\"\"\"\"\"\"\"\"\"";

/// A body of 401 bytes for `example.com`, by an encoder of its own.
const PLAIN_BODY: &[u8] =
    b"0\x82\x01\x8d\xa0\x03\x02\x01\x02\x02\x10@\0\0\0\0\0\0\0\0\0\0\0\0\0\0\00\x0a\x06\x08*\x86H\xce=\
    \x04\x03\x020\x121\x100\x0e\x06\x03U\x04\x03\x0c\x07Gate CA0\x1e\x17\x0d260921141320Z\x17\x0d261\
    107141319Z0\00Y0\x13\x06\x07*\x86H\xce=\x02\x01\x06\x08*\x86H\xce=\x03\x01\x07\x03B\0\x04\x11\
    \x11\x11\x11\x11\x11\x11\x11\x11\x11\x11\x11\x11\x11\x11\x11\x11\x11\x11\x11\x11\x11\x11\x11\x11\
    \x11\x11\x11\x11\x11\x11\x11\x11\x11\x11\x11\x11\x11\x11\x11\x11\x11\x11\x11\x11\x11\x11\x11\x11\
    \x11\x11\x11\x11\x11\x11\x11\x11\x11\x11\x11\x11\x11\x11\x11\xa3\x81\xd60\x81\xd30\x1f\x06\x03U\
    \x1d#\x04\x180\x16\x80\x14\"\"\"\"\"\"\"\"\"\"\"\"\"\"\"\"\"\"\"\"0\x0e\x06\x03U\x1d\x0f\x01\x01\
    \xff\x04\x04\x03\x02\x07\x800\x13\x06\x03U\x1d%\x04\x0c0\x0a\x06\x08+\x06\x01\x05\x05\x07\x03\
    \x010\x19\x06\x03U\x1d\x11\x01\x01\xff\x04\x0f0\x0d\x82\x0bexample.com0\x13\x06\x03U\x1d \x04\
    \x0c0\x0a0\x08\x06\x06g\x81\x0c\x01\x02\x010'\x06\x03U\x1d\x1f\x04 0\x1e0\x1c\xa0\x1a\xa0\x18\
    \x86\x16http://c.example/1.crl02\x06\x08+\x06\x01\x05\x05\x07\x01\x01\x04&0$0\"\x06\x08+\x06\x01\
    \x05\x05\x070\x02\x86\x16http://c.example/1.cer";

/// By the same encoder, and read by OpenSSL: a body with a commonName, an address, and times on both sides of 2050.
const NAMED_BODY: &[u8] =
    b"0\x82\x01\xcc\xa0\x03\x02\x01\x02\x02\x10\x7f\x01\x02\x03\x04\x05\x06\x07\x08\x09\x0a\x0b\x0c\
    \x0d\x0e\x0f0\x0d\x06\x09*\x86H\x86\xf7\x0d\x01\x01\x0b\x05\00\x121\x100\x0e\x06\x03U\x04\x03\
    \x0c\x07Gate CA0 \x17\x0d491231235959Z\x18\x0f20500131000000Z0\x181\x160\x14\x06\x03U\x04\x03\
    \x0c\x0d*.example.com0v0\x10\x06\x07*\x86H\xce=\x02\x01\x06\x05+\x81\x04\0\"\x03b\0\x04\"\"\"\"\
    \"\"\"\"\"\"\"\"\"\"\"\"\"\"\"\"\"\"\"\"\"\"\"\"\"\"\"\"\"\"\"\"\"\"\"\"\"\"\"\"\"\"\"\"\"\"\"\"\
    \"\"\"\"\"\"\"\"\"\"\"\"\"\"\"\"\"\"\"\"\"\"\"\"\"\"\"\"\"\"\"\"\"\"\"\"\"\"\"\"\"\"\"\"\xa3\x81\
    \xdb0\x81\xd80\x1f\x06\x03U\x1d#\x04\x180\x16\x80\x14333333333333333333330\x0e\x06\x03U\x1d\x0f\
    \x01\x01\xff\x04\x04\x03\x02\x07\x800\x13\x06\x03U\x1d%\x04\x0c0\x0a\x06\x08+\x06\x01\x05\x05\
    \x07\x03\x010\x1e\x06\x03U\x1d\x11\x04\x170\x15\x82\x0d*.example.com\x87\x04\xc0\0\x02\x010\x13\
    \x06\x03U\x1d \x04\x0c0\x0a0\x08\x06\x06g\x81\x0c\x01\x02\x010'\x06\x03U\x1d\x1f\x04 0\x1e0\x1c\
    \xa0\x1a\xa0\x18\x86\x16http://c.example/2.crl02\x06\x08+\x06\x01\x05\x05\x07\x01\x01\x04&0$0\"\
    \x06\x08+\x06\x01\x05\x05\x070\x02\x86\x16http://c.example/2.cer";

/// The body of `example.com`.
const EXAMPLE: &[u8] =
    b"\x30\x21\x02\x10\x40\0\0\0\0\0\0\0\0\0\0\0\0\0\0\0\x30\x0d\x82\x0bexample.com";

/// The body of `*.example.com` and `192.0.2.1`, in this order.
const WILD_AND_ADDRESS: &[u8] =
    b"\x30\x29\x02\x10\x40\0\0\0\0\0\0\0\0\0\0\0\0\0\0\0\x30\x15\x82\x0d*.example.com\x87\x04\xc0\0\x02\x01";

/// The certificate of the first body with a signature of 32 bytes `11`, made with ECDSA and SHA-256.
const CERTIFICATE: &[u8] =
    b"\x30\x52\x30\x21\x02\x10\x40\0\0\0\0\0\0\0\0\0\0\0\0\0\0\0\x30\x0d\x82\x0bexample.com\
    \x30\x0a\x06\x08\x2a\x86\x48\xce\x3d\x04\x03\x02\x03\x21\0\
    \x11\x11\x11\x11\x11\x11\x11\x11\x11\x11\x11\x11\x11\x11\x11\x11\x11\x11\x11\x11\x11\x11\x11\x11\x11\x11\x11\x11\x11\x11\x11\x11";

/// Of an algorithm the lengths of a body and of a signature, and that of the certificate.
const LENGTHS: &[(SigAlg, usize, usize, u64)] = &[
    // contents of 127 and 128 bytes
    (SigAlg::EcdsaSha256, 111, 1, 129),
    (SigAlg::EcdsaSha256, 112, 1, 131),
    // of 255 and 256
    (SigAlg::EcdsaSha384, 239, 1, 258),
    (SigAlg::EcdsaSha384, 240, 1, 260),
    // of 65,535 and 65,536
    (SigAlg::RsaSha256, 65_516, 1, 65_539),
    (SigAlg::RsaSha256, 65_517, 1, 65_541),
    // signatures whose length has one byte, two and three
    (SigAlg::EcdsaSha256, 35, 126, 179),
    (SigAlg::EcdsaSha256, 35, 127, 181),
    (SigAlg::EcdsaSha256, 35, 254, 309),
    (SigAlg::EcdsaSha256, 35, 255, 311),
    (SigAlg::RsaSha256, 35, 1024, 1083),
];

fn target(alloc: Global, text: &[u8]) -> Result<Target, NoMemory> {
    match read_target(alloc, text) {
        Ok(target) => Ok(target),
        Err(_) => Err(NoMemory),
    }
}

fn is_name(target: &Target) -> bool
    ensures { result ≡ spec_is_name target.now }
{
    matches!(target, Target::Dns(_))
}

/// One target.
fn one(alloc: Global, text: &[u8]) -> Result<Targets, NoMemory>
    ensures { IfOk result (λ targets. (length targets ≡ 1) × AllByRecursion IsShort targets) }
{
    let only = target(alloc, text)?;
    if !is_short(alloc, &only)? {
        return Err(NoMemory);
    }
    let mut targets = Targets::new(alloc);
    targets.push(only)?;
    Ok(targets)
}

/// Two targets, of which the first is a name.
fn two(alloc: Global, text: &[u8], next: &[u8]) -> Result<Targets, NoMemory>
    ensures { IfOk result (λ targets. (length targets ≡ 2)
        × AllByRecursion IsShort targets × IsTrue (begins_with_name targets)) }
{
    let first = target(alloc, text)?;
    let second = target(alloc, next)?;
    if !is_short(alloc, &first)? || !is_short(alloc, &second)? || !is_name(&first) {
        return Err(NoMemory);
    }
    let mut targets = Targets::new(alloc);
    targets.push(first)?;
    targets.push(second)?;
    Ok(targets)
}

fn profile(alloc: Global, alg: SigAlg, key: u8, crl: &[u8], aia: &[u8]) -> Result<Profile, NoMemory>
    ensures { IfOk result (λ profile. IsSoundProfile profile) }
{
    let profile = Profile {
        issuer: Bytes::from_slice(alloc, ISSUER)?,
        alg,
        key_id: Sixteen4([key; 20]),
        crl: Bytes::from_slice(alloc, crl)?,
        aia: Bytes::from_slice(alloc, aia)?,
    };
    if is_sound_profile(alloc, &profile)? {
        Ok(profile)
    } else {
        Err(NoMemory)
    }
}

fn key_kind(alloc: Global, spki: &[u8]) -> Result<KeyKind, NoMemory>
    ensures { IfOk result (IsKeyOf spki.now) }
{
    match read_key_kind(alloc, spki)? {
        Some(kind) => Ok(kind),
        None => Err(NoMemory),
    }
}

/// The addresses 8.8.8.0, 8.8.8.1 and so on.
fn addresses(alloc: Global, count: u8) -> Result<Targets, NoMemory>
    ensures count { IfOk result (λ targets. length targets ≡ count) }
    ensures short { IfOk result (λ targets. AllByRecursion IsShort targets) }
{
    let mut targets = Targets::new(alloc);
    for last in 0..count {
        targets.push(address(alloc, last)?)?;
    }
    Ok(targets)
}

fn address(alloc: Global, last: u8) -> Result<Target, NoMemory>
    ensures { IfOk result IsShort }
{
    let target = Target::Ip(Address::V4([8, 8, 8, last]));
    if is_short(alloc, &target)? {
        Ok(target)
    } else {
        Err(NoMemory)
    }
}

fn body_for(alloc: Global, targets: &Targets) -> Result<Bytes, NoMemory>
    requires some { 1 ≤ length targets.now }
    requires count { length targets.now ≤ 255 }
    requires short { AllByRecursion IsShort targets.now }
{
    let profile = profile(
        alloc,
        SigAlg::EcdsaSha256,
        0x22,
        b"http://c.example/1.crl",
        b"http://c.example/1.cer",
    )?;
    let plan = Plan {
        serial: &SERIAL,
        not_before: Moment(1_790_000_000),
        not_after: Moment(1_794_060_799),
        spki: P256_KEY,
        kind: key_kind(alloc, P256_KEY)?,
        targets,
        common: false,
        profile: &profile,
    };
    build(alloc, &plan)
}

fn plain_body(alloc: Global) -> Result<Bytes, NoMemory> {
    let targets = one(alloc, b"example.com")?;
    body_for(alloc, &targets)
}

/// How many bytes the body has for so many addresses.
fn len_for(alloc: Global, count: u8) -> Result<usize, NoMemory> {
    if count == 0 {
        return Ok(0);
    }
    let targets = addresses(alloc, count)?;
    Ok(body_for(alloc, &targets)?.len())
}

fn named_body(alloc: Global) -> Result<Bytes, NoMemory> {
    let profile = profile(
        alloc,
        SigAlg::RsaSha256,
        0x33,
        b"http://c.example/2.crl",
        b"http://c.example/2.cer",
    )?;
    let plan = Plan {
        serial: &Sixteen([0x7f, 1, 2, 3, 4, 5, 6, 7, 8, 9, 10, 11, 12, 13, 14, 15]),
        not_before: Moment(2_524_607_999),
        not_after: Moment(2_527_200_000),
        spki: P384_KEY,
        kind: key_kind(alloc, P384_KEY)?,
        targets: &two(alloc, b"*.example.com", b"192.0.2.1")?,
        common: true,
        profile: &profile,
    };
    build(alloc, &plan)
}

fn certificate_of(
    alloc: Global,
    body: &[u8],
    alg: SigAlg,
    signature: &[u8],
) -> Result<Bytes, NoMemory> {
    if body.len() > 65_536 || signature.is_empty() || signature.len() > 1024 {
        return Err(NoMemory);
    }
    let mut out = Vec::new(alloc);
    out.reserve(certificate_len(body, alg, signature.len() as u64) as usize)?;
    certificate(body, alg, signature, &mut out);
    Ok(Bytes::from_vec(out))
}

fn repeated(alloc: Global, count: usize) -> Result<Vec<u8>, NoMemory> {
    let mut bytes = Vec::new(alloc);
    for _ in 0..count {
        bytes.push(0x11)?;
    }
    Ok(bytes)
}

fn has_length(
    alloc: Global,
    alg: SigAlg,
    body: usize,
    signature: usize,
    len: u64,
) -> Result<bool, NoMemory> {
    let body = repeated(alloc, body)?;
    let signature = repeated(alloc, signature)?;
    let made = certificate_of(alloc, &body, alg, &signature)?;
    Ok(made.len() as u64 == len)
}

#[test]
fn a_small_body_has_its_bytes(rt: HostRuntime) {
    let targets = one(rt.alloc(), b"example.com").expect(&rt, "memory");
    let made = small_body(rt.alloc(), &SERIAL, &targets);
    assert!(rt; made.is_ok_and(|body| body.as_slice() == EXAMPLE));
    let targets = two(rt.alloc(), b"*.example.com", b"192.0.2.1").expect(&rt, "memory");
    let made = small_body(rt.alloc(), &SERIAL, &targets);
    assert!(rt; made.is_ok_and(|body| body.as_slice() == WILD_AND_ADDRESS));
}

#[test]
fn a_plan_has_its_body(rt: HostRuntime) {
    let plain = plain_body(rt.alloc());
    assert!(rt; plain.is_ok_and(|body| body.as_slice() == PLAIN_BODY));
    let named = named_body(rt.alloc());
    assert!(rt; named.is_ok_and(|body| body.as_slice() == NAMED_BODY));
    let certificate = certificate_of(rt.alloc(), PLAIN_BODY, SigAlg::EcdsaSha256, &[0x11; 32]);
    assert!(rt; certificate.is_ok_and(|bytes| bytes.len() == 452));
    // each address takes six bytes
    for (count, len) in [(100, 996), (101, 1002), (255, 1926)] {
        assert_eq!(rt; len_for(rt.alloc(), count), Ok(len), "{count} addresses");
    }
}

#[test]
fn a_certificate_has_its_bytes(rt: HostRuntime) {
    let made = certificate_of(rt.alloc(), EXAMPLE, SigAlg::EcdsaSha256, &[0x11; 32]);
    assert!(rt; made.is_ok_and(|bytes| bytes.as_slice() == CERTIFICATE));
}

#[test]
fn a_certificate_has_its_length(rt: HostRuntime) {
    for (alg, body, signature, len) in LENGTHS {
        let told = has_length(rt.alloc(), *alg, *body, *signature, *len);
        assert_eq!(rt; told, Ok(true), "{len}");
    }
}
