mod changes;
mod shapes;

use changes::{ONE_CHANGE, RSA_KEYS, TWO_CHANGES};
use der_text::tag::SEQUENCE;
use gate_base::{Bytes, Moment, NoMemory, Profile, Rules, SigAlg, Sixteen4};
use names_core::Suffixes;
use profile_lint::lint_body;
use shapes::{PARTS, SHAPES};
use std::alloc::Global;

/// 2026-09-21T14:13:20Z, when 200 days are allowed.
const NOW: Moment = Moment(1_790_000_000);

const VALIDITY: usize = 4;

const KEY: usize = 6;

const FIRST_EXTENSION: usize = 8;

const NAMES: usize = 11;

const ALL_EXTENSIONS: usize = 16;

const BEHIND: usize = 17;

fn append(bytes: &[u8], out: &mut Vec<u8>) -> Result<(), NoMemory> {
    out.extend_from_slice(bytes)?;
    Ok(())
}

fn append_element(tag: u8, content: &[u8], out: &mut Vec<u8>) -> Result<(), NoMemory> {
    let high = (content.len() / 256 % 256) as u8;
    let low = (content.len() % 256) as u8;
    match content.len() {
        0..128 => append(&[tag, low], out)?,
        128..256 => append(&[tag, 0x81, low], out)?,
        _ => append(&[tag, 0x82, high, low], out)?,
    }
    append(content, out)
}

/// What stands in place of a part, where it is changed.
fn changed<'a>(number: usize, changes: &[(usize, &'a [u8])]) -> Option<&'a [u8]> {
    for change in changes {
        if change.0 == number {
            return Some(change.1);
        }
    }
    None
}

fn append_extensions(alloc: Global, list: &[u8], out: &mut Vec<u8>) -> Result<(), NoMemory> {
    let mut extensions = Vec::new(alloc);
    append_element(SEQUENCE, list, &mut extensions)?;
    append_element(0xa3, &extensions, out)
}

/// The parts, but for those that are changed, in one SEQUENCE.
fn body(alloc: Global, changes: &[(usize, &[u8])]) -> Result<Vec<u8>, NoMemory> {
    let mut content = Vec::new(alloc);
    let mut list = Vec::new(alloc);
    for (number, part) in PARTS.iter().enumerate() {
        let bytes = changed(number, changes).unwrap_or(part);
        if number < FIRST_EXTENSION {
            append(bytes, &mut content)?;
        } else {
            append(bytes, &mut list)?;
        }
    }
    match changed(ALL_EXTENSIONS, changes) {
        Some(bytes) => append(bytes, &mut content)?,
        None => append_extensions(alloc, &list, &mut content)?,
    }
    append(changed(BEHIND, changes).unwrap_or(&[]), &mut content)?;
    let mut bytes = Vec::new(alloc);
    append_element(SEQUENCE, &content, &mut bytes)?;
    Ok(bytes)
}

/// The broken rules, by a profile with the issuer `Gate CA`.
fn lint(alloc: Global, bytes: &[u8], m: Moment) -> Result<Rules, NoMemory> {
    let profile = Profile {
        issuer: Bytes::from_slice(alloc, b"0\x121\x100\x0e\x06\x03U\x04\x03\x0c\x07Gate CA")?,
        alg: SigAlg::EcdsaSha256,
        key_id: Sixteen4([0x22; 20]),
        crl: Bytes::new(alloc),
        aia: Bytes::new(alloc),
    };
    let Ok(suffixes) = Suffixes::from_rules(alloc, b"com\nexample\n") else {
        return Err(NoMemory);
    };
    lint_body(alloc, bytes, &profile, &suffixes, m)
}

/// Whether the body breaks these rules.
fn breaks(
    alloc: Global,
    changes: &[(usize, &[u8])],
    m: Moment,
    rules: &[u8],
) -> Result<bool, NoMemory> {
    let bytes = body(alloc, changes)?;
    Ok(lint(alloc, &bytes, m)?.as_slice() == rules)
}

/// The first single change that gets another list than its own, or how many there are.
fn first_change(alloc: Global, rows: &[(usize, &[u8], &[u8])]) -> Result<usize, NoMemory> {
    for (at, row) in rows.iter().enumerate() {
        if !breaks(alloc, &[(row.0, row.1)], NOW, row.2)? {
            return Ok(at);
        }
    }
    Ok(rows.len())
}

/// The first pair of changes that gets another list than its own, or how many there are.
fn first_pair(
    alloc: Global,
    rows: &[(usize, &[u8], usize, &[u8], &[u8])],
) -> Result<usize, NoMemory> {
    for (at, row) in rows.iter().enumerate() {
        if !breaks(alloc, &[(row.0, row.1), (row.2, row.3)], NOW, row.4)? {
            return Ok(at);
        }
    }
    Ok(rows.len())
}

/// The first shape that gets another list than that of the first rule alone, or how many there are.
fn first_shape(alloc: Global, rows: &[(usize, &[u8])]) -> Result<usize, NoMemory> {
    for (at, row) in rows.iter().enumerate() {
        if !breaks(alloc, &[*row], NOW, &[0])? {
            return Ok(at);
        }
    }
    Ok(rows.len())
}

/// What stands before bytes 11, so many of these, and what stands behind them.
fn filled(alloc: Global, front: &[u8], count: usize, back: &[u8]) -> Result<Vec<u8>, NoMemory> {
    let mut bytes = Vec::new(alloc);
    append(front, &mut bytes)?;
    for _ in 0..count {
        append(&[0x11], &mut bytes)?;
    }
    append(back, &mut bytes)?;
    Ok(bytes)
}

/// The first RSA key that gets another list than its own, or how many there are.
fn first_key(alloc: Global, rows: &[(&[u8], usize, &[u8], &[u8])]) -> Result<usize, NoMemory> {
    for (at, row) in rows.iter().enumerate() {
        let key = filled(alloc, row.0, row.1, row.2)?;
        if !breaks(alloc, &[(KEY, key.as_slice())], NOW, row.3)? {
            return Ok(at);
        }
    }
    Ok(rows.len())
}

/// Whether bytes that are no body break the first rule alone.
fn is_no_body(alloc: Global, bytes: &[u8]) -> Result<bool, NoMemory> {
    Ok(lint(alloc, bytes, NOW)?.as_slice() == [0u8].as_slice())
}

/// Whether a body with a byte behind it breaks the first rule alone.
fn has_no_end(alloc: Global) -> Result<bool, NoMemory> {
    let mut trailing = body(alloc, &[])?;
    append(&[0], &mut trailing)?;
    is_no_body(alloc, &trailing)
}

/// A subjectAltName with the addresses 8.8.8.0, 8.8.8.1 and so on.
fn addresses(alloc: Global, count: u8) -> Result<Vec<u8>, NoMemory> {
    let mut list = Vec::new(alloc);
    for last in 0..count {
        append(&[0x87, 4, 8, 8, 8, last], &mut list)?;
    }
    let mut value = Vec::new(alloc);
    append_element(SEQUENCE, &list, &mut value)?;
    let mut content = Vec::new(alloc);
    append(b"\x06\x03U\x1d\x11\x01\x01\xff", &mut content)?;
    append_element(4, &value, &mut content)?;
    let mut extension = Vec::new(alloc);
    append_element(SEQUENCE, &content, &mut extension)?;
    Ok(extension)
}

/// Whether a body with so many addresses breaks these rules.
fn names_break(alloc: Global, count: u8, rules: &[u8]) -> Result<bool, NoMemory> {
    let names = addresses(alloc, count)?;
    breaks(alloc, &[(NAMES, names.as_slice())], NOW, rules)
}

/// 200 days
const DAYS: &[u8] = b"0\x1e\x17\x0d260921141320Z\x17\x0d270409141319Z";

/// 200 days and a second
const MORE: &[u8] = b"0\x1e\x17\x0d260921141320Z\x17\x0d270409141320Z";

/// A validity, a moment, and the broken rules: 200 days are allowed to the last second before 2027-03-15, and 398 to
/// that before 2026-03-15.
const LIMITS: [(&[u8], u64, &[u8]); 4] = [
    (DAYS, 1_805_068_799, &[]),
    (DAYS, 1_805_068_800, &[7]),
    (MORE, 1_773_532_799, &[]),
    (MORE, 1_773_532_800, &[7]),
];

#[test]
fn each_change_breaks_its_rules(rt: HostRuntime) {
    let alloc = rt.alloc();
    assert_eq!(rt; breaks(alloc, &[], NOW, &[]), Ok(true));
    assert_eq!(rt; first_change(alloc, ONE_CHANGE), Ok(ONE_CHANGE.len()));
    assert_eq!(rt; first_pair(alloc, TWO_CHANGES), Ok(TWO_CHANGES.len()));
    assert_eq!(rt; first_shape(alloc, SHAPES), Ok(SHAPES.len()));
    assert_eq!(rt; first_key(alloc, RSA_KEYS), Ok(RSA_KEYS.len()));
}

#[test]
fn limits_are_met(rt: HostRuntime) {
    let alloc = rt.alloc();
    let other: [&[u8]; 5] = [b"", b"0", b"0\0", b"1\0", b"0\x81\x05\x05\0\x05\0\0"];
    for bytes in other {
        assert_eq!(rt; is_no_body(alloc, bytes), Ok(true), "{bytes:?}");
    }
    assert_eq!(rt; has_no_end(alloc), Ok(true));
    for (validity, m, rules) in LIMITS {
        let right = breaks(alloc, &[(VALIDITY, validity)], Moment(m), rules);
        assert_eq!(rt; right, Ok(true), "at {m}");
    }
    let rows: [(u8, &[u8]); 2] = [(100, &[]), (101, &[34])];
    for (count, rules) in rows {
        assert_eq!(rt; names_break(alloc, count, rules), Ok(true), "{count} names");
    }
}
