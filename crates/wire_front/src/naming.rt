//! The names of a message: domain names in quotes, with a comma between two.
ghost use Rattle.std.specs.Prelude.{◌≡◌, ◌≢◌, [], ◌∷◌, option_map, IfOk, IsTrue, false};
ghost use Rattle.std.specs.List.{list_all, AllByRecursion};
ghost use Rattle.wire_front.specs.Message.{domain_text, names_text, is_letter, is_plain_byte, last_begins_with_letter, are_domain_labels, IsDomain, AreNames};
ghost use Rattle.wire_front.specs.Reading.{Reads, ReadsQuoted};

use crate::cutting::{strip_field, strip_text};
use gate_base::{Bytes, NoMemory, Plain, Target, Targets};
use gate_entries::read_name_text;
use std::alloc::Global;

/// The greatest number of names.
const NAMES_LIMIT: usize = 100;

/// Names in quotes, with a comma between two: 1 to 100, none twice.
pub fn read_targets(alloc: Global, text: &[u8]) -> Result<Option<Targets>, NoMemory>
    ensures { IfOk result (λ found. Reads names_text AreNames text.now found) }
{
    let mut targets = Targets::new(alloc);
    let mut rest = text;
    for _ in 0..NAMES_LIMIT {
        let Some((target, behind)) = read_quoted(alloc, rest)? else {
            return Ok(None);
        };
        if is_among(&target, targets.as_slice()) {
            return Ok(None);
        }
        targets.push(target)?;
        if behind.is_empty() {
            return Ok(Some(targets));
        }
        let Some(more) = strip_text(behind, b",") else {
            return Ok(None);
        };
        rest = more;
    }
    Ok(None)
}

/// The name in quotes at the front, and what stands behind it.
fn read_quoted(alloc: Global, bytes: &[u8]) -> Result<Option<(Target, &[u8])>, NoMemory>
    ensures { IfOk result (λ found. ReadsQuoted bytes.now (option_map (λ x. (x.0, x.1.now)) found)) }
{
    let Some((name, behind)) = strip_field(bytes, b"\"", b'"') else {
        return Ok(None);
    };
    match read_target(alloc, name)? {
        Some(target) => Ok(Some((target, behind))),
        None => Ok(None),
    }
}

/// Whether a target is one of the others.
fn is_among(target: &Target, others: &[Target]) -> bool
    ensures among { IsTrue result → AllByRecursion (λ other. other ≢ target.now) others.now → ⊥ }
    ensures none { result ≡ false → AllByRecursion (λ other. other ≢ target.now) others.now }
{
    let mut rest = others;
    while let [other, after @ ..] = rest {
        if target.is_same(other) {
            return true;
        }
        rest = after;
    }
    false
}

/// A domain name, maybe a wildcard, of labels of lower-case letters and digits; the last begins with a letter.
fn read_target(alloc: Global, text: &[u8]) -> Result<Option<Target>, NoMemory>
    ensures { IfOk result (λ found. Reads domain_text IsDomain text.now found) }
{
    let Some(name) = read_name_text(alloc, text)? else {
        return Ok(None);
    };
    if !are_domain_labels(name.labels.as_slice()) {
        return Ok(None);
    }
    Ok(Some(Target::Dns(name)))
}

fn are_domain_labels(labels: &[Bytes]) -> bool
    ensures { result ≡ are_domain_labels labels.now }
{
    are_plain(labels) && last_begins_with_letter(labels)
}

fn are_plain(labels: &[Bytes]) -> bool
    ensures { result ≡ list_all (list_all is_plain_byte) labels.now }
{
    labels.iter().all(|label| are_plain_bytes(label.as_slice()))
}

/// Whether all bytes are lower-case letters and digits.
pub fn are_plain_bytes(bytes: &[u8]) -> bool
    ensures { result ≡ list_all is_plain_byte bytes.now }
{
    bytes.iter().all(|byte| is_plain_byte(*byte))
}

fn is_plain_byte(byte: u8) -> bool
    ensures { result ≡ is_plain_byte byte }
{
    matches!(byte, b'a'..=b'z' | b'0'..=b'9')
}

fn last_begins_with_letter(labels: &[Bytes]) -> bool
    ensures { result ≡ last_begins_with_letter labels.now }
{
    let mut rest = labels;
    while let [label, after @ ..] = rest {
        if after.is_empty() {
            return begins_with_letter(label);
        }
        rest = after;
    }
    false
}

fn begins_with_letter(label: &Bytes) -> bool
    ensures { result ≡ last_begins_with_letter (label.now ∷ []) }
{
    match label.as_slice() {
        [byte, ..] => is_letter(*byte),
        [] => false,
    }
}

fn is_letter(byte: u8) -> bool
    ensures { result ≡ is_letter byte }
{
    matches!(byte, b'a'..=b'z')
}
