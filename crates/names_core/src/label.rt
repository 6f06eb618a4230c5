//! The rules of one label, in lower case.

ghost use Rattle.std.specs.Prelude.{◌≡◌, ◌<◌, ◌^◌, false, length, slice_index, IfOk};
ghost use Rattle.names_core.specs.Label as rules;

use gate_base::NoMemory;
use idna::{Errors, punycode};
use std::alloc::Global;

fn is_label_byte(byte: u8) -> bool
    ensures { result ≡ rules.is_label_byte byte }
{
    byte.is_ascii_lowercase() || byte.is_ascii_digit() || byte == b'-' || byte == b'*'
}

pub fn has_bad_byte(label: &[u8]) -> bool
    ensures { result ≡ rules.has_bad_byte label.now }
{
    label.iter().any(|byte| !is_label_byte(*byte))
}

pub fn has_star(label: &[u8]) -> bool
    ensures { result ≡ rules.has_star label.now }
{
    label.iter().any(|byte| *byte == b'*')
}

fn has_ace_prefix(label: &[u8]) -> bool
    ensures { result ≡ rules.has_ace_prefix label.now }
{
    label.starts_with(b"xn--")
}

fn is_hyphen_at(label: &[u8], at: usize) -> bool
    ensures { result ≡ rules.is_hyphen (slice_index label.now at) }
{
    match label.get(at) {
        Some(byte) => *byte == b'-',
        None => false,
    }
}

pub fn has_bad_hyphen(label: &[u8]) -> bool
    ensures { result ≡ rules.has_bad_hyphen label.now }
{
    is_hyphen_at(label, 0)
        || is_hyphen_at(label, label.len().saturating_sub(1))
        || is_hyphen_at(label, 2) && is_hyphen_at(label, 3) && !has_ace_prefix(label)
}

/// Whether the text decodes, and encodes to itself again: in lower case what decodes always does.
fn is_punycode(alloc: Global, text: &[u8]) -> Result<bool, NoMemory>
    requires plain { rules.has_bad_byte text.now ≡ false }
    requires short { length text.now < 2 ^ 32 }
    ensures { IfOk result (λ good. good ≡ rules.is_punycode text.now) }
{
    let Ok(text) = std::str::from_utf8(text) else {
        unreachable!()
    };
    let _points = match punycode::decode(alloc, text) {
        Ok(points) => points,
        Err(Errors::Invalid) => return Ok(false),
        Err(Errors::OutOfMemory) => return Err(NoMemory),
    };
    Ok(true)
}

pub fn has_bad_punycode(alloc: Global, label: &[u8]) -> Result<bool, NoMemory>
    requires plain { rules.has_bad_byte label.now ≡ false }
    requires short { length label.now < 2 ^ 32 }
    ensures { IfOk result (λ bad. bad ≡ rules.has_bad_punycode label.now) }
{
    if !has_ace_prefix(label) {
        return Ok(false);
    }
    Ok(!is_punycode(alloc, &label[4..])?)
}
