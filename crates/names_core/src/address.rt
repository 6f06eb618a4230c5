//! Addresses as text, both ways.

ghost use Rattle.std.specs.Prelude.{◌≡◌, ◌<◌, ◌==◌, [], ◌∷◌, ◌++◌, option_map, is_some, IfOk, IfSome};
ghost use Rattle.std.specs.List.{slice_split};
ghost use Rattle.names_core.specs.Address as spec;

use crate::cutting::{append, cut_at, joined};
use gate_base::{ByteLists, Bytes, NoMemory};
use std::alloc::Global;

fn octet_of(part: &[u8]) -> Option<u8>
    ensures { option_map (λ octet. octet ∷ []) result ≡ spec.octet_of part.now }
{
    match part {
        [a @ b'0'..=b'9'] => Some(a - b'0'),
        [a @ b'1'..=b'9', b @ b'0'..=b'9'] => Some(10 * (a - b'0') + (b - b'0')),
        [a @ b'1'..=b'9', b @ b'0'..=b'9', c @ b'0'..=b'9'] => {
            let value = 100 * u16::from(a - b'0') + 10 * u16::from(b - b'0') + u16::from(c - b'0');
            if value <= 255 {
                Some(value as u8)
            } else {
                None
            }
        }
        _ => None,
    }
}

fn octets_of(alloc: Global, text: &[u8]) -> Result<Option<Vec<u8>>, NoMemory>
    ensures { IfOk result (λ octets. option_map (λ v. v.items) octets ≡ spec.read_each spec.octet_of (slice_split (λ byte. byte == 46) text.now)) }
{
    let mut octets = Vec::new(alloc);
    let mut rest = text;
    while let Some((part, after)) = cut_at(rest, b'.') {
        let Some(octet) = octet_of(part) else {
            return Ok(None);
        };
        octets.push(octet)?;
        rest = after;
    }
    let Some(octet) = octet_of(rest) else {
        return Ok(None);
    };
    octets.push(octet)?;
    Ok(Some(octets))
}

/// The octets that a text writes in decimal.
pub fn v4_of(alloc: Global, text: &[u8]) -> Result<Option<[u8; 4]>, NoMemory>
    ensures { IfOk result (λ octets. octets ≡ spec.v4_of text.now) }
{
    let Some(octets) = octets_of(alloc, text)? else {
        return Ok(None);
    };
    match octets.as_slice() {
        [a, b, c, d] => Ok(Some([*a, *b, *c, *d])),
        _ => Ok(None),
    }
}

fn hex_value(byte: u8) -> Option<u8>
    ensures value { IfSome result (λ value. value ≡ spec.hex_value byte) }
    ensures small { IfSome result (λ value. value < 16) }
    ensures digit { is_some result ≡ spec.is_hex_digit byte }
{
    match byte {
        b'0'..=b'9' => Some(byte - b'0'),
        b'a'..=b'f' => Some(byte - b'a' + 10),
        _ => None,
    }
}

fn group_of(part: &[u8]) -> Option<[u8; 2]>
    ensures { result ≡ spec.group_of part.now }
{
    let [a, b, c, d] = part else {
        return None;
    };
    let first = 16 * hex_value(*a)? + hex_value(*b)?;
    let second = 16 * hex_value(*c)? + hex_value(*d)?;
    Some([first, second])
}

fn groups_of(alloc: Global, text: &[u8]) -> Result<Option<Vec<u8>>, NoMemory>
    ensures { IfOk result (λ octets. option_map (λ v. v.items) octets ≡ spec.read_each spec.group_of (slice_split (λ byte. byte == 58) text.now)) }
{
    let mut octets = Vec::new(alloc);
    let mut rest = text;
    while let Some((part, after)) = cut_at(rest, b':') {
        let Some(group) = group_of(part) else {
            return Ok(None);
        };
        append(&mut octets, &group)?;
        rest = after;
    }
    let Some(group) = group_of(rest) else {
        return Ok(None);
    };
    append(&mut octets, &group)?;
    Ok(Some(octets))
}

fn sixteen_of(octets: &[u8]) -> Option<[u8; 16]>
    ensures { result ≡ spec.exactly 16 octets.now }
{
    match <[u8; 16]>::try_from(octets) {
        Ok(octets) => Some(octets),
        Err(_) => None,
    }
}

/// The octets that a text writes in hexadecimal.
pub fn v6_of(alloc: Global, text: &[u8]) -> Result<Option<[u8; 16]>, NoMemory>
    ensures { IfOk result (λ octets. octets ≡ spec.v6_of text.now) }
{
    let Some(octets) = groups_of(alloc, text)? else {
        return Ok(None);
    };
    Ok(sixteen_of(octets.as_slice()))
}

fn octet_text(alloc: Global, octet: u8) -> Result<Bytes, NoMemory>
    ensures { IfOk result (λ text. text ≡ spec.octet_text octet) }
{
    let mut text = Bytes::new(alloc);
    if octet >= 100 {
        text.push(b'0' + octet / 100)?;
    }
    if octet >= 10 {
        text.push(b'0' + octet / 10 % 10)?;
    }
    text.push(b'0' + octet % 10)?;
    Ok(text)
}

pub fn v4_text(alloc: Global, octets: &[u8; 4]) -> Result<Vec<u8>, NoMemory>
    ensures { IfOk result (λ text. text.items ≡ spec.v4_text octets.now) }
{
    let mut texts = ByteLists::new(alloc);
    for octet in octets {
        texts.push(octet_text(alloc, *octet)?)?;
    }
    joined(alloc, texts.as_slice(), b'.')
}

fn hex_digit(value: u8) -> u8
    requires { value < 16 }
    ensures { result ≡ spec.hex_digit_of value }
{
    if value < 10 {
        b'0' + value
    } else {
        b'a' + (value - 10)
    }
}

fn group_text(alloc: Global, first: u8, second: u8) -> Result<Bytes, NoMemory>
    ensures { IfOk result (λ text. text ≡ spec.hex_text first ++ spec.hex_text second) }
{
    let mut text = Bytes::new(alloc);
    text.push(hex_digit(first / 16))?;
    text.push(hex_digit(first % 16))?;
    text.push(hex_digit(second / 16))?;
    text.push(hex_digit(second % 16))?;
    Ok(text)
}

pub fn v6_text(alloc: Global, octets: &[u8]) -> Result<Vec<u8>, NoMemory>
    ensures { IfOk result (λ text. text.items ≡ spec.v6_text octets.now) }
{
    let mut texts = ByteLists::new(alloc);
    let mut rest = octets;
    while let [first, second, after @ ..] = rest {
        texts.push(group_text(alloc, *first, *second)?)?;
        rest = after;
    }
    joined(alloc, texts.as_slice(), b':')
}
