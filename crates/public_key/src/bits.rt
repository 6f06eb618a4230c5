//! The bits of a key, by its kind.
ghost use Rattle.std.specs.Prelude.{◌≡◌, ◌↔◌, ◌<◌, ◌&&◌, option_map, IsTrue, IfOk};
ghost use Rattle.der_text.specs.View.{node};
ghost use Rattle.public_key.specs.Key as spec;
ghost use Rattle.public_key.specs.Key.{IsRsa, AreBitsOf};

use crate::number::{is_exponent, is_modulus};
use der_text::tag::{INTEGER, SEQUENCE};
use der_text::{
    ReadFault, Tree, are_none, constructed_parts, parts_are_read_as_they_stand, read_tree,
    take_primitive,
};
use gate_base::{KeyKind, NoMemory};
use std::alloc::Global;

/// The contents of the two INTEGERs, modulus and exponent, that an RSAPublicKey is (RFC 8017, section A.1.1).
pub fn numbers_of<'a>(tree: &Tree<'a>) -> Option<(&'a [u8], &'a [u8])>
    ensures { option_map (λ x. (x.0.now, x.1.now)) result ≡ spec.numbers_of (node tree.now) }
{
    let parts = constructed_parts(SEQUENCE, tree)?;
    let (modulus, parts) = take_primitive(INTEGER, parts)?;
    let (exponent, parts) = take_primitive(INTEGER, parts)?;
    if are_none(parts) {
        Some((modulus, exponent))
    } else {
        None
    }
}

fn are_good(modulus: &[u8], exponent: &[u8]) -> bool
    ensures { result ≡ (spec.is_modulus modulus.now && spec.is_exponent exponent.now) }
{
    is_modulus(modulus) && is_exponent(exponent)
}

fn is_rsa(alloc: Global, bits: &[u8]) -> Result<bool, NoMemory>
    ensures { IfOk result (λ good. IsTrue good ↔ IsRsa bits.now) }
{
    parts_are_read_as_they_stand();
    let tree = match read_tree(alloc, bits) {
        Ok(tree) => tree,
        Err(ReadFault::Der(_)) => return Ok(false),
        Err(ReadFault::NoMemory) => return Err(NoMemory),
    };
    match numbers_of(&tree) {
        Some((modulus, exponent)) => Ok(are_good(modulus, exponent)),
        None => Ok(false),
    }
}

/// Whether the bits are a point that is not compressed (SEC 1, section 2.3.3), with two coordinates of so many bytes.
pub fn is_point(size: usize, bits: &[u8]) -> bool
    requires { size < 128 }
    ensures { result ≡ spec.is_point size bits.now }
{
    match bits {
        [] => false,
        [form, coordinates @ ..] => *form == 4 && coordinates.len() == 2 * size,
    }
}

/// Whether these are the bits of a good key of the kind.
pub fn are_bits_of(alloc: Global, kind: KeyKind, bits: &[u8]) -> Result<bool, NoMemory>
    ensures { IfOk result (λ good. IsTrue good ↔ AreBitsOf kind bits.now) }
{
    match kind {
        KeyKind::Rsa => is_rsa(alloc, bits),
        KeyKind::P256 => Ok(is_point(32, bits)),
        KeyKind::P384 => Ok(is_point(48, bits)),
        KeyKind::P521 => Ok(is_point(66, bits)),
    }
}
