//! A key, by the bytes of its SubjectPublicKeyInfo.
ghost use Rattle.std.specs.Prelude.{◌≡◌, ◌↔◌, Some, option_map, IsTrue, IfOk};
ghost use Rattle.std.specs.Str.{bytes_eq};
ghost use Rattle.der_text.specs.View.{node};
ghost use Rattle.gate_base.specs.declared.profile.KeyKind.{KeyKind};
ghost use Rattle.public_key.specs.Key as spec;
ghost use Rattle.public_key.specs.Key.{IsKeyOf, algorithm_bytes};

use crate::bits::are_bits_of;
use der_text::tag::{BIT_STRING, SEQUENCE};
use der_text::{
    ReadFault, Tree, are_none, constructed_parts, part_at, read_tree, skip_first, take_primitive,
};
use gate_base::{KeyKind, NoMemory};
use std::alloc::Global;

const RSA: [u8; 15] = [
    0x30, 0x0d, 0x06, 0x09, 0x2a, 0x86, 0x48, 0x86, 0xf7, 0x0d, 0x01, 0x01, 0x01, 0x05, 0x00,
];

const P256: [u8; 21] = [
    0x30, 0x13, 0x06, 0x07, 0x2a, 0x86, 0x48, 0xce, 0x3d, 0x02, 0x01, 0x06, 0x08, 0x2a, 0x86, 0x48,
    0xce, 0x3d, 0x03, 0x01, 0x07,
];

const P384: [u8; 18] = [
    0x30, 0x10, 0x06, 0x07, 0x2a, 0x86, 0x48, 0xce, 0x3d, 0x02, 0x01, 0x06, 0x05, 0x2b, 0x81, 0x04,
    0x00, 0x22,
];

const P521: [u8; 18] = [
    0x30, 0x10, 0x06, 0x07, 0x2a, 0x86, 0x48, 0xce, 0x3d, 0x02, 0x01, 0x06, 0x05, 0x2b, 0x81, 0x04,
    0x00, 0x23,
];

/// Whether two byte strings are the same.
fn is_same(left: &[u8], right: &[u8]) -> bool
    ensures test { result ≡ bytes_eq left.now right.now }
    ensures same { IsTrue result ↔ (left.now ≡ right.now) }
{
    left == right
}

/// The kind of key that the bytes of an AlgorithmIdentifier name (BR, section 7.1.3.1).
pub fn kind_named(algorithm: &[u8]) -> Option<KeyKind>
    ensures exact { result ≡ spec.kind_of algorithm.now }
    ensures named { (kind : KeyKind) → (algorithm.now ≡ algorithm_bytes kind) ↔ (result ≡ Some kind) }
{
    if is_same(algorithm, &RSA) {
        Some(KeyKind::Rsa)
    } else if is_same(algorithm, &P256) {
        Some(KeyKind::P256)
    } else if is_same(algorithm, &P384) {
        Some(KeyKind::P384)
    } else if is_same(algorithm, &P521) {
        Some(KeyKind::P521)
    } else {
        None
    }
}

/// What follows a first byte of 0: the bits of a BIT STRING whose last byte has no unused ones (X.690, section 8.6).
pub fn behind_zero(content: &[u8]) -> Option<&[u8]>
    ensures { option_map (λ rest. rest.now) result ≡ spec.behind_zero content.now }
{
    match content {
        [0, rest @ ..] => Some(rest),
        _ => None,
    }
}

/// The bits of a key.
fn bits_of<'a>(tree: &Tree<'a>) -> Option<&'a [u8]>
    ensures { option_map (λ bits. bits.now) result ≡ spec.bits_of (node tree.now) }
{
    let parts = constructed_parts(SEQUENCE, tree)?;
    let others = skip_first(parts)?;
    let (content, parts) = take_primitive(BIT_STRING, others)?;
    let bits = behind_zero(content)?;
    if are_none(parts) { Some(bits) } else { None }
}

/// The kind of the good key that the bytes spell, or none where they spell no good key.
pub fn read_key_kind(alloc: Global, spki: &[u8]) -> Result<Option<KeyKind>, NoMemory>
    ensures { IfOk result (λ found. (kind : KeyKind) → IsKeyOf spki.now kind ↔ (found ≡ Some kind)) }
{
    let tree = match read_tree(alloc, spki) {
        Ok(tree) => tree,
        Err(ReadFault::Der(_)) => return Ok(None),
        Err(ReadFault::NoMemory) => return Err(NoMemory),
    };
    let Some(bits) = bits_of(&tree) else {
        return Ok(None);
    };
    let Some(algorithm) = part_at(spki, &[0]) else {
        return Ok(None);
    };
    let Some(kind) = kind_named(algorithm) else {
        return Ok(None);
    };
    if are_bits_of(alloc, kind, bits)? {
        Ok(Some(kind))
    } else {
        Ok(None)
    }
}
