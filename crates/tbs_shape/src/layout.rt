//! The outermost parts of a body.
ghost use Rattle.std.specs.Prelude.{◌≡◌, ◌<◌, Some, option_map};
ghost use Rattle.der_text.specs.Tree.{IsDer};
ghost use Rattle.der_text.specs.View.{node, nodes};
ghost use Rattle.tbs_shape.specs.Shape as spec;
ghost use Rattle.tbs_shape.specs.View as shown;

use crate::parts::{take_element, take_present, take_version};
use crate::value::Primitive;
use der_text::tag::{BIT_STRING, INTEGER, SEQUENCE};
use der_text::{Tree, are_none, constructed_parts, part_at, take_constructed, take_primitive};

const ISSUER_UNIQUE_ID: u8 = 0x81;

const SUBJECT_UNIQUE_ID: u8 = 0x82;

const EXTENSIONS: u8 = 0xa3;

#[derive(Clone, Copy)]
pub struct Layout<'t, 'a> {
    pub version: Option<&'a [u8]>,
    pub serial: &'a [u8],
    pub validity: &'t [Tree<'a>],
    pub subject: &'t [Tree<'a>],
    pub key_bits: &'a [u8],
    pub has_unique_id: bool,
    pub extensions: Option<&'t [Tree<'a>]>,
}

/// The parts that are kept as they stand in the bytes.
#[derive(Clone, Copy)]
pub struct Kept<'a> {
    pub algorithm: &'a [u8],
    pub issuer: &'a [u8],
    pub key_algorithm: &'a [u8],
}

/// The version, the serial number, and the elements behind the issuer.
fn front_of<'t, 'a>(parts: &'t [Tree<'a>]) -> Option<(Option<&'a [u8]>, &'a [u8], &'t [Tree<'a>])>
    ensures { option_map (λ x. (option_map (λ v. v.now) x.0, x.1.now, nodes x.2.now)) result ≡
        spec.front_of (nodes parts.now) }
{
    let (version, parts) = take_version(parts)?;
    let (serial, parts) = take_primitive(INTEGER, parts)?;
    let (_, parts) = take_constructed(SEQUENCE, parts)?;
    let (_, parts) = take_constructed(SEQUENCE, parts)?;
    Some((version, serial, parts))
}

/// The bits of the key.
fn bits_of<'a>(parts: &[Tree<'a>]) -> Option<&'a [u8]>
    ensures { option_map (λ x. x.now) result ≡ spec.bits_of (nodes parts.now) }
{
    let (_, parts) = take_constructed(SEQUENCE, parts)?;
    let (bits, parts) = take_primitive(BIT_STRING, parts)?;
    if are_none(parts) { Some(bits) } else { None }
}

/// The extensions, if they are there, with which the body ends.
fn extensions_of<'t, 'a>(parts: &'t [Tree<'a>]) -> Option<Option<&'t [Tree<'a>]>>
    ensures { option_map (λ x. option_map (λ s. nodes s.now) x) result ≡ spec.extensions_at (nodes parts.now) }
{
    let Some((inner, others)) = take_constructed(EXTENSIONS, parts) else {
        return if are_none(parts) { Some(None) } else { None };
    };
    let (extensions, rest) = take_constructed(SEQUENCE, inner)?;
    if are_none(rest) && are_none(others) {
        Some(Some(extensions))
    } else {
        None
    }
}

/// Whether a unique identifier stands behind the key, and the extensions.
fn back_of<'t, 'a>(parts: &'t [Tree<'a>]) -> Option<(bool, Option<&'t [Tree<'a>]>)>
    ensures { option_map (λ x. (x.0, option_map (λ s. nodes s.now) x.1)) result ≡ spec.back_of (nodes parts.now) }
{
    let (issuer, parts) = take_present(ISSUER_UNIQUE_ID, parts);
    let (subject, parts) = take_present(SUBJECT_UNIQUE_ID, parts);
    let extensions = extensions_of(parts)?;
    Some((issuer || subject, extensions))
}

/// The outermost parts of a tree that has them.
#[tactic(auto, unfolding(crate::specs::Shape::layout_of))]
pub fn layout_of<'t, 'a>(tree: &'t Tree<'a>) -> Option<Layout<'t, 'a>>
    ensures { option_map shown.layout result ≡ spec.layout_of (node tree.now) }
{
    let parts = constructed_parts(SEQUENCE, tree)?;
    let (version, serial, parts) = front_of(parts)?;
    let (validity, parts) = take_constructed(SEQUENCE, parts)?;
    let (subject, parts) = take_constructed(SEQUENCE, parts)?;
    let (key, parts) = take_constructed(SEQUENCE, parts)?;
    let key_bits = bits_of(key)?;
    let (has_unique_id, extensions) = back_of(parts)?;
    Some(Layout {
        version,
        serial,
        validity,
        subject,
        key_bits,
        has_unique_id,
        extensions,
    })
}

fn place_behind(version: Option<&[u8]>, place: u64) -> u64
    requires { place < 8 }
    ensures { result ≡ spec.place_behind (option_map (λ v. v.now) version.entry) place }
{
    match version {
        None => place,
        Some(_) => 1 + place,
    }
}

/// The parts that are kept, of the bytes of a tree with such a version.
pub fn kept_of<'a>(bytes: &'a [u8], version: Option<&[u8]>) -> Option<Kept<'a>>
    ensures { (tree : _) → IsDer bytes.now tree →
        option_map shown.kept result ≡ spec.kept_of (option_map (λ v. v.now) version.entry) tree }
{
    let algorithm = part_at(bytes, &[place_behind(version, 1)])?;
    let issuer = part_at(bytes, &[place_behind(version, 2)])?;
    let key_algorithm = part_at(bytes, &[place_behind(version, 5), 0])?;
    Some(Kept {
        algorithm,
        issuer,
        key_algorithm,
    })
}

/// The two times of a validity.
pub fn times_of<'a>(parts: &[Tree<'a>]) -> Option<(Primitive<'a>, Primitive<'a>)>
    ensures { result ≡ spec.times_of (nodes parts.now) }
{
    let (not_before, parts) = take_element(parts)?;
    let (not_after, parts) = take_element(parts)?;
    if are_none(parts) {
        Some((not_before, not_after))
    } else {
        None
    }
}
