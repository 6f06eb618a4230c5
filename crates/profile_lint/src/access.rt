//! The issuer's key, and where its certificate and its revocation list are.
ghost use Rattle.std.specs.Prelude.{◌≡◌, option_map};
ghost use Rattle.std.specs.Str.{bytes_eq};
ghost use Rattle.der_text.specs.View.{node, nodes};
ghost use Rattle.profile_lint.specs.Parts as parts_spec;
ghost use Rattle.profile_lint.specs.Rules as spec;
ghost use Rattle.profile_lint.specs.View as view;

use crate::contents::Judged;
use crate::extension::absent_or_critical;
use crate::identifiers::{CA_ISSUERS, is_same};
use crate::names::{elements, shown};
use der_text::tag::{OBJECT_IDENTIFIER, SEQUENCE};
use der_text::{Tree, are_none, constructed_parts, take_constructed, take_primitive};
use gate_base::Profile;
use tbs_shape::Extension;

const RESOURCE: u8 = 0x86;

/// The tag of a distributionPoint, and that of its fullName.
const FIRST_CHOICE: u8 = 0xa0;

pub fn names_are_constrained(constraints: Option<&Extension<'_>>) -> bool
    ensures { result ≡ spec.names_are_constrained (option_map (λ e. e.now) constraints.entry) }
{
    constraints.is_some()
}

fn is_key_identifier(value: &[u8], key_id: &[u8]) -> bool
    ensures { result ≡ bytes_eq value.now (spec.key_identifier key_id.now) }
{
    match value {
        [0x30, 0x16, 0x80, 0x14, rest @ ..] => is_same(rest, key_id),
        _ => false,
    }
}

fn has_key_identifier(extension: Option<&Extension<'_>>, key_id: &[u8]) -> bool
    ensures { result ≡ spec.has_value (spec.key_identifier key_id.now) (option_map (λ e. e.now) extension.entry) }
{
    match extension {
        None => false,
        Some(extension) => is_key_identifier(extension.value(), key_id),
    }
}

pub fn authority_key_is_bad(extension: Option<&Extension<'_>>, profile: &Profile) -> bool
    ensures { result ≡ spec.authority_key_is_bad (option_map (λ e. e.now) extension.entry) profile.now }
{
    absent_or_critical(extension) || !has_key_identifier(extension, &profile.key_id.0)
}

fn is_http(address: &[u8]) -> bool
    ensures { result ≡ spec.is_http address.now }
{
    address.starts_with(b"http://")
}

fn is_http_name(part: &Tree<'_>) -> bool
    ensures { result ≡ spec.is_http_name (node part.now) }
{
    match part {
        Tree::Prim { tag, content } => *tag == RESOURCE && is_http(content),
        Tree::Cons { .. } => false,
    }
}

/// The method and the address of an access description.
fn described<'a>(tree: &Tree<'a>) -> Option<(&'a [u8], &'a [u8])>
    ensures { option_map (λ x. (x.0.now, x.1.now)) result ≡ spec.described (node tree.now) }
{
    let parts = constructed_parts(SEQUENCE, tree)?;
    let (method, parts) = take_primitive(OBJECT_IDENTIFIER, parts)?;
    let (address, parts) = take_primitive(RESOURCE, parts)?;
    if are_none(parts) {
        Some((method, address))
    } else {
        None
    }
}

fn names_issuer(tree: &Tree<'_>) -> bool
    ensures { result ≡ spec.names_issuer (node tree.now) }
{
    match described(tree) {
        None => false,
        Some((method, address)) => is_same(method, &CA_ISSUERS) && is_http(address),
    }
}

fn has_issuer(parts: &[Tree<'_>]) -> bool
    ensures { result ≡ parts_spec.any_part spec.names_issuer (nodes parts.now) }
{
    let mut rest = parts;
    while let [first, others @ ..] = rest {
        if names_issuer(first) {
            return true;
        }
        rest = others;
    }
    false
}

pub fn access_is_bad(access: &Judged<'_, '_>) -> bool
    ensures { result ≡ spec.access_is_bad (view.judged access.now) }
{
    absent_or_critical(access.extension) || !has_issuer(shown(access.tree.as_ref()))
}

/// The names of the first distribution point.
fn full_name<'t, 'a>(points: Option<&'t Tree<'a>>) -> Option<&'t [Tree<'a>]>
    ensures { option_map (λ x. nodes x.now) result ≡ spec.full_name (option_map (λ t. node t.now) points.entry) }
{
    let parts = elements(points)?;
    let (point, _) = take_constructed(SEQUENCE, parts)?;
    let (name, _) = take_constructed(FIRST_CHOICE, point)?;
    let (names, rest) = take_constructed(FIRST_CHOICE, name)?;
    if are_none(rest) { Some(names) } else { None }
}

fn has_resource(names: &[Tree<'_>]) -> bool
    ensures { result ≡ parts_spec.any_part spec.is_http_name (nodes names.now) }
{
    let mut rest = names;
    while let [first, others @ ..] = rest {
        if is_http_name(first) {
            return true;
        }
        rest = others;
    }
    false
}

fn has_http_name(names: Option<&[Tree<'_>]>) -> bool
    ensures { result ≡ spec.has_http_name (option_map (λ x. nodes x.now) names.entry) }
{
    match names {
        None => false,
        Some(names) => has_resource(names),
    }
}

pub fn points_are_bad(points: &Judged<'_, '_>) -> bool
    ensures { result ≡ spec.points_are_bad (view.judged points.now) }
{
    absent_or_critical(points.extension) || !has_http_name(full_name(points.tree.as_ref()))
}
