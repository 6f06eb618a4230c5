//! The subjectAltName extensions that a request's attributes ask for.
ghost use Rattle.std.specs.Prelude.{◌≡◌, Some, None, map, option_map, IfOk, IfErr, OnOk};
ghost use Rattle.std.specs.Str.{bytes_eq};
ghost use Rattle.der_text.specs.View.{node, nodes};
ghost use Rattle.csr10.specs.Shape as spec;
ghost use Rattle.csr10.specs.Shape.{joined, each_of};
ghost use Rattle.csr10.specs.Told.{IfShape};

use crate::fault::CsrFault;
use der_text::tag::{BOOLEAN, OBJECT_IDENTIFIER, OCTET_STRING, SEQUENCE, SET};
use der_text::{Tree, are_none, constructed_parts, take_constructed, take_primitive};
use std::alloc::Global;

/// 1.2.840.113549.1.9.14
const EXTENSION_REQUEST: [u8; 9] = [0x2a, 0x86, 0x48, 0x86, 0xf7, 0x0d, 0x01, 0x09, 0x0e];

/// 2.5.29.17
const SUBJECT_ALT_NAME: [u8; 3] = [0x55, 0x1d, 0x11];

fn is_extension_request(identifier: &[u8]) -> bool
    ensures { result ≡ bytes_eq identifier.now spec.extension_request }
{
    identifier == EXTENSION_REQUEST.as_slice()
}

fn is_subject_alt_name(identifier: &[u8]) -> bool
    ensures { result ≡ bytes_eq identifier.now spec.subject_alt_name }
{
    identifier == SUBJECT_ALT_NAME.as_slice()
}

fn is_boolean(tree: &Tree<'_>) -> bool
    ensures { result ≡ spec.is_boolean (node tree.now) }
{
    match tree {
        Tree::Prim { tag, .. } => *tag == BOOLEAN,
        Tree::Cons { .. } => false,
    }
}

/// The elements behind a BOOLEAN, where one is at the front.
fn skip_boolean<'t, 'a>(parts: &'t [Tree<'a>]) -> &'t [Tree<'a>]
    ensures { nodes result.now ≡ spec.behind_boolean (nodes parts.now) }
{
    match parts {
        [] => parts,
        [first, others @ ..] => { if is_boolean(first) { others } else { parts } }
    }
}

/// The identifier and the value of an extension.
fn extension_of<'a>(tree: &Tree<'a>) -> Option<(&'a [u8], &'a [u8])>
    ensures { option_map (λ x. (x.0.now, x.1.now)) result ≡ spec.extension_of (node tree.now) }
{
    let parts = constructed_parts(SEQUENCE, tree)?;
    let (identifier, parts) = take_primitive(OBJECT_IDENTIFIER, parts)?;
    let (value, parts) = take_primitive(OCTET_STRING, skip_boolean(parts))?;
    if are_none(parts) {
        Some((identifier, value))
    } else {
        None
    }
}

/// The type and the values of an attribute.
fn attribute_of<'t, 'a>(tree: &'t Tree<'a>) -> Option<(&'a [u8], &'t [Tree<'a>])>
    ensures { option_map (λ x. (x.0.now, nodes x.1.now)) result ≡ spec.attribute_of (node tree.now) }
{
    let parts = constructed_parts(SEQUENCE, tree)?;
    let (kind, parts) = take_primitive(OBJECT_IDENTIFIER, parts)?;
    let (values, parts) = take_constructed(SET, parts)?;
    if are_none(parts) {
        Some((kind, values))
    } else {
        None
    }
}

/// The extensions that the value of an extensionRequest has.
fn extensions_of<'t, 'a>(values: &'t [Tree<'a>]) -> Option<&'t [Tree<'a>]>
    ensures { option_map (λ x. nodes x.now) result ≡ spec.extensions_of (nodes values.now) }
{
    let (extensions, values) = take_constructed(SEQUENCE, values)?;
    if are_none(values) {
        Some(extensions)
    } else {
        None
    }
}

/// Appends the value of an extension, where it is a subjectAltName.
fn push_san<'a>(tree: &Tree<'a>, sans: &mut Vec<&'a [u8]>) -> Result<(), CsrFault>
    ensures ok { OnOk result (joined (Some (map (λ s. s.now) sans.old.items)) (spec.sans_of_extension (node tree.now)) ≡
        Some (map (λ s. s.now) sans.new.items)) }
    ensures err { IfErr result (λ e. IfShape e (spec.sans_of_extension (node tree.now) ≡ None)) }
{
    let Some((identifier, value)) = extension_of(tree) else {
        return Err(CsrFault::Shape);
    };
    if is_subject_alt_name(identifier) {
        sans.push(value)?;
    }
    Ok(())
}

/// Appends the values of the subjectAltName extensions.
#[tactic(auto, using(crate::proofs::Rows::rows))]
fn push_extensions<'a>(extensions: &[Tree<'a>], sans: &mut Vec<&'a [u8]>) -> Result<(), CsrFault>
    ensures ok { OnOk result (joined (Some (map (λ s. s.now) sans.old.items)) (each_of spec.sans_of_extension (nodes extensions.now)) ≡
        Some (map (λ s. s.now) sans.new.items)) }
    ensures err { IfErr result (λ e. IfShape e (each_of spec.sans_of_extension (nodes extensions.now) ≡ None)) }
{
    let mut rest = extensions;
    while let [first, others @ ..] = rest {
        push_san(first, sans)?;
        rest = others;
    }
    Ok(())
}

/// Appends those that an attribute asks for.
fn push_attribute<'a>(tree: &Tree<'a>, sans: &mut Vec<&'a [u8]>) -> Result<(), CsrFault>
    ensures ok { OnOk result (joined (Some (map (λ s. s.now) sans.old.items)) (spec.sans_of_attribute (node tree.now)) ≡
        Some (map (λ s. s.now) sans.new.items)) }
    ensures err { IfErr result (λ e. IfShape e (spec.sans_of_attribute (node tree.now) ≡ None)) }
{
    let Some((kind, values)) = attribute_of(tree) else {
        return Err(CsrFault::Shape);
    };
    if !is_extension_request(kind) {
        return Ok(());
    }
    let Some(extensions) = extensions_of(values) else {
        return Err(CsrFault::Shape);
    };
    push_extensions(extensions, sans)
}

/// The values of all subjectAltName extensions that the attributes ask for.
#[tactic(auto, using(crate::proofs::Rows::rows))]
pub fn sans_of<'a>(alloc: Global, attributes: &[Tree<'a>]) -> Result<Vec<&'a [u8]>, CsrFault>
    ensures ok { IfOk result (λ sans. each_of spec.sans_of_attribute (nodes attributes.now) ≡ Some (map (λ s. s.now) sans.items)) }
    ensures err { IfErr result (λ e. IfShape e (each_of spec.sans_of_attribute (nodes attributes.now) ≡ None)) }
{
    let mut sans = Vec::new(alloc);
    let mut rest = attributes;
    while let [first, others @ ..] = rest {
        push_attribute(first, &mut sans)?;
        rest = others;
    }
    Ok(sans)
}
