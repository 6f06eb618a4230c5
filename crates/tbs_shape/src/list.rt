//! Attributes and extensions, one after another.
ghost use Rattle.std.specs.Prelude.{◌≡◌, Some, None, option_map, IfOk, IfErr, OnOk};
ghost use Rattle.der_text.specs.View.{node, nodes};
ghost use Rattle.tbs_shape.specs.Shape as spec;
ghost use Rattle.tbs_shape.specs.Shape.{joined, each_of};
ghost use Rattle.tbs_shape.specs.Told.{IfShape};

use crate::fault::BodyFault;
use crate::parts::{take_critical, take_element};
use crate::value::{Attribute, Extension};
use der_text::tag::{OBJECT_IDENTIFIER, OCTET_STRING, SEQUENCE, SET};
use der_text::{Tree, are_none, constructed_parts, take_primitive};
use std::alloc::Global;

fn attribute_of<'a>(tree: &Tree<'a>) -> Option<Attribute<'a>>
    ensures { result ≡ spec.attribute_of (node tree.now) }
{
    let parts = constructed_parts(SEQUENCE, tree)?;
    let (identifier, parts) = take_primitive(OBJECT_IDENTIFIER, parts)?;
    let (value, parts) = take_element(parts)?;
    if are_none(parts) {
        Some(Attribute::new(identifier, value))
    } else {
        None
    }
}

fn extension_of<'a>(tree: &Tree<'a>) -> Option<Extension<'a>>
    ensures { result ≡ spec.extension_of (node tree.now) }
{
    let parts = constructed_parts(SEQUENCE, tree)?;
    let (identifier, parts) = take_primitive(OBJECT_IDENTIFIER, parts)?;
    let (critical, parts) = take_critical(parts)?;
    let (value, parts) = take_primitive(OCTET_STRING, parts)?;
    if are_none(parts) {
        Some(Extension::new(identifier, critical, value))
    } else {
        None
    }
}

/// Appends an attribute.
fn push_attribute<'a>(tree: &Tree<'a>, attributes: &mut Vec<Attribute<'a>>) -> Result<(), BodyFault>
    ensures ok { OnOk result (joined (Some attributes.old.items) (spec.attribute_in (node tree.now)) ≡
        Some attributes.new.items) }
    ensures err { IfErr result (λ e. IfShape e (spec.attribute_in (node tree.now) ≡ None)) }
{
    let Some(attribute) = attribute_of(tree) else {
        return Err(BodyFault::Shape);
    };
    attributes.push(attribute)?;
    Ok(())
}

/// Appends the attributes that stand one after another.
#[tactic(auto, using(crate::proofs::Rows::rows))]
fn push_each<'a>(parts: &[Tree<'a>], attributes: &mut Vec<Attribute<'a>>) -> Result<(), BodyFault>
    ensures ok { OnOk result (joined (Some attributes.old.items) (each_of spec.attribute_in (nodes parts.now)) ≡
        Some attributes.new.items) }
    ensures err { IfErr result (λ e. IfShape e (each_of spec.attribute_in (nodes parts.now) ≡ None)) }
{
    let mut rest = parts;
    while let [first, others @ ..] = rest {
        push_attribute(first, attributes)?;
        rest = others;
    }
    Ok(())
}

/// Appends the attributes of a part of the subject.
fn push_attributes<'a>(
    tree: &Tree<'a>,
    attributes: &mut Vec<Attribute<'a>>,
) -> Result<(), BodyFault>
    ensures ok { OnOk result (joined (Some attributes.old.items) (spec.attributes_in (node tree.now)) ≡
        Some attributes.new.items) }
    ensures err { IfErr result (λ e. IfShape e (spec.attributes_in (node tree.now) ≡ None)) }
{
    match constructed_parts(SET, tree) {
        Some(parts) => push_each(parts, attributes),
        None => Err(BodyFault::Shape),
    }
}

/// The attributes of a subject.
#[tactic(auto, using(crate::proofs::Rows::rows))]
pub fn subject_of<'a>(alloc: Global, subject: &[Tree<'a>]) -> Result<Vec<Attribute<'a>>, BodyFault>
    ensures ok { IfOk result (λ attributes. each_of spec.attributes_in (nodes subject.now) ≡ Some attributes.items) }
    ensures err { IfErr result (λ e. IfShape e (each_of spec.attributes_in (nodes subject.now) ≡ None)) }
{
    let mut attributes = Vec::new(alloc);
    let mut rest = subject;
    while let [first, others @ ..] = rest {
        push_attributes(first, &mut attributes)?;
        rest = others;
    }
    Ok(attributes)
}

/// Appends an extension.
fn push_extension<'a>(tree: &Tree<'a>, extensions: &mut Vec<Extension<'a>>) -> Result<(), BodyFault>
    ensures ok { OnOk result (joined (Some extensions.old.items) (spec.extension_in (node tree.now)) ≡
        Some extensions.new.items) }
    ensures err { IfErr result (λ e. IfShape e (spec.extension_in (node tree.now) ≡ None)) }
{
    let Some(extension) = extension_of(tree) else {
        return Err(BodyFault::Shape);
    };
    extensions.push(extension)?;
    Ok(())
}

/// The extensions that stand one after another.
#[tactic(auto, using(crate::proofs::Rows::rows))]
fn each_extension<'a>(alloc: Global, parts: &[Tree<'a>]) -> Result<Vec<Extension<'a>>, BodyFault>
    ensures ok { IfOk result (λ extensions. each_of spec.extension_in (nodes parts.now) ≡ Some extensions.items) }
    ensures err { IfErr result (λ e. IfShape e (each_of spec.extension_in (nodes parts.now) ≡ None)) }
{
    let mut extensions = Vec::new(alloc);
    let mut rest = parts;
    while let [first, others @ ..] = rest {
        push_extension(first, &mut extensions)?;
        rest = others;
    }
    Ok(extensions)
}

/// The extensions, if they are there.
pub fn extensions_of<'a>(
    alloc: Global,
    parts: Option<&[Tree<'a>]>,
) -> Result<Option<Vec<Extension<'a>>>, BodyFault>
    ensures ok { IfOk result (λ found. spec.extensions_of (option_map (λ s. nodes s.now) parts.entry) ≡
        Some (option_map (λ extensions. extensions.items) found)) }
    ensures err { IfErr result (λ e. IfShape e
        (spec.extensions_of (option_map (λ s. nodes s.now) parts.entry) ≡ None)) }
{
    match parts {
        Some(parts) => Ok(Some(each_extension(alloc, parts)?)),
        None => Ok(None),
    }
}
