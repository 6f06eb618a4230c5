//! Parts that may be left out, and single elements.
ghost use Rattle.std.specs.Prelude.{◌≡◌, option_map};
ghost use Rattle.der_text.specs.View.{node, nodes};
ghost use Rattle.tbs_shape.specs.Shape as spec;

use crate::value::Primitive;
use der_text::tag::{BOOLEAN, INTEGER};
use der_text::{Tree, are_none, take_constructed, take_primitive};

/// The tag of a version.
const VERSION: u8 = 0xa0;

/// The content of the version, if it is there, and the elements behind it.
pub fn take_version<'t, 'a>(parts: &'t [Tree<'a>]) -> Option<(Option<&'a [u8]>, &'t [Tree<'a>])>
    ensures { option_map (λ x. (option_map (λ v. v.now) x.0, nodes x.1.now)) result ≡
        spec.version_at (nodes parts.now) }
{
    let Some((inner, others)) = take_constructed(VERSION, parts) else {
        return Some((None, parts));
    };
    let (number, rest) = take_primitive(INTEGER, inner)?;
    if are_none(rest) {
        Some((Some(number), others))
    } else {
        None
    }
}

fn is_true(content: &[u8]) -> bool
    ensures { result ≡ spec.is_true content.now }
{
    match content {
        [] => false,
        [first] => *first == 0xff,
        [_, _, ..] => false,
    }
}

/// Whether an extension is critical, and the elements behind.
pub fn take_critical<'t, 'a>(parts: &'t [Tree<'a>]) -> Option<(bool, &'t [Tree<'a>])>
    ensures { option_map (λ x. (x.0, nodes x.1.now)) result ≡ spec.critical_at (nodes parts.now) }
{
    match take_primitive(BOOLEAN, parts) {
        None => Some((false, parts)),
        Some((content, others)) => {
            if is_true(content) {
                Some((true, others))
            } else {
                None
            }
        }
    }
}

/// Whether a primitive element with this tag is at the front, and the elements behind.
pub fn take_present<'t, 'a>(tag: u8, parts: &'t [Tree<'a>]) -> (bool, &'t [Tree<'a>])
    ensures { (result.0, nodes result.1.now) ≡ spec.present_at tag (nodes parts.now) }
{
    match take_primitive(tag, parts) {
        None => (false, parts),
        Some((_, others)) => (true, others),
    }
}

fn element_of<'a>(tree: &Tree<'a>) -> Option<Primitive<'a>>
    ensures { result ≡ spec.element_of (node tree.now) }
{
    match tree {
        Tree::Prim { tag, content } => Some(Primitive::new(*tag, content)),
        Tree::Cons { .. } => None,
    }
}

/// The first element, which is primitive, and the elements behind it.
pub fn take_element<'t, 'a>(parts: &'t [Tree<'a>]) -> Option<(Primitive<'a>, &'t [Tree<'a>])>
    ensures { option_map (λ x. (x.0, nodes x.1.now)) result ≡ spec.element_at (nodes parts.now) }
{
    match parts {
        [] => None,
        [first, others @ ..] => {
            let found = element_of(first)?;
            Some((found, others))
        }
    }
}
