//! The parts of an element, read one after another.
ghost use Rattle.std.specs.Prelude.{◌≡◌, option_map};
ghost use Rattle.der_text.specs.View.{node, nodes};
ghost use Rattle.der_text.specs.Parts as spec;

use crate::tree::Tree;

/// The content of a primitive element with this tag.
pub fn primitive_content<'a>(tag: u8, tree: &Tree<'a>) -> Option<&'a [u8]>
    ensures { option_map (λ content. content.now) result ≡ spec.content_with tag (node tree.now) }
{
    match tree {
        Tree::Prim {
            tag: found,
            content,
        } if *found == tag => Some(*content),
        _ => None,
    }
}

/// The parts of a constructed element with this tag.
pub fn constructed_parts<'t, 'a>(tag: u8, tree: &'t Tree<'a>) -> Option<&'t [Tree<'a>]>
    ensures { option_map (λ parts. nodes parts.now) result ≡ spec.parts_with tag (node tree.now) }
{
    match tree {
        Tree::Cons { tag: found, parts } if *found == tag => Some(parts.as_slice()),
        _ => None,
    }
}

/// The content of the first element, which is primitive and has this tag, and the elements behind it.
pub fn take_primitive<'t, 'a>(tag: u8, parts: &'t [Tree<'a>]) -> Option<(&'a [u8], &'t [Tree<'a>])>
    ensures { option_map (λ x. (x.0.now, nodes x.1.now)) result ≡ spec.primitive_at tag (nodes parts.now) }
{
    match parts {
        [] => None,
        [first, others @ ..] => {
            let content = primitive_content(tag, first)?;
            Some((content, others))
        }
    }
}

/// The parts of the first element, which is constructed and has this tag, and the elements behind it.
pub fn take_constructed<'t, 'a>(
    tag: u8,
    parts: &'t [Tree<'a>],
) -> Option<(&'t [Tree<'a>], &'t [Tree<'a>])>
    ensures { option_map (λ x. (nodes x.0.now, nodes x.1.now)) result ≡ spec.constructed_at tag (nodes parts.now) }
{
    match parts {
        [] => None,
        [first, others @ ..] => {
            let inner = constructed_parts(tag, first)?;
            Some((inner, others))
        }
    }
}

/// The elements behind the first.
pub fn skip_first<'t, 'a>(parts: &'t [Tree<'a>]) -> Option<&'t [Tree<'a>]>
    ensures { option_map (λ others. nodes others.now) result ≡ spec.behind_first (nodes parts.now) }
{
    match parts {
        [] => None,
        [_, others @ ..] => Some(others),
    }
}

/// Whether no element is left.
pub fn are_none(parts: &[Tree<'_>]) -> bool
    ensures { result ≡ spec.are_none (nodes parts.now) }
{
    match parts {
        [] => true,
        [_, _others @ ..] => false,
    }
}
