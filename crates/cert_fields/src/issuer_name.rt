//! The issuer's name.
ghost use Rattle.std.specs.Prelude.{◌≡◌, ◌≤◌, ◌↔◌, length, IsTrue, IfOk};
ghost use Rattle.der_text.specs.Tree.{element};
ghost use Rattle.der_text.specs.View.{node, nodes};
ghost use Rattle.cert_fields.specs.Sequences as spec;
ghost use Rattle.cert_fields.specs.Profile.{IsIssuerName};

use der_text::tag::SEQUENCE;
use der_text::{ReadFault, Tree, an_element_spells_one_content, push_element, read_tree};
use gate_base::NoMemory;
use std::alloc::Global;

/// The name has at most this many bytes.
const LONGEST_NAME: usize = 1_024;

/// A SEQUENCE with this content.
fn in_sequence(alloc: Global, content: &[u8]) -> Result<Vec<u8>, NoMemory>
    requires { length content.now ≤ 1024 }
    ensures { IfOk result (λ whole. whole.items ≡ element 48 content.now) }
{
    let mut whole = Vec::new(alloc);
    push_element(SEQUENCE, content, &mut whole)?;
    Ok(whole)
}

fn is_sequence(tree: &Tree<'_>) -> bool
    ensures { result ≡ spec.is_sequence (node tree.now) }
{
    match tree {
        Tree::Cons { tag, .. } => *tag == SEQUENCE,
        Tree::Prim { .. } => false,
    }
}

fn is_one_sequence(parts: &[Tree<'_>]) -> bool
    ensures { result ≡ spec.is_one_sequence (nodes parts.now) }
{
    match parts {
        [] => false,
        [part] => is_sequence(part),
        [_, _, ..] => false,
    }
}

/// Whether a tree is a SEQUENCE of one SEQUENCE.
fn is_sequence_of_one(tree: &Tree<'_>) -> bool
    ensures { result ≡ spec.is_sequence_of_one (node tree.now) }
{
    match tree {
        Tree::Cons { tag, parts } => *tag == SEQUENCE && is_one_sequence(parts.as_slice()),
        Tree::Prim { .. } => false,
    }
}

/// Whether the bytes spell an issuer's Name (RFC 5280, section 4.1.2.4): a SEQUENCE of at most 1,024 bytes that may
/// stand inside another element, so that a tree around it has one level more. What it contains is not judged.
pub fn is_issuer_name(alloc: Global, bytes: &[u8]) -> Result<bool, NoMemory>
    ensures { IfOk result (λ good. IsTrue good ↔ IsIssuerName bytes.now) }
{
    if bytes.len() > LONGEST_NAME {
        return Ok(false);
    }
    an_element_spells_one_content();
    let whole = in_sequence(alloc, bytes)?;
    let tree = match read_tree(alloc, whole.as_slice()) {
        Ok(tree) => tree,
        Err(ReadFault::Der(_)) => return Ok(false),
        Err(ReadFault::NoMemory) => return Err(NoMemory),
    };
    Ok(is_sequence_of_one(&tree))
}
