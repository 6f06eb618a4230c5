ghost use Rattle.std.specs.Prelude.{◌≡◌, ◌+◌, ◌<◌, ◌^◌, [], length, IfOk, IfErr};
ghost use Rattle.der_text.specs.Tree.{Node, IsDer};
ghost use Rattle.der_text.specs.View.{node, nodes};
ghost use Rattle.der_text.specs.Fault.{HasFault, IsAmong, IsFirstFault, IfDer};
ghost use Rattle.der_text.specs.Reading.{Begins, BeginsWith};

use crate::content::has_constructed_bit;
use crate::fault::{DerFault, DerKind, ReadFault};
use crate::front::read_front;
use crate::tree::Tree;
use std::alloc::Global;

/// How many levels a tree may have.
pub const LEVELS: u32 = 32;

/// The element at the front of the bytes, which begin at a place, and the bytes after it.
#[cycle(reading)]
fn read_element<'a>(
    alloc: Global,
    levels: u32,
    place: u64,
    bytes: &'a [u8],
) -> Result<(Tree<'a>, &'a [u8]), ReadFault>
    requires { place + length bytes.now < 2 ^ 64 }
    ensures ok { IfOk result (λ x. Begins levels bytes.now (node x.0) x.1.now) }
    ensures shorter { IfOk result (λ x. length x.1.now < length bytes.now) }
    ensures fault { IfErr result (λ e. IfDer e (λ fault. HasFault levels fault place bytes.now)) }
{
    let front = match read_front(levels, bytes) {
        Ok(front) => front,
        Err(kind) => return Err(ReadFault::Der(DerFault { kind, place })),
    };
    if !has_constructed_bit(front.tag) {
        return Ok((
            Tree::Prim {
                tag: front.tag,
                content: front.content,
            },
            front.after,
        ));
    }
    let head = bytes.len() - front.after.len() - front.content.len();
    let parts = read_parts(alloc, levels - 1, place + head as u64, front.content)?;
    Ok((
        Tree::Cons {
            tag: front.tag,
            parts,
        },
        front.after,
    ))
}

/// The elements that a content is, which begins at a place.
#[cycle(reading)]
fn read_parts<'a>(
    alloc: Global,
    levels: u32,
    place: u64,
    content: &'a [u8],
) -> Result<Vec<Tree<'a>>, ReadFault>
    requires { place + length content.now < 2 ^ 64 }
    ensures ok { IfOk result (λ parts. BeginsWith levels content.now (nodes parts.items) []) }
    ensures fault { IfErr result (λ e. IfDer e (λ fault. IsAmong levels place content.now (HasFault levels fault))) }
{
    let mut parts = Vec::new(alloc);
    let mut rest = content;
    while !rest.is_empty() {
        let at = place + (content.len() - rest.len()) as u64;
        let (part, after) = read_element(alloc, levels, at, rest)?;
        parts.push(part)?;
        rest = after;
    }
    Ok(parts)
}

/// The tree that the bytes spell, or their first fault.
pub fn read_tree<'a>(alloc: Global, bytes: &'a [u8]) -> Result<Tree<'a>, ReadFault>
    // What is read is what the bytes spell.
    ensures ok { IfOk result (λ tree. IsDer bytes.now (node tree)) }
    // They spell no other tree.
    ensures same { IfOk result (λ tree. (other : Node) → IsDer bytes.now other → other ≡ node tree) }
    // Where a fault is told they spell none,
    ensures only { IfErr result (λ e. IfDer e (λ fault. (tree : Node) → ¬ IsDer bytes.now tree)) }
    // and it is the first broken test with its place.
    ensures fault { IfErr result (λ e. IfDer e (λ fault. IsFirstFault bytes.now fault)) }
{
    let (tree, after) = read_element(alloc, LEVELS, 0, bytes)?;
    if !after.is_empty() {
        let place = (bytes.len() - after.len()) as u64;
        return Err(ReadFault::Der(DerFault {
            kind: DerKind::Trailing,
            place,
        }));
    }
    Ok(tree)
}
