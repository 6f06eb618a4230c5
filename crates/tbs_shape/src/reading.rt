//! A body as a whole.
ghost use Rattle.std.specs.Prelude.{◌≡◌, Some, None, Err, IfOk, IfErr};
ghost use Rattle.der_text.specs.Tree.{IsDer};
ghost use Rattle.der_text.specs.View.{node};
ghost use Rattle.tbs_shape.specs.Body.{Body as Said};
ghost use Rattle.tbs_shape.specs.Shape.{IsBody, body_of};
ghost use Rattle.tbs_shape.specs.Told.{IfShape};

use crate::body::Body;
use crate::fault::BodyFault;
use crate::layout::{kept_of, layout_of, times_of};
use crate::list::{extensions_of, subject_of};
use der_text::{ReadFault, Tree, read_tree};
use std::alloc::Global;

/// What a tree says, with the bytes that spell it.
#[tactic(auto, unfolding(crate::specs::Shape::body_of))]
fn body_of<'a>(alloc: Global, bytes: &'a [u8], tree: &Tree<'a>) -> Result<Body<'a>, BodyFault>
    requires { IsDer bytes.now (node tree.now) }
    ensures ok { IfOk result (λ body. body_of (node tree.now) ≡ Some body) }
    ensures err { IfErr result (λ e. IfShape e (body_of (node tree.now) ≡ None)) }
{
    let Some(layout) = layout_of(tree) else {
        return Err(BodyFault::Shape);
    };
    let Some(kept) = kept_of(bytes, layout.version) else {
        return Err(BodyFault::Shape);
    };
    let Some(times) = times_of(layout.validity) else {
        return Err(BodyFault::Shape);
    };
    let subject = subject_of(alloc, layout.subject)?;
    let extensions = extensions_of(alloc, layout.extensions)?;
    Ok(Body::new(&layout, kept, times, subject, extensions))
}

/// What the bytes say as the body of a certificate.
pub fn read_body<'a>(alloc: Global, bytes: &'a [u8]) -> Result<Body<'a>, BodyFault>
    // What is read is what the bytes say.
    ensures ok { IfOk result (λ body. IsBody bytes.now body) }
    // Bytes that are told to have no such shape say nothing.
    ensures shape { IfErr result (λ e. IfShape e ((body : Said) → ¬ IsBody bytes.now body)) }
{
    let tree = match read_tree(alloc, bytes) {
        Ok(tree) => tree,
        Err(ReadFault::Der(_)) => return Err(BodyFault::Shape),
        Err(ReadFault::NoMemory) => return Err(BodyFault::NoMemory),
    };
    body_of(alloc, bytes, &tree)
}
