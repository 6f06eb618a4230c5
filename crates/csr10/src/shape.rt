//! The parts of a request.
ghost use Rattle.std.specs.Prelude.{◌≡◌, option_map, IfOk, IfErr};
ghost use Rattle.der_text.specs.View.{node, nodes};
ghost use Rattle.csr10.specs.Shape as spec;
ghost use Rattle.csr10.specs.Csr.{IsRequest};
ghost use Rattle.csr10.specs.View.{request};
ghost use Rattle.csr10.specs.Told.{IsOuterFault};

use crate::extension::sans_of;
use crate::fault::CsrFault;
use crate::name::check_values;
use der_text::tag::{BIT_STRING, INTEGER, OBJECT_IDENTIFIER, SEQUENCE};
use der_text::{
    ReadFault, Tree, are_none, constructed_parts, part_at, read_tree, take_constructed,
    take_primitive,
};
use std::alloc::Global;

/// The tag of the attributes, `[0]`.
const ATTRIBUTES: u8 = 0xa0;

/// What a request says: its version, its key, and the values of its subjectAltName extensions.
#[derive(Drop)]
pub struct Request<'a> {
    pub version: &'a [u8],
    pub spki: &'a [u8],
    pub sans: Vec<&'a [u8]>,
}

/// The version and the attributes.
fn info_of<'t, 'a>(parts: &'t [Tree<'a>]) -> Option<(&'a [u8], &'t [Tree<'a>])>
    ensures { option_map (λ x. (x.0.now, nodes x.1.now)) result ≡ spec.info_of (nodes parts.now) }
{
    let (version, parts) = take_primitive(INTEGER, parts)?;
    let (_, parts) = take_constructed(SEQUENCE, parts)?;
    let (_, parts) = take_constructed(SEQUENCE, parts)?;
    let (attributes, parts) = take_constructed(ATTRIBUTES, parts)?;
    if are_none(parts) {
        Some((version, attributes))
    } else {
        None
    }
}

/// The OBJECT IDENTIFIER of an algorithm.
fn algorithm_of<'a>(parts: &[Tree<'a>]) -> Option<&'a [u8]>
    ensures { option_map (λ x. x.now) result ≡ spec.algorithm_of (nodes parts.now) }
{
    let (name, _) = take_primitive(OBJECT_IDENTIFIER, parts)?;
    Some(name)
}

/// The version and the attributes of a request.
fn request_of<'t, 'a>(tree: &'t Tree<'a>) -> Option<(&'a [u8], &'t [Tree<'a>])>
    ensures { option_map (λ x. (x.0.now, nodes x.1.now)) result ≡ spec.request_of (node tree.now) }
{
    let parts = constructed_parts(SEQUENCE, tree)?;
    let (info, parts) = take_constructed(SEQUENCE, parts)?;
    let (algorithm, parts) = take_constructed(SEQUENCE, parts)?;
    algorithm_of(algorithm)?;
    let (_, parts) = take_primitive(BIT_STRING, parts)?;
    let found = info_of(info)?;
    if are_none(parts) { Some(found) } else { None }
}

/// The request that the bytes spell.
pub fn read_parts<'a>(alloc: Global, bytes: &'a [u8]) -> Result<Request<'a>, CsrFault>
    ensures ok { IfOk result (λ r. IsRequest bytes.now (request r)) }
    ensures err { IfErr result (λ e. IsOuterFault bytes.now e) }
{
    let tree = match read_tree(alloc, bytes) {
        Ok(tree) => tree,
        Err(ReadFault::Der(fault)) => return Err(CsrFault::Der(fault)),
        Err(ReadFault::NoMemory) => return Err(CsrFault::NoMemory),
    };
    let Some((version, attributes)) = request_of(&tree) else {
        return Err(CsrFault::Shape);
    };
    let Some(spki) = part_at(bytes, &[0, 2]) else {
        return Err(CsrFault::Shape);
    };
    let sans = sans_of(alloc, attributes)?;
    check_values(alloc, sans.as_slice())?;
    Ok(Request {
        version,
        spki,
        sans,
    })
}
