//! Trees that are read.
ghost use Rattle.std.specs.Prelude.{◌≡◌, IfOk};
ghost use Rattle.der_text.specs.Tree.{IsDer};
ghost use Rattle.der_text.specs.View.{node, nodes};
ghost use Rattle.gate_bench.specs.Rounds as rounds;

use crate::fault::Fault;
use der_text::{ReadFault, Tree, read_tree};
use std::alloc::{AllocError, Global};

const PARTS_PER_KILOBYTE: u32 = 64;

/// A SEQUENCE of an INTEGER and an OCTET STRING, in 16 bytes.
const PART: [u8; 16] = [
    0x30, 0x0e, 0x02, 0x01, 0x07, 0x04, 0x09, 0x67, 0x61, 0x71, 0x6f, 0x6c, 0x69, 0x74, 0x68, 0x21,
];

/// A SEQUENCE with so many kilobytes of parts, as it is spelled.
pub fn tree_bytes(alloc: Global, kilobytes: u8) -> Result<Vec<u8>, AllocError> {
    let mut bytes = Vec::new(alloc);
    if kilobytes < 64 {
        bytes.extend_from_slice(&[0x30, 0x82, kilobytes * 4, 0])?;
    } else {
        bytes.extend_from_slice(&[0x30, 0x83, kilobytes / 64, kilobytes % 64 * 4, 0])?;
    }
    for _ in 0..u32::from(kilobytes) * PARTS_PER_KILOBYTE {
        bytes.extend_from_slice(&PART)?;
    }
    Ok(bytes)
}

#[tactic(auto, using(crate::proofs::RoundsLemmas::node_count_of_nodes))]
fn count(parts: &[Tree<'_>]) -> u64
    ensures { result ≡ rounds.node_count (nodes parts.now) }
{
    parts.len() as u64
}

/// How many parts a tree has.
fn part_count(tree: &Tree<'_>) -> u64
    ensures { result ≡ rounds.part_count (node tree.now) }
{
    match tree {
        Tree::Prim { .. } => 0,
        Tree::Cons { parts, .. } => count(parts.as_slice()),
    }
}

/// Reads the bytes so many times, and counts the parts of each tree.
fn read_often(alloc: Global, bytes: &[u8], times: u32) -> Result<u64, ReadFault>
    ensures { IfOk result (λ parts. rounds.Did (IsDer bytes.now) rounds.part_count times parts) }
{
    let mut parts = 0u64;
    for _ in 0..times {
        let tree = read_tree(alloc, bytes)?;
        parts = parts.saturating_add(part_count(&tree));
    }
    Ok(parts)
}

pub fn report(alloc: Global, kilobytes: u8, times: u32) -> Result<String, Fault> {
    let bytes = tree_bytes(alloc, kilobytes)?;
    let parts = read_often(alloc, bytes.as_slice(), times).map_err(Fault::Tree)?;
    let size = bytes.len();
    Ok(format!(in alloc; "trees: {size} bytes read {times} times, {parts} parts in all")?)
}
