//! A disk in memory, with the ranges that a stop may tear, and the bodies handed to the signer.
ghost use Rattle.std.specs.Prelude.{◌≡◌, [], ◌∷◌, ◌++◌, ◌≤◌, length, OnOk, OnErr};
ghost use Rattle.plant.specs.Plant.{overwritten};
ghost use Rattle.plant.specs.GhostList.{items_of};
ghost use Rattle.plant.specs.MemoryDisk.{content_value};

use crate::ghost_list::GhostList;
use gate_base::{ByteLists, Bytes, NoMemory};
use std::alloc::Global;
use std::snapshot::Snapshot;

/// Some bytes from a place on.
#[derive(Clone, Copy)]
pub struct Range {
    pub at: u64,
    pub count: u64,
}

/// What a read and a stop find at one moment. Only the bytes and the sent list take memory.
#[derive(Drop)]
pub struct Content {
    pub bytes: Vec<u8>,
    /// The bytes of the last sync.
    pub stable: Snapshot<Vec<u8>>,
    /// The ranges that were written since.
    pub written: GhostList<Range>,
    pub sent: ByteLists,
}

/// Tears a range until the next sync.
pub fn tear(content: &mut Content, at: u64, count: usize)
    ensures { content_value content.new ≡ record (content_value content.old) { written = (at, count) ∷ (content_value content.old).written } }
{
    let count = count as u64;
    content.written.push(Snapshot::of(&Range { at, count }));
}

/// Makes durable what reads.
pub fn settle(content: &mut Content)
    ensures { content_value content.new ≡ record (content_value content.old) { stable = content.old.bytes.items; written = [] } }
{
    content.stable = Snapshot::of(&content.bytes);
    content.written = GhostList::new();
}

/// Writes a piece over what stands from a place on, and past the end.
pub fn overwrite(bytes: &mut Vec<u8>, at: usize, piece: &[u8]) -> Result<(), NoMemory>
    requires { at ≤ length bytes.old.items }
    ensures ok { OnOk result (bytes.new.items ≡ overwritten bytes.old.items at piece.now) }
    ensures err { OnErr result (bytes.new.items ≡ bytes.old.items) }
{
    let over = piece.len().min(bytes.len() - at);
    let (front, back) = piece.split_at(over);
    bytes.extend_from_slice(back)?;
    bytes[at..at + over].copy_from_slice(front);
    Ok(())
}

/// Keeps a body that the signer got, and with it the moment before.
pub fn keep_sent(
    alloc: Global,
    content: &mut Content,
    past: &mut GhostList<Content>,
    body: &[u8],
) -> Result<(), NoMemory>
    ensures content { OnOk result (content_value content.new ≡ record (content_value content.old) { sent = content.old.sent ++ body.now ∷ [] }) }
    ensures past { OnOk result (items_of past.new ≡ content.old ∷ items_of past.old) }
    ensures unsent { OnErr result (content_value content.new ≡ content_value content.old) }
    ensures unkept { OnErr result (past.new ≡ past.old) }
{
    let body = Bytes::from_slice(alloc, body)?;
    let before = Snapshot::of(content);
    content.sent.push(body)?;
    past.push(before);
    Ok(())
}
