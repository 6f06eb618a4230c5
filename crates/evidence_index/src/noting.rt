//! Entries that are noted in the room that was made for them.
ghost use Rattle.std.specs.Prelude.{◌≡◌, ◌≤◌, ◌++◌, length, take, OnOk, OnErr};
ghost use Rattle.evidence_index.specs.Noting.{FitsRoom};

use gate_base::{Bytes, NoMemory, Plain};
use gate_entries::{Entry, What};
use std::alloc::Global;
use std::mem;

/// Appends copies of entries. After an error the list may have some of them.
pub fn push_copies(alloc: Global, entries: &mut Vec<Entry>, next: &[Entry]) -> Result<(), NoMemory>
    ensures ok { OnOk result (entries.new.items ≡ entries.old.items ++ next.now) }
    ensures err { OnErr result (take (length entries.old.items) entries.new.items ≡ entries.old.items) }
{
    for entry in next {
        let copy = entry.copied(alloc)?;
        entries.push(copy)?;
    }
    Ok(())
}

/// Puts these bytes in the place of as many or more. It takes no memory.
fn put_bytes(alloc: Global, kept: &mut Bytes, bytes: &[u8])
    requires { length bytes.now ≤ length kept.old }
    ensures { kept.new ≡ bytes.now }
{
    let mut items = mem::replace(kept, Bytes::new(alloc)).into_vec();
    items.truncate(bytes.len());
    items.as_mut_slice().copy_from_slice(bytes);
    *kept = Bytes::from_vec(items);
}

/// Makes the entry that was kept for another that one. It takes no memory.
pub fn settle(alloc: Global, kept: &mut Entry, entry: &Entry)
    requires { FitsRoom entry.now kept.old }
    ensures { kept.new ≡ entry.now }
{
    if let (
        What::Signed {
            signature: kept,
            ..
        },
        What::Signed { signature, .. },
    ) = (&mut kept.what, &entry.what)
    {
        put_bytes(alloc, kept, signature.as_slice());
    }
}
