//! Blocked keys in the journal.
ghost use Rattle.std.specs.Prelude.{◌≡◌, ◌++◌, IsTrue, ◌↔◌, OnOk};
ghost use Rattle.gate_entries.specs.declared.entry.What.TheVariants.{Blocked};
ghost use Rattle.gate_entries.specs.Field.{Gives, Within};
ghost use Rattle.gate_entries.specs.Blocked.{blocked_bytes, IsBlocked, blocked_at};

use crate::entry::What;
use crate::fault::FieldFault;
use crate::field::{put_counted8, put_counted16, read_counted8, read_counted16};
use gate_base::{Bytes, NoMemory, Plain};
use std::alloc::Global;

pub fn put_blocked(key: &Bytes, spki: &Bytes, out: &mut Vec<u8>) -> Result<(), NoMemory>
    requires { IsBlocked key.now spki.now }
    ensures { OnOk result (out.new.items ≡ out.old.items ++ blocked_bytes key.now spki.now) }
{
    put_counted8(key, out)?;
    put_counted16(spki, out)
}

#[tactic(auto, unfolding(crate::specs::Blocked::blocked_at))]
pub fn read_blocked(alloc: Global, bytes: &[u8]) -> Result<(What, &[u8]), FieldFault>
    ensures exact { Gives (λ x. (x.0, x.1.now)) result (blocked_at bytes.now) }
    ensures within { Within (λ x. x.1.now) bytes.now result }
{
    let (key, rest) = read_counted8(alloc, bytes)?;
    let (spki, rest) = read_counted16(alloc, rest)?;
    Ok((What::Blocked { key, spki }, rest))
}

/// Whether what an entry says is that this key is blocked.
pub fn is_blocked(what: &What, key: &Bytes, spki: &Bytes) -> bool
    ensures { IsTrue result ↔ (Blocked key.now spki.now ≡ what.now) }
{
    match what {
        What::Blocked {
            key: other_key,
            spki: other_spki,
        } => key.is_same(other_key) && spki.is_same(other_spki),
        _ => false,
    }
}
