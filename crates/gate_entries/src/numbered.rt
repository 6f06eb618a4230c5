//! What is sent to the signer and its signature, in the journal: an order's number, and bytes.
ghost use Rattle.std.specs.Prelude.{◌≡◌, ◌++◌, length, IsTrue, ◌↔◌, OnOk};
ghost use Rattle.gate_entries.specs.declared.entry.What.TheVariants.{Send, Signed};
ghost use Rattle.gate_entries.specs.Field.{Gives, Within};
ghost use Rattle.gate_entries.specs.Numbered.{numbered_bytes, IsNumbered, send_at, signed_at};

use crate::entry::What;
use crate::fault::FieldFault;
use crate::field::{put_counted16, put_u64, read_counted16, read_u64};
use gate_base::{Bytes, NoMemory, Plain};
use std::alloc::Global;

pub fn put_numbered(order: u64, bytes: &Bytes, out: &mut Vec<u8>) -> Result<(), NoMemory>
    requires { IsNumbered order bytes.now }
    ensures { OnOk result (out.new.items ≡ out.old.items ++ numbered_bytes order bytes.now) }
{
    put_u64(order, out)?;
    put_counted16(bytes, out)
}

#[tactic(auto, unfolding(crate::specs::Numbered::send_at))]
pub fn read_send(alloc: Global, bytes: &[u8]) -> Result<(What, &[u8]), FieldFault>
    ensures exact { Gives (λ x. (x.0, x.1.now)) result (send_at bytes.now) }
    ensures within { Within (λ x. x.1.now) bytes.now result }
{
    let (order, rest) = read_u64(bytes)?;
    let (body, rest) = read_counted16(alloc, rest)?;
    Ok((What::Send { order, body }, rest))
}

#[tactic(auto, unfolding(crate::specs::Numbered::signed_at))]
pub fn read_signed(alloc: Global, bytes: &[u8]) -> Result<(What, &[u8]), FieldFault>
    ensures exact { Gives (λ x. (x.0, x.1.now)) result (signed_at bytes.now) }
    ensures within { Within (λ x. x.1.now) bytes.now result }
{
    let (order, rest) = read_u64(bytes)?;
    let (signature, rest) = read_counted16(alloc, rest)?;
    Ok((What::Signed { order, signature }, rest))
}

/// Whether what an entry says is that this body is sent.
pub fn is_send(what: &What, order: u64, body: &Bytes) -> bool
    ensures { IsTrue result ↔ (Send order body.now ≡ what.now) }
{
    match what {
        What::Send {
            order: other_order,
            body: other_body,
        } => order == *other_order && body.is_same(other_body),
        _ => false,
    }
}

/// Whether what an entry says is this signature.
pub fn is_signed(what: &What, order: u64, signature: &Bytes) -> bool
    ensures { IsTrue result ↔ (Signed order signature.now ≡ what.now) }
{
    match what {
        What::Signed {
            order: other_order,
            signature: other_signature,
        } => order == *other_order && signature.is_same(other_signature),
        _ => false,
    }
}
