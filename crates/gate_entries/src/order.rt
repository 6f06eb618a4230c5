//! Orders in the journal.
ghost use Rattle.std.specs.Prelude.{◌≡◌, ◌++◌, IsTrue, ◌↔◌, IfOk, OnOk};
ghost use Rattle.gate_entries.specs.declared.entry.What.TheVariants.{Order};
ghost use Rattle.gate_entries.specs.Field.{Gives, Within};
ghost use Rattle.gate_entries.specs.Order.{order_bytes, IsOrder, order_at};

use crate::entry::What;
use crate::fault::FieldFault;
use crate::field::{
    put_counted8, put_counted16, read_counted8, read_counted16, read_truth, read_u16,
};
use crate::list::{put_list, read_list};
use gate_base::{Bytes, NoMemory, Plain, Target, Targets};
use std::alloc::Global;

pub fn put_order(
    key: &Bytes,
    common: bool,
    days: u16,
    targets: &Targets,
    request: &Bytes,
    out: &mut Vec<u8>,
) -> Result<(), NoMemory>
    requires { IsOrder key.now days targets.now request.now }
    ensures { OnOk result (out.new.items ≡ out.old.items ++ order_bytes key.now common days targets.now request.now) }
{
    put_counted8(key, out)?;
    out.push(u8::from(common))?;
    out.extend_from_slice(&days.to_be_bytes())?;
    put_list(targets, out)?;
    put_counted16(request, out)
}

#[tactic(auto, unfolding(crate::specs::Order::order_at))]
pub fn read_order(alloc: Global, bytes: &[u8]) -> Result<(What, &[u8]), FieldFault>
    ensures exact { Gives (λ x. (x.0, x.1.now)) result (order_at bytes.now) }
    ensures within { Within (λ x. x.1.now) bytes.now result }
{
    let (key, rest) = read_counted8(alloc, bytes)?;
    let (common, rest) = read_truth(rest)?;
    let (days, rest) = read_u16(rest)?;
    let (targets, rest) = read_list::<Target>(alloc, rest)?;
    let (request, rest) = read_counted16(alloc, rest)?;
    let order = What::Order {
        key,
        common,
        days,
        targets,
        request,
    };
    Ok((order, rest))
}

pub fn copied_order(
    alloc: Global,
    key: &Bytes,
    common: bool,
    days: u16,
    targets: &Targets,
    request: &Bytes,
) -> Result<What, NoMemory>
    ensures { IfOk result (λ what. what ≡ Order key.now common days targets.now request.now) }
{
    Ok(What::Order {
        key: key.copied(alloc)?,
        common,
        days,
        targets: targets.copied(alloc)?,
        request: request.copied(alloc)?,
    })
}

/// Whether what an entry says is this order.
pub fn is_order(
    what: &What,
    key: &Bytes,
    common: bool,
    days: u16,
    targets: &Targets,
    request: &Bytes,
) -> bool
    ensures { IsTrue result ↔ (Order key.now common days targets.now request.now ≡ what.now) }
{
    match what {
        What::Order {
            key: other_key,
            common: other_common,
            days: other_days,
            targets: other_targets,
            request: other_request,
        } => {
            days == *other_days
                && common == *other_common
                && key.is_same(other_key)
                && targets.is_same(other_targets)
                && request.is_same(other_request)
        }
        _ => false,
    }
}
