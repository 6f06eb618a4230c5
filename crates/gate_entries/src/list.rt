//! Lists of fields, behind their number.
ghost use Rattle.std.specs.Prelude.{◌≡◌, ◌≤◌, ◌^◌, ◌++◌, length, OnOk};
ghost use Rattle.std.specs.List.{flat_map, AllByRecursion};
ghost use Rattle.gate_entries.specs.Field.{list_bytes, AreItems, Gives, Within, items_at, list_at};

use crate::fault::FieldFault;
use crate::field::{Field, read_u8};
use gate_base::{NoMemory, Sequence};
use std::alloc::Global;

/// Appends the number of the items, and the items.
pub fn put_list<T: Field>(items: &Sequence<T>, out: &mut Vec<u8>) -> Result<(), NoMemory>
    requires { AreItems T.HasSpelling items.now }
    ensures { OnOk result (out.new.items ≡ out.old.items ++ list_bytes T.spelling items.now) }
{
    out.extend_from_slice(&(items.len() as u8).to_be_bytes())?;
    put_items(items.as_slice(), out)?;
    Ok(())
}

fn put_items<T: Field>(items: &[T], out: &mut Vec<u8>) -> Result<(), NoMemory>
    requires { AllByRecursion T.HasSpelling items.now }
    ensures { OnOk result (out.new.items ≡ out.old.items ++ flat_map T.spelling items.now) }
{
    for item in items {
        item.put(out)?;
    }
    Ok(())
}

/// The number of items, the items, and the bytes behind them.
#[tactic(auto, unfolding(crate::specs::Field::list_at))]
pub fn read_list<T: Field + Drop>(
    alloc: Global,
    bytes: &[u8],
) -> Result<(Sequence<T>, &[u8]), FieldFault>
    ensures exact { Gives (λ x. (x.0, x.1.now)) result (list_at T.reading bytes.now) }
    ensures within { Within (λ x. x.1.now) bytes.now result }
{
    let (count, rest) = read_u8(bytes)?;
    let (items, rest) = read_items::<T>(alloc, count, rest)?;
    Ok((items, rest))
}

fn read_items<T: Field + Drop>(
    alloc: Global,
    count: u8,
    bytes: &[u8],
) -> Result<(Sequence<T>, &[u8]), FieldFault>
    ensures exact { Gives (λ x. (x.0, x.1.now)) result (items_at T.reading count bytes.now) }
    ensures within { Within (λ x. x.1.now) bytes.now result }
{
    let mut items = Sequence::new(alloc);
    let mut rest = bytes;
    for _ in 0..count {
        let (item, after) = T::read(alloc, rest)?;
        items.push(item)?;
        rest = after;
    }
    Ok((items, rest))
}

/// How many bytes the number of the items and the items take.
pub fn list_len<T: Field>(items: &[T]) -> u64
    requires is { AreItems T.HasSpelling items.now }
    requires size { length (list_bytes T.spelling items.now) ≤ 2 ^ 40 }
    ensures { result ≡ length (list_bytes T.spelling items.now) }
{
    1 + items_len(items)
}

fn items_len<T: Field>(items: &[T]) -> u64
    requires each { AllByRecursion T.HasSpelling items.now }
    requires size { length (flat_map T.spelling items.now) ≤ 2 ^ 40 }
    ensures { result ≡ length (flat_map T.spelling items.now) }
{
    let mut total = 0;
    let mut rest = items;
    while let [item, after @ ..] = rest {
        total += item.len();
        rest = after;
    }
    total
}
