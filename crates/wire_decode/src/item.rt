//! Lists in a body.
ghost use Rattle.std.specs.Prelude.{◌≡◌, IfOk};
ghost use Rattle.std.specs.List.{AllByRecursion};
ghost use Rattle.serde_json.specs.Data.{Data};
ghost use Rattle.serde_json.specs.View.{view, items_view};
ghost use Rattle.wire_decode.specs.Judgement.{Judgement};
ghost use Rattle.wire_decode.specs.Members as spec;

use crate::judged::{Judged, and_one};
use crate::member::items_at;
use gate_base::{NoMemory, Sequence};
use serde_json::Value;
use std::alloc::Global;

/// What an item of a list is read to.
pub trait FromItem: Sized + Drop {
    ghost item_in: { Data → Judgement Self };

    /// What holds of each item that is read.
    ghost IsItem: { Self → Type 0 };

    fn from_item(alloc: Global, value: &Value) -> Result<Judged<Self>, NoMemory>
        ensures exact { IfOk result (λ read. read ≡ item_in (view value.now)) }
        ensures is { IfOk result (λ read. IfOk read IsItem) };
}

/// What each item is read to.
#[tactic(auto, using(crate::proofs::Judgements::none_before))]
fn each<T: FromItem>(alloc: Global, items: &[Value]) -> Result<Judged<Sequence<T>>, NoMemory>
    ensures exact { IfOk result (λ read. read ≡ spec.each T.item_in (items_view items.now)) }
    ensures are { IfOk result (λ read. IfOk read (AllByRecursion T.IsItem)) }
{
    let mut list = Ok(Sequence::new(alloc));
    for value in items {
        list = and_one(list, T::from_item(alloc, value)?)?;
    }
    Ok(list)
}

/// What each item of a member is read to.
#[tactic(auto, unfolding(crate::specs::Members::each_at))]
pub fn each_at<T: FromItem>(
    alloc: Global,
    value: &Value,
    name: &str,
) -> Result<Judged<Sequence<T>>, NoMemory>
    ensures exact { IfOk result (λ read. read ≡ spec.each_at T.item_in name.now (view value.now)) }
    ensures are { IfOk result (λ read. IfOk read (AllByRecursion T.IsItem)) }
{
    match items_at(value, name) {
        Ok(items) => each(alloc, items),
        Err(rule) => Ok(Err(rule)),
    }
}
