//! Members of a TOML table, each looked up by its name.
ghost use Rattle.std.specs.Prelude.{◌≡◌, ◌==◌, Option};
ghost use Rattle.toml.specs.Data.{get, Data, as_str, as_integer, as_bool, as_array};
ghost use Rattle.toml.specs.View.{view, items_view};
ghost use Rattle.gate_settings.specs.Reading.{Gives, text_at, truth_at, array_at, member_count, each};

use crate::part::PartFault;
use gate_base::{Bytes, Sequence};
use std::alloc::Global;
use toml::Value;

pub fn member<'a>(value: &'a Value, name: &str) -> Result<&'a Value, PartFault>
    ensures { Gives (λ found. view found.now) result (get name.now (view value.now)) }
{
    match value.get(name) {
        Some(found) => Ok(found),
        None => Err(PartFault::Refused),
    }
}

fn text_of(alloc: Global, value: &Value) -> Result<Bytes, PartFault>
    ensures { Gives (λ text. text) result (as_str (view value.now)) }
{
    match value.as_str() {
        Some(text) => Ok(Bytes::from_slice(alloc, text.as_bytes())?),
        None => Err(PartFault::Refused),
    }
}

pub fn text_at(alloc: Global, value: &Value, name: &str) -> Result<Bytes, PartFault>
    ensures { Gives (λ text. text) result (text_at name.now (view value.now)) }
{
    text_of(alloc, member(value, name)?)
}

fn truth_of(value: &Value) -> Result<bool, PartFault>
    ensures { Gives (λ truth. truth) result (as_bool (view value.now)) }
{
    match value.as_bool() {
        Some(truth) => Ok(truth),
        None => Err(PartFault::Refused),
    }
}

pub fn truth_at(value: &Value, name: &str) -> Result<bool, PartFault>
    ensures { Gives (λ truth. truth) result (truth_at name.now (view value.now)) }
{
    truth_of(member(value, name)?)
}

fn items_of(value: &Value) -> Result<&[Value], PartFault>
    ensures { Gives (λ items. items_view items.now) result (as_array (view value.now)) }
{
    match value.as_array() {
        Some(items) => Ok(items.as_slice()),
        None => Err(PartFault::Refused),
    }
}

pub fn array_at<'a>(value: &'a Value, name: &str) -> Result<&'a [Value], PartFault>
    ensures { Gives (λ items. items_view items.now) result (array_at name.now (view value.now)) }
{
    items_of(member(value, name)?)
}

/// How many members a table has.
pub fn member_count(value: &Value) -> usize
    ensures { result ≡ member_count (view value.now) }
{
    match value {
        Value::Table(members) => members.len(),
        Value::String(_)
        | Value::Integer(_)
        | Value::Float(_)
        | Value::Boolean(_)
        | Value::Datetime(_)
        | Value::Array(_) => 0,
    }
}

/// Whether a table has so many members.
pub fn has_members(value: &Value, count: usize) -> bool
    ensures { result ≡ (member_count (view value.now) == count) }
{
    member_count(value) == count
}

/// What an item of an array is read to.
pub trait FromItem: Sized + Drop {
    ghost item_value: { Data → Option Self };

    fn from_item(alloc: Global, value: &Value) -> Result<Self, PartFault>
        ensures { Gives (λ x. x) result (item_value (view value.now)) };
}

impl FromItem for i64 {
    ghost item_value = { as_integer };

    fn from_item(_alloc: Global, value: &Value) -> Result<i64, PartFault> {
        match value.as_integer() {
            Some(number) => Ok(number),
            None => Err(PartFault::Refused),
        }
    }
}

impl FromItem for Sequence<u8> {
    ghost item_value = { as_str };

    fn from_item(alloc: Global, value: &Value) -> Result<Sequence<u8>, PartFault> {
        text_of(alloc, value)
    }
}

/// What each item is read to.
pub fn each<T: FromItem>(alloc: Global, items: &[Value]) -> Result<Sequence<T>, PartFault>
    ensures { Gives (λ list. list) result (each T.item_value (items_view items.now)) }
{
    let mut list = Sequence::new(alloc);
    for value in items {
        list.push(T::from_item(alloc, value)?)?;
    }
    Ok(list)
}
