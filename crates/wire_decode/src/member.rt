//! Members of a JSON object, each looked up by its name.
ghost use Rattle.std.specs.Prelude.{◌≡◌};
ghost use Rattle.serde_json.specs.View.{view, items_view};
ghost use Rattle.wire_decode.specs.Judgement.{viewed};
ghost use Rattle.wire_decode.specs.Members as spec;

use crate::judged::Judged;
use crate::rule::Rule;
use serde_json::Value;

pub fn member_of<'a>(value: &'a Value, name: &str) -> Judged<&'a Value>
    ensures { viewed (λ found. view found.now) result ≡ spec.member_of name.now (view value.now) }
{
    match value.get(name) {
        Some(found) => Ok(found),
        None => Err(Rule::W02),
    }
}

/// The value, where it is an object.
pub fn object_of(value: &Value) -> Judged<&Value>
    ensures { viewed (λ found. view found.now) result ≡ spec.object_of (view value.now) }
{
    if value.is_object() {
        Ok(value)
    } else {
        Err(Rule::W03)
    }
}

/// How many members an object has; another value has none.
fn member_count(value: &Value) -> usize
    ensures { result ≡ spec.member_count (view value.now) }
{
    match value.as_object() {
        Some(members) => members.len(),
        None => 0,
    }
}

/// What was read from so many members of an object, where it has no other.
#[tactic(auto, unfolding(crate::specs::Members::exactly))]
pub fn exactly<T: Drop>(value: &Value, count: usize, read: Judged<T>) -> Judged<T>
    ensures { result ≡ spec.exactly count (view value.now) read }
{
    if member_count(value) == count {
        read
    } else {
        Err(Rule::W02)
    }
}

fn truth_of(value: &Value) -> Judged<bool>
    ensures { result ≡ spec.truth_of (view value.now) }
{
    match value.as_bool() {
        Some(truth) => Ok(truth),
        None => Err(Rule::W03),
    }
}

#[tactic(auto, unfolding(crate::specs::Members::truth_at))]
pub fn truth_at(value: &Value, name: &str) -> Judged<bool>
    ensures { result ≡ spec.truth_at name.now (view value.now) }
{
    truth_of(member_of(value, name)?)
}

pub fn str_of(value: &Value) -> Judged<&str>
    ensures { viewed (λ text. text.now) result ≡ spec.text_of (view value.now) }
{
    match value.as_str() {
        Some(text) => Ok(text),
        None => Err(Rule::W03),
    }
}

#[tactic(auto, unfolding(crate::specs::Members::text_at))]
pub fn str_at<'a>(value: &'a Value, name: &str) -> Judged<&'a str>
    ensures { viewed (λ text. text.now) result ≡ spec.text_at name.now (view value.now) }
{
    str_of(member_of(value, name)?)
}

fn items_of(value: &Value) -> Judged<&[Value]>
    ensures { viewed (λ items. items_view items.now) result ≡ spec.items_of (view value.now) }
{
    match value.as_array() {
        Some(items) => Ok(items.as_slice()),
        None => Err(Rule::W03),
    }
}

#[tactic(auto, unfolding(crate::specs::Members::items_at))]
pub fn items_at<'a>(value: &'a Value, name: &str) -> Judged<&'a [Value]>
    ensures { viewed (λ items. items_view items.now) result ≡ spec.items_at name.now (view value.now) }
{
    items_of(member_of(value, name)?)
}

fn number_of(value: &Value) -> Judged<u64>
    ensures { result ≡ spec.number_of (view value.now) }
{
    if !value.is_number() {
        return Err(Rule::W03);
    }
    match value.as_u64() {
        Some(number) => Ok(number),
        None => Err(Rule::W06),
    }
}

#[tactic(auto, unfolding(crate::specs::Members::u64_at))]
pub fn u64_at(value: &Value, name: &str) -> Judged<u64>
    ensures { result ≡ spec.u64_at name.now (view value.now) }
{
    number_of(member_of(value, name)?)
}

#[tactic(auto, unfolding(crate::specs::Members::u32_at))]
pub fn u32_at(value: &Value, name: &str) -> Judged<u32>
    ensures { result ≡ spec.u32_at name.now (view value.now) }
{
    let number = u64_at(value, name)?;
    if number < 1 << 32 {
        Ok(number as u32)
    } else {
        Err(Rule::W06)
    }
}

#[tactic(auto, unfolding(crate::specs::Members::u16_at))]
pub fn u16_at(value: &Value, name: &str) -> Judged<u16>
    ensures { result ≡ spec.u16_at name.now (view value.now) }
{
    let number = u64_at(value, name)?;
    if number < 1 << 16 {
        Ok(number as u16)
    } else {
        Err(Rule::W06)
    }
}

#[tactic(auto, unfolding(crate::specs::Members::u8_at))]
pub fn u8_at(value: &Value, name: &str) -> Judged<u8>
    ensures { result ≡ spec.u8_at name.now (view value.now) }
{
    let number = u64_at(value, name)?;
    if number < 1 << 8 {
        Ok(number as u8)
    } else {
        Err(Rule::W06)
    }
}
