//! The tables of a file.
ghost use Rattle.std.specs.Prelude.{◌≡◌, ◌+◌, option_map};
ghost use Rattle.std.specs.Option.{option_len};
ghost use Rattle.toml.specs.Data.{get};
ghost use Rattle.toml.specs.View.{view};
ghost use Rattle.gate_settings.specs.Reading as spec;
ghost use Rattle.gate_settings.specs.Reading.{Gives};

use crate::document::{CaTable, CallerTable, PerspectiveTable};
use crate::member::{FromItem, array_at, each, has_members, member, text_at, truth_at};
use crate::part::PartFault;
use crate::words::{region_of, role_of};
use gate_base::{Bytes, Role, Sequence};
use std::alloc::Global;
use toml::Value;

/// The authority of a file.
#[tactic(auto, unfolding(crate::specs::Reading::ca_of))]
pub fn ca_of(alloc: Global, value: &Value) -> Result<CaTable, PartFault>
    ensures { Gives (λ ca. ca) result (spec.ca_of (view value.now)) }
{
    let issuer = text_at(alloc, value, "issuer")?;
    let algorithm = text_at(alloc, value, "algorithm")?;
    let key_id = text_at(alloc, value, "key_id")?;
    let crl = text_at(alloc, value, "crl")?;
    let aia = text_at(alloc, value, "aia")?;
    if !has_members(value, 5) {
        return Err(PartFault::Refused);
    }
    Ok(CaTable {
        issuer,
        algorithm,
        key_id,
        crl,
        aia,
    })
}

/// The text of the public suffix rules.
#[tactic(auto, unfolding(crate::specs::Reading::suffixes_of))]
pub fn suffixes_of(alloc: Global, value: &Value) -> Result<Bytes, PartFault>
    ensures { Gives (λ rules. rules) result (spec.suffixes_of (view value.now)) }
{
    let rules = text_at(alloc, value, "rules")?;
    if !has_members(value, 1) {
        return Err(PartFault::Refused);
    }
    Ok(rules)
}

/// The thumb of a caller; an account alone may have one.
fn thumb_in(
    alloc: Global,
    role: Option<Role>,
    found: Option<&Value>,
) -> Result<Option<Bytes>, PartFault>
    ensures { Gives (λ thumb. thumb) result (spec.thumb_in role (option_map (λ v. view v.now) found.entry)) }
{
    match found {
        None => Ok(None),
        Some(value) => match role {
            Some(Role::Account) => Ok(Some(Bytes::from_item(alloc, value)?)),
            Some(Role::Perspective) | Some(Role::Operator) | None => Err(PartFault::Refused),
        },
    }
}

/// How many members a caller with such a thumb has.
fn caller_members(thumb: &Option<Bytes>) -> usize
    ensures { result ≡ 3 + option_len thumb.now }
{
    match thumb {
        Some(_) => 4,
        None => 3,
    }
}

#[tactic(auto, unfolding(crate::specs::Reading::caller_of))]
fn caller_of(alloc: Global, value: &Value) -> Result<CallerTable, PartFault>
    ensures { Gives (λ caller. caller) result (spec.caller_of (view value.now)) }
{
    let id = text_at(alloc, value, "id")?;
    let word = text_at(alloc, value, "role")?;
    let token = text_at(alloc, value, "token")?;
    let role = role_of(word.as_slice());
    let thumb = thumb_in(alloc, role, value.get("thumb"))?;
    if !has_members(value, caller_members(&thumb)) {
        return Err(PartFault::Refused);
    }
    Ok(CallerTable {
        id,
        role,
        token,
        thumb,
    })
}

fn place_of(numbers: &[i64]) -> Result<(i64, i64, i64), PartFault>
    ensures { Gives (λ place. place) result (spec.place_of numbers.now) }
{
    match numbers {
        [x, y, z] => Ok((*x, *y, *z)),
        _ => Err(PartFault::Refused),
    }
}

#[tactic(auto, unfolding(crate::specs::Reading::place_at))]
fn place_at(alloc: Global, value: &Value) -> Result<(i64, i64, i64), PartFault>
    ensures { Gives (λ place. place) result (spec.place_at (view value.now)) }
{
    let numbers: Sequence<i64> = each(alloc, array_at(value, "at")?)?;
    place_of(numbers.as_slice())
}

#[tactic(auto, unfolding(crate::specs::Reading::perspective_of))]
fn perspective_of(alloc: Global, value: &Value) -> Result<PerspectiveTable, PartFault>
    ensures { Gives (λ perspective. perspective) result (spec.perspective_of (view value.now)) }
{
    let id = text_at(alloc, value, "id")?;
    let primary = truth_at(value, "primary")?;
    let word = text_at(alloc, value, "region")?;
    let (x, y, z) = place_at(alloc, value)?;
    if !has_members(value, 4) {
        return Err(PartFault::Refused);
    }
    let region = region_of(word.as_slice());
    Ok(PerspectiveTable {
        id,
        primary,
        region,
        x,
        y,
        z,
    })
}

impl FromItem for CallerTable {
    ghost use Rattle.gate_settings.specs.Reading.{caller_of};

    ghost item_value = { caller_of };

    fn from_item(alloc: Global, value: &Value) -> Result<CallerTable, PartFault> {
        caller_of(alloc, value)
    }
}

impl FromItem for PerspectiveTable {
    ghost use Rattle.gate_settings.specs.Reading.{perspective_of};

    ghost item_value = { perspective_of };

    fn from_item(alloc: Global, value: &Value) -> Result<PerspectiveTable, PartFault> {
        perspective_of(alloc, value)
    }
}
