//! A settings file, from its bytes to what it says.
ghost use Rattle.std.specs.Prelude.{◌≡◌, option_map};
ghost use Rattle.toml.specs.Data.{table};
ghost use Rattle.toml.specs.View.{view, table_view};
ghost use Rattle.gate_settings.specs.Reading as spec;
ghost use Rattle.gate_settings.specs.Reading.{Gives};

use crate::document::{CallerTable, Document, PerspectiveTable};
use crate::member::{array_at, each, has_members, member};
use crate::part::PartFault;
use crate::tables::{ca_of, suffixes_of};
use gate_base::{ByteLists, Sequence};
use std::alloc::Global;
use toml::Value;

#[tactic(auto, unfolding(crate::specs::Reading::texts_at))]
fn texts_at(alloc: Global, value: &Value, name: &str) -> Result<ByteLists, PartFault>
    ensures { Gives (λ texts. texts) result (spec.texts_at name.now (view value.now)) }
{
    each(alloc, array_at(value, name)?)
}

#[tactic(auto, unfolding(crate::specs::Reading::callers_at))]
fn callers_at(alloc: Global, value: &Value, name: &str) -> Result<Sequence<CallerTable>, PartFault>
    ensures { Gives (λ callers. callers) result (spec.callers_at name.now (view value.now)) }
{
    each(alloc, array_at(value, name)?)
}

#[tactic(auto, unfolding(crate::specs::Reading::perspectives_at))]
fn perspectives_at(
    alloc: Global,
    value: &Value,
    name: &str,
) -> Result<Sequence<PerspectiveTable>, PartFault>
    ensures { Gives (λ perspectives. perspectives) result (spec.perspectives_at name.now (view value.now)) }
{
    each(alloc, array_at(value, name)?)
}

/// What the members of a file say.
#[tactic(auto, unfolding(crate::specs::Reading::table_of))]
pub fn document_of(alloc: Global, value: &Value) -> Result<Document, PartFault>
    ensures { Gives (λ found. found) result (spec.table_of (view value.now)) }
{
    let issuers = texts_at(alloc, value, "issuers")?;
    let ca = ca_of(alloc, member(value, "ca")?)?;
    let rules = suffixes_of(alloc, member(value, "suffixes")?)?;
    let callers = callers_at(alloc, value, "callers")?;
    let perspectives = perspectives_at(alloc, value, "perspectives")?;
    if !has_members(value, 5) {
        return Err(PartFault::Refused);
    }
    Ok(Document {
        issuers,
        ca,
        rules,
        callers,
        perspectives,
    })
}

/// The members of a text that is TOML.
#[tactic(auto, unfolding(crate::specs::Reading::toml_of))]
pub fn toml_of(alloc: Global, bytes: &[u8]) -> Result<Value, PartFault>
    ensures { Gives view result (option_map table (spec.toml_of bytes.now)) }
{
    match toml::table_from_slice(alloc, bytes) {
        Ok(table) => Ok(Value::Table(table)),
        Err(fault) if fault.is_memory() => Err(PartFault::NoMemory),
        Err(_) => Err(PartFault::Refused),
    }
}
