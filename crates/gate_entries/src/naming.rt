//! Names by their one text.
ghost use Rattle.std.specs.Prelude.{◌≡◌, ◌≢◌, ◌++◌, true, false, codes, Ok, IfOk, IfSome, IfNone};
ghost use Rattle.gate_base.specs.declared.name.Name.{Name as NameValue};
ghost use Rattle.gate_base.specs.declared.name.Target.TheVariants.{Dns};
ghost use Rattle.names_core.specs.Target.{name_text};
ghost use Rattle.gate_entries.specs.Target.{IsTarget};
ghost use Rattle.gate_entries.specs.Target.{if_its_text, name_with, as_said, name_behind};

use gate_base::{Name, NoMemory, Target};
use names_core::{NameRead, read_name, target_text};
use std::alloc::Global;

/// The name whose one text this is.
pub fn read_name_text(alloc: Global, text: &[u8]) -> Result<Option<Name>, NoMemory>
    ensures exact { IfOk result (λ found. found ≡ name_with text.now) }
    ensures found { IfOk result (λ found. IfSome found (λ name. IsTarget (Dns name) × (name_text name ≡ text.now))) }
    // Where there is none, no name has this text.
    ensures none { IfOk result (λ found. IfNone found ((name : NameValue) → IsTarget (Dns name) → name_text name ≢ text.now)) }
{
    let found = find_name(alloc, text)?;
    Ok(found)
}

#[tactic(auto, unfolding(crate::specs::Target::name_with))]
fn find_name(alloc: Global, text: &[u8]) -> Result<Option<Name>, NoMemory>
    ensures { IfOk result (λ found. found ≡ name_with text.now) }
{
    match read_name(alloc, text) {
        Ok(name) => if_its_text(alloc, name, text),
        Err(NameRead::Fault(_)) => Ok(None),
        Err(NameRead::NoMemory) => Err(NoMemory),
    }
}

/// The name, where the text is its one text.
fn if_its_text(alloc: Global, name: Name, text: &[u8]) -> Result<Option<Name>, NoMemory>
    ensures { IfOk result (λ found. found ≡ if_its_text text.now (Ok name)) }
{
    let target = Target::Dns(name);
    let mut spelled = Vec::new(alloc);
    target_text(&target, &mut spelled)?;
    if spelled.as_slice() != text {
        return Ok(None);
    }
    match target {
        Target::Dns(name) => Ok(Some(name)),
        Target::Ip(_) => Ok(None),
    }
}

/// The name that has this text, behind `*.` where it is a wildcard.
#[tactic(auto, unfolding(crate::specs::Target::name_behind))]
pub fn name_behind(alloc: Global, wild: bool, text: &[u8]) -> Result<Option<Name>, NoMemory>
    ensures { IfOk result (λ found. found ≡ name_behind wild text.now) }
{
    if wild {
        wildcard_behind(alloc, text)
    } else {
        plain_name(alloc, text)
    }
}

/// The wildcard that has this text behind `*.`.
fn wildcard_behind(alloc: Global, text: &[u8]) -> Result<Option<Name>, NoMemory>
    ensures { IfOk result (λ found. found ≡ as_said true (name_with (codes "*." ++ text.now))) }
{
    let mut whole = Vec::from_slice(alloc, b"*.")?;
    whole.extend_from_slice(text)?;
    match read_name_text(alloc, &whole)? {
        Some(name) if name.wild => Ok(Some(name)),
        _ => Ok(None),
    }
}

/// The name that is no wildcard and has this text.
fn plain_name(alloc: Global, text: &[u8]) -> Result<Option<Name>, NoMemory>
    ensures { IfOk result (λ found. found ≡ as_said false (name_with text.now)) }
{
    match read_name_text(alloc, text)? {
        Some(name) if !name.wild => Ok(Some(name)),
        _ => Ok(None),
    }
}
