ghost use Rattle.std.specs.Prelude.{◌≡◌, false, map, IfOk};
ghost use Rattle.std.specs.List.{list_any, slice_split};
ghost use Rattle.names_core.specs.Label as rules;
ghost use Rattle.names_core.specs.Name.{Gives, IsFaultOf, IsNameOf, first_broken, in_lower_case, is_full_stop, name_read};
ghost use Rattle.names_core.specs.Target.{IsName};

use crate::cutting::cut_at;
use crate::fault::{NameFault, NameRead};
use crate::label::{has_bad_byte, has_bad_hyphen, has_bad_punycode, has_star};
use gate_base::{Bytes, Labels, Name, NoMemory};
use std::alloc::Global;

const LABEL_LIMIT: usize = 63;

const NAME_LIMIT: usize = 253;

fn lower_label(alloc: Global, label: &[u8]) -> Result<Bytes, NoMemory>
    ensures { IfOk result (λ lower. lower ≡ in_lower_case label.now) }
{
    let lower: Vec<u8> = label
        .iter()
        .map(|byte| byte.to_ascii_lowercase())
        .collect(alloc)?;
    Ok(Bytes::from_vec(lower))
}

fn lower_labels(alloc: Global, text: &[u8]) -> Result<Labels, NoMemory>
    ensures { IfOk result (λ labels. labels ≡ map in_lower_case (slice_split is_full_stop text.now)) }
{
    let mut labels = Labels::new(alloc);
    let mut rest = text;
    while let Some((label, after)) = cut_at(rest, b'.') {
        labels.push(lower_label(alloc, label)?)?;
        rest = after;
    }
    labels.push(lower_label(alloc, rest)?)?;
    Ok(labels)
}

fn any_is_empty(labels: &[Bytes]) -> bool
    ensures { result ≡ list_any rules.is_empty labels.now }
{
    labels.iter().any(|label| label.len() == 0)
}

fn any_is_too_long(labels: &[Bytes]) -> bool
    ensures { result ≡ list_any rules.is_too_long labels.now }
{
    labels.iter().any(|label| label.len() > LABEL_LIMIT)
}

fn any_has_bad_byte(labels: &[Bytes]) -> bool
    ensures { result ≡ list_any rules.has_bad_byte labels.now }
{
    labels.iter().any(|label| has_bad_byte(label.as_slice()))
}

fn any_has_bad_hyphen(labels: &[Bytes]) -> bool
    ensures { result ≡ list_any rules.has_bad_hyphen labels.now }
{
    labels.iter().any(|label| has_bad_hyphen(label.as_slice()))
}

fn any_has_bad_punycode(alloc: Global, labels: &[Bytes]) -> Result<bool, NoMemory>
    requires plain { list_any rules.has_bad_byte labels.now ≡ false }
    requires short { list_any rules.is_too_long labels.now ≡ false }
    ensures { IfOk result (λ bad. bad ≡ list_any rules.has_bad_punycode labels.now) }
{
    for label in labels {
        if has_bad_punycode(alloc, label.as_slice())? {
            return Ok(true);
        }
    }
    Ok(false)
}

fn any_has_star(labels: &[Bytes]) -> bool
    ensures { result ≡ list_any rules.has_star labels.now }
{
    labels.iter().any(|label| has_star(label.as_slice()))
}

fn first_fault(alloc: Global, len: usize, labels: &[Bytes]) -> Result<Option<NameFault>, NoMemory>
    ensures { IfOk result (λ fault. fault ≡ first_broken len labels.now) }
{
    if any_is_empty(labels) {
        return Ok(Some(NameFault::Empty));
    }
    if any_is_too_long(labels) {
        return Ok(Some(NameFault::LongLabel));
    }
    if len > NAME_LIMIT {
        return Ok(Some(NameFault::LongName));
    }
    if any_has_bad_byte(labels) {
        return Ok(Some(NameFault::BadByte));
    }
    if any_has_bad_hyphen(labels) {
        return Ok(Some(NameFault::BadHyphen));
    }
    if any_has_bad_punycode(alloc, labels)? {
        return Ok(Some(NameFault::BadPunycode));
    }
    if any_has_star(labels) {
        return Ok(Some(NameFault::BadStar));
    }
    Ok(None)
}

fn name_of(alloc: Global, text: &[u8]) -> Result<Name, NameRead>
    ensures { Gives result (name_read text.now) }
{
    let wild = text.starts_with(b"*.");
    let plain = if wild { &text[2..] } else { text };
    let labels = lower_labels(alloc, plain)?;
    match first_fault(alloc, text.len(), labels.as_slice())? {
        Some(fault) => Err(NameRead::Fault(fault)),
        None => Ok(Name { labels, wild }),
    }
}

/// The name that a text writes: its labels in lower case, with the `*.` of a wildcard taken off.
pub fn read_name(alloc: Global, text: &[u8]) -> Result<Name, NameRead>
    // The name of a text that breaks no rule, and otherwise the first of its faults.
    ensures exact { Gives result (name_read text.now) }
    ensures name { IfOk result (λ name. IsNameOf text.now name) }
    ensures named { IfOk result (λ name. IsName name) }
    ensures fault { (fault : NameFault) → result ≡ Err (NameRead.Fault fault) → IsFaultOf text.now fault }
{
    name_of(alloc, text)
}
