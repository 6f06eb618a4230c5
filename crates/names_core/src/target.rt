ghost use Rattle.std.specs.Prelude.{◌≡◌, ◌++◌, IfOk, OnOk, OnErr};
ghost use Rattle.std.specs.List.{after_last, list_all};
ghost use Rattle.std.specs.Char.{is_ascii_digit};
ghost use Rattle.names_core.specs.Name.{Gives, is_full_stop};
ghost use Rattle.names_core.specs.Target as spec;
ghost use Rattle.names_core.specs.Target.{IsTarget, IsWritten, target_read};

use crate::address::{v4_of, v4_text, v6_of, v6_text};
use crate::cutting::{append, joined};
use crate::fault::{NameFault, NameRead};
use crate::reading::read_name;
use gate_base::{Address, Name, NoMemory, Target};
use std::alloc::Global;

fn has_colon(text: &[u8]) -> bool
    ensures { result ≡ spec.has_colon text.now }
{
    text.iter().any(|byte| *byte == b':')
}

fn last_label(text: &[u8]) -> &[u8]
    ensures { result.now ≡ after_last is_full_stop text.now }
{
    let mut start = text.len();
    while start > 0 && text[start - 1] != b'.' {
        start -= 1;
    }
    &text[start..]
}

fn is_all_digits(label: &[u8]) -> bool
    ensures { result ≡ list_all is_ascii_digit label.now }
{
    label.iter().all(|byte| byte.is_ascii_digit())
}

fn is_number(label: &[u8]) -> bool
    ensures { result ≡ spec.is_number label.now }
{
    match label {
        [] => false,
        _ => is_all_digits(label),
    }
}

fn target_of(alloc: Global, text: &[u8]) -> Result<Target, NameRead>
    ensures { Gives result (target_read text.now) }
{
    if has_colon(text) {
        return match v6_of(alloc, text)? {
            Some(octets) => Ok(Target::Ip(Address::V6(octets))),
            None => Err(NameRead::Fault(NameFault::BadAddress)),
        };
    }
    if is_number(last_label(text)) {
        return match v4_of(alloc, text)? {
            Some(octets) => Ok(Target::Ip(Address::V4(octets))),
            None => Err(NameRead::Fault(NameFault::BadAddress)),
        };
    }
    Ok(Target::Dns(read_name(alloc, text)?))
}

/// The target that a text writes: an IPv6 address where it has a colon, an IPv4 address where its last
/// label is a number, and else a name.
pub fn read_target(alloc: Global, text: &[u8]) -> Result<Target, NameRead>
    // The target of a text that is well formed, and otherwise the first of its faults.
    ensures exact { Gives result (target_read text.now) }
    ensures written { IfOk result (λ target. IsWritten text.now target) }
{
    target_of(alloc, text)
}

fn name_text(alloc: Global, name: &Name) -> Result<Vec<u8>, NoMemory>
    ensures { IfOk result (λ text. text.items ≡ spec.name_text name.now) }
{
    let mut text = Vec::new(alloc);
    if name.wild {
        append(&mut text, b"*.")?;
    }
    let labels = joined(alloc, name.labels.as_slice(), b'.')?;
    append(&mut text, labels.as_slice())?;
    Ok(text)
}

fn text_of(alloc: Global, t: &Target) -> Result<Vec<u8>, NoMemory>
    ensures { IfOk result (λ text. text.items ≡ spec.target_text t.now) }
{
    match t {
        Target::Dns(name) => name_text(alloc, name),
        Target::Ip(Address::V4(octets)) => v4_text(alloc, octets),
        Target::Ip(Address::V6(octets)) => v6_text(alloc, octets),
    }
}

/// Appends the one text of a target.
pub fn target_text(t: &Target, out: &mut Vec<u8>) -> Result<(), NoMemory>
    ensures ok { OnOk result (out.new.items ≡ out.old.items ++ spec.target_text t.now) }
    ensures err { OnErr result (out.new.items ≡ out.old.items) }
    // The text of a target that was read is read to it again.
    ensures again { IsTarget t.now → target_read (spec.target_text t.now) ≡ Ok t.now }
{
    let text = text_of(*out.allocator(), t)?;
    append(out, text.as_slice())
}
