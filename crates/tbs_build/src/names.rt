//! Targets as names.
ghost use Rattle.std.specs.Prelude.{◌≡◌, ◌↔◌, ℕ, List, ◌+◌, ◌*◌, ◌≤◌, ◌++◌, length, IsTrue, IfOk, OnOk};
ghost use Rattle.std.specs.List.{AllByRecursion};
ghost use Rattle.der_text.specs.Tree.{spelling, spellings};
ghost use Rattle.tbs_build.specs.Names.{general_name, general_names, IsShort};

use crate::element::push_element;
use gate_base::{Address, NoMemory, Target};
use names_core::target_text;
use std::alloc::Global;

/// The tag of a dNSName.
const DNS_NAME: u8 = 0x82;

/// The tag of an iPAddress.
const IP_ADDRESS: u8 = 0x87;

/// No GeneralName's content is longer: a domain name has at most 253 bytes (RFC 1034, section 3.1).
const LONGEST_NAME: usize = 253;

fn has_room_for(text: &[u8]) -> bool
    ensures { IsTrue result ↔ (length text.now ≤ 253) }
{
    text.len() <= LONGEST_NAME
}

/// Whether a target is short enough to stand in a plan. Each target that was read from a text is.
pub fn is_short(alloc: Global, target: &Target) -> Result<bool, NoMemory>
    ensures { IfOk result (λ short. IsTrue short ↔ IsShort target.now) }
{
    match target {
        Target::Dns(_) => {
            let mut text = Vec::new(alloc);
            target_text(target, &mut text)?;
            Ok(has_room_for(&text))
        }
        Target::Ip(Address::V4(octets)) => Ok(has_room_for(octets)),
        Target::Ip(Address::V6(octets)) => Ok(has_room_for(octets)),
    }
}

/// Appends a target as a name.
fn push_name(target: &Target, out: &mut Vec<u8>) -> Result<(), NoMemory>
    requires { IsShort target.now }
    ensures ok { OnOk result (out.new.items ≡ out.old.items ++ spelling (general_name target.now)) }
    ensures few { OnOk result (length out.new.items ≤ length out.old.items + 256) }
{
    match target {
        Target::Dns(_) => {
            let mut text = Vec::new(*out.allocator());
            target_text(target, &mut text)?;
            push_element(DNS_NAME, &text, out)
        }
        Target::Ip(Address::V4(octets)) => push_element(IP_ADDRESS, octets, out),
        Target::Ip(Address::V6(octets)) => push_element(IP_ADDRESS, octets, out),
    }
}

/// The targets as names, one after another.
pub fn names_of(alloc: Global, targets: &[Target]) -> Result<Vec<u8>, NoMemory>
    requires count { length targets.now ≤ 255 }
    requires short { AllByRecursion IsShort targets.now }
    ensures names { IfOk result (λ names. names.items ≡ spellings (general_names targets.now)) }
    ensures few { IfOk result (λ names. length names.items ≤ 256 * 255) }
{
    let mut names = Vec::new(alloc);
    for target in targets {
        push_name(target, &mut names)?;
    }
    Ok(names)
}
