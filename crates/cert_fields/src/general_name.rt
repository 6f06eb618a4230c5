//! The targets that names of a subjectAltName are.
ghost use Rattle.std.specs.Prelude.{◌≡◌, IfOk};
ghost use Rattle.der_text.specs.View.{node};
ghost use Rattle.names_core.specs.Name as names;
ghost use Rattle.cert_fields.specs.GeneralName as spec;

use der_text::Tree;
use gate_base::{Address, NoMemory, Target};
use names_core::{NameRead, read_name};
use std::alloc::Global;

/// The tag of a dNSName, `[2]`.
const DNS_NAME: u8 = 0x82;

/// The tag of an iPAddress, `[7]`.
const IP_ADDRESS: u8 = 0x87;

fn dns_of(alloc: Global, text: &[u8]) -> Result<Option<Target>, NoMemory>
    ensures { IfOk result (λ target. target ≡ spec.dns_of (names.name_read text.now)) }
{
    match read_name(alloc, text) {
        Ok(name) => Ok(Some(Target::Dns(name))),
        Err(NameRead::Fault(_)) => Ok(None),
        Err(NameRead::NoMemory) => Err(NoMemory),
    }
}

fn ip_of(octets: &[u8]) -> Option<Target>
    ensures { result ≡ spec.ip_of octets.now }
{
    if let Ok(octets) = <[u8; 4]>::try_from(octets) {
        return Some(Target::Ip(Address::V4(octets)));
    }
    match <[u8; 16]>::try_from(octets) {
        Ok(octets) => Some(Target::Ip(Address::V6(octets))),
        Err(_) => None,
    }
}

/// The target that a GeneralName (RFC 5280, section 4.2.1.6) is: a dNSName whose text is a domain name, or an iPAddress
/// of 4 or 16 octets. Any other name is no target.
pub fn target_of_general_name(alloc: Global, name: &Tree<'_>) -> Result<Option<Target>, NoMemory>
    ensures { IfOk result (λ target. target ≡ spec.target_of (node name.now)) }
{
    match name {
        Tree::Prim { tag, content } => match *tag {
            DNS_NAME => dns_of(alloc, content),
            IP_ADDRESS => Ok(ip_of(content)),
            _ => Ok(None),
        },
        Tree::Cons { .. } => Ok(None),
    }
}
