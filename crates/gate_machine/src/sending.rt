//! What was sent to the signer.
ghost use Rattle.std.specs.Prelude.{◌≡◌, ◌+◌, ◌≤◌, length, take, drop};
ghost use Rattle.std.specs.Option.{option_copied};
ghost use Rattle.gate_machine.specs.Sends as sends;
ghost use Rattle.gate_machine.specs.Sends.{TellsSixteen};

use gate_base::{Bytes, Sixteen, Target};
use gate_entries::{Entry, What};

/// The caller's own order with this number.
pub fn own_order<'a>(history: &'a [Entry], caller: &Bytes, number: u64) -> Option<&'a Entry>
    ensures { option_copied result ≡ sends.own_order caller.now number history.now }
{
    history
        .iter()
        .find(|entry| is_own_order(entry, caller, number))
}

fn is_own_order(entry: &Entry, caller: &Bytes, number: u64) -> bool
    ensures { result ≡ sends.is_own_order caller.now number entry.now }
{
    entry.caller == *caller && (entry.number == number && is_order(&entry.what))
}

pub fn is_order(what: &What) -> bool
    ensures { result ≡ sends.is_order what.now }
{
    matches!(what, What::Order { .. })
}

/// The targets of an order; none where the entry is no order.
pub fn targets_of(what: &What) -> &[Target]
    ensures { result.now ≡ sends.targets_of what.now }
{
    match what {
        What::Order { targets, .. } => targets.as_slice(),
        _ => &[],
    }
}

/// The first entry that sent a body for the order.
pub fn sent_for(history: &[Entry], number: u64) -> Option<&Entry>
    ensures { option_copied result ≡ sends.sent_for number history.now }
{
    history
        .iter()
        .find(|entry| is_send_for(&entry.what, number))
}

pub fn is_send_for(what: &What, number: u64) -> bool
    ensures { result ≡ sends.is_send_for number what.now }
{
    match what {
        What::Send { order, .. } => *order == number,
        _ => false,
    }
}

/// The body that an entry sent; empty where it sent none.
pub fn body_in(what: &What) -> &[u8]
    ensures { result.now ≡ sends.body_in what.now }
{
    match what {
        What::Send { body, .. } => body.as_slice(),
        _ => &[],
    }
}

/// The entry that signed the order.
pub fn signed_for(history: &[Entry], number: u64) -> Option<&Entry>
    ensures { option_copied result ≡ sends.signed_for number history.now }
{
    history
        .iter()
        .find(|entry| is_signed_for(&entry.what, number))
}

pub fn is_signed_for(what: &What, number: u64) -> bool
    ensures { result ≡ sends.is_signed_for number what.now }
{
    match what {
        What::Signed { order, .. } => *order == number,
        _ => false,
    }
}

/// The signature in an entry; empty where it has none.
pub fn signature_in(what: &What) -> &[u8]
    ensures { result.now ≡ sends.signature_in what.now }
{
    match what {
        What::Signed { signature, .. } => signature.as_slice(),
        _ => &[],
    }
}

/// The first entry that blocks the key.
pub fn block_of<'a>(history: &'a [Entry], spki: &[u8]) -> Option<&'a Entry>
    ensures { option_copied result ≡ sends.block_of spki.now history.now }
{
    history.iter().find(|entry| blocks(&entry.what, spki))
}

fn blocks(what: &What, spki: &[u8]) -> bool
    ensures { result ≡ sends.blocks spki.now what.now }
{
    match what {
        What::Blocked { spki: blocked, .. } => blocked.as_slice() == spki,
        _ => false,
    }
}

/// The first entry that sent a body with this serial number.
pub fn send_with<'a>(history: &'a [Entry], serial: &[u8]) -> Option<&'a Entry>
    ensures { option_copied result ≡ sends.send_with serial.now history.now }
{
    history.iter().find(|entry| has_serial(&entry.what, serial))
}

fn has_serial(what: &What, serial: &[u8]) -> bool
    ensures { result ≡ sends.has_serial serial.now what.now }
{
    match what {
        What::Send { body, .. } => serial_in(body.as_slice()) == serial,
        _ => false,
    }
}

/// The serial number's bytes in a body; they stand behind the heads of the SEQUENCE and of the INTEGER.
pub fn serial_in(body: &[u8]) -> &[u8]
    ensures { result.now ≡ sends.serial_in body.now }
{
    match body {
        [_, first, rest @ ..] => sixteen_behind(rest, more_octets(*first)),
        _ => &[],
    }
}

/// How many octets of a length follow the first.
fn more_octets(first: u8) -> usize
    ensures { result ≡ sends.more_octets first }
{
    if first < 0x80 {
        0
    } else {
        usize::from(first) - 0x80
    }
}

/// The sixteen bytes behind a tag, a length's octet and so many bytes more.
fn sixteen_behind(bytes: &[u8], more: usize) -> &[u8]
    requires { more ≤ 255 }
    ensures { result.now ≡ take 16 (drop (2 + more) bytes.now) }
{
    let behind = match bytes.get(2 + more..) {
        Some(behind) => behind,
        None => &[],
    };
    match behind.get(..16) {
        Some(serial) => serial,
        None => behind,
    }
}

/// The serial number of drawn bytes: positive, and of sixteen bytes (RFC 5280, section 4.1.2.2).
pub fn masked(draw: &Sixteen) -> Sixteen
    ensures { result.0 ≡ sends.masked draw.now.0 }
{
    let mut bytes = draw.0;
    bytes[0] = bytes[0] % 0x40 + 0x40;
    Sixteen(bytes)
}

/// Sixteen bytes as one value; None for fewer or more.
pub fn to_sixteen(bytes: &[u8]) -> Option<Sixteen>
    ensures { TellsSixteen bytes.now result }
{
    match bytes.try_into() {
        Ok(sixteen) => Some(Sixteen(sixteen)),
        Err(_) => None,
    }
}
