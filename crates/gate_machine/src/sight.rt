//! What a caller sees of the history.
ghost use Rattle.std.specs.Prelude.{◌≡◌, ◌≢◌, ◌↔◌, [], None, IsTrue};
ghost use Rattle.std.specs.Option.{option_copied};
ghost use Rattle.gate_machine.specs.Keys as keys;
ghost use Rattle.gate_machine.specs.Sight as sight;

use crate::sending::{is_order, is_send_for, is_signed_for};
use gate_base::{Bytes, Role};
use gate_entries::{Caller, Entry};

/// The entry that stands under the caller's key.
pub fn find_kept<'a>(history: &'a [Entry], caller: &Bytes, key: &Bytes) -> Option<&'a Entry>
    ensures { option_copied result ≡ keys.kept_for caller.now key.now history.now }
{
    history.iter().find(|entry| is_under(entry, caller, key))
}

/// Whether there are entries, and none stands under the caller's key.
pub fn is_new_key(before: &[Entry], caller: &Bytes, key: &Bytes) -> bool
    ensures { IsTrue result ↔ ((before.now ≢ []) × (keys.kept_for caller.now key.now before.now ≡ None)) }
{
    !before.is_empty() && find_kept(before, caller, key).is_none()
}

fn is_under(entry: &Entry, caller: &Bytes, key: &Bytes) -> bool
    ensures { result ≡ keys.is_under caller.now key.now entry.now }
{
    entry.caller == *caller && is_same_key(entry.what.key(), key)
}

fn is_same_key(other: Option<&Bytes>, key: &Bytes) -> bool
    ensures { result ≡ keys.is_same_key (option_copied other.entry) key.now }
{
    match other {
        Some(other) => other == key,
        None => false,
    }
}

/// An account sees the entries that it asked for, the other roles see all.
fn sees(caller: &Caller, entry: &Entry) -> bool
    ensures { result ≡ sight.sees caller.now entry.now }
{
    match caller.role {
        Role::Account => entry.caller == caller.id,
        Role::Perspective | Role::Operator => true,
    }
}

/// The order with this number.
pub fn order_for<'a>(history: &'a [Entry], caller: &Caller, number: u64) -> Option<&'a Entry>
    ensures { option_copied result ≡ sight.order_for caller.now number history.now }
{
    history
        .iter()
        .find(|entry| is_order_for(entry, caller, number))
}

fn is_order_for(entry: &Entry, caller: &Caller, number: u64) -> bool
    ensures { result ≡ sight.is_order_for caller.now number entry.now }
{
    sees(caller, entry) && (entry.number == number && is_order(&entry.what))
}

/// The first body that was sent for the order.
pub fn send_seen<'a>(history: &'a [Entry], caller: &Caller, number: u64) -> Option<&'a Entry>
    ensures { option_copied result ≡ sight.send_seen caller.now number history.now }
{
    history
        .iter()
        .find(|entry| is_send_seen(entry, caller, number))
}

fn is_send_seen(entry: &Entry, caller: &Caller, number: u64) -> bool
    ensures { result ≡ sight.is_send_seen caller.now number entry.now }
{
    sees(caller, entry) && is_send_for(&entry.what, number)
}

/// The signature for the order.
pub fn signed_seen<'a>(history: &'a [Entry], caller: &Caller, number: u64) -> Option<&'a Entry>
    ensures { option_copied result ≡ sight.signed_seen caller.now number history.now }
{
    history
        .iter()
        .find(|entry| is_signed_seen(entry, caller, number))
}

fn is_signed_seen(entry: &Entry, caller: &Caller, number: u64) -> bool
    ensures { result ≡ sight.is_signed_seen caller.now number entry.now }
{
    sees(caller, entry) && is_signed_for(&entry.what, number)
}
