//! What the rules on fields share, and the time within which is told what was seen.
ghost use Rattle.std.specs.Prelude.{◌≡◌, ◌↔◌, IsTrue};
ghost use Rattle.std.specs.List.{list_all};
ghost use Rattle.gate_machine.specs.Rows.{IsTimely};
ghost use Rattle.gate_machine.specs.Rules as spec;
ghost use Rattle.gate_machine.specs.Rules.{KeyBreaks, TellsLeast};

use gate_base::{Bytes, Moment};

/// F01: the retry key isn't 1 to 64 printable ASCII characters without a blank.
pub const KEY: u8 = 1;

pub fn is_key(key: &Bytes) -> bool
    ensures { result ≡ spec.is_key key.now }
{
    let size = key.len();
    0 < size && size <= 64 && are_key_bytes(key.as_slice())
}

fn are_key_bytes(bytes: &[u8]) -> bool
    ensures { result ≡ list_all spec.is_key_byte bytes.now }
{
    bytes.iter().all(|byte| is_key_byte(*byte))
}

fn is_key_byte(byte: u8) -> bool
    ensures { result ≡ spec.is_key_byte byte }
{
    matches!(byte, 0x21..=0x7e)
}

/// The rule on the retry key, where the key breaks it.
pub fn broken_by_key(key: &Bytes) -> Option<u8>
    ensures { TellsLeast (KeyBreaks key.now) result }
{
    if is_key(key) { None } else { Some(KEY) }
}

/// Seconds after which it is too late to tell what was seen.
const LATEST: u64 = 300;

/// Whether what was seen is told in time.
pub fn is_timely(seen_at: u64, moment: Moment) -> bool
    ensures { IsTrue result ↔ IsTimely seen_at moment }
{
    seen_at <= moment.0 && moment.0 - seen_at <= LATEST
}
