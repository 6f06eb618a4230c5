//! Settings, which no command asks for.
ghost use Rattle.std.specs.Prelude.{◌↔◌, IsTrue, IfOk};
ghost use Rattle.gate_settings.specs.Meaning.{IsReadable};
ghost use Rattle.gate_machine.specs.Commands.Settings.{AreInForce, SettingsCome};

use evidence_index::settings_bytes;
use gate_base::{Bytes, NoMemory};
use gate_entries::Entry;
use gate_settings::{SettingsFault, read_settings};
use std::alloc::Global;

/// Whether the last entry of settings says these bytes.
pub fn are_in_force(entries: &[Entry], bytes: &[u8]) -> bool
    ensures { IsTrue result ↔ AreInForce bytes.now entries.now }
{
    match settings_bytes(entries) {
        Some(other) => other == bytes,
        None => false,
    }
}

fn is_readable(alloc: Global, bytes: &[u8]) -> Result<bool, NoMemory>
    ensures { IfOk result (λ readable. IsTrue readable ↔ IsReadable bytes.now) }
{
    match read_settings(alloc, bytes) {
        Ok(_) => Ok(true),
        Err(SettingsFault::Rule { .. }) => Ok(false),
        Err(SettingsFault::NoMemory) => Err(NoMemory),
    }
}

/// Whether settings may come behind these entries.
pub fn settings_come(
    alloc: Global,
    before: &[Entry],
    caller: &Bytes,
    bytes: &Bytes,
) -> Result<bool, NoMemory>
    ensures { IfOk result (λ come. IsTrue come ↔ SettingsCome before.now caller.now bytes.now) }
{
    if !caller.is_empty() || are_in_force(before, bytes.as_slice()) {
        return Ok(false);
    }
    is_readable(alloc, bytes.as_slice())
}
