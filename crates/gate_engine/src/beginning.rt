//! How a journal begins.
ghost use Rattle.std.specs.Prelude.{◌≡◌, ◌≢◌, ℕ, ◌≤◌, [], length, None, Some, IfOk, IsErrOf, OnOk};
ghost use Rattle.gate_settings.specs.Meaning.{IsReadable};
ghost use Rattle.plant.specs.Causes.{Rose};
ghost use Rattle.std.specs.Option.{ForSome, option_map};
ghost use Rattle.journal_core.specs.Journal.{IsPayload, begun_of};
ghost use Rattle.journal_core.specs.Standing.{KeepsSent};
ghost use Rattle.plant.specs.Joining.{Stays};
ghost use Rattle.gate_engine.specs.Kept.{Kept};
ghost use Rattle.gate_entries.specs.Spelling.{entry_bytes, IsEntry};
ghost use Rattle.gate_entries.specs.Command.{settings_entry};
ghost use Rattle.gate_machine.specs.History.{Legal};
ghost use Rattle.gate_machine.specs.Answer.{IsInRange};
ghost use Rattle.gate_machine.specs.Renewal.{first_history};

use gate_base::{Moment, NoMemory};
use gate_entries::{Entry, write_entry};
use gate_machine::settings_begin_a_history;
use gate_settings::readable_settings_are_short;
use journal_core::{BeginFault, one_group_more};
use plant::{Plant, runs_join};
use std::alloc::Global;

/// Begins a journal on an empty disk, with the settings that are in force from this moment on.
pub fn begin<P: Plant>(
    alloc: Global,
    plant: &mut P,
    moment: Moment,
    settings: &[u8],
) -> Result<(), BeginFault>
    requires readable { IsReadable settings.now }
    ensures ok { OnOk result ((P.told plant.new).disk.bytes ≡ option_map (λ _. begun_of (entry_bytes (settings_entry 1 moment settings.now))) (P.told plant.old).disk.bytes) }
    // Where the signer was sent nothing, recovery then finds the history of these settings, and nothing else.
    ensures kept { OnOk result ((P.told plant.old).signer.sent ≡ Some [] → Kept (record { history = first_history moment.0 settings.now; loose = None }) (P.stops plant.new)) }
    ensures legal { OnOk result (IsInRange moment.0 → Legal (first_history moment.0 settings.now)) }
    ensures empty { OnOk result (ForSome (P.told plant.old).disk.bytes (λ bytes. bytes ≡ [])) }
    ensures not_empty { (count : ℕ) → IsErrOf result (BeginFault.NotEmpty count) → ForSome (P.told plant.old).disk.bytes (λ bytes. length bytes ≡ count) }
    ensures some { (count : ℕ) → IsErrOf result (BeginFault.NotEmpty count) → 1 ≤ count }
    ensures same { ForSome (P.told plant.old).disk.bytes (λ bytes. bytes ≢ []
        → ((P.told plant.new).disk.bytes ≡ (P.told plant.old).disk.bytes) × Stays (P.stops plant.old) (P.stops plant.new)) }
    ensures memory { IsErrOf result BeginFault.NoMemory → ((P.told plant.new).disk.bytes ≡ (P.told plant.old).disk.bytes) × Stays (P.stops plant.old) (P.stops plant.new) }
    ensures disk { IsErrOf result BeginFault.Disk → Rose (P.told plant.old).disk.faults (P.told plant.new).disk.faults }
    ensures later { (P.told plant.old).disk.faults ≤ (P.told plant.new).disk.faults }
    ensures signer { (P.told plant.new).signer ≡ (P.told plant.old).signer }
    ensures moments { KeepsSent (P.stops plant.old) (P.stops plant.new) }
{
    runs_join::<P>();
    one_group_more();
    settings_begin_a_history();
    let payload = match settings_payload(alloc, moment, settings) {
        Ok(payload) => payload,
        Err(NoMemory) => return Err(BeginFault::NoMemory),
    };
    journal_core::begin(alloc, plant, &payload)
}

/// What the first group holds.
fn settings_payload(alloc: Global, moment: Moment, settings: &[u8]) -> Result<Vec<u8>, NoMemory>
    requires readable { IsReadable settings.now }
    ensures spelled { IfOk result (λ payload. payload.items ≡ entry_bytes (settings_entry 1 moment settings.now)) }
    ensures entry { IfOk result (λ _. IsEntry (settings_entry 1 moment settings.now)) }
    ensures payload { IfOk result (λ payload. IsPayload payload.items) }
{
    readable_settings_are_short();
    let entry = Entry::settings(alloc, 1, moment, settings)?;
    let mut payload = Vec::new(alloc);
    write_entry(&entry, &mut payload)?;
    Ok(payload)
}
