//! How an engine starts from what the disk holds.
ghost use Rattle.std.specs.Prelude.{◌≡◌, ◌≢◌, ◌≤◌, ℕ, List, [], length, None, false, IfOk, IfErr, IsErrOf};
ghost use Rattle.std.specs.Option.{ForSome};
ghost use Rattle.plant.specs.Causes.{Rose};
ghost use Rattle.journal_core.specs.Journal.{mounted_of, HasRoom, IsJournal};
ghost use Rattle.gate_machine.specs.History.{payloads_of, Legal};
ghost use Rattle.gate_settings.specs.Meaning.{IsReadable};
ghost use Rattle.gate_machine.specs.Commands.Settings.{AreInForce};
ghost use Rattle.gate_engine.specs.Engine.{RefusesOpen, IsOpenFault, IsStartFault, IsOutside, IsFound};
ghost use Rattle.gate_engine.specs.Kept.{Kept, Stands, IsSentOf};
ghost use Rattle.gate_engine.specs.Start.{Started, RefusesStart, KeepsDisk};
ghost use Rattle.gate_engine.specs.Justified.{JustifiesSince, IsLeftBehind};
ghost use Rattle.gate_machine.specs.Move.{Held as HeldValue, IsSound, Settles, Extends};
ghost use Rattle.plant.specs.Joining.{Stays};

use crate::engine::Engine;
use crate::fault::{ReplayFault, StartFault};
use crate::law::{one_history, what_a_run_keeps};
use crate::replaying::replay;
use gate_base::Payloads;
use gate_entries::Entry;
use gate_machine::{one_entry_more, settings_come_into_force, what_is_sent_is_recorded};
use journal_core::{Journal, MountFault, no_journal_is_refused, one_group_more, one_reading};
use plant::{Clock, MAX_BYTES, Plant, runs_join};
use std::alloc::Global;

impl Engine {
    /// Starts from the journal that the disk holds. Where other settings are in force in it, the clock is read once, and the entry of
    /// these comes behind what was found.
    pub fn start<P: Plant, C: Clock>(
        alloc: Global,
        plant: &mut P,
        clock: &mut C,
        settings: &[u8],
    ) -> Result<Engine, StartFault>
        requires readable { IsReadable settings.now }
        ensures settled { IfOk result (λ engine. engine.loose ≡ None) }
        ensures legal { IfOk result (λ engine. Legal engine.history) }
        ensures in_force { IfOk result (λ engine. AreInForce settings.now engine.history) }
        // The history is the one found, with an entry of the settings behind it just where others were in force.
        ensures renewed { IfOk result (Started settings.now (P.told plant.old) (P.told plant.new) (P.stops plant.old) (P.stops plant.new) (C.told clock.old) (C.told clock.new)) }
        // It stands, whatever a stop leaves now. From what a gate left it begins with that gate's history, and holds what the signer
        // was sent.
        ensures stands { IfOk result (λ engine. Stands engine (P.stops plant.new)) }
        ensures kept { IfOk result (λ engine. (before : HeldValue) → IsSound before → Kept before (P.stops plant.old) → IsSentOf engine.history (P.stops plant.new)) }
        ensures begins { IfOk result (λ engine. ForSome (P.told plant.old).disk.bytes (λ bytes. (before : HeldValue) → IsSound before → Stands before (P.stops plant.old)
            → Extends before.history engine.history)) }
        // From what a gate left, at every moment since then: whatever a stop leaves, recovery finds a legal history that begins with the
        // gate's, and each body that the signer was sent has an entry of its own in it.
        ensures headline { (before : HeldValue) → IsSound before → Kept before (P.stops plant.old) → ForSome (P.told plant.old).disk.bytes
            (λ bytes. JustifiesSince (Unit {0}) before.history (P.stops plant.old) (P.stops plant.new)) }
        // And the next start works from what a gate left, also where this one is refused.
        ensures left { (before : HeldValue) → IsSound before → Kept before (P.stops plant.old) → ForSome (P.told plant.old).disk.bytes
            (λ bytes. IsLeftBehind before.history (P.stops plant.new)) }
        ensures refused { IfErr result (RefusesStart settings.now (P.told plant.old).disk.bytes (C.told clock.old) (C.told clock.new)) }
        ensures good { IfErr result (λ fault. ForSome (P.told plant.old).disk.bytes (λ bytes. (before : HeldValue) → IsSound before → Stands before (P.stops plant.old)
            → IsOutside fault)) }
        // But for a fault of the disk a refused start leaves it as it was.
        ensures same { IfErr result (λ fault. fault ≢ StartFault.Disk → KeepsDisk (P.told plant.old) (P.told plant.new) (P.stops plant.old) (P.stops plant.new)) }
        ensures disk { IsErrOf result StartFault.Disk → Rose (P.told plant.old).disk.faults (P.told plant.new).disk.faults }
        ensures later { (P.told plant.old).disk.faults ≤ (P.told plant.new).disk.faults }
        ensures signer { (P.told plant.new).signer ≡ (P.told plant.old).signer }
    {
        runs_join::<P>();
        what_a_run_keeps::<P>();
        settings_come_into_force();
        let mut engine = match open(alloc, plant) {
            Ok(engine) => engine,
            Err(fault) => return Err(fault),
        };
        let renewed = engine.renew(plant, clock, settings);
        engine.keeps_a_legal_history();
        match renewed {
            Ok(()) => Ok(engine),
            Err(fault) => Err(fault),
        }
    }
}

/// An engine over the journal that the disk holds.
pub fn open<P: Plant>(alloc: Global, plant: &mut P) -> Result<Engine, StartFault>
    ensures settled { IfOk result (λ engine. engine.loose ≡ None) }
    ensures legal { IfOk result (λ engine. Legal engine.history) }
    ensures journal { IfOk result (λ engine. ForSome (P.told plant.old).disk.bytes (λ bytes. IsJournal (payloads_of engine.history) bytes)) }
    // What is found stands, whatever a stop leaves now. From what a gate left, its history is found, or this and what was loose, and
    // in it what the signer was sent.
    ensures stands { IfOk result (λ engine. Stands engine (P.stops plant.new)) }
    ensures kept { IfOk result (λ engine. (before : HeldValue) → IsSound before → Kept before (P.stops plant.old) → IsSentOf engine.history (P.stops plant.new)) }
    ensures found { IfOk result (λ engine. ForSome (P.told plant.old).disk.bytes (λ bytes. (before : HeldValue) → IsSound before → Stands before (P.stops plant.old)
        → Settles before engine.history)) }
    ensures opens { IfErr result IsOpenFault }
    ensures refused { IfErr result (λ fault. ForSome (P.told plant.old).disk.bytes (λ bytes. RefusesOpen fault bytes)) }
    ensures good { IfErr result (λ fault. ForSome (P.told plant.old).disk.bytes (λ bytes. (before : HeldValue) → IsSound before → Stands before (P.stops plant.old)
        → IsOutside fault)) }
    ensures disk { IsErrOf result StartFault.Disk → Rose (P.told plant.old).disk.faults (P.told plant.new).disk.faults }
    ensures later { (P.told plant.old).disk.faults ≤ (P.told plant.new).disk.faults }
    ensures bytes { (P.told plant.new).disk.bytes ≡ (P.told plant.old).disk.bytes }
    ensures signer { (P.told plant.new).signer ≡ (P.told plant.old).signer }
    ensures stays { Stays (P.stops plant.old) (P.stops plant.new) }
{
    one_history();
    one_entry_more();
    what_is_sent_is_recorded();
    no_journal_is_refused();
    match Journal::mount(alloc, plant) {
        Ok((journal, payloads)) => replayed(alloc, journal, &payloads),
        Err(fault) => Err(start_fault(fault)),
    }
}

/// An engine over a mounted journal.
fn replayed(alloc: Global, journal: Journal, payloads: &Payloads) -> Result<Engine, StartFault>
    requires mounted { journal ≡ mounted_of payloads.now }
    requires fits { HasRoom journal.at 0 }
    ensures found { IfOk result (λ engine. IsFound payloads.now engine) }
    ensures opens { IfErr result IsOpenFault }
    ensures refused { IfErr result (λ fault. (bytes : List ℕ) → IsJournal payloads.now bytes → RefusesOpen fault bytes) }
    ensures disk { IsErrOf result StartFault.Disk → ⊥ }
{
    one_reading();
    one_group_more();
    match replay(alloc, payloads) {
        Ok(history) => Ok(made(alloc, journal, payloads, history)),
        Err(ReplayFault::Illegal { at }) => Err(StartFault::JournalBad { at }),
        Err(ReplayFault::NoMemory) => Err(StartFault::NoMemory),
    }
}

/// An engine with nothing loose.
fn made(alloc: Global, journal: Journal, payloads: &Payloads, history: Vec<Entry>) -> Engine
    requires mounted { journal ≡ mounted_of payloads.now }
    requires payloads { payloads.now ≡ payloads_of history.items }
    requires legal { Legal history.items }
    ensures { result ≡ record { history = history.items; loose = None } }
{
    Engine {
        alloc,
        journal,
        history,
        loose: None,
    }
}

/// What a fault of the mount is for a start.
fn start_fault(fault: MountFault) -> StartFault
    ensures is { IsStartFault fault result }
    ensures opens { IsOpenFault result }
{
    match fault {
        MountFault::NotBegun => StartFault::NotBegun,
        MountFault::BadHead { at } => StartFault::JournalBad { at },
        MountFault::TooLong { .. } => StartFault::JournalBad { at: MAX_BYTES },
        MountFault::Disk => StartFault::Disk,
        MountFault::NoMemory => StartFault::NoMemory,
    }
}
