//! An engine together with what it stands over.
ghost use Rattle.std.specs.Prelude.{◌≡◌, ◌≢◌, ◌≤◌, ℕ, length, None, IfOk, IfErr};
ghost use Rattle.std.specs.Option.{ForSome};
ghost use Rattle.plant.specs.Causes.{Rose};
ghost use Rattle.gate_settings.specs.Meaning.{IsReadable};
ghost use Rattle.gate_entries.specs.Command.{IsCommand, IsCaller};
ghost use Rattle.gate_machine.specs.Commands.Settings.{AreInForce};
ghost use Rattle.gate_machine.specs.History.{Legal};
ghost use Rattle.gate_machine.specs.Move.{Held as HeldValue, IsSound, Extends};
ghost use Rattle.gate_machine.specs.Step.{Step};
ghost use Rattle.gate_engine.specs.Engine.{IsOutside, state_of};
ghost use Rattle.gate_engine.specs.Gate.{Wrote};
ghost use Rattle.gate_engine.specs.Kept.{Kept, KeepsLegal};
ghost use Rattle.gate_engine.specs.Start.{Started, RefusesStart, KeepsDisk};
ghost use Rattle.gate_engine.specs.Justified.{JustifiesSince, IsLeftBehind};

use crate::answered::Said;
use crate::engine::Engine;
use crate::fault::StartFault;
use gate_entries::{Caller, Command, Reply};
use plant::{Clock, Entropy, Plant};
use std::alloc::Global;
use std::marker::Model;

/// An engine, and the plant, the clock and the random draws that it stands over. Whatever a stop leaves of the plant, recovery finds
/// the engine's history, or this and what is loose.
#[derive(Drop)]
pub struct Held<P: Plant, C: Clock, E: Entropy> {
    engine: Engine,
    plant: P,
    clock: C,
    entropy: E,
}

impl<P: Plant, C: Clock, E: Entropy> Model for Held<P, C, E> {
    ghost use Rattle.gate_engine.specs.Gate.{Gate};
    ghost use Rattle.gate_engine.specs.Kept.{Kept};

    ghost Value = { Gate P C E };

    ghost view = { λ gate. record { held = gate.engine; plant = gate.plant; clock = gate.clock; entropy = gate.entropy } };

    ghost invariant = { λ gate. Kept gate.engine (P.stops gate.plant) };
}

impl<P: Plant, C: Clock, E: Entropy> Held<P, C, E> {
    /// Starts an engine over what the plant's disk holds. Where none starts, what was handed in comes back.
    pub fn start(
        alloc: Global,
        mut plant: P,
        mut clock: C,
        entropy: E,
        settings: &[u8],
    ) -> Result<Held<P, C, E>, (P, C, E, StartFault)>
        requires readable { IsReadable settings.now }
        // Where the plant tells what a stop leaves, a gate left it so.
        requires kept { (before : HeldValue) × IsSound before × Kept before (P.stops plant) }
        ensures settled { IfOk result (λ gate. gate.held.loose ≡ None) }
        ensures legal { IfOk result (λ gate. Legal gate.held.history) }
        ensures in_force { IfOk result (λ gate. AreInForce settings.now gate.held.history) }
        // The history is the one found, with an entry of the settings behind it just where others were in force.
        ensures renewed { IfOk result (λ gate. Started settings.now (P.told plant) (P.told gate.plant) (P.stops plant) (P.stops gate.plant) (C.told clock) (C.told gate.clock) gate.held) }
        ensures begins { IfOk result (λ gate. ForSome (P.told plant).disk.bytes (λ bytes. (before : HeldValue) → IsSound before → Kept before (P.stops plant)
            → Extends before.history gate.held.history)) }
        ensures draws { IfOk result (λ gate. gate.entropy ≡ entropy) }
        // At every moment since then recovery finds a legal history that begins with the one that was left, and each body that the
        // signer was sent has an entry of its own in it.
        ensures headline { IfOk result (λ gate. (before : HeldValue) → IsSound before → Kept before (P.stops plant) → ForSome (P.told plant).disk.bytes
            (λ bytes. JustifiesSince (Unit {0}) before.history (P.stops plant) (P.stops gate.plant))) }
        ensures refused { IfErr result (λ parts. RefusesStart settings.now (P.told plant).disk.bytes (C.told clock) (C.told parts.1) parts.3) }
        ensures good { IfErr result (λ parts. ForSome (P.told plant).disk.bytes (λ bytes. IsOutside parts.3)) }
        ensures undrawn { IfErr result (λ parts. parts.2 ≡ entropy) }
        ensures same { IfErr result (λ parts. parts.3 ≢ StartFault.Disk → KeepsDisk (P.told plant) (P.told parts.0) (P.stops plant) (P.stops parts.0)) }
        ensures disk { IfErr result (λ parts. parts.3 ≡ StartFault.Disk → Rose (P.told plant).disk.faults (P.told parts.0).disk.faults) }
        ensures later { IfOk result (λ gate. (P.told plant).disk.faults ≤ (P.told gate.plant).disk.faults) }
        ensures signer { IfOk result (λ gate. (P.told gate.plant).signer ≡ (P.told plant).signer) }
        ensures unsigned { IfErr result (λ parts. (P.told parts.0).signer ≡ (P.told plant).signer) }
        // Also of a refused start; and the next one works from what a gate left.
        ensures headline_refused { IfErr result (λ parts. (before : HeldValue) → IsSound before → Kept before (P.stops plant) → ForSome (P.told plant).disk.bytes
            (λ bytes. JustifiesSince (Unit {0}) before.history (P.stops plant) (P.stops parts.0))) }
        ensures left { IfErr result (λ parts. (before : HeldValue) → IsSound before → Kept before (P.stops plant) → ForSome (P.told plant).disk.bytes
            (λ bytes. IsLeftBehind before.history (P.stops parts.0))) }
    {
        match Engine::start(alloc, &mut plant, &mut clock, settings) {
            Ok(engine) => Ok(Held {
                engine,
                plant,
                clock,
                entropy,
            }),
            Err(fault) => Err((plant, clock, entropy, fault)),
        }
    }

    /// Answers one command.
    pub fn ask(&mut self, caller: &Caller, command: &Command) -> Said
        requires caller { IsCaller caller.now }
        requires command { IsCommand command.now }
        ensures step { Step (state_of self.old.held (P.told self.old.plant) (C.told self.old.clock) (E.told self.old.entropy)) caller.now command.now result.reply
            (state_of self.new.held (P.told self.new.plant) (C.told self.new.clock) (E.told self.new.entropy)) }
        // At every moment since the start recovery finds a legal history that begins with the old one, or this and what was loose,
        // and in which each body that the signer was sent has an entry of its own.
        ensures stops { KeepsLegal (Unit {0}) self.old.held self.new.held (P.stops self.old.plant) (P.stops self.new.plant) }
        ensures wrote { Wrote self.old.held caller.now command.now result.reply self.new.held result.wrote }
        // A disk that tells its bytes is never told as another journal.
        ensures good { (at : ℕ) → result.reply ≡ Reply.JournalBad at → (P.told self.old.plant).disk.bytes ≡ None }
    {
        self.engine.ask_once(
            &mut self.plant,
            &mut self.clock,
            &mut self.entropy,
            caller,
            command,
        )
    }

    /// The length of the history, a loose entry left out.
    pub fn count(&self) -> u64
        ensures { result ≡ length self.now.held.history }
    {
        self.engine.count()
    }

    /// The engine and what it stands over.
    pub fn into_parts(self) -> (Engine, P, C, E)
        ensures engine { result.0 ≡ self.held }
        ensures plant { result.1 ≡ self.plant }
        ensures clock { result.2 ≡ self.clock }
        ensures entropy { result.3 ≡ self.entropy }
        ensures kept { Kept result.0 (P.stops result.1) }
    {
        let Held {
            engine,
            plant,
            clock,
            entropy,
        } = self;
        (engine, plant, clock, entropy)
    }
}
