//! The top call: all that the program does, over whatever outside it is given.
ghost use Rattle.std.specs.Prelude.{◌≡◌, ◌≢◌, ◌⊎◌, [], Some, map, string_bytes};
ghost use Rattle.std.specs.Option.{ForSome};
ghost use Rattle.plant.specs.Joining.{Stays};
ghost use Rattle.gate_server.specs.declared.running.Word.{Word as WordValue};
ghost use Rattle.gate_machine.specs.Answer.{IsInRange};
ghost use Rattle.gate_machine.specs.Move.{Held as HeldValue, IsSound};
ghost use Rattle.gate_engine.specs.Kept.{Kept};
ghost use Rattle.gate_engine.specs.Justified.{JustifiesSince, IsLeftBehind};
ghost use Rattle.gate_settings.specs.Meaning.{IsReadable, settings_of};
ghost use Rattle.gate_server.specs.Conf.{RefusesSettings};
ghost use Rattle.gate_server.specs.Run.{IsWord, IsStartStatus, outside_of, HoldsSession, RunsSession, BeginsJournal, SettledBegin, Begins, Runs};

use crate::conf::{Conf, read_conf};
use crate::session::answer_messages;
use crate::status::Status;
use gate_base::Moment;
use gate_engine::{Engine, StartFault, begin, what_a_run_keeps};
use gate_machine::what_steps_keep;
use gate_settings::each_id_is_short;
use journal_core::BeginFault;
use plant::{Clock, ClockFault, Entropy, Plant, Sink, Source, runs_join};
use std::alloc::Global;

/// The first and the last moment that a clock may give: 2025-09-15T00:00:00Z and 2099-12-31T23:59:59Z.
const FIRST_MOMENT: u64 = 1_757_894_400;

const LAST_MOMENT: u64 = 4_102_444_799;

/// What the words ask for.
#[derive(Clone, Copy)]
enum Word {
    Begin,
    Session,
    Other,
}

/// Does what the words say.
pub fn run<F: Source, P: Plant, C: Clock, E: Entropy, S: Source, K: Sink>(
    alloc: Global,
    words: &[String],
    conf: &mut F,
    plant: &mut P,
    clock: &mut C,
    entropy: &mut E,
    source: &mut S,
    sink: &mut K,
) -> Status
    // What is left of the outside, and the status, are those of the words' meaning.
    ensures runs { (word : WordValue) → IsWord (map string_bytes words.now) word → Runs word (F.told conf.old) (F.told conf.new)
        (outside_of (P.told plant.old) (P.stops plant.old) (C.told clock.old) (E.told entropy.old) (S.told source.old) (K.told sink.old))
        (outside_of (P.told plant.new) (P.stops plant.new) (C.told clock.new) (E.told entropy.new) (S.told source.new) (K.told sink.new)) result }
    // From what a gate left, at every moment since then: whatever a stop leaves, recovery finds a legal history that begins with the
    // gate's, and each body that the signer was sent has an entry of its own in it.
    ensures headline { (before : HeldValue) → IsSound before → Kept before (P.stops plant.old) → ForSome (P.told plant.old).disk.bytes
        (λ bytes. JustifiesSince (Unit {0}) before.history (P.stops plant.old) (P.stops plant.new)) }
    // And the next run starts from what a gate left.
    ensures left { (before : HeldValue) → IsSound before → Kept before (P.stops plant.old) → ForSome (P.told plant.old).disk.bytes
        (λ bytes. IsLeftBehind before.history (P.stops plant.new)) }
{
    runs_join::<P>();
    what_a_run_keeps::<P>();
    match read_words(words) {
        Word::Begin => run_begin(alloc, conf, plant, clock),
        Word::Session => run_session(alloc, conf, plant, clock, entropy, source, sink),
        Word::Other => Status::Usage,
    }
}

fn read_words(words: &[String]) -> Word
    ensures { IsWord (map string_bytes words.now) result }
{
    let [word] = words else {
        return Word::Other;
    };
    match word.as_str() {
        "begin" => Word::Begin,
        "session" => Word::Session,
        _ => Word::Other,
    }
}

fn run_begin<F: Source, P: Plant, C: Clock>(
    alloc: Global,
    conf: &mut F,
    plant: &mut P,
    clock: &mut C,
) -> Status
    ensures does { (RefusesSettings (F.told conf.old) (F.told conf.new) result × (P.told plant.new ≡ P.told plant.old) × Stays (P.stops plant.old) (P.stops plant.new)
        × (C.told clock.new ≡ C.told clock.old))
        ⊎ SettledBegin (F.told conf.old) (P.told plant.old) (P.told plant.new) (P.stops plant.old) (P.stops plant.new) (C.told clock.old) (C.told clock.new) result }
    ensures stays { ForSome (P.told plant.old).disk.bytes (λ bytes. bytes ≢ [] → Stays (P.stops plant.old) (P.stops plant.new)) }
    ensures signer { (P.told plant.new).signer ≡ (P.told plant.old).signer }
{
    runs_join::<P>();
    match read_conf(alloc, conf) {
        Ok(conf) => begin_journal(alloc, plant, clock, &conf.bytes),
        Err(status) => status,
    }
}

fn begin_journal<P: Plant, C: Clock>(
    alloc: Global,
    plant: &mut P,
    clock: &mut C,
    settings: &[u8],
) -> Status
    requires { IsReadable settings.now }
    ensures begins { BeginsJournal settings.now (P.told plant.old) (P.told plant.new) (P.stops plant.old) (P.stops plant.new) (C.told clock.old) (C.told clock.new) result }
    ensures stays { ForSome (P.told plant.old).disk.bytes (λ bytes. bytes ≢ [] → Stays (P.stops plant.old) (P.stops plant.new)) }
    ensures signer { (P.told plant.new).signer ≡ (P.told plant.old).signer }
{
    runs_join::<P>();
    let reading = match clock.now() {
        Ok(reading) => reading,
        Err(ClockFault) => return Status::ClockFault,
    };
    if reading < FIRST_MOMENT || LAST_MOMENT < reading {
        return Status::ClockRange { reading };
    }
    begin_at(alloc, plant, reading, settings)
}

fn begin_at<P: Plant>(alloc: Global, plant: &mut P, reading: u64, settings: &[u8]) -> Status
    requires range { IsInRange reading }
    requires readable { IsReadable settings.now }
    ensures begins { Begins settings.now reading (P.told plant.old) (P.told plant.new) (P.stops plant.old) (P.stops plant.new) result }
    ensures stays { ForSome (P.told plant.old).disk.bytes (λ bytes. bytes ≢ [] → Stays (P.stops plant.old) (P.stops plant.new)) }
    ensures signer { (P.told plant.new).signer ≡ (P.told plant.old).signer }
{
    match begin(alloc, plant, Moment(reading), settings) {
        Ok(()) => Status::Ok,
        Err(BeginFault::Disk) => Status::DiskFault,
        Err(BeginFault::NotEmpty { length }) => Status::NotEmpty { length },
        Err(BeginFault::NoMemory) => Status::NoMemory,
    }
}

fn run_session<F: Source, P: Plant, C: Clock, E: Entropy, S: Source, K: Sink>(
    alloc: Global,
    conf: &mut F,
    plant: &mut P,
    clock: &mut C,
    entropy: &mut E,
    source: &mut S,
    sink: &mut K,
) -> Status
    ensures runs { RunsSession (F.told conf.old) (F.told conf.new)
        (outside_of (P.told plant.old) (P.stops plant.old) (C.told clock.old) (E.told entropy.old) (S.told source.old) (K.told sink.old))
        (outside_of (P.told plant.new) (P.stops plant.new) (C.told clock.new) (E.told entropy.new) (S.told source.new) (K.told sink.new)) result }
    ensures headline { (before : HeldValue) → IsSound before → Kept before (P.stops plant.old) → ForSome (P.told plant.old).disk.bytes
        (λ bytes. JustifiesSince (Unit {0}) before.history (P.stops plant.old) (P.stops plant.new)) }
    ensures left { (before : HeldValue) → IsSound before → Kept before (P.stops plant.old) → ForSome (P.told plant.old).disk.bytes
        (λ bytes. IsLeftBehind before.history (P.stops plant.new)) }
{
    runs_join::<P>();
    what_a_run_keeps::<P>();
    match read_conf(alloc, conf) {
        Ok(conf) => hold_session(alloc, plant, clock, entropy, source, sink, &conf),
        Err(status) => status,
    }
}

#[tactic(auto, using(crate::proofs::Runs::refused_of, crate::proofs::Talks::caller_is_short))]
fn hold_session<P: Plant, C: Clock, E: Entropy, S: Source, K: Sink>(
    alloc: Global,
    plant: &mut P,
    clock: &mut C,
    entropy: &mut E,
    source: &mut S,
    sink: &mut K,
    conf: &Conf,
) -> Status
    requires readable { IsReadable conf.now.bytes.items }
    requires says { settings_of conf.now.bytes.items ≡ Some conf.now.settings }
    ensures holds { HoldsSession conf.now.bytes.items
        (outside_of (P.told plant.old) (P.stops plant.old) (C.told clock.old) (E.told entropy.old) (S.told source.old) (K.told sink.old))
        (outside_of (P.told plant.new) (P.stops plant.new) (C.told clock.new) (E.told entropy.new) (S.told source.new) (K.told sink.new)) result }
    ensures headline { (before : HeldValue) → IsSound before → Kept before (P.stops plant.old) → ForSome (P.told plant.old).disk.bytes
        (λ bytes. JustifiesSince (Unit {0}) before.history (P.stops plant.old) (P.stops plant.new)) }
    ensures left { (before : HeldValue) → IsSound before → Kept before (P.stops plant.old) → ForSome (P.told plant.old).disk.bytes
        (λ bytes. IsLeftBehind before.history (P.stops plant.new)) }
{
    what_steps_keep();
    what_a_run_keeps::<P>();
    each_id_is_short();
    match Engine::start(alloc, plant, clock, &conf.bytes) {
        Ok(mut engine) => answer_messages(
            alloc,
            &mut engine,
            plant,
            clock,
            entropy,
            source,
            sink,
            &conf.settings.callers,
        ),
        Err(fault) => start_status(fault),
    }
}

fn start_status(fault: StartFault) -> Status
    ensures { IsStartStatus fault result }
{
    match fault {
        StartFault::Disk => Status::DiskFault,
        StartFault::NotBegun => Status::NotBegun,
        StartFault::JournalBad { at } => Status::JournalBad { at },
        StartFault::Clock => Status::ClockFault,
        StartFault::ClockRange { reading } => Status::ClockRange { reading },
        StartFault::Full => Status::Full,
        StartFault::NoMemory => Status::NoMemory,
    }
}
