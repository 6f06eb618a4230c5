//! A session: one message after another is asked and answered.
ghost use Rattle.std.specs.Prelude.{◌≡◌, ◌≤◌, Some, IfSome, IfOk};
ghost use Rattle.gate_entries.specs.Command.{IsCaller};
ghost use Rattle.gate_machine.specs.History.{Legal};
ghost use Rattle.gate_machine.specs.Sends.{HasOneBodyEach};
ghost use Rattle.gate_machine.specs.Serials.{HasOneOrderEach};
ghost use Rattle.gate_engine.specs.Kept.{Stands, IsSentOf};
ghost use Rattle.gate_machine.specs.Move.{IsSound};
ghost use Rattle.wire_front.specs.Stream.{most_taken};
ghost use Rattle.wire_front.specs.Reply.{text_of};
ghost use Rattle.gate_engine.specs.Justified.{JustifiesSince};
ghost use Rattle.gate_server.specs.Session as spec;
ghost use Rattle.gate_server.specs.Session.{talk_of, begun, Turns, PutsReply, Ended};

use crate::status::Status;
use gate_base::{NoMemory, Plain};
use gate_engine::{Engine, what_a_run_keeps};
use gate_entries::{Caller, Reply};
use gate_machine::what_steps_keep;
use gate_settings::Callers;
use plant::{Clock, Entropy, Plant, PutFault, Sink, Source, runs_join};
use std::alloc::Global;
use wire_front::{Stream, Taken, one_passing, reply_text};

/// The token that the messages of both forms bear.
const TOKEN: &[u8] = b"acme-token";

/// The caller of the messages, if one has their token.
fn caller_in(alloc: Global, callers: &Callers) -> Result<Option<Caller>, NoMemory>
    ensures { IfOk result (λ caller. caller ≡ spec.caller_in callers.now) }
{
    match callers.find(TOKEN) {
        Some(row) => Ok(Some(Caller {
            id: row.id.copied(alloc)?,
            role: row.role,
        })),
        None => Ok(None),
    }
}

/// Answers the source's messages into the sink.
pub fn answer_messages<P: Plant, C: Clock, E: Entropy, S: Source, K: Sink>(
    alloc: Global,
    engine: &mut Engine,
    plant: &mut P,
    clock: &mut C,
    entropy: &mut E,
    source: &mut S,
    sink: &mut K,
    callers: &Callers,
) -> Status
    requires stands { Stands engine.old (P.stops plant.old) }
    requires caller { IfSome (spec.caller_in callers.now) IsCaller }
    ensures ended { Ended callers.now result
        (talk_of engine.old (P.told plant.old) (C.told clock.old) (E.told entropy.old) begun (S.told source.old) (K.told sink.old))
        engine.new (P.told plant.new) (C.told clock.new) (E.told entropy.new) (S.told source.new) (K.told sink.new) }
    ensures since { JustifiesSince (IsSentOf engine.old.history (P.stops plant.old)) engine.old.history (P.stops plant.old) (P.stops plant.new) }
    ensures stands { Stands engine.new (P.stops plant.new) }
    ensures kept { IsSentOf engine.old.history (P.stops plant.old) → IsSentOf engine.new.history (P.stops plant.new) }
    ensures legal { Legal engine.new.history }
    ensures one_body { HasOneBodyEach engine.new.history }
    ensures one_order { HasOneOrderEach engine.new.history }
    ensures sound { IsSound engine.new }
{
    one_passing();
    what_steps_keep();
    what_a_run_keeps::<P>();
    runs_join::<P>();
    engine.keeps_a_legal_history();
    let caller = match caller_in(alloc, callers) {
        Ok(Some(caller)) => caller,
        Ok(None) => return Status::NotBuilt,
        Err(NoMemory) => return Status::NoMemory,
    };
    let mut stream = Stream::new(alloc);
    loop {
        let turned = turn(
            alloc,
            engine,
            plant,
            clock,
            entropy,
            callers,
            &caller,
            &mut stream,
            source,
            sink,
        );
        if let Err(status) = turned {
            engine.keeps_a_legal_history();
            return status;
        }
    }
}

/// Answers the next message, or tells how the session ends.
fn turn<P: Plant, C: Clock, E: Entropy, S: Source, K: Sink>(
    alloc: Global,
    engine: &mut Engine,
    plant: &mut P,
    clock: &mut C,
    entropy: &mut E,
    callers: &Callers,
    caller: &Caller,
    stream: &mut Stream,
    source: &mut S,
    sink: &mut K,
) -> Result<(), Status>
    requires stands { Stands engine.old (P.stops plant.old) }
    requires caller { spec.caller_in callers.now ≡ Some caller.now }
    requires spelled { IsCaller caller.now }
    ensures turns { Turns callers.now result
        (talk_of engine.old (P.told plant.old) (C.told clock.old) (E.told entropy.old) stream.old (S.told source.old) (K.told sink.old))
        (talk_of engine.new (P.told plant.new) (C.told clock.new) (E.told entropy.new) stream.new (S.told source.new) (K.told sink.new)) }
    ensures fits { stream.new.taken ≤ most_taken }
    ensures read_later { (S.told source.old).faults ≤ (S.told source.new).faults }
    ensures put_later { (K.told sink.old).faults ≤ (K.told sink.new).faults }
    ensures since { JustifiesSince (IsSentOf engine.old.history (P.stops plant.old)) engine.old.history (P.stops plant.old) (P.stops plant.new) }
    ensures stands { Stands engine.new (P.stops plant.new) }
    ensures kept { IsSentOf engine.old.history (P.stops plant.old) → IsSentOf engine.new.history (P.stops plant.new) }
{
    what_a_run_keeps::<P>();
    runs_join::<P>();
    engine.keeps_a_legal_history();
    let command = match stream.take_message(alloc, source) {
        Taken::Message(command) => command,
        Taken::End => return Err(Status::Ok),
        Taken::NotBuilt => return Err(Status::NotBuilt),
        Taken::Fault => return Err(Status::ReadFault { settings: false }),
        Taken::StreamLong => return Err(Status::StreamLong),
        Taken::NoMemory => return Err(Status::NoMemory),
    };
    let reply = engine.ask(plant, clock, entropy, caller, &command);
    put_reply(alloc, sink, &reply)
}

fn put_reply<K: Sink>(alloc: Global, sink: &mut K, reply: &Reply) -> Result<(), Status>
    ensures puts { PutsReply result (K.told sink.old) (K.told sink.new) (text_of reply.now) }
    ensures later { (K.told sink.old).faults ≤ (K.told sink.new).faults }
{
    let Ok(text) = reply_text(alloc, reply) else {
        return Err(Status::NoMemory);
    };
    match sink.put(text.as_bytes()) {
        Ok(()) => Ok(()),
        Err(PutFault) => Err(Status::WriteFault),
    }
}
