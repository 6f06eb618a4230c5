//! One message after another from a source.
ghost use Rattle.std.specs.Prelude.{◌≡◌, ◌≤◌, [], length, drop, IfSome, IfOk, IfErr};
ghost use Rattle.http_frames.specs.Frames.{IsUnfinished};
ghost use Rattle.http_frames.specs.Stream.{Awaits, Takes, Tells, TakesNeeded, IsNeeded, Gives, most_taken};

use crate::front::{Front, find_front};
use crate::head::HEADER_ROOM;
use crate::message::Message;
use gate_base::NoMemory;
use httparse::spans::{EMPTY_HEADER_SPAN, HeaderSpan};
use plant::{Source, TakeFault};
use std::alloc::Global;
use std::marker::Model;
use std::mem;

/// The most bytes that are taken without an end of input.
const STREAM_LIMIT: u64 = 1 << 30;

/// How many bytes are taken at once at the most.
const PIECE: usize = 4_096;

/// What comes next from a source.
#[derive(Debug, Drop)]
pub enum Got {
    Message(Message),
    /// The source ended, and nothing is left.
    End,
    /// A message whose body is too large. It was read and dropped.
    TooLarge,
    /// Where the next message ends can't be known; this status is the answer.
    Unframed(u16),
    /// The source ended inside a head or a body.
    Truncated,
    /// Too many bytes were taken without an end of input.
    StreamLong,
    Fault,
    NoMemory,
}

/// The bytes that were taken and not yet used, and how many were taken in all.
#[derive(Drop)]
pub struct Wire {
    held: Vec<u8>,
    taken: u64,
    /// Where the fields of a head are told.
    room: Vec<HeaderSpan>,
}

impl Model for Wire {
    ghost use Rattle.std.specs.Prelude.{◌≤◌};
    ghost use Rattle.http_frames.specs.Stream.{Awaits, WireState, most_taken};

    ghost Value = { WireState };

    ghost view = { λ w. record { held = w.held.items; taken = w.taken } };

    ghost invariant = { λ w. w.taken ≤ most_taken };
}

impl Wire {
    /// Nothing was taken. It allocates nothing.
    pub fn new(alloc: Global) -> Wire
        ensures { result ≡ record { held = []; taken = 0 } }
    {
        Wire {
            held: Vec::new(alloc),
            taken: 0,
            room: Vec::new(alloc),
        }
    }

    /// The next message, or why there is none. Whatever is answered, no byte is lost.
    pub fn read_message<S: Source>(&mut self, alloc: Global, source: &mut S) -> Got
        ensures takes { Takes result self.old (S.told source.old) self.new (S.told source.new) }
        ensures tells { Tells result self.new (S.told source.old) (S.told source.new) }
        // The source is read only where what is held is the beginning of a message.
        ensures needed { TakesNeeded self.old (S.told source.old) self.new (S.told source.new) }
        ensures fits { self.new.taken ≤ most_taken }
        ensures later { (S.told source.old).faults ≤ (S.told source.new).faults }
        ensures beside { S.beside source.new ≡ S.beside source.old }
    {
        let _ = &self.taken;
        let Some(mut room) = self.take_room(alloc) else {
            return Got::NoMemory;
        };
        let got = match self.read_held(alloc, source, &mut room, 0) {
            Ok(got) => got,
            Err(needs) => self.read_later(alloc, source, &mut room, needs),
        };
        self.room = room;
        got
    }

    /// The room for the fields of a head, which is made once.
    fn take_room(&mut self, alloc: Global) -> Option<Vec<HeaderSpan>>
        ensures size { IfSome result (λ room. length room.items ≡ 4096) }
        ensures same { self.new ≡ self.old }
    {
        let room = mem::replace(&mut self.room, Vec::new(alloc));
        if room.len() == HEADER_ROOM {
            return Some(room);
        }
        vec![in alloc; EMPTY_HEADER_SPAN; HEADER_ROOM].ok()
    }

    /// What stands at the front of what is held; where that is unfinished, how many bytes are needed to know more.
    #[tactic(auto, using(crate::proofs::FrameLemmas::unfinished_until, crate::proofs::FrameLemmas::waits_until, crate::proofs::Streams::awaited))]
    fn read_held<S: Source>(
        &mut self,
        alloc: Global,
        source: &S,
        room: &mut [HeaderSpan],
        needs: usize,
    ) -> Result<Got, usize>
        requires room { length room.old ≡ 4096 }
        requires awaits { Awaits self.old.held needs }
        ensures takes { IfOk result (λ got. Takes got self.old (S.told source.now) self.new (S.told source.now)) }
        ensures tells { IfOk result (λ got. Tells got self.new (S.told source.now) (S.told source.now)) }
        ensures awaits { IfErr result (λ needs. Awaits self.old.held needs) }
        ensures none { IfErr result (λ _. IsUnfinished self.old.held) }
        ensures same { IfErr result (λ _. self.new ≡ self.old) }
        ensures taken { self.new.taken ≡ self.old.taken }
    {
        if self.held.len() < needs {
            return Err(needs);
        }
        match find_front(alloc, &self.held, room) {
            Ok(Front::Message { message, used }) => {
                self.use_up(used);
                Ok(Got::Message(message))
            }
            Ok(Front::TooLarge { used }) => {
                self.use_up(used);
                Ok(Got::TooLarge)
            }
            Ok(Front::Unframed(status)) => Ok(Got::Unframed(status)),
            Ok(Front::Unfinished { needs }) => Err(needs),
            Err(NoMemory) => Ok(Got::NoMemory),
        }
    }

    /// The next message, with further bytes of the source.
    fn read_later<S: Source>(
        &mut self,
        alloc: Global,
        source: &mut S,
        room: &mut [HeaderSpan],
        mut needs: usize,
    ) -> Got
        requires room { length room.old ≡ 4096 }
        requires awaits { Awaits self.old.held needs }
        requires none { IsUnfinished self.old.held }
        ensures takes { Takes result self.old (S.told source.old) self.new (S.told source.new) }
        ensures tells { Tells result self.new (S.told source.old) (S.told source.new) }
        ensures needed { IsNeeded self.old (S.told source.old) self.new }
        ensures fits { self.new.taken ≤ most_taken }
        ensures later { (S.told source.old).faults ≤ (S.told source.new).faults }
        ensures beside { S.beside source.new ≡ S.beside source.old }
    {
        let _ = &self.taken;
        loop {
            match self.take_more(source) {
                More::Bytes => {}
                More::End if self.held.is_empty() => return Got::End,
                More::End => return Got::Truncated,
                More::Fault => return Got::Fault,
                More::TooMany => return Got::StreamLong,
                More::NoMemory => return Got::NoMemory,
            }
            match self.read_held(alloc, source, room, needs) {
                Ok(got) => return got,
                Err(more) => needs = more,
            }
        }
    }

    /// Drops so many bytes from the front of what is held.
    #[tactic(auto, using(crate::proofs::Streams::front_dropped))]
    fn use_up(&mut self, used: usize)
        requires { used ≤ length self.old.held }
        ensures { self.new ≡ record { held = drop used self.old.held; taken = self.old.taken } }
    {
        let left = self.held.len() - used;
        self.held.rotate_left(used);
        self.held.truncate(left);
    }

    /// Takes some bytes more.
    fn take_more<S: Source>(&mut self, source: &mut S) -> More
        ensures gives { Gives result self.old (S.told source.old) self.new (S.told source.new) }
        ensures fits { self.new.taken ≤ most_taken }
        ensures later { (S.told source.old).faults ≤ (S.told source.new).faults }
        ensures beside { S.beside source.new ≡ S.beside source.old }
    {
        if self.taken >= STREAM_LIMIT {
            return More::TooMany;
        }
        if self.held.reserve(PIECE).is_err() {
            return More::NoMemory;
        }
        let mut piece = [0; PIECE];
        let most = PIECE.min((STREAM_LIMIT - self.taken) as usize);
        let (room, _) = piece.split_at_mut(most);
        match source.take(room) {
            Ok(0) => More::End,
            Ok(count) => {
                self.taken += count as u64;
                match self.held.extend_from_slice(&room[..count]) {
                    Ok(()) => More::Bytes,
                    Err(_) => unreachable!(),
                }
            }
            Err(TakeFault) => More::Fault,
        }
    }
}

/// What a source gave.
#[derive(Clone, Copy)]
enum More {
    Bytes,
    End,
    Fault,
    TooMany,
    NoMemory,
}
