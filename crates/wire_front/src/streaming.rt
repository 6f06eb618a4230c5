//! The source's bytes, and one message after another from them.
ghost use Rattle.std.specs.Prelude.{◌≡◌, ◌-◌, ◌≤◌, ◌⊎◌, [], length, drop, IfSome, IfNone};
ghost use Rattle.wire_front.specs.Message.{BeginsWith, HasNoMessage};
ghost use Rattle.wire_front.specs.Stream.{Passes, Takes, TakesAhead, Tells, Gives, most_taken};

use crate::message::{Found, find_message};
use gate_entries::Command;
use plant::{Source, TakeFault};
use std::alloc::Global;
use std::marker::Model;

/// The most bytes that are taken without an end.
const STREAM_LIMIT: u64 = 1 << 30;

/// How many bytes are taken at once at the most.
const PIECE: usize = 4_096;

/// What comes next from a source.
#[derive(Debug, Drop)]
pub enum Taken {
    Message(Command),
    /// The source ended, and nothing is left.
    End,
    /// What stands next is no message of the two forms.
    NotBuilt,
    Fault,
    StreamLong,
    NoMemory,
}

/// The bytes that were taken and not yet used, and how many were taken in all.
#[derive(Drop)]
pub struct Stream {
    held: Vec<u8>,
    taken: u64,
}

impl Model for Stream {
    ghost use Rattle.std.specs.Prelude.{◌≤◌};
    ghost use Rattle.wire_front.specs.Stream.{StreamState, most_taken};

    ghost Value = { StreamState };

    ghost view = { λ s. record { held = s.held.items; taken = s.taken } };

    ghost invariant = { λ s. s.taken ≤ most_taken };
}

impl Stream {
    /// Nothing was taken.
    pub fn new(alloc: Global) -> Stream
        ensures { result ≡ record { held = []; taken = 0 } }
    {
        Stream {
            held: Vec::new(alloc),
            taken: 0,
        }
    }

    /// The next message. Whatever is answered, no byte is lost.
    pub fn take_message<S: Source>(&mut self, alloc: Global, source: &mut S) -> Taken
        ensures tells { Tells result self.new (S.told source.old) (S.told source.new) }
        ensures takes { Takes result self.old (S.told source.old) self.new (S.told source.new) }
        // The source isn't read where a message is held.
        ensures ahead { TakesAhead result self.old (S.told source.old) (S.told source.new) }
        ensures fits { self.new.taken ≤ most_taken }
        ensures later { (S.told source.old).faults ≤ (S.told source.new).faults }
    {
        let _ = &self.taken;
        match self.take_held(alloc, source) {
            Some(taken) => taken,
            None => self.take_later(alloc, source),
        }
    }

    /// The message at the front of what is held, or why none will stand there; None where further bytes may make one.
    fn take_held<S: Source>(&mut self, alloc: Global, source: &S) -> Option<Taken>
        ensures tells { IfSome result (λ taken. Tells taken self.new (S.told source.now) (S.told source.now)) }
        ensures takes { IfSome result (λ taken. Takes taken self.old (S.told source.now) self.new (S.told source.now)) }
        ensures ahead { IfSome result (λ taken. TakesAhead taken self.old (S.told source.now) (S.told source.now)) }
        ensures none { IfNone result (HasNoMessage self.old.held) }
        ensures same { IfNone result (self.new ≡ self.old) }
        ensures taken { self.new.taken ≡ self.old.taken }
    {
        match find_message(alloc, &self.held) {
            Found::Message { command, left } => Some(self.use_up(alloc, source, command, left)),
            Found::Never => Some(Taken::NotBuilt),
            Found::NoMemory => Some(Taken::NoMemory),
            Found::More => None,
        }
    }

    /// The next message, with further bytes of the source.
    fn take_later<S: Source>(&mut self, alloc: Global, source: &mut S) -> Taken
        requires none { HasNoMessage self.old.held }
        ensures tells { Tells result self.new (S.told source.old) (S.told source.new) }
        ensures takes { Takes result self.old (S.told source.old) self.new (S.told source.new) }
        ensures fits { self.new.taken ≤ most_taken }
        ensures later { (S.told source.old).faults ≤ (S.told source.new).faults }
    {
        let _ = &self.taken;
        loop {
            match self.take_more(source) {
                More::Bytes => {}
                More::End if self.held.is_empty() => return Taken::End,
                More::End => return Taken::NotBuilt,
                More::Fault => return Taken::Fault,
                More::TooMany => return Taken::StreamLong,
                More::NoMemory => return Taken::NoMemory,
            }
            if let Some(taken) = self.take_held(alloc, source) {
                return taken;
            }
        }
    }

    /// Keeps what stands behind a message.
    fn use_up<S: Source>(
        &mut self,
        alloc: Global,
        source: &S,
        command: Command,
        left: usize,
    ) -> Taken
        requires { BeginsWith self.old.held command left }
        ensures tells { Tells result self.new (S.told source.now) (S.told source.now) }
        ensures taken { self.new.taken ≡ self.old.taken }
        ensures takes { Takes result self.old (S.told source.now) self.new (S.told source.now) }
        ensures ahead { (result ≡ Taken.Message command) ⊎ (result ≡ Taken.NoMemory) }
    {
        match Vec::from_slice(alloc, last_of(&self.held, left)) {
            Ok(rest) => {
                self.held = rest;
                Taken::Message(command)
            }
            Err(_) => Taken::NoMemory,
        }
    }

    /// Takes some bytes more.
    fn take_more<S: Source>(&mut self, source: &mut S) -> More
        ensures gives { Gives result self.old (S.told source.old) self.new (S.told source.new) }
        ensures passes { Passes self.old (S.told source.old) self.new (S.told source.new) [] }
        ensures later { (S.told source.old).faults ≤ (S.told source.new).faults }
    {
        if self.taken >= STREAM_LIMIT {
            return More::TooMany;
        }
        if self.held.reserve(PIECE).is_err() {
            return More::NoMemory;
        }
        let mut piece = [0; PIECE];
        let most = PIECE.min((STREAM_LIMIT - self.taken) as usize);
        let (room, _) = piece.split_at_mut(most);
        match source.take(room) {
            Ok(0) => More::End,
            Ok(count) => {
                self.taken += count as u64;
                match self.held.extend_from_slice(&room[..count]) {
                    Ok(()) => More::Bytes,
                    Err(_) => unreachable!(),
                }
            }
            Err(TakeFault) => More::Fault,
        }
    }
}

/// The last bytes, so many.
fn last_of(bytes: &[u8], count: usize) -> &[u8]
    requires { count ≤ length bytes.now }
    ensures { result.now ≡ drop (length bytes.now - count) bytes.now }
{
    &bytes[bytes.len() - count..]
}

/// What a source gave.
#[derive(Clone, Copy)]
enum More {
    Bytes,
    End,
    Fault,
    TooMany,
    NoMemory,
}
