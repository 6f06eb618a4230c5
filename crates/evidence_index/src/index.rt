//! The index of evidence.
ghost use Rattle.std.specs.Prelude.{◌≡◌, [], ◌∷◌, ◌++◌, Some, drop, IfOk, OnOk, OnErr};
ghost use Rattle.evidence_index.specs.Caa as caa;
ghost use Rattle.evidence_index.specs.Evidence as evidence;
ghost use Rattle.evidence_index.specs.Lookups.{settings_now};
ghost use Rattle.evidence_index.specs.Noting.{HasRoomFor, IsNext};

use crate::noting::{push_copies, settle};
use crate::permitting::caa_why;
use crate::proving::proof_why;
use gate_base::{Moment, NoMemory, Target};
use gate_entries::{Entry, Why};
use gate_settings::Settings;
use std::alloc::Global;
use std::marker::Model;

/// The entries of a journal, of which it can be asked what proves control of a target and what CAA permits.
#[derive(Debug, Drop)]
pub struct Index {
    alloc: Global,
    /// The noted entries, and behind them those for which there is room.
    entries: Vec<Entry>,
    /// How many are noted.
    count: usize,
}

impl Model for Index {
    ghost use Rattle.std.specs.Prelude.{◌≤◌, length, take, drop};
    ghost use Rattle.evidence_index.specs.Noting.{AreSound, Noted};

    ghost Value = { Noted };

    ghost view = { λ index. record { entries = take index.count index.entries.items; room = drop index.count index.entries.items } };

    ghost invariant = { λ index. (index.count ≤ length index.entries.items) × AreSound (take index.count index.entries.items) };
}

impl Index {
    /// Nothing is noted, and there is no room.
    pub fn new(alloc: Global) -> Index
        ensures entries { result.entries ≡ [] }
        ensures room { result.room ≡ [] }
    {
        Index {
            alloc,
            entries: Vec::new(alloc),
            count: 0,
        }
    }

    /// Makes room for these entries, in this order, and gives up what room there was.
    pub fn reserve(&mut self, next: &[Entry]) -> Result<(), NoMemory>
        ensures entries { self.new.entries ≡ self.old.entries }
        ensures ok { OnOk result (self.new.room ≡ next.now) }
        ensures err { OnErr result (self.new.room ≡ []) }
    {
        self.entries.truncate(self.count);
        let made = push_copies(self.alloc, &mut self.entries, next);
        if made.is_err() {
            self.entries.truncate(self.count);
        }
        made
    }

    /// Notes an entry, in the room that was made for it. It takes no memory.
    pub fn note(&mut self, e: &Entry)
        // The first of the room is for it, and it comes next in the history.
        requires room { HasRoomFor self.old.room e.now }
        requires next { IsNext self.old.entries e.now }
        ensures entries { self.new.entries ≡ self.old.entries ++ e.now ∷ [] }
        ensures room { self.new.room ≡ drop 1 self.old.room }
    {
        settle(self.alloc, &mut self.entries[self.count], e);
        self.count += 1;
    }

    /// Why a target of the account's order may not be certified at a moment, as far as it is for want of proof of the account's
    /// control, and as far as it is for CAA.
    pub fn why_target(
        &self,
        account: &[u8],
        order: u64,
        t: &Target,
        now: &Settings,
        m: Moment,
    ) -> Result<(Option<Why>, Option<Why>), NoMemory>
        // These are the settings in force.
        requires now { settings_now self.now.entries ≡ Some now.now }
        ensures proof { IfOk result (λ why. why.0 ≡ evidence.proof_why now.now account.now t.now m.0 self.now.entries) }
        ensures caa { IfOk result (λ why. why.1 ≡ caa.caa_why now.now order t.now m.0 self.now.entries) }
    {
        let entries = &self.entries.as_slice()[..self.count];
        let proof = proof_why(self.alloc, entries, account, t, now, m)?;
        let caa = caa_why(self.alloc, entries, order, t, now, m)?;
        Ok((proof, caa))
    }
}
