ghost use Rattle.std.specs.Prelude.{Some, ◌≡◌, ◌+◌, ◌<◌, ◌≤◌, ◌↔◌, [], ◌∷◌, ◌++◌, length, take, drop, if◌then◌else◌, is_some, IsSome, IsErr, IfOk, IfSome, OnOk, OnErr};
ghost use Rattle.std.specs.Option.{option_map};
ghost use Rattle.plant.specs.GhostList.{items_of};
ghost use Rattle.plant.specs.MemoryDisk.{content_value};
ghost use Rattle.plant.specs.Stops.{IsDurable};
ghost use Rattle.plant.specs.Tearing.{Torn};
ghost use Rattle.plant.specs.Joining.{Stays, Follows, MaySend};
ghost use Rattle.plant.specs.Memory.{one_more, fail_at, stand_in, called, disk_failed, ran_short, torn, wrote, synced, signed, plant_stops, FailsToSign};

use crate::device::{Plant, SIGNATURE_ROOM};
use crate::fault::{DiskFault, Fail, Fails, SignerFault};
use crate::ghost_list::GhostList;
use crate::memory_disk::{Content, keep_sent, overwrite, settle, tear};
use crate::memory_source::put_front;
use gate_base::{ByteLists, Bytes, NoMemory};
use sha2::{Digest, Sha256};
use std::alloc::Global;
use std::marker::Model;
use std::snapshot::Snapshot;

/// A disk and a stand-in signer in memory, with a list of calls that fail.
#[derive(Drop)]
pub struct MemoryPlant {
    alloc: Global,
    content: Content,
    past: GhostList<Content>,
    secret: Bytes,
    fails: Fails,
    calls: u64,
    answered: Vec<Bytes>,
    disk_faults: u64,
    signer_faults: u64,
    short: u64,
}

impl Model for MemoryPlant {
    ghost use Rattle.std.specs.Prelude.{Some, map};
    ghost use Rattle.plant.specs.GhostList.{items_of};
    ghost use Rattle.plant.specs.Memory.{PlantMemory};
    ghost use Rattle.plant.specs.MemoryDisk.{content_value, ranges_of};

    ghost Value = { PlantMemory };

    ghost view = { λ p. record {
      bytes = p.content.bytes.items;
      stable = p.content.stable.value.items;
      written = ranges_of p.content.written;
      past = map content_value (items_of p.past);
      secret = p.secret;
      fails = p.fails;
      calls = p.calls;
      sent = p.content.sent;
      answered = p.answered.items;
      disk_faults = p.disk_faults;
      signer_faults = p.signer_faults;
      short = p.short;
    } };
}

impl MemoryPlant {
    pub fn new(alloc: Global, disk: Bytes, secret: Bytes, fails: Fails) -> MemoryPlant
        ensures new { result ≡ record {
          bytes = disk;
          stable = disk;
          written = [];
          past = [];
          secret = secret;
          fails = fails;
          calls = 0;
          sent = [];
          answered = [];
          disk_faults = 0;
          signer_faults = 0;
          short = 0;
        } }
        // The disk is stable.
        ensures stable { IsDurable (Some disk) (plant_stops result) }
    {
        let bytes = disk.into_vec();
        let content = Content {
            stable: Snapshot::of(&bytes),
            bytes,
            written: GhostList::new(),
            sent: ByteLists::new(alloc),
        };
        MemoryPlant {
            alloc,
            content,
            past: GhostList::new(),
            secret,
            fails,
            calls: 0,
            answered: Vec::new(alloc),
            disk_faults: 0,
            signer_faults: 0,
            short: 0,
        }
    }

    pub fn disk(&self) -> &[u8]
        ensures { result.now ≡ self.now.bytes }
    {
        &self.content.bytes
    }

    pub fn sent(&self) -> &ByteLists
        ensures { result.now ≡ self.now.sent }
    {
        &self.content.sent
    }

    /// How many calls found no memory.
    pub fn short(&self) -> u64
        ensures { result ≡ self.now.short }
    {
        self.short
    }
}

/// Counts a call, and tells how it fails, if it does.
fn begin_call(calls: &mut u64, fails: &Fails) -> Option<Fail>
    ensures calls { calls.new ≡ one_more calls.old }
    ensures fail { result ≡ fail_at fails.now calls.new }
{
    *calls = calls.saturating_add(1);
    how_it_fails(fails.as_slice(), *calls)
}

fn how_it_fails(fails: &[(u64, Fail)], call: u64) -> Option<Fail>
    ensures { result ≡ fail_at fails.now call }
{
    fails.iter().find(|pair| pair.0 == call).map(|pair| pair.1)
}

/// Raises a count, up to its type's end.
fn rise(count: &mut u64)
    ensures { count.new ≡ one_more count.old }
{
    *count = count.saturating_add(1);
}

/// Keeps a body that the signer got and answered, in both lists or in none.
fn keep_answered(
    alloc: Global,
    content: &mut Content,
    past: &mut GhostList<Content>,
    answered: &mut Vec<Bytes>,
    body: &[u8],
) -> Result<(), NoMemory>
    ensures content { OnOk result (content_value content.new ≡ record (content_value content.old) { sent = content.old.sent ++ body.now ∷ [] }) }
    ensures past { OnOk result (items_of past.new ≡ content.old ∷ items_of past.old) }
    ensures answered { OnOk result (answered.new.items ≡ answered.old.items ++ body.now ∷ []) }
    ensures unsent { OnErr result (content_value content.new ≡ content_value content.old) }
    ensures unkept { OnErr result (past.new ≡ past.old) }
    ensures unanswered { OnErr result (answered.new.items ≡ answered.old.items) }
{
    let kept = Bytes::from_slice(alloc, body)?;
    answered.reserve(1)?;
    keep_sent(alloc, content, past, body)?;
    match answered.push(kept) {
        Ok(()) => Ok(()),
        Err(_) => unreachable!(),
    }
}

/// The stand-in's signature of a body at the front of a piece.
pub fn put_stand_in(secret: &Bytes, body: &[u8], out: &mut [u8]) -> usize
    requires { 32 ≤ length out.old }
    ensures size { result ≡ 32 }
    ensures signature { take result out.new ≡ stand_in secret.now body.now }
{
    let mut hasher = Sha256::new();
    hasher.update(secret.as_slice());
    hasher.update(body);
    put_front(&hasher.finalize(), out);
    32
}

impl Plant for MemoryPlant {
    ghost use Rattle.plant.specs.Memory.{plant_told, plant_stops, reads_now, told_beside};

    ghost told = { plant_told };

    ghost stops = { plant_stops };

    ghost reads = { reads_now };

    ghost beside = { told_beside };

    #[tactic(auto, using(crate::proofs::Moments::failed_stops))]
    fn length(&mut self) -> Result<u64, DiskFault>
        ensures count { IfOk result (λ count. count ≡ length self.old.bytes) }
        ensures ok { OnOk result (self.new ≡ called self.old) }
        ensures err { OnErr result (self.new ≡ disk_failed (called self.old)) }
        // It fails exactly where its list says so.
        ensures failing { IsErr result ↔ IsSome (fail_at self.old.fails self.new.calls) }
        ensures moments { Stays (plant_stops self.old) (plant_stops self.new) }
    {
        if begin_call(&mut self.calls, &self.fails).is_some() {
            rise(&mut self.disk_faults);
            return Err(DiskFault);
        }
        Ok(self.content.bytes.len() as u64)
    }

    #[tactic(auto, using(crate::proofs::Moments::failed_stops))]
    fn read_at(&mut self, at: u64, out: &mut [u8]) -> Result<(), DiskFault>
        requires { at + length out.old ≤ length self.old.bytes }
        ensures given { OnOk result (out.new ≡ take (length out.old) (drop at self.old.bytes)) }
        ensures ok { OnOk result (self.new ≡ called self.old) }
        ensures err { OnErr result (self.new ≡ disk_failed (called self.old)) }
        ensures failing { IsErr result ↔ IsSome (fail_at self.old.fails self.new.calls) }
        ensures moments { Stays (plant_stops self.old) (plant_stops self.new) }
    {
        if begin_call(&mut self.calls, &self.fails).is_some() {
            rise(&mut self.disk_faults);
            return Err(DiskFault);
        }
        let (_, left) = self.content.bytes.as_slice().split_at(at as usize);
        let (piece, _) = left.split_at(out.len());
        out.copy_from_slice(piece);
        Ok(())
    }

    #[tactic(auto, using(crate::proofs::Moments::wrote_stops))]
    fn write_at(&mut self, at: u64, piece: &[u8]) -> Result<(), DiskFault>
        requires { at ≤ length self.old.bytes }
        ensures ok { OnOk result (self.new ≡ wrote at piece.now (called self.old)) }
        // A write that fails writes nothing; it fails where the list says so, and otherwise only when out of memory.
        ensures err { OnErr result (self.new ≡ (if is_some (fail_at self.old.fails self.new.calls)
            then disk_failed (torn at (length piece.now) (called self.old))
            else disk_failed (ran_short (torn at (length piece.now) (called self.old))))) }
        ensures moments { Follows (Torn at (length piece.now)) (plant_stops self.old) (plant_stops self.new) }
        ensures listed { IsSome (fail_at self.old.fails self.new.calls) → IsErr result }
    {
        let before = Snapshot::of(&self.content);
        self.past.push(before);
        tear(&mut self.content, at, piece.len());
        if begin_call(&mut self.calls, &self.fails).is_some() {
            rise(&mut self.disk_faults);
            return Err(DiskFault);
        }
        match overwrite(&mut self.content.bytes, at as usize, piece) {
            Ok(()) => Ok(()),
            Err(NoMemory) => {
                rise(&mut self.short);
                rise(&mut self.disk_faults);
                Err(DiskFault)
            }
        }
    }

    #[tactic(auto, using(crate::proofs::Moments::synced_stops, crate::proofs::Moments::failed_stops))]
    fn sync(&mut self) -> Result<(), DiskFault>
        ensures ok { OnOk result (self.new ≡ synced (called self.old)) }
        ensures err { OnErr result (self.new ≡ disk_failed (called self.old)) }
        ensures durable { OnOk result (IsDurable (plant_told self.new).disk.bytes (plant_stops self.new)) }
        ensures moments { Stays (plant_stops self.old) (plant_stops self.new) }
        ensures failing { IsErr result ↔ IsSome (fail_at self.old.fails self.new.calls) }
    {
        let failing = begin_call(&mut self.calls, &self.fails);
        if failing.is_some() {
            rise(&mut self.disk_faults);
            return Err(DiskFault);
        }
        self.past.push(Snapshot::of(&self.content));
        settle(&mut self.content);
        Ok(())
    }

    fn sign(&mut self, body: &[u8], out: &mut [u8]) -> Result<usize, SignerFault>
        requires { length out.old ≡ SIGNATURE_ROOM }
        ensures size { IfOk result (λ count. count ≡ 32) }
        ensures signature { IfOk result (λ count. take count out.new ≡ stand_in self.old.secret body.now) }
        ensures answered { IfOk result (λ count. (plant_told self.new).signer.answers
            ≡ option_map (λ list. list ++ (body.now, take count out.new) ∷ []) (plant_told self.old).signer.answers) }
        ensures ok { OnOk result (self.new ≡ signed body.now (called self.old)) }
        ensures err { OnErr result (FailsToSign (fail_at self.old.fails self.new.calls) body.now (called self.old) self.new) }
        ensures moments { MaySend body.now (plant_stops self.old) (plant_stops self.new) }
        ensures listed { IsSome (fail_at self.old.fails self.new.calls) → IsErr result }
    {
        match begin_call(&mut self.calls, &self.fails) {
            None => {
                let kept = keep_answered(
                    self.alloc,
                    &mut self.content,
                    &mut self.past,
                    &mut self.answered,
                    body,
                );
                match kept {
                    Ok(()) => Ok(put_stand_in(&self.secret, body, out)),
                    Err(NoMemory) => {
                        rise(&mut self.short);
                        rise(&mut self.signer_faults);
                        Err(SignerFault)
                    }
                }
            }
            Some(Fail::ReplyLost) => {
                let kept = keep_sent(self.alloc, &mut self.content, &mut self.past, body);
                if let Err(NoMemory) = kept {
                    rise(&mut self.short);
                }
                rise(&mut self.signer_faults);
                Err(SignerFault)
            }
            Some(Fail::Disk | Fail::NotReceived) => {
                rise(&mut self.signer_faults);
                Err(SignerFault)
            }
        }
    }
}
