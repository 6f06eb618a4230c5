ghost use Rattle.std.specs.Prelude.{◌≡◌, [], IfOk, Ok};
ghost use Rattle.gate_entries.specs.Field.{Gives, Within};
ghost use Rattle.gate_entries.specs.Spelling.{entry_bytes, IsEntry};
ghost use Rattle.gate_entries.specs.declared.entry.Entry.{Entry as EntryValue};
ghost use Rattle.gate_entries.specs.Reading.{settings_at, what_at, is_caller_of, caller_at, fields_at, whole_entry, entry_of, TellsEntry};

use crate::blocked::read_blocked;
use crate::caa_answer::read_caa;
use crate::challenge::read_challenge;
use crate::entry::{Entry, What};
use crate::fault::{EntryFault, EntryRead, FieldFault};
use crate::field::{read_counted16, read_counted32, read_u64};
use crate::kind::{Kind, read_kind};
use crate::numbered::{read_send, read_signed};
use crate::observation::read_observation;
use crate::order::read_order;
use gate_base::{Bytes, Moment};
use std::alloc::Global;

/// The most bytes that an entry takes.
const MOST_BYTES: usize = 1_114_112;

/// The entry that the bytes spell, all of the bytes; or where the first field begins that is cut off or breaks a rule.
#[tactic(auto, unfolding(crate::specs::Reading::entry_of))]
pub fn read_entry(alloc: Global, bytes: &[u8]) -> Result<Entry, EntryRead>
    ensures exact { TellsEntry (entry_of bytes.now) result }
    // What is read is spelled so.
    ensures found { IfOk result (λ entry. IsEntry entry × (bytes.now ≡ entry_bytes entry)) }
    // What is spelled so is read, unless memory runs out.
    ensures only { (entry : EntryValue) → IsEntry entry → bytes.now ≡ entry_bytes entry → TellsEntry (Ok entry) result }
{
    match read_whole(alloc, bytes) {
        Ok(entry) => Ok(entry),
        Err(FieldFault::Left(left)) => Err(EntryRead::Fault(EntryFault {
            at: (bytes.len() - left) as u64,
        })),
        Err(FieldFault::NoMemory) => Err(EntryRead::NoMemory),
    }
}

#[tactic(auto, unfolding(crate::specs::Reading::whole_entry))]
fn read_whole(alloc: Global, bytes: &[u8]) -> Result<Entry, FieldFault>
    ensures exact { Gives (λ entry. entry) result (whole_entry bytes.now) }
    ensures within { Within (λ entry. []) bytes.now result }
{
    if bytes.len() > MOST_BYTES {
        return Err(FieldFault::Left(bytes.len()));
    }
    let (entry, rest) = read_fields(alloc, bytes)?;
    if !rest.is_empty() {
        return Err(FieldFault::Left(rest.len()));
    }
    Ok(entry)
}

#[tactic(auto, unfolding(crate::specs::Reading::fields_at))]
fn read_fields(alloc: Global, bytes: &[u8]) -> Result<(Entry, &[u8]), FieldFault>
    ensures exact { Gives (λ x. (x.0, x.1.now)) result (fields_at bytes.now) }
    ensures within { Within (λ x. x.1.now) bytes.now result }
{
    let (kind, rest) = read_kind(bytes)?;
    let (number, rest) = read_u64(rest)?;
    let (moment, rest) = read_u64(rest)?;
    let (caller, rest) = read_caller(alloc, kind, rest)?;
    let (what, rest) = read_what(alloc, kind, rest)?;
    let entry = Entry {
        number,
        moment: Moment(moment),
        caller,
        what,
    };
    Ok((entry, rest))
}

#[tactic(auto, unfolding(crate::specs::Reading::caller_at))]
fn read_caller(alloc: Global, kind: Kind, bytes: &[u8]) -> Result<(Bytes, &[u8]), FieldFault>
    ensures exact { Gives (λ x. (x.0, x.1.now)) result (caller_at kind bytes.now) }
    ensures within { Within (λ x. x.1.now) bytes.now result }
{
    let (caller, rest) = read_counted16(alloc, bytes)?;
    if !is_caller_of(kind, &caller) {
        return Err(FieldFault::Left(bytes.len()));
    }
    Ok((caller, rest))
}

/// Settings are nobody's.
fn is_caller_of(kind: Kind, caller: &Bytes) -> bool
    ensures { result ≡ is_caller_of kind caller.now }
{
    match kind {
        Kind::Settings => caller.len() == 0,
        _ => true,
    }
}

#[tactic(auto, unfolding(crate::specs::Reading::what_at))]
fn read_what(alloc: Global, kind: Kind, bytes: &[u8]) -> Result<(What, &[u8]), FieldFault>
    ensures exact { Gives (λ x. (x.0, x.1.now)) result (what_at kind bytes.now) }
    ensures within { Within (λ x. x.1.now) bytes.now result }
{
    match kind {
        Kind::Settings => read_settings(alloc, bytes),
        Kind::Order => read_order(alloc, bytes),
        Kind::Challenge => read_challenge(alloc, bytes),
        Kind::Observation => read_observation(alloc, bytes),
        Kind::CaaAnswer => read_caa(alloc, bytes),
        Kind::Send => read_send(alloc, bytes),
        Kind::Signed => read_signed(alloc, bytes),
        Kind::Blocked => read_blocked(alloc, bytes),
    }
}

#[tactic(auto, unfolding(crate::specs::Reading::settings_at))]
fn read_settings(alloc: Global, bytes: &[u8]) -> Result<(What, &[u8]), FieldFault>
    ensures exact { Gives (λ x. (x.0, x.1.now)) result (settings_at bytes.now) }
    ensures within { Within (λ x. x.1.now) bytes.now result }
{
    let (settings, rest) = read_counted32(alloc, bytes)?;
    Ok((What::Settings { bytes: settings }, rest))
}
