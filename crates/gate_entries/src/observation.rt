//! Observations in the journal.
ghost use Rattle.std.specs.Prelude.{◌≡◌, ◌++◌, IsTrue, ◌↔◌, IfOk, OnOk};
ghost use Rattle.gate_entries.specs.declared.entry.What.TheVariants.{Observation};
ghost use Rattle.gate_entries.specs.Field.{Gives, Within};
ghost use Rattle.gate_entries.specs.Observation.{observation_bytes, IsObservation, observation_at};

use crate::entry::What;
use crate::fault::FieldFault;
use crate::field::{Field, put_counted8, put_u64, read_counted8, read_u64};
use gate_base::{Bytes, NoMemory, Plain, Seen};
use std::alloc::Global;

pub fn put_observation(
    key: &Bytes,
    challenge: u64,
    seen_at: u64,
    seen: &Seen,
    out: &mut Vec<u8>,
) -> Result<(), NoMemory>
    requires { IsObservation key.now challenge seen_at seen.now }
    ensures { OnOk result (out.new.items ≡ out.old.items ++ observation_bytes key.now challenge seen_at seen.now) }
{
    put_counted8(key, out)?;
    put_u64(challenge, out)?;
    put_u64(seen_at, out)?;
    seen.put(out)
}

#[tactic(auto, unfolding(crate::specs::Observation::observation_at))]
pub fn read_observation(alloc: Global, bytes: &[u8]) -> Result<(What, &[u8]), FieldFault>
    ensures exact { Gives (λ x. (x.0, x.1.now)) result (observation_at bytes.now) }
    ensures within { Within (λ x. x.1.now) bytes.now result }
{
    let (key, rest) = read_counted8(alloc, bytes)?;
    let (challenge, rest) = read_u64(rest)?;
    let (seen_at, rest) = read_u64(rest)?;
    let (seen, rest) = Seen::read(alloc, rest)?;
    let observation = What::Observation {
        key,
        challenge,
        seen_at,
        seen,
    };
    Ok((observation, rest))
}

pub fn copied_observation(
    alloc: Global,
    key: &Bytes,
    challenge: u64,
    seen_at: u64,
    seen: &Seen,
) -> Result<What, NoMemory>
    ensures { IfOk result (λ what. what ≡ Observation key.now challenge seen_at seen.now) }
{
    Ok(What::Observation {
        key: key.copied(alloc)?,
        challenge,
        seen_at,
        seen: seen.copied(alloc)?,
    })
}

/// Whether what an entry says is this observation.
pub fn is_observation(what: &What, key: &Bytes, challenge: u64, seen_at: u64, seen: &Seen) -> bool
    ensures { IsTrue result ↔ (Observation key.now challenge seen_at seen.now ≡ what.now) }
{
    match what {
        What::Observation {
            key: other_key,
            challenge: other_challenge,
            seen_at: other_seen_at,
            seen: other_seen,
        } => {
            challenge == *other_challenge
                && seen_at == *other_seen_at
                && key.is_same(other_key)
                && seen.is_same(other_seen)
        }
        _ => false,
    }
}
