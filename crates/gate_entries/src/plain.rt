//! Entries as plain values.
ghost use Rattle.std.specs.Prelude.{◌≡◌, ◌↔◌, IsTrue};
ghost use Rattle.gate_entries.specs.declared.entry.What.TheVariants.{Settings};

use crate::blocked::is_blocked;
use crate::caa_answer::{copied_caa, is_caa};
use crate::challenge::{copied_challenge, is_challenge};
use crate::entry::{Entry, What};
use crate::numbered::{is_send, is_signed};
use crate::observation::{copied_observation, is_observation};
use crate::order::{copied_order, is_order};
use gate_base::{Bytes, NoMemory, Plain};
use std::alloc::Global;

impl Plain for What {
    fn is_same(&self, other: &What) -> bool {
        match self {
            What::Settings { bytes } => are_settings(other, bytes),
            What::Order {
                key,
                common,
                days,
                targets,
                request,
            } => is_order(other, key, *common, *days, targets, request),
            What::Challenge {
                key,
                order,
                method,
                target,
                value,
                thumb,
            } => is_challenge(other, key, *order, *method, target, *value, thumb),
            What::Observation {
                key,
                challenge,
                seen_at,
                seen,
            } => is_observation(other, key, *challenge, *seen_at, seen),
            What::CaaAnswer {
                key,
                order,
                target,
                seen_at,
                answers,
            } => is_caa(other, key, *order, target, *seen_at, answers),
            What::Send { order, body } => is_send(other, *order, body),
            What::Signed { order, signature } => is_signed(other, *order, signature),
            What::Blocked { key, spki } => is_blocked(other, key, spki),
        }
    }

    fn copied(&self, alloc: Global) -> Result<What, NoMemory> {
        match self {
            What::Settings { bytes } => Ok(What::Settings {
                bytes: bytes.copied(alloc)?,
            }),
            What::Order {
                key,
                common,
                days,
                targets,
                request,
            } => copied_order(alloc, key, *common, *days, targets, request),
            What::Challenge {
                key,
                order,
                method,
                target,
                value,
                thumb,
            } => copied_challenge(alloc, key, *order, *method, target, *value, thumb),
            What::Observation {
                key,
                challenge,
                seen_at,
                seen,
            } => copied_observation(alloc, key, *challenge, *seen_at, seen),
            What::CaaAnswer {
                key,
                order,
                target,
                seen_at,
                answers,
            } => copied_caa(alloc, key, *order, target, *seen_at, answers),
            What::Send { order, body } => Ok(What::Send {
                order: *order,
                body: body.copied(alloc)?,
            }),
            What::Signed { order, signature } => Ok(What::Signed {
                order: *order,
                signature: signature.copied(alloc)?,
            }),
            What::Blocked { key, spki } => Ok(What::Blocked {
                key: key.copied(alloc)?,
                spki: spki.copied(alloc)?,
            }),
        }
    }
}

/// Whether what an entry says are these settings.
fn are_settings(what: &What, bytes: &Bytes) -> bool
    ensures { IsTrue result ↔ (Settings bytes.now ≡ what.now) }
{
    match what {
        What::Settings { bytes: other_bytes } => bytes.is_same(other_bytes),
        _ => false,
    }
}

impl Plain for Entry {
    fn is_same(&self, other: &Entry) -> bool {
        self.number == other.number
            && self.moment.0 == other.moment.0
            && self.caller.is_same(&other.caller)
            && self.what.is_same(&other.what)
    }

    fn copied(&self, alloc: Global) -> Result<Entry, NoMemory> {
        Ok(Entry {
            number: self.number,
            moment: self.moment,
            caller: self.caller.copied(alloc)?,
            what: self.what.copied(alloc)?,
        })
    }
}
