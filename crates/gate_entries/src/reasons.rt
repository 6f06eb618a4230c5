//! Reasons as plain values.
ghost use Rattle.std.specs.Prelude.{◌≡◌, ◌↔◌, IsTrue};
ghost use Rattle.gate_entries.specs.declared.reply.Why.TheVariants as whys;

use crate::reply::Why;
use gate_base::{Bytes, Moment, NoMemory, Plain, Target};
use std::alloc::Global;

impl Plain for Why {
    fn is_same(&self, other: &Why) -> bool {
        match self {
            Why::KeyBlocked { number } => is_key_blocked(other, *number),
            Why::NoProof { target } => is_no_proof(other, target),
            Why::ProofTooFew {
                target,
                good,
                needed,
            } => is_proof_too_few(other, target, *good, *needed),
            Why::ProofOneRegion { target } => is_proof_one_region(other, target),
            Why::ProofOld { target, seen_at } => is_proof_old(other, target, *seen_at),
            Why::CaaMissing { target } => is_caa_missing(other, target),
            Why::CaaUnknown { target, drop } => is_caa_unknown(other, target, *drop),
            Why::CaaOld { target, until } => is_caa_old(other, target, *until),
            Why::CaaCritical { target, tag } => is_caa_critical(other, target, tag),
            Why::CaaDenied { target, drop } => is_caa_denied(other, target, *drop),
            Why::CaaTooFew {
                target,
                good,
                needed,
            } => is_caa_too_few(other, target, *good, *needed),
            Why::CaaOneRegion { target } => is_caa_one_region(other, target),
        }
    }

    fn copied(&self, alloc: Global) -> Result<Why, NoMemory> {
        match self {
            Why::KeyBlocked { number } => Ok(Why::KeyBlocked { number: *number }),
            Why::NoProof { target } => Ok(Why::NoProof {
                target: target.copied(alloc)?,
            }),
            Why::ProofTooFew {
                target,
                good,
                needed,
            } => Ok(Why::ProofTooFew {
                target: target.copied(alloc)?,
                good: *good,
                needed: *needed,
            }),
            Why::ProofOneRegion { target } => Ok(Why::ProofOneRegion {
                target: target.copied(alloc)?,
            }),
            Why::ProofOld { target, seen_at } => Ok(Why::ProofOld {
                target: target.copied(alloc)?,
                seen_at: *seen_at,
            }),
            Why::CaaMissing { target } => Ok(Why::CaaMissing {
                target: target.copied(alloc)?,
            }),
            Why::CaaUnknown { target, drop } => Ok(Why::CaaUnknown {
                target: target.copied(alloc)?,
                drop: *drop,
            }),
            Why::CaaOld { target, until } => Ok(Why::CaaOld {
                target: target.copied(alloc)?,
                until: *until,
            }),
            Why::CaaCritical { target, tag } => Ok(Why::CaaCritical {
                target: target.copied(alloc)?,
                tag: tag.copied(alloc)?,
            }),
            Why::CaaDenied { target, drop } => Ok(Why::CaaDenied {
                target: target.copied(alloc)?,
                drop: *drop,
            }),
            Why::CaaTooFew {
                target,
                good,
                needed,
            } => Ok(Why::CaaTooFew {
                target: target.copied(alloc)?,
                good: *good,
                needed: *needed,
            }),
            Why::CaaOneRegion { target } => Ok(Why::CaaOneRegion {
                target: target.copied(alloc)?,
            }),
        }
    }
}

fn is_key_blocked(why: &Why, number: u64) -> bool
    ensures { IsTrue result ↔ (whys.KeyBlocked number ≡ why.now) }
{
    match why {
        Why::KeyBlocked {
            number: other_number,
        } => number == *other_number,
        _ => false,
    }
}

fn is_no_proof(why: &Why, target: &Target) -> bool
    ensures { IsTrue result ↔ (whys.NoProof target.now ≡ why.now) }
{
    match why {
        Why::NoProof {
            target: other_target,
        } => target.is_same(other_target),
        _ => false,
    }
}

fn is_proof_too_few(why: &Why, target: &Target, good: u64, needed: u64) -> bool
    ensures { IsTrue result ↔ (whys.ProofTooFew target.now good needed ≡ why.now) }
{
    match why {
        Why::ProofTooFew {
            target: other_target,
            good: other_good,
            needed: other_needed,
        } => good == *other_good && needed == *other_needed && target.is_same(other_target),
        _ => false,
    }
}

fn is_proof_one_region(why: &Why, target: &Target) -> bool
    ensures { IsTrue result ↔ (whys.ProofOneRegion target.now ≡ why.now) }
{
    match why {
        Why::ProofOneRegion {
            target: other_target,
        } => target.is_same(other_target),
        _ => false,
    }
}

fn is_proof_old(why: &Why, target: &Target, seen_at: Moment) -> bool
    ensures { IsTrue result ↔ (whys.ProofOld target.now seen_at ≡ why.now) }
{
    match why {
        Why::ProofOld {
            target: other_target,
            seen_at: other_seen_at,
        } => seen_at.0 == other_seen_at.0 && target.is_same(other_target),
        _ => false,
    }
}

fn is_caa_missing(why: &Why, target: &Target) -> bool
    ensures { IsTrue result ↔ (whys.CaaMissing target.now ≡ why.now) }
{
    match why {
        Why::CaaMissing {
            target: other_target,
        } => target.is_same(other_target),
        _ => false,
    }
}

fn is_caa_unknown(why: &Why, target: &Target, drop: u64) -> bool
    ensures { IsTrue result ↔ (whys.CaaUnknown target.now drop ≡ why.now) }
{
    match why {
        Why::CaaUnknown {
            target: other_target,
            drop: other_drop,
        } => drop == *other_drop && target.is_same(other_target),
        _ => false,
    }
}

fn is_caa_old(why: &Why, target: &Target, until: Moment) -> bool
    ensures { IsTrue result ↔ (whys.CaaOld target.now until ≡ why.now) }
{
    match why {
        Why::CaaOld {
            target: other_target,
            until: other_until,
        } => until.0 == other_until.0 && target.is_same(other_target),
        _ => false,
    }
}

fn is_caa_critical(why: &Why, target: &Target, tag: &Bytes) -> bool
    ensures { IsTrue result ↔ (whys.CaaCritical target.now tag.now ≡ why.now) }
{
    match why {
        Why::CaaCritical {
            target: other_target,
            tag: other_tag,
        } => target.is_same(other_target) && tag.is_same(other_tag),
        _ => false,
    }
}

fn is_caa_denied(why: &Why, target: &Target, drop: u64) -> bool
    ensures { IsTrue result ↔ (whys.CaaDenied target.now drop ≡ why.now) }
{
    match why {
        Why::CaaDenied {
            target: other_target,
            drop: other_drop,
        } => drop == *other_drop && target.is_same(other_target),
        _ => false,
    }
}

fn is_caa_too_few(why: &Why, target: &Target, good: u64, needed: u64) -> bool
    ensures { IsTrue result ↔ (whys.CaaTooFew target.now good needed ≡ why.now) }
{
    match why {
        Why::CaaTooFew {
            target: other_target,
            good: other_good,
            needed: other_needed,
        } => good == *other_good && needed == *other_needed && target.is_same(other_target),
        _ => false,
    }
}

fn is_caa_one_region(why: &Why, target: &Target) -> bool
    ensures { IsTrue result ↔ (whys.CaaOneRegion target.now ≡ why.now) }
{
    match why {
        Why::CaaOneRegion {
            target: other_target,
        } => target.is_same(other_target),
        _ => false,
    }
}
