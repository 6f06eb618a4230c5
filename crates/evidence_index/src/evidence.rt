//! Evidence of control of a target, and whether it proves that control.
ghost use Rattle.std.specs.Prelude.{◌≡◌, Option, Some, None, IfOk, option_map, slice_get, length, ◌-◌};
ghost use Rattle.std.specs.List.{fold};
ghost use Rattle.evidence_index.specs.Evidence as spec;

use gate_base::{Moment, NoMemory, Plain, Target, reuse_days};
use gate_entries::Why;
use perspectives::Quorum;
use std::alloc::Global;

/// What the primary perspective saw that confirms a challenge.
#[derive(Clone, Copy, Debug)]
pub struct Evidence {
    pub seen_at: Moment,
    /// Whether the remote perspectives corroborate it.
    pub quorum: Quorum,
}

/// How many seconds a day has.
const DAY_SECONDS: u64 = 86_400;

fn is_met(quorum: Quorum) -> bool
    ensures { result ≡ spec.is_met quorum }
{
    match quorum {
        Quorum::Met => true,
        Quorum::TooFew { .. } | Quorum::OneRegion => false,
    }
}

fn later(latest: Option<u64>, seen_at: u64) -> u64
    ensures { result ≡ spec.later latest seen_at }
{
    match latest {
        Some(latest) => latest.max(seen_at),
        None => seen_at,
    }
}

/// When the newest evidence that is corroborated was seen.
fn newest_proved(evidence: &[Evidence]) -> Option<u64>
    ensures { result ≡ spec.newest (spec.proved evidence.now) }
{
    let mut newest = None;
    let mut rest = evidence;
    while let [first, others @ ..] = rest {
        if is_met(first.quorum) {
            newest = Some(later(newest, first.seen_at.0));
        }
        rest = others;
    }
    newest
}

/// Whether it was seen too long ago to be used again.
fn is_old(m: Moment, seen_at: u64) -> bool
    ensures { result ≡ spec.is_old m.0 seen_at }
{
    m.0 > seen_at && m.0 - seen_at > reuse_days(m) * DAY_SECONDS
}

fn corroboration_why(
    alloc: Global,
    target: &Target,
    quorum: Quorum,
) -> Result<Option<Why>, NoMemory>
    ensures { IfOk result (λ why. why ≡ spec.corroboration_why target.now quorum) }
{
    match quorum {
        Quorum::Met => Ok(None),
        Quorum::TooFew { good, needed } => Ok(Some(Why::ProofTooFew {
            target: target.copied(alloc)?,
            good,
            needed,
        })),
        Quorum::OneRegion => Ok(Some(Why::ProofOneRegion {
            target: target.copied(alloc)?,
        })),
    }
}

fn age_why(alloc: Global, target: &Target, m: Moment, seen_at: u64) -> Result<Option<Why>, NoMemory>
    ensures { IfOk result (λ why. why ≡ spec.age_why target.now m.0 seen_at) }
{
    if is_old(m, seen_at) {
        Ok(Some(Why::ProofOld {
            target: target.copied(alloc)?,
            seen_at: Moment(seen_at),
        }))
    } else {
        Ok(None)
    }
}

/// Why the evidence doesn't prove control of the target.
pub fn evidence_why(
    alloc: Global,
    target: &Target,
    m: Moment,
    evidence: &[Evidence],
) -> Result<Option<Why>, NoMemory>
    ensures { IfOk result (λ why. why ≡ spec.evidence_why target.now m.0 evidence.now) }
{
    let Some(last) = evidence.last() else {
        return Ok(Some(Why::NoProof {
            target: target.copied(alloc)?,
        }));
    };
    match newest_proved(evidence) {
        Some(seen_at) => age_why(alloc, target, m, seen_at),
        None => corroboration_why(alloc, target, last.quorum),
    }
}
