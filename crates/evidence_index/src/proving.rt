//! Evidence of an account's control of a target.
ghost use Rattle.std.specs.Prelude.{◌≡◌, map, IfOk};
ghost use Rattle.std.specs.List.{list_any};
ghost use Rattle.evidence_index.specs.Evidence as spec;
ghost use Rattle.evidence_index.specs.Lookups.{settings_at};
ghost use Rattle.evidence_index.specs.Noting.{AreSound};

use crate::evidence::{Evidence, evidence_why};
use crate::lookups::{challenge_of, is_by, primary_of, seen_at_in, settings_at};
use domain_methods::{Challenge, Verdict, confirms, covers};
use gate_base::{Moment, NoMemory, Target};
use gate_entries::{Entry, What, Why};
use gate_settings::Settings;
use names_core::Suffixes;
use perspectives::{Panel, Quorum, quorum};
use std::alloc::Global;

/// What a remote perspective saw corroborates if it was seen within so many seconds of what the primary saw.
const NEAR_SECONDS: u64 = 3_600;

fn is_good(verdict: Verdict) -> bool
    ensures { result ≡ spec.is_good verdict }
{
    match verdict {
        Verdict::Good => true,
        Verdict::Broken(_) => false,
    }
}

/// Whether it is an observation that confirms the challenge.
fn confirms_challenge(alloc: Global, c: &Challenge, what: &What) -> Result<bool, NoMemory>
    ensures { IfOk result (λ is. is ≡ spec.confirms c.now what.now) }
{
    match what {
        What::Observation {
            challenge,
            seen_at,
            seen,
            ..
        } => {
            if *challenge != c.number {
                return Ok(false);
            }
            let verdict = confirms(alloc, c, seen, Moment(*seen_at))?;
            Ok(is_good(verdict))
        }
        _ => Ok(false),
    }
}

fn is_good_by(alloc: Global, id: &[u8], c: &Challenge, entry: &Entry) -> Result<bool, NoMemory>
    ensures { IfOk result (λ is. is ≡ spec.is_good_by id.now c.now entry.now) }
{
    if is_by(id, entry) {
        confirms_challenge(alloc, c, &entry.what)
    } else {
        Ok(false)
    }
}

fn is_near(a: u64, b: u64) -> bool
    ensures { result ≡ spec.is_near a b }
{
    if a <= b {
        b - a <= NEAR_SECONDS
    } else {
        a - b <= NEAR_SECONDS
    }
}

/// Whether the perspective with this id saw what confirms the challenge within an hour of the moment.
fn corroborates(
    alloc: Global,
    entries: &[Entry],
    c: &Challenge,
    seen_at: u64,
    id: &[u8],
) -> Result<bool, NoMemory>
    ensures { IfOk result (λ is. is ≡ list_any (spec.is_near seen_at) (spec.good_times id.now c.now entries.now)) }
{
    let mut rest = entries;
    while let [entry, others @ ..] = rest {
        let good = is_good_by(alloc, id, c, entry)?;
        if good && is_near(seen_at, seen_at_in(&entry.what)) {
            return Ok(true);
        }
        rest = others;
    }
    Ok(false)
}

/// Of each member of the panel, whether it corroborates.
fn corroborating(
    alloc: Global,
    entries: &[Entry],
    c: &Challenge,
    seen_at: u64,
    panel: &Panel,
) -> Result<Vec<bool>, NoMemory>
    ensures { IfOk result (λ good. good.items ≡ map (spec.corroborates c.now seen_at entries.now) panel.now) }
{
    let mut good = Vec::new(alloc);
    for place in 0..panel.len() {
        if let Some(member) = panel.member(place) {
            let is_good = corroborates(alloc, entries, c, seen_at, member.id.as_slice())?;
            good.push(is_good)?;
        }
    }
    Ok(good)
}

/// What the panel says of a challenge that its primary saw confirmed.
fn corroboration(
    alloc: Global,
    entries: &[Entry],
    c: &Challenge,
    seen_at: u64,
    panel: &Panel,
) -> Result<Quorum, NoMemory>
    ensures { IfOk result (λ said. said ≡ spec.corroboration panel.now c.now seen_at entries.now) }
{
    let good = corroborating(alloc, entries, c, seen_at, panel)?;
    Ok(quorum(panel, good.as_slice(), Moment(seen_at)))
}

fn is_by_primary(panel: &Panel, entry: &Entry) -> bool
    ensures { result ≡ spec.is_by_primary panel.now entry.now }
{
    is_by(primary_of(panel).id.as_slice(), entry)
}

/// What confirms a challenge, as evidence under the settings in force.
fn evidence_under(
    alloc: Global,
    entries: &[Entry],
    c: &Challenge,
    entry: &Entry,
) -> Result<Option<Evidence>, NoMemory>
    requires { AreSound entries.now }
    ensures { IfOk result (λ found. found ≡ spec.evidence_under (settings_at entry.now.number entries.now) c.now entries.now entry.now) }
{
    let Some(settings) = settings_at(alloc, entries, entry.number)? else {
        return Ok(None);
    };
    if !is_by_primary(&settings.panel, entry) {
        return Ok(None);
    }
    let seen_at = seen_at_in(&entry.what);
    let quorum = corroboration(alloc, entries, c, seen_at, &settings.panel)?;
    Ok(Some(Evidence {
        seen_at: Moment(seen_at),
        quorum,
    }))
}

fn is_shown(
    alloc: Global,
    c: &Challenge,
    target: &Target,
    suffixes: &Suffixes,
    entry: &Entry,
) -> Result<bool, NoMemory>
    ensures { IfOk result (λ is. is ≡ spec.is_shown c.now target.now suffixes.now entry.now) }
{
    if covers(c.method, &c.target, target, suffixes) {
        confirms_challenge(alloc, c, &entry.what)
    } else {
        Ok(false)
    }
}

/// What an entry is worth as evidence of the account's control of the target.
fn evidence_in(
    alloc: Global,
    entries: &[Entry],
    account: &[u8],
    target: &Target,
    suffixes: &Suffixes,
    entry: &Entry,
) -> Result<Option<Evidence>, NoMemory>
    requires { AreSound entries.now }
    ensures { IfOk result (λ found. found ≡ spec.evidence_in account.now target.now suffixes.now entries.now entry.now) }
{
    let What::Observation { challenge, .. } = &entry.what else {
        return Ok(None);
    };
    let Some(c) = challenge_of(alloc, entries, account, *challenge)? else {
        return Ok(None);
    };
    if is_shown(alloc, &c, target, suffixes, entry)? {
        evidence_under(alloc, entries, &c, entry)
    } else {
        Ok(None)
    }
}

/// All the evidence of the account's control of the target.
fn all_evidence(
    alloc: Global,
    entries: &[Entry],
    account: &[u8],
    target: &Target,
    suffixes: &Suffixes,
) -> Result<Vec<Evidence>, NoMemory>
    requires { AreSound entries.now }
    ensures { IfOk result (λ found. found.items ≡ spec.all_evidence account.now target.now suffixes.now entries.now) }
{
    let mut found = Vec::new(alloc);
    let mut rest = entries;
    while let [entry, others @ ..] = rest {
        if let Some(evidence) = evidence_in(alloc, entries, account, target, suffixes, entry)? {
            found.push(evidence)?;
        }
        rest = others;
    }
    Ok(found)
}

/// Why the account's control of the target isn't proved.
pub fn proof_why(
    alloc: Global,
    entries: &[Entry],
    account: &[u8],
    target: &Target,
    now: &Settings,
    m: Moment,
) -> Result<Option<Why>, NoMemory>
    requires { AreSound entries.now }
    ensures { IfOk result (λ why. why ≡ spec.proof_why now.now account.now target.now m.0 entries.now) }
{
    let found = all_evidence(alloc, entries, account, target, &now.suffixes)?;
    evidence_why(alloc, target, m, found.as_slice())
}
