//! What the CAA records that the perspectives saw permit.
ghost use Rattle.std.specs.Prelude.{◌≡◌, ◌<◌, ◌^◌, map, option_copied, is_none, IfOk};
ghost use Rattle.caa_climb.specs.Climb.{relevant_of};
ghost use Rattle.evidence_index.specs.Caa as spec;
ghost use Rattle.evidence_index.specs.Caa.{latest_caa};
ghost use Rattle.evidence_index.specs.Noting.{AreSound, IsEarly};

use crate::lookups::{is_by, primary_of};
use caa_climb::{Climb, Permission, climb, fresh_until, permission};
use gate_base::{Address, ByteLists, Bytes, CaaRows, Moment, Name, NoMemory, Plain, Target};
use gate_entries::{Entry, What, Why};
use gate_settings::Settings;
use perspectives::{Panel, Quorum, quorum};
use std::alloc::Global;

fn is_same_truth(a: bool, b: bool) -> bool
    ensures { result ≡ spec.is_same_truth a b }
{
    if a { b } else { !b }
}

fn is_same_address(a: &Address, b: &Address) -> bool
    ensures { result ≡ spec.is_same_address a.now b.now }
{
    match (a, b) {
        (Address::V4(a), Address::V4(b)) => a == b,
        (Address::V6(a), Address::V6(b)) => a == b,
        (Address::V4(_), Address::V6(_)) | (Address::V6(_), Address::V4(_)) => false,
    }
}

fn is_same_target(a: &Target, b: &Target) -> bool
    ensures { result ≡ spec.is_same_target a.now b.now }
{
    match (a, b) {
        (Target::Dns(a), Target::Dns(b)) => is_same_truth(a.wild, b.wild) && a.labels == b.labels,
        (Target::Ip(a), Target::Ip(b)) => is_same_address(a, b),
        (Target::Dns(_), Target::Ip(_)) | (Target::Ip(_), Target::Dns(_)) => false,
    }
}

fn is_caa_for(number: u64, wanted: &Target, what: &What) -> bool
    ensures { result ≡ spec.is_caa_for number wanted.now what.now }
{
    match what {
        What::CaaAnswer { order, target, .. } => *order == number && is_same_target(target, wanted),
        _ => false,
    }
}

/// The entry with the latest answers that the perspective of this id has for a target of the order.
fn latest_caa<'a>(entries: &'a [Entry], id: &[u8], order: u64, target: &Target) -> Option<&'a Entry>
    ensures { option_copied result ≡ latest_caa id.now order target.now entries.now }
{
    entries.iter().rev().find(|entry| is_by(id, entry) && is_caa_for(order, target, &entry.what))
}

fn tag_at(alloc: Global, rows: &CaaRows, place: u64) -> Result<Bytes, NoMemory>
    ensures { IfOk result (λ tag. tag ≡ spec.tag_at rows.now place) }
{
    match rows.get(place as usize) {
        Some(row) => row.tag.copied(alloc),
        None => Ok(Bytes::new(alloc)),
    }
}

fn permission_why(
    alloc: Global,
    target: &Target,
    drop: u64,
    rows: &CaaRows,
    permission: Permission,
) -> Result<Option<Why>, NoMemory>
    ensures { IfOk result (λ why. why ≡ spec.permission_why target.now drop rows.now permission) }
{
    match permission {
        Permission::Allowed => Ok(None),
        Permission::Denied => Ok(Some(Why::CaaDenied {
            target: target.copied(alloc)?,
            drop,
        })),
        Permission::Critical { row } => Ok(Some(Why::CaaCritical {
            target: target.copied(alloc)?,
            tag: tag_at(alloc, rows, row)?,
        })),
    }
}

fn unknown_why(alloc: Global, target: &Target, drop: u64) -> Result<Option<Why>, NoMemory>
    ensures { IfOk result (λ why. why ≡ spec.unknown_why target.now drop) }
{
    Ok(Some(Why::CaaUnknown {
        target: target.copied(alloc)?,
        drop,
    }))
}

/// What is asked of the answers for a name of an order.
#[derive(Clone, Copy)]
struct Question<'a> {
    order: u64,
    target: &'a Target,
    name: &'a Name,
    /// The names under which the authority is known in CAA records.
    issuers: &'a ByteLists,
    moment: Moment,
}

/// What the relevant records say, apart from their age.
fn records_why(
    alloc: Global,
    q: &Question<'_>,
    climbed: &Climb<'_>,
) -> Result<Option<Why>, NoMemory>
    ensures { IfOk result (λ why. why ≡ spec.records_why q.now.target.now q.now.name.now q.now.issuers.now (relevant_of climbed.now)) }
{
    match climbed {
        Climb::Found { drop, rows, .. } => {
            let permitted = permission(rows, q.name.wild, q.issuers);
            permission_why(alloc, q.target, *drop, rows, permitted)
        }
        Climb::Empty => Ok(None),
        Climb::Unknown { drop } => unknown_why(alloc, q.target, *drop),
    }
}

/// What they say, unless they are too old.
fn fresh_why(
    alloc: Global,
    q: &Question<'_>,
    seen_at: u64,
    climbed: &Climb<'_>,
) -> Result<Option<Why>, NoMemory>
    requires { seen_at < 2 ^ 40 }
    ensures { IfOk result (λ why. why ≡ spec.fresh_why q.now.target.now q.now.name.now q.now.issuers.now q.now.moment.0 seen_at (relevant_of climbed.now)) }
{
    let until = fresh_until(climbed, Moment(seen_at));
    if until.0 < q.moment.0 {
        return Ok(Some(Why::CaaOld {
            target: q.target.copied(alloc)?,
            until,
        }));
    }
    records_why(alloc, q, climbed)
}

/// What they say, unless a question was not answered.
fn climb_why(
    alloc: Global,
    q: &Question<'_>,
    seen_at: u64,
    climbed: &Climb<'_>,
) -> Result<Option<Why>, NoMemory>
    requires { seen_at < 2 ^ 40 }
    ensures { IfOk result (λ why. why ≡ spec.climb_why q.now.target.now q.now.name.now q.now.issuers.now q.now.moment.0 seen_at (relevant_of climbed.now)) }
{
    match climbed {
        Climb::Unknown { drop } => unknown_why(alloc, q.target, *drop),
        Climb::Found { .. } | Climb::Empty => fresh_why(alloc, q, seen_at, climbed),
    }
}

fn missing_why(alloc: Global, target: &Target) -> Result<Option<Why>, NoMemory>
    ensures { IfOk result (λ why. why ≡ spec.missing_why target.now) }
{
    Ok(Some(Why::CaaMissing {
        target: target.copied(alloc)?,
    }))
}

fn answers_why(alloc: Global, q: &Question<'_>, what: &What) -> Result<Option<Why>, NoMemory>
    requires { IsEarly what.now }
    ensures { IfOk result (λ why. why ≡ spec.answers_why q.now.target.now q.now.name.now q.now.issuers.now q.now.moment.0 what.now) }
{
    match what {
        What::CaaAnswer {
            seen_at,
            answers,
            ..
        } => {
            let climbed = climb(answers, q.name);
            climb_why(alloc, q, *seen_at, &climbed)
        }
        _ => missing_why(alloc, q.target),
    }
}

/// Why the latest answers of the perspective with this id don't permit issuance.
#[tactic(auto, using(crate::proofs::Found::found_early))]
fn perspective_why(
    alloc: Global,
    entries: &[Entry],
    q: &Question<'_>,
    id: &[u8],
) -> Result<Option<Why>, NoMemory>
    requires { AreSound entries.now }
    ensures { IfOk result (λ why. why ≡ spec.latest_why q.now.target.now q.now.name.now q.now.issuers.now q.now.moment.0
        (latest_caa id.now q.now.order q.now.target.now entries.now)) }
{
    match latest_caa(entries, id, q.order, q.target) {
        Some(entry) => answers_why(alloc, q, &entry.what),
        None => missing_why(alloc, q.target),
    }
}

/// Whether the latest answers of the perspective with this id permit issuance.
fn permits(alloc: Global, entries: &[Entry], q: &Question<'_>, id: &[u8]) -> Result<bool, NoMemory>
    requires { AreSound entries.now }
    ensures { IfOk result (λ is. is ≡ is_none (spec.latest_why q.now.target.now q.now.name.now q.now.issuers.now q.now.moment.0
        (latest_caa id.now q.now.order q.now.target.now entries.now))) }
{
    let why = perspective_why(alloc, entries, q, id)?;
    Ok(why.is_none())
}

/// Of each member of the panel, whether its latest answers permit issuance.
fn permitting(
    alloc: Global,
    entries: &[Entry],
    q: &Question<'_>,
    panel: &Panel,
) -> Result<Vec<bool>, NoMemory>
    requires { AreSound entries.now }
    ensures { IfOk result (λ good. good.items ≡ map (spec.permits q.now.issuers.now q.now.order q.now.target.now q.now.name.now q.now.moment.0 entries.now) panel.now) }
{
    let mut good = Vec::new(alloc);
    for place in 0..panel.len() {
        if let Some(member) = panel.member(place) {
            let is_good = permits(alloc, entries, q, member.id.as_slice())?;
            good.push(is_good)?;
        }
    }
    Ok(good)
}

fn panel_why(alloc: Global, target: &Target, quorum: Quorum) -> Result<Option<Why>, NoMemory>
    ensures { IfOk result (λ why. why ≡ spec.panel_why target.now quorum) }
{
    match quorum {
        Quorum::Met => Ok(None),
        Quorum::TooFew { good, needed } => Ok(Some(Why::CaaTooFew {
            target: target.copied(alloc)?,
            good,
            needed,
        })),
        Quorum::OneRegion => Ok(Some(Why::CaaOneRegion {
            target: target.copied(alloc)?,
        })),
    }
}

/// Why a name's CAA records don't permit issuance.
fn name_why(
    alloc: Global,
    entries: &[Entry],
    q: &Question<'_>,
    panel: &Panel,
) -> Result<Option<Why>, NoMemory>
    requires { AreSound entries.now }
    ensures { IfOk result (λ why. why ≡ spec.name_why q.now.issuers.now q.now.order q.now.target.now q.now.name.now q.now.moment.0 entries.now panel.now) }
{
    let primary = perspective_why(alloc, entries, q, primary_of(panel).id.as_slice())?;
    if primary.is_some() {
        return Ok(primary);
    }
    let good = permitting(alloc, entries, q, panel)?;
    panel_why(alloc, q.target, quorum(panel, good.as_slice(), q.moment))
}

/// Why the CAA records don't permit issuance for a target of the order.
pub fn caa_why(
    alloc: Global,
    entries: &[Entry],
    order: u64,
    target: &Target,
    now: &Settings,
    m: Moment,
) -> Result<Option<Why>, NoMemory>
    requires { AreSound entries.now }
    ensures { IfOk result (λ why. why ≡ spec.caa_why now.now order target.now m.0 entries.now) }
{
    match target {
        Target::Dns(name) => {
            let q = Question {
                order,
                target,
                name,
                issuers: &now.issuers,
                moment: m,
            };
            name_why(alloc, entries, &q, &now.panel)
        }
        Target::Ip(_) => Ok(None),
    }
}
