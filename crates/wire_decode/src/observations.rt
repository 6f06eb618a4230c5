//! What a perspective saw of a challenge.
ghost use Rattle.std.specs.Prelude.{◌≡◌, IfOk, option_map};
ghost use Rattle.serde_json.specs.View.{view};
ghost use Rattle.gate_entries.specs.Command.{HasNames};
ghost use Rattle.wire_decode.specs.Judgement.{both, judged};
ghost use Rattle.wire_decode.specs.Bodies as spec;

use crate::item::{FromItem, each_at};
use crate::judged::{Judged, both};
use crate::member::{exactly, object_of, u16_at, u64_at};
use crate::rule::Rule;
use crate::words::text_at;
use gate_base::{ByteLists, Bytes, DnsSeen, Hop, Hops, NoMemory, Seen, WebSeen};
use gate_entries::Command;
use serde_json::Value;
use std::alloc::Global;

#[tactic(auto, unfolding(crate::specs::Bodies::observation_in))]
pub fn observation_in(alloc: Global, body: &Value) -> Result<Judged<Command>, NoMemory>
    ensures exact { IfOk result (λ read. read ≡ spec.observation_in (view body.now)) }
    ensures names { IfOk result (λ read. IfOk read HasNames) }
{
    let challenge = u64_at(body, "challenge");
    let key = text_at(alloc, body, "key")?;
    let seen_at = u64_at(body, "seen_at");
    let seen = seen_in(alloc, body)?;
    let read = observation_from(challenge, key, seen_at, seen);
    Ok(exactly(body, 4, read))
}

fn observation_from(
    challenge: Judged<u64>,
    key: Judged<Bytes>,
    seen_at: Judged<u64>,
    seen: Judged<Seen>,
) -> Judged<Command>
    ensures exact { result ≡ judged spec.observation_from (both (both challenge key) (both seen_at seen)) }
    ensures names { IfOk result HasNames }
{
    observation_with(both(both(challenge, key), both(seen_at, seen)))
}

#[tactic(auto, unfolding(crate::specs::Judgement::judged))]
fn observation_with(read: Judged<((u64, Bytes), (u64, Seen))>) -> Judged<Command>
    ensures exact { result ≡ judged spec.observation_from read }
    ensures names { IfOk result HasNames }
{
    match read {
        Ok(((challenge, key), (seen_at, seen))) => Ok(Command::Observe {
            key,
            challenge,
            seen_at,
            seen,
        }),
        Err(rule) => Err(rule),
    }
}

#[tactic(auto, unfolding(crate::specs::Bodies::seen_in))]
fn seen_in(alloc: Global, body: &Value) -> Result<Judged<Seen>, NoMemory>
    ensures { IfOk result (λ read. read ≡ spec.seen_in (view body.now)) }
{
    seen_among(alloc, body.get("dns"), body.get("web"))
}

/// What was seen in the DNS or on the website, where it was one of the two.
fn seen_among(
    alloc: Global,
    dns: Option<&Value>,
    web: Option<&Value>,
) -> Result<Judged<Seen>, NoMemory>
    ensures { IfOk result (λ read. read ≡ spec.seen_among (option_map (λ v. view v.now) dns.entry) (option_map (λ v. view v.now) web.entry)) }
{
    match (dns, web) {
        (Some(dns), None) => dns_in(alloc, dns),
        (None, Some(web)) => web_in(alloc, web),
        (None, None) | (Some(_), Some(_)) => Ok(Err(Rule::W02)),
    }
}

fn dns_in(alloc: Global, value: &Value) -> Result<Judged<Seen>, NoMemory>
    ensures { IfOk result (λ read. read ≡ spec.dns_in (view value.now)) }
{
    match object_of(value) {
        Ok(members) => dns_members(alloc, members),
        Err(rule) => Ok(Err(rule)),
    }
}

#[tactic(auto, unfolding(crate::specs::Bodies::dns_members))]
fn dns_members(alloc: Global, value: &Value) -> Result<Judged<Seen>, NoMemory>
    ensures { IfOk result (λ read. read ≡ spec.dns_members (view value.now)) }
{
    let cnames = each_at::<Bytes>(alloc, value, "cnames")?;
    let prefix = text_at(alloc, value, "prefix")?;
    let txts = each_at::<Bytes>(alloc, value, "txts")?;
    let read = dns_from(cnames, prefix, txts);
    Ok(exactly(value, 3, read))
}

#[tactic(auto, unfolding(crate::specs::Judgement::judged))]
fn dns_from(
    cnames: Judged<ByteLists>,
    prefix: Judged<Bytes>,
    txts: Judged<ByteLists>,
) -> Judged<Seen>
    ensures { result ≡ judged spec.dns_from (both cnames (both prefix txts)) }
{
    let (cnames, (prefix, txts)) = both(cnames, both(prefix, txts))?;
    Ok(Seen::Dns(DnsSeen {
        prefix,
        txts,
        cnames,
    }))
}

fn web_in(alloc: Global, value: &Value) -> Result<Judged<Seen>, NoMemory>
    ensures { IfOk result (λ read. read ≡ spec.web_in (view value.now)) }
{
    match object_of(value) {
        Ok(members) => web_members(alloc, members),
        Err(rule) => Ok(Err(rule)),
    }
}

#[tactic(auto, unfolding(crate::specs::Bodies::web_members))]
fn web_members(alloc: Global, value: &Value) -> Result<Judged<Seen>, NoMemory>
    ensures { IfOk result (λ read. read ≡ spec.web_members (view value.now)) }
{
    let body = text_at(alloc, value, "body")?;
    let hops = each_at::<Hop>(alloc, value, "hops")?;
    let status = u16_at(value, "status");
    let url = text_at(alloc, value, "url")?;
    let read = web_from(body, hops, status, url);
    Ok(exactly(value, 4, read))
}

#[tactic(auto, unfolding(crate::specs::Judgement::judged))]
fn web_from(
    body: Judged<Bytes>,
    hops: Judged<Hops>,
    status: Judged<u16>,
    url: Judged<Bytes>,
) -> Judged<Seen>
    ensures { result ≡ judged spec.web_from (both (both body hops) (both status url)) }
{
    let ((body, hops), (status, url)) = both(both(body, hops), both(status, url))?;
    Ok(Seen::Web(WebSeen {
        url,
        hops,
        status,
        body,
    }))
}

fn hop_in(alloc: Global, value: &Value) -> Result<Judged<Hop>, NoMemory>
    ensures { IfOk result (λ read. read ≡ spec.hop_in (view value.now)) }
{
    match object_of(value) {
        Ok(members) => hop_members(alloc, members),
        Err(rule) => Ok(Err(rule)),
    }
}

#[tactic(auto, unfolding(crate::specs::Bodies::hop_members))]
fn hop_members(alloc: Global, value: &Value) -> Result<Judged<Hop>, NoMemory>
    ensures { IfOk result (λ read. read ≡ spec.hop_members (view value.now)) }
{
    let location = text_at(alloc, value, "location")?;
    let read = hop_from(location, u16_at(value, "status"));
    Ok(exactly(value, 2, read))
}

#[tactic(auto, unfolding(crate::specs::Judgement::judged))]
fn hop_from(location: Judged<Bytes>, status: Judged<u16>) -> Judged<Hop>
    ensures { result ≡ judged spec.hop_from (both location status) }
{
    let (location, status) = both(location, status)?;
    Ok(Hop { status, location })
}

impl FromItem for Hop {
    ghost use Rattle.wire_decode.specs.Bodies.{hop_in};

    ghost item_in = { hop_in };

    ghost IsItem = { λ _. Unit {0} };

    fn from_item(alloc: Global, value: &Value) -> Result<Judged<Hop>, NoMemory> {
        hop_in(alloc, value)
    }
}
