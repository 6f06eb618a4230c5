//! What a perspective saw, as fields of an entry.
ghost use Rattle.std.specs.Prelude.{◌≡◌, ◌<◌, ◌≤◌, ◌^◌, ◌++◌, ◌↔◌, length, IsTrue, OnOk};
ghost use Rattle.std.specs.List.{AllByRecursion};
ghost use Rattle.gate_entries.specs.Field.{AreItems, Gives, Within};
ghost use Rattle.gate_entries.specs.Observation.{hop_bytes, dns_bytes, web_bytes, seen_bytes, IsText, IsHop, IsDnsSeen, IsWebSeen, IsSeen, hop_at, dns_at, web_at, seen_at};

use crate::fault::FieldFault;
use crate::field::{
    Field, MOST_COUNTED8, MOST_COUNTED16, put_counted8, put_counted16, read_counted8,
    read_counted16, read_u16,
};
use crate::list::{list_len, put_list, read_list};
use gate_base::{ByteLists, Bytes, DnsSeen, Hop, Hops, NoMemory, Seen, WebSeen};
use std::alloc::Global;

impl Field for Hop {
    ghost spelling = { hop_bytes };

    ghost HasSpelling = { IsHop };

    ghost reading = { hop_at };

    fn put(&self, out: &mut Vec<u8>) -> Result<(), NoMemory> {
        out.extend_from_slice(&self.status.to_be_bytes())?;
        put_counted16(&self.location, out)
    }

    #[tactic(auto, unfolding(crate::specs::Observation::hop_at))]
    fn read(alloc: Global, bytes: &[u8]) -> Result<(Hop, &[u8]), FieldFault> {
        let (status, rest) = read_u16(bytes)?;
        let (location, rest) = read_counted16(alloc, rest)?;
        Ok((Hop { status, location }, rest))
    }

    fn len(&self) -> u64 {
        4 + self.location.len() as u64
    }
}

impl Field for Seen {
    ghost spelling = { seen_bytes };

    ghost HasSpelling = { IsSeen };

    ghost reading = { seen_at };

    fn put(&self, out: &mut Vec<u8>) -> Result<(), NoMemory> {
        match self {
            Seen::Dns(seen) => {
                out.push(1)?;
                put_dns(seen, out)
            }
            Seen::Web(seen) => {
                out.push(2)?;
                put_web(seen, out)
            }
        }
    }

    #[tactic(auto, unfolding(crate::specs::Observation::seen_at))]
    fn read(alloc: Global, bytes: &[u8]) -> Result<(Seen, &[u8]), FieldFault> {
        match bytes {
            [] => Err(FieldFault::Left(0)),
            [1, rest @ ..] => read_dns(alloc, rest),
            [2, rest @ ..] => read_web(alloc, rest),
            [_, ..] => Err(FieldFault::Left(bytes.len())),
        }
    }

    fn len(&self) -> u64 {
        match self {
            Seen::Dns(seen) => 1 + dns_len(seen),
            Seen::Web(seen) => 1 + web_len(seen),
        }
    }
}

fn put_dns(seen: &DnsSeen, out: &mut Vec<u8>) -> Result<(), NoMemory>
    requires { IsDnsSeen seen.now }
    ensures { OnOk result (out.new.items ≡ out.old.items ++ dns_bytes seen.now) }
{
    put_counted8(&seen.prefix, out)?;
    put_list(&seen.txts, out)?;
    put_list(&seen.cnames, out)
}

fn put_web(seen: &WebSeen, out: &mut Vec<u8>) -> Result<(), NoMemory>
    requires { IsWebSeen seen.now }
    ensures { OnOk result (out.new.items ≡ out.old.items ++ web_bytes seen.now) }
{
    put_counted16(&seen.url, out)?;
    put_list(&seen.hops, out)?;
    out.extend_from_slice(&seen.status.to_be_bytes())?;
    put_counted16(&seen.body, out)
}

#[tactic(auto, unfolding(crate::specs::Observation::dns_at))]
fn read_dns(alloc: Global, bytes: &[u8]) -> Result<(Seen, &[u8]), FieldFault>
    ensures exact { Gives (λ x. (x.0, x.1.now)) result (dns_at bytes.now) }
    ensures within { Within (λ x. x.1.now) bytes.now result }
{
    let (prefix, rest) = read_counted8(alloc, bytes)?;
    let (txts, rest) = read_list::<Bytes>(alloc, rest)?;
    let (cnames, rest) = read_list::<Bytes>(alloc, rest)?;
    let seen = DnsSeen {
        prefix,
        txts,
        cnames,
    };
    Ok((Seen::Dns(seen), rest))
}

#[tactic(auto, unfolding(crate::specs::Observation::web_at))]
fn read_web(alloc: Global, bytes: &[u8]) -> Result<(Seen, &[u8]), FieldFault>
    ensures exact { Gives (λ x. (x.0, x.1.now)) result (web_at bytes.now) }
    ensures within { Within (λ x. x.1.now) bytes.now result }
{
    let (url, rest) = read_counted16(alloc, bytes)?;
    let (hops, rest) = read_list::<Hop>(alloc, rest)?;
    let (status, rest) = read_u16(rest)?;
    let (body, rest) = read_counted16(alloc, rest)?;
    let seen = WebSeen {
        url,
        hops,
        status,
        body,
    };
    Ok((Seen::Web(seen), rest))
}

fn dns_len(seen: &DnsSeen) -> u64
    requires is { IsDnsSeen seen.now }
    requires size { length (dns_bytes seen.now) ≤ 2 ^ 40 }
    ensures { result ≡ length (dns_bytes seen.now) }
{
    1 + seen.prefix.len() as u64 + list_len(seen.txts.as_slice()) + list_len(seen.cnames.as_slice())
}

fn web_len(seen: &WebSeen) -> u64
    requires is { IsWebSeen seen.now }
    requires size { length (web_bytes seen.now) ≤ 2 ^ 40 }
    ensures { result ≡ length (web_bytes seen.now) }
{
    6 + seen.url.len() as u64 + list_len(seen.hops.as_slice()) + seen.body.len() as u64
}

/// Whether each count in what was seen fits.
pub fn seen_fits(seen: &Seen) -> bool
    ensures { IsTrue result ↔ IsSeen seen.now }
{
    match seen {
        Seen::Dns(seen) => dns_fits(seen),
        Seen::Web(seen) => web_fits(seen),
    }
}

fn dns_fits(seen: &DnsSeen) -> bool
    ensures { IsTrue result ↔ IsDnsSeen seen.now }
{
    seen.prefix.len() <= MOST_COUNTED8 && texts_fit(&seen.txts) && texts_fit(&seen.cnames)
}

fn web_fits(seen: &WebSeen) -> bool
    ensures { IsTrue result ↔ IsWebSeen seen.now }
{
    seen.url.len() <= MOST_COUNTED16 && hops_fit(&seen.hops) && status_fits(seen.status, &seen.body)
}

fn texts_fit(texts: &ByteLists) -> bool
    ensures { IsTrue result ↔ AreItems IsText texts.now }
{
    texts.len() <= MOST_COUNTED8 && each_text_fits(texts.as_slice())
}

fn each_text_fits(texts: &[Bytes]) -> bool
    ensures { IsTrue result ↔ AllByRecursion IsText texts.now }
{
    texts.iter().all(|text| text.len() <= MOST_COUNTED16)
}

fn hops_fit(hops: &Hops) -> bool
    ensures { IsTrue result ↔ AreItems IsHop hops.now }
{
    hops.len() <= MOST_COUNTED8 && each_hop_fits(hops.as_slice())
}

fn each_hop_fits(hops: &[Hop]) -> bool
    ensures { IsTrue result ↔ AllByRecursion IsHop hops.now }
{
    hops.iter().all(|hop| hop_fits(hop))
}

fn hop_fits(hop: &Hop) -> bool
    ensures { IsTrue result ↔ IsHop hop.now }
{
    status_fits(hop.status, &hop.location)
}

/// Whether a status, and the location or the body behind it, fit.
fn status_fits(status: u16, bytes: &Bytes) -> bool
    ensures { IsTrue result ↔ ((status < 2 ^ 16) × (length bytes.now < 2 ^ 16)) }
{
    bytes.len() <= MOST_COUNTED16
}
