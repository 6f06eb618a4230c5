//! Files of websites.

ghost use Rattle.std.specs.Prelude.{◌≡◌, ℕ, not, ◌∷◌, ◌++◌, IfOk};
ghost use Rattle.std.specs.Int.{is_in_range};
ghost use Rattle.std.specs.List.{list_any};
ghost use Rattle.gate_base.specs.declared.seen.Seen.TheVariants as kinds;
ghost use Rattle.domain_methods.specs.Rules as rules;
ghost use Rattle.domain_methods.specs.Rules.{content_rules, verdict_by, way_rules, website_rules};
ghost use Rattle.domain_methods.specs.Value.{value_text};

use crate::address::{is_demanded, leads_to_web};
use crate::challenge::Challenge;
use crate::verdict::Verdict;
use gate_base::{Hop, Method, NoMemory, WebSeen};
use std::alloc::Global;

/// How many redirects are followed.
const HOP_LIMIT: usize = 10;

fn is_agreed_change(method: Method) -> bool
    ensures { result ≡ rules.is_agreed_change method }
{
    match method {
        Method::WebChange => true,
        Method::DnsChange | Method::AcmeHttp => false,
    }
}

fn is_acme(method: Method) -> bool
    ensures { result ≡ rules.is_acme method }
{
    match method {
        Method::AcmeHttp => true,
        Method::DnsChange | Method::WebChange => false,
    }
}

/// Whether the text stands somewhere in the bytes.
fn has_text(text: &[u8], bytes: &[u8]) -> bool
    ensures { result ≡ rules.has_text text.now bytes.now }
{
    let mut rest = bytes;
    while let [_, after @ ..] = rest {
        if rest.starts_with(text) {
            return true;
        }
        rest = after;
    }
    text.is_empty()
}

fn is_redirect(status: u16) -> bool
    ensures { result ≡ rules.is_redirect status }
{
    status == 301 || status == 302 || status == 307 || status == 308
}

fn has_bad_redirect(hops: &[Hop]) -> bool
    ensures { result ≡ list_any (λ hop. not (rules.is_redirect hop.status)) hops.now }
{
    hops.iter().any(|hop| !is_redirect(hop.status))
}

fn leaves_web(alloc: Global, hops: &[Hop]) -> Result<bool, NoMemory>
    ensures { IfOk result (λ leaves. leaves ≡ list_any (λ hop. not (rules.leads_on hop)) hops.now) }
{
    for hop in hops {
        if !leads_to_web(alloc, hop.location.as_slice())? {
            return Ok(true);
        }
    }
    Ok(false)
}

fn is_success(status: u16) -> bool
    ensures { result ≡ is_in_range 200 299 status }
{
    200 <= status && status <= 299
}

fn trimmed(bytes: &[u8]) -> &[u8]
    ensures { result.now ≡ rules.trimmed bytes.now }
{
    bytes.trim_ascii()
}

fn without_trail(bytes: &[u8]) -> &[u8]
    ensures { result.now ≡ rules.without_trail bytes.now }
{
    bytes.trim_ascii_end()
}

/// The token, a full stop and the thumbprint.
fn key_authorization(alloc: Global, token: &[u8], thumb: &[u8]) -> Result<Vec<u8>, NoMemory>
    ensures { IfOk result (λ text. text.items ≡ token.now ++ 46 ∷ thumb.now) }
{
    let mut text = token.to_vec(alloc)?;
    text.push(b'.')?;
    text.extend_from_slice(thumb)?;
    Ok(text)
}

/// The verdict by the rules on the way to the file, from the first address to the final status.
fn judge_way(
    alloc: Global,
    c: &Challenge,
    value: &[u8],
    seen: &WebSeen,
) -> Result<Verdict, NoMemory>
    requires value { value.now ≡ value_text c.now }
    ensures { IfOk result (λ verdict. (at : ℕ) → verdict ≡ verdict_by way_rules c.now (kinds.Web seen.now) at) }
{
    if !is_demanded(alloc, c, value, seen.url.as_slice())? {
        return Ok(Verdict::Broken(5));
    }
    if is_agreed_change(c.method) && has_text(value, seen.url.as_slice()) {
        return Ok(Verdict::Broken(6));
    }
    if has_bad_redirect(seen.hops.as_slice()) {
        return Ok(Verdict::Broken(7));
    }
    if leaves_web(alloc, seen.hops.as_slice())? {
        return Ok(Verdict::Broken(8));
    }
    if seen.hops.len() > HOP_LIMIT {
        return Ok(Verdict::Broken(9));
    }
    if !is_success(seen.status) {
        return Ok(Verdict::Broken(10));
    }
    Ok(Verdict::Good)
}

/// The verdict by the rules on what the file holds.
fn judge_body(
    alloc: Global,
    c: &Challenge,
    value: &[u8],
    seen: &WebSeen,
) -> Result<Verdict, NoMemory>
    requires value { value.now ≡ value_text c.now }
    ensures { IfOk result (λ verdict. (at : ℕ) → verdict ≡ verdict_by content_rules c.now (kinds.Web seen.now) at) }
{
    let authorization = key_authorization(alloc, value, c.thumb.as_slice())?;
    if is_agreed_change(c.method) && trimmed(seen.body.as_slice()) != value {
        return Ok(Verdict::Broken(11));
    }
    if is_acme(c.method) && without_trail(seen.body.as_slice()) != authorization.as_slice() {
        return Ok(Verdict::Broken(12));
    }
    Ok(Verdict::Good)
}

/// The verdict by the rules on websites.
pub fn judge_website(
    alloc: Global,
    c: &Challenge,
    value: &[u8],
    seen: &WebSeen,
) -> Result<Verdict, NoMemory>
    requires value { value.now ≡ value_text c.now }
    ensures { IfOk result (λ verdict. (at : ℕ) → verdict ≡ verdict_by website_rules c.now (kinds.Web seen.now) at) }
{
    match judge_way(alloc, c, value, seen)? {
        Verdict::Good => judge_body(alloc, c, value, seen),
        Verdict::Broken(number) => Ok(Verdict::Broken(number)),
    }
}
