//! Changes in DNS.

ghost use Rattle.std.specs.Prelude.{◌≡◌, ℕ, bytes_eq};
ghost use Rattle.std.specs.List.{before_first, list_all, list_any, position};
ghost use Rattle.names_core.specs.Name.{is_full_stop};
ghost use Rattle.gate_base.specs.declared.seen.Seen.TheVariants as kinds;
ghost use Rattle.domain_methods.specs.Rules as rules;
ghost use Rattle.domain_methods.specs.Rules.{is_prefix_byte, points_to, record_rules, verdict_by};
ghost use Rattle.domain_methods.specs.Value.{value_text};

use crate::challenge::Challenge;
use crate::verdict::Verdict;
use gate_base::{Bytes, DnsSeen};

/// A label has at most 63 bytes (RFC 1034, section 3.1).
const LABEL_LIMIT: usize = 63;

fn is_prefix_byte(byte: u8) -> bool
    ensures { result ≡ is_prefix_byte byte }
{
    byte.is_ascii_alphanumeric() || byte == b'-' || byte == b'_'
}

fn are_prefix_bytes(bytes: &[u8]) -> bool
    ensures { result ≡ list_all is_prefix_byte bytes.now }
{
    bytes.iter().all(|byte| is_prefix_byte(*byte))
}

/// Whether records may stand at a name behind this label, or without one.
fn is_prefix(prefix: &[u8]) -> bool
    ensures { result ≡ rules.is_prefix prefix.now }
{
    match prefix {
        [] => true,
        [first, rest @ ..] => *first == b'_' && rest.len() < LABEL_LIMIT && are_prefix_bytes(rest),
    }
}

fn is_any(text: &[u8], txts: &[Bytes]) -> bool
    ensures { result ≡ list_any (bytes_eq text.now) txts.now }
{
    txts.iter().any(|txt| text == txt.as_slice())
}

fn first_stop(bytes: &[u8]) -> Option<usize>
    ensures { result ≡ position is_full_stop bytes.now }
{
    bytes.iter().position(|byte| *byte == b'.')
}

fn first_label(name: &[u8]) -> &[u8]
    ensures { result.now ≡ before_first is_full_stop name.now }
{
    match first_stop(name) {
        Some(at) => &name[..at],
        None => name,
    }
}

fn points_to(text: &[u8], cname: &[u8]) -> bool
    ensures { result ≡ points_to text.now cname.now }
{
    first_label(cname).eq_ignore_ascii_case(text)
}

fn any_points_to(text: &[u8], cnames: &[Bytes]) -> bool
    ensures { result ≡ list_any (points_to text.now) cnames.now }
{
    cnames.iter().any(|cname| points_to(text, cname.as_slice()))
}

/// The verdict by the rules on records.
pub fn judge_records(c: &Challenge, value: &[u8], seen: &DnsSeen) -> Verdict
    requires value { value.now ≡ value_text c.now }
    ensures { (at : ℕ) → result ≡ verdict_by record_rules c.now (kinds.Dns seen.now) at }
{
    if !is_prefix(seen.prefix.as_slice()) {
        return Verdict::Broken(3);
    }
    if is_any(value, seen.txts.as_slice()) || any_points_to(value, seen.cnames.as_slice()) {
        Verdict::Good
    } else {
        Verdict::Broken(4)
    }
}
