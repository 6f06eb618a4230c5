//! The names under which the authority is known in CAA records.
ghost use Rattle.std.specs.Prelude.{◌<◌, length, IfSome, IfNone, OnOk, IfErr, ℕ};
ghost use Rattle.gate_settings.specs.Rules.{DocumentBreaks, IsFirstPlace, IsKept, IsNoDomainAt, TellsOf};

use crate::document::Document;
use crate::rule::{Broken, Rule};
use caa_climb::is_issuer_domain_name;
use gate_base::Bytes;

/// An authority has at most this many names.
const MOST_ISSUERS: usize = 16;

/// The first that is no issuer-domain-name.
fn first_wrong(issuers: &[Bytes]) -> Option<usize>
    ensures within { IfSome result (λ k. k < length issuers.now) }
    ensures found { IfSome result (λ k. IsFirstPlace (IsNoDomainAt issuers.now) k) }
    ensures none { IfNone result ((k : ℕ) → ¬ (IsNoDomainAt issuers.now k)) }
{
    for k in 0..issuers.len() {
        if !is_issuer_domain_name(issuers[k].as_slice()) {
            return Some(k);
        }
    }
    None
}

/// Whether a file names 1 to 16 issuers, each by an issuer-domain-name.
pub fn check_issuers(document: &Document) -> Result<(), Broken>
    ensures kept { OnOk result (IsKept (DocumentBreaks document.now) Rule.S12) }
    ensures err { IfErr result (λ fault. TellsOf (DocumentBreaks document.now) Rule.S12 fault) }
{
    let issuers = document.issuers.as_slice();
    if issuers.is_empty() || issuers.len() > MOST_ISSUERS {
        return Err(Broken::Rule(Rule::S12, 0));
    }
    match first_wrong(issuers) {
        Some(k) => Err(Broken::Rule(Rule::S12, k as u64 + 1)),
        None => Ok(()),
    }
}
