ghost use Rattle.std.specs.Prelude.{◌≡◌, ◌↔◌, ℕ, List, IsTrue, IfSome, IfNone};
ghost use Rattle.std.specs.Option.{option_map};
ghost use Rattle.caa_climb.specs.IssueValue.{IsDomain, IsIssueValue};
ghost use Rattle.caa_climb.specs.Reading.{read_value, read_cut, parameters_in};

use crate::pieces::{are_pieces, cut, ended, is_domain, trimmed, without_lead};

/// What the value of an issue or issuewild property says: the issuer, and its parameters from the first to the last byte.
#[derive(Clone, Copy, Debug)]
pub struct IssueValue<'a> {
    pub issuer: &'a [u8],
    pub parameters: &'a [u8],
}

/// Reads the value of an issue or issuewild property (RFC 8659, section 4.2).
pub fn read_issue_value<'a>(value: &'a [u8]) -> Option<IssueValue<'a>>
    ensures found { IfSome result (λ v. IsIssueValue value.now v.issuer.now v.parameters.now) }
    ensures none { IfNone result ((issuer parameters : List ℕ) → ¬ (IsIssueValue value.now issuer parameters)) }
    ensures exact { option_map (λ v. (v.issuer.now, v.parameters.now)) result ≡ read_value value.now }
{
    read(value)
}

fn read<'a>(value: &'a [u8]) -> Option<IssueValue<'a>>
    ensures { option_map (λ v. (v.issuer.now, v.parameters.now)) result ≡ read_value value.now }
{
    match cut(value, b';') {
        Some((front, back)) => read_sides(trimmed(front), back),
        None => read_sides(trimmed(value), &value[value.len()..]),
    }
}

fn read_sides<'a>(issuer: &'a [u8], back: &'a [u8]) -> Option<IssueValue<'a>>
    ensures { option_map (λ v. (v.issuer.now, v.parameters.now)) result ≡ read_cut issuer.now back.now }
{
    if !issuer.is_empty() && !is_domain(issuer) {
        return None;
    }
    let parameters = parameters_in(without_lead(back))?;
    Some(IssueValue { issuer, parameters })
}

/// The parameters in these bytes, which begin with no blank.
fn parameters_in(text: &[u8]) -> Option<&[u8]>
    ensures { option_map (λ parameters. parameters.now) result ≡ parameters_in text.now }
{
    if text.is_empty() {
        return Some(text);
    }
    if !are_pieces(text) {
        return None;
    }
    Some(ended(text))
}

/// Whether a text is an issuer-domain-name (RFC 8659, section 4.2).
#[tactic(auto, using(crate::proofs::Domains::domains))]
pub fn is_issuer_domain_name(text: &[u8]) -> bool
    ensures { IsTrue result ↔ IsDomain text.now }
{
    is_domain(text)
}

/// A value has one issuer and one list of parameters at most, and those are what reading gives.
pub fn one_reading()
    ensures one { (bytes i p j q : List ℕ) → IsIssueValue bytes i p → IsIssueValue bytes j q → (i ≡ j) × (p ≡ q) }
    ensures read { (bytes i p : List ℕ) → IsIssueValue bytes i p → read_value bytes ≡ Some (i, p) }
    ensures only { (bytes i p : List ℕ) → read_value bytes ≡ Some (i, p) → IsIssueValue bytes i p }
{}
