//! For what a key may be used, and under which policy.
ghost use Rattle.std.specs.Prelude.{◌≡◌, option_map};
ghost use Rattle.der_text.specs.View.{node, nodes};
ghost use Rattle.profile_lint.specs.Parts as parts_spec;
ghost use Rattle.profile_lint.specs.Rules as spec;
ghost use Rattle.profile_lint.specs.View as view;

use crate::contents::Judged;
use crate::extension::{absent_or_critical, absent_or_not_critical, has_value};
use crate::identifiers::{CLIENT_AUTH, DOMAIN_VALIDATED, SERVER_AUTH, is_same};
use crate::key::is_rsa;
use crate::names::{elements, shown};
use der_text::tag::{BIT_STRING, OBJECT_IDENTIFIER, SEQUENCE};
use der_text::{Tree, constructed_parts, take_primitive};
use gate_base::KeyKind;
use tbs_shape::Extension;

/// A BIT STRING that says digitalSignature.
const SIGNS: [u8; 4] = [0x03, 0x02, 0x07, 0x80];

/// A BIT STRING that says digitalSignature and keyEncipherment.
const SIGNS_AND_ENCIPHERS: [u8; 4] = [0x03, 0x02, 0x05, 0xa0];

/// An empty SEQUENCE.
const NO_CONSTRAINTS: [u8; 2] = [0x30, 0x00];

fn is_bit_string(tree: Option<&Tree<'_>>) -> bool
    ensures { result ≡ spec.is_bit_string (option_map (λ t. node t.now) tree.entry) }
{
    match tree {
        None => false,
        Some(Tree::Prim { tag, .. }) => *tag == BIT_STRING,
        Some(Tree::Cons { .. }) => false,
    }
}

pub fn usage_is_bad(usage: &Judged<'_, '_>) -> bool
    ensures { result ≡ spec.usage_is_bad (view.judged usage.now) }
{
    absent_or_not_critical(usage.extension) || !is_bit_string(usage.tree.as_ref())
}

pub fn usage_is_wrong(kind: Option<KeyKind>, usage: Option<&Extension<'_>>) -> bool
    ensures { result ≡ spec.usage_is_wrong kind (option_map (λ e. e.now) usage.entry) }
{
    usage.is_some()
        && !(has_value(&SIGNS, usage) || is_rsa(kind) && has_value(&SIGNS_AND_ENCIPHERS, usage))
}

fn is_identifier(part: &Tree<'_>) -> bool
    ensures { result ≡ spec.is_identifier (node part.now) }
{
    match part {
        Tree::Prim { tag, .. } => *tag == OBJECT_IDENTIFIER,
        Tree::Cons { .. } => false,
    }
}

fn is_server_auth(part: &Tree<'_>) -> bool
    ensures { result ≡ spec.is_server_auth (node part.now) }
{
    match part {
        Tree::Prim { tag, content } => {
            *tag == OBJECT_IDENTIFIER && is_same(content, &SERVER_AUTH)
        }
        Tree::Cons { .. } => false,
    }
}

fn is_other_purpose(part: &Tree<'_>) -> bool
    ensures { result ≡ spec.is_other_purpose (node part.now) }
{
    match part {
        Tree::Prim { tag, content } => {
            *tag == OBJECT_IDENTIFIER
                && !(is_same(content, &SERVER_AUTH) || is_same(content, &CLIENT_AUTH))
        }
        Tree::Cons { .. } => false,
    }
}

fn are_identifiers(parts: &[Tree<'_>]) -> bool
    ensures { result ≡ parts_spec.all_parts spec.is_identifier (nodes parts.now) }
{
    let mut rest = parts;
    while let [first, others @ ..] = rest {
        if !is_identifier(first) {
            return false;
        }
        rest = others;
    }
    true
}

fn are_purposes(parts: Option<&[Tree<'_>]>) -> bool
    ensures { result ≡ spec.are_purposes (option_map (λ parts. nodes parts.now) parts.entry) }
{
    match parts {
        None => false,
        Some(parts) => are_identifiers(parts),
    }
}

pub fn purposes_are_bad(purposes: &Judged<'_, '_>) -> bool
    ensures { result ≡ spec.purposes_are_bad (view.judged purposes.now) }
{
    absent_or_critical(purposes.extension) || !are_purposes(elements(purposes.tree.as_ref()))
}

fn has_server_auth(parts: &[Tree<'_>]) -> bool
    ensures { result ≡ parts_spec.any_part spec.is_server_auth (nodes parts.now) }
{
    let mut rest = parts;
    while let [first, others @ ..] = rest {
        if is_server_auth(first) {
            return true;
        }
        rest = others;
    }
    false
}

fn has_other_purpose(parts: &[Tree<'_>]) -> bool
    ensures { result ≡ parts_spec.any_part spec.is_other_purpose (nodes parts.now) }
{
    let mut rest = parts;
    while let [first, others @ ..] = rest {
        if is_other_purpose(first) {
            return true;
        }
        rest = others;
    }
    false
}

pub fn purposes_are_wrong(purposes: &Judged<'_, '_>) -> bool
    ensures { result ≡ spec.purposes_are_wrong (view.judged purposes.now) }
{
    let parts = shown(purposes.tree.as_ref());
    purposes.extension.is_some() && (!has_server_auth(parts) || has_other_purpose(parts))
}

pub fn constraints_are_bad(constraints: Option<&Extension<'_>>) -> bool
    ensures { result ≡ spec.constraints_are_bad (option_map (λ e. e.now) constraints.entry) }
{
    constraints.is_some() && !has_value(&NO_CONSTRAINTS, constraints)
}

/// The OBJECT IDENTIFIER with which a policy begins.
fn policy_of<'a>(tree: &Tree<'a>) -> Option<&'a [u8]>
    ensures { option_map (λ x. x.now) result ≡ spec.policy_of (node tree.now) }
{
    let parts = constructed_parts(SEQUENCE, tree)?;
    let (policy, _) = take_primitive(OBJECT_IDENTIFIER, parts)?;
    Some(policy)
}

fn is_policy(tree: &Tree<'_>) -> bool
    ensures { result ≡ spec.is_policy (node tree.now) }
{
    policy_of(tree).is_some()
}

fn is_domain_validated(tree: &Tree<'_>) -> bool
    ensures { result ≡ spec.is_domain_validated (node tree.now) }
{
    match policy_of(tree) {
        None => false,
        Some(policy) => is_same(policy, &DOMAIN_VALIDATED),
    }
}

fn are_all_policies(parts: &[Tree<'_>]) -> bool
    ensures { result ≡ parts_spec.all_parts spec.is_policy (nodes parts.now) }
{
    let mut rest = parts;
    while let [first, others @ ..] = rest {
        if !is_policy(first) {
            return false;
        }
        rest = others;
    }
    true
}

fn has_domain_validated(parts: &[Tree<'_>]) -> bool
    ensures { result ≡ parts_spec.any_part spec.is_domain_validated (nodes parts.now) }
{
    let mut rest = parts;
    while let [first, others @ ..] = rest {
        if is_domain_validated(first) {
            return true;
        }
        rest = others;
    }
    false
}

fn are_policies(parts: Option<&[Tree<'_>]>) -> bool
    ensures { result ≡ spec.are_policies (option_map (λ parts. nodes parts.now) parts.entry) }
{
    match parts {
        None => false,
        Some(parts) => are_all_policies(parts) && has_domain_validated(parts),
    }
}

pub fn policies_are_bad(policies: &Judged<'_, '_>) -> bool
    ensures { result ≡ spec.policies_are_bad (view.judged policies.now) }
{
    policies.extension.is_none() || !are_policies(elements(policies.tree.as_ref()))
}
