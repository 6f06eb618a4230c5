//! The names of a subjectAltName.
ghost use Rattle.std.specs.Prelude.{◌≡◌, ◌++◌, option_map, is_err, IfOk, OnOk};
ghost use Rattle.std.specs.Char.{is_ascii_uppercase};
ghost use Rattle.std.specs.List.{list_any};
ghost use Rattle.der_text.specs.View.{node, nodes};
ghost use Rattle.names_core.specs.Name as name_spec;
ghost use Rattle.profile_lint.specs.Parts as parts_spec;
ghost use Rattle.profile_lint.specs.Names as spec;
ghost use Rattle.profile_lint.specs.Rules as rules;
ghost use Rattle.profile_lint.specs.View as shown;

use crate::contents::Judged;
use crate::twice::has_twice;
use cert_fields::target_of_general_name;
use der_text::tag::SEQUENCE;
use der_text::{Tree, are_none, constructed_parts};
use gate_base::{Address, NoMemory, Target, Targets};
use names_core::{NameRead, Suffixes, is_reserved, read_name, target_text};
use std::alloc::Global;
use tbs_shape::Extension;

const DNS_NAME: u8 = 0x82;

const IP_ADDRESS: u8 = 0x87;

/// A certificate has at most so many names.
const MOST_NAMES: usize = 100;

/// The parts of a SEQUENCE.
pub fn elements<'t, 'a>(tree: Option<&'t Tree<'a>>) -> Option<&'t [Tree<'a>]>
    ensures { option_map (λ parts. nodes parts.now) result ≡
        parts_spec.elements (option_map (λ t. node t.now) tree.entry) }
{
    match tree {
        None => None,
        Some(tree) => constructed_parts(SEQUENCE, tree),
    }
}

fn or_none<'t, 'a>(parts: Option<&'t [Tree<'a>]>) -> &'t [Tree<'a>]
    ensures { nodes result.now ≡ parts_spec.or_none (option_map (λ parts. nodes parts.now) parts.entry) }
{
    match parts {
        None => &[],
        Some(parts) => parts,
    }
}

/// The parts of a SEQUENCE, and none of anything else.
pub fn shown<'t, 'a>(tree: Option<&'t Tree<'a>>) -> &'t [Tree<'a>]
    ensures { nodes result.now ≡ parts_spec.shown (option_map (λ t. node t.now) tree.entry) }
{
    or_none(elements(tree))
}

fn is_address(octets: &[u8]) -> bool
    ensures { result ≡ spec.is_address octets.now }
{
    octets.len() == 4 || octets.len() == 16
}

fn is_general_name(part: &Tree<'_>) -> bool
    ensures { result ≡ spec.is_general_name (node part.now) }
{
    match part {
        Tree::Prim { tag, content } => {
            *tag == DNS_NAME || *tag == IP_ADDRESS && is_address(content)
        }
        Tree::Cons { .. } => false,
    }
}

fn are_general_names(parts: &[Tree<'_>]) -> bool
    ensures { result ≡ parts_spec.all_parts spec.is_general_name (nodes parts.now) }
{
    let mut rest = parts;
    while let [first, others @ ..] = rest {
        if !is_general_name(first) {
            return false;
        }
        rest = others;
    }
    true
}

fn are_names(parts: Option<&[Tree<'_>]>) -> bool
    ensures { result ≡ rules.are_names (option_map (λ parts. nodes parts.now) parts.entry) }
{
    match parts {
        None => false,
        Some(parts) => !are_none(parts) && are_general_names(parts),
    }
}

pub fn names_are_absent(names: &Judged<'_, '_>) -> bool
    ensures { result ≡ rules.names_are_absent (shown.judged names.now) }
{
    names.extension.is_none()
}

pub fn names_are_bad(names: &Judged<'_, '_>) -> bool
    ensures { result ≡ rules.names_are_bad (shown.judged names.now) }
{
    names.extension.is_some() && !are_names(elements(names.tree.as_ref()))
}

fn push_target(target: Option<Target>, targets: &mut Targets) -> Result<(), NoMemory>
    ensures { OnOk result (targets.new ≡ targets.old ++ parts_spec.listed target) }
{
    if let Some(target) = target {
        targets.push(target)?;
    }
    Ok(())
}

/// The targets that the parts show, in their order.
pub fn targets_of(alloc: Global, parts: &[Tree<'_>]) -> Result<Targets, NoMemory>
    ensures { IfOk result (λ targets. targets ≡ spec.targets_of (nodes parts.now)) }
{
    let mut targets = Targets::new(alloc);
    let mut rest = parts;
    while let [first, others @ ..] = rest {
        push_target(target_of_general_name(alloc, first)?, &mut targets)?;
        rest = others;
    }
    Ok(targets)
}

fn is_unread(alloc: Global, text: &[u8]) -> Result<bool, NoMemory>
    ensures { IfOk result (λ unread. unread ≡ is_err (name_spec.name_read text.now)) }
{
    match read_name(alloc, text) {
        Ok(_) => Ok(false),
        Err(NameRead::Fault(_)) => Ok(true),
        Err(NameRead::NoMemory) => Err(NoMemory),
    }
}

fn has_upper_case(text: &[u8]) -> bool
    ensures { result ≡ list_any is_ascii_uppercase text.now }
{
    text.iter().any(|byte| byte.is_ascii_uppercase())
}

fn is_bad_dns_name(alloc: Global, part: &Tree<'_>) -> Result<bool, NoMemory>
    ensures { IfOk result (λ bad. bad ≡ spec.is_bad_dns_name (node part.now)) }
{
    match part {
        Tree::Prim {
            tag: DNS_NAME,
            content,
        } => Ok(is_unread(alloc, content)? || has_upper_case(content)),
        _ => Ok(false),
    }
}

fn has_bad_dns_name(alloc: Global, parts: &[Tree<'_>]) -> Result<bool, NoMemory>
    ensures { IfOk result (λ bad. bad ≡ parts_spec.any_part spec.is_bad_dns_name (nodes parts.now)) }
{
    let mut rest = parts;
    while let [first, others @ ..] = rest {
        if is_bad_dns_name(alloc, first)? {
            return Ok(true);
        }
        rest = others;
    }
    Ok(false)
}

/// `targets` are those that the parts show.
pub fn a_name_is_bad(
    alloc: Global,
    parts: &[Tree<'_>],
    targets: &[Target],
) -> Result<bool, NoMemory>
    requires { targets.now ≡ spec.targets_of (nodes parts.now) }
    ensures { IfOk result (λ bad. bad ≡ rules.a_name_is_bad (nodes parts.now)) }
{
    Ok(has_bad_dns_name(alloc, parts)? || has_twice(alloc, targets)?)
}

fn has_no_base(suffixes: &Suffixes, target: &Target) -> bool
    ensures { result ≡ spec.has_no_base suffixes.now target.now }
{
    match target {
        Target::Dns(name) => suffixes.base_len(name).is_none(),
        Target::Ip(_) => false,
    }
}

pub fn a_name_has_no_base(suffixes: &Suffixes, targets: &[Target]) -> bool
    ensures { result ≡ rules.a_name_has_no_base suffixes.now targets.now }
{
    targets.iter().any(|target| has_no_base(suffixes, target))
}

fn is_reserved_target(target: &Target) -> bool
    ensures { result ≡ spec.is_reserved target.now }
{
    match target {
        Target::Dns(_) => false,
        Target::Ip(address) => is_reserved(address),
    }
}

pub fn an_address_is_reserved(targets: &[Target]) -> bool
    ensures { result ≡ rules.an_address_is_reserved targets.now }
{
    targets.iter().any(|target| is_reserved_target(target))
}

pub fn names_are_wrongly_critical(extension: Option<&Extension<'_>>, subject_is_empty: bool) -> bool
    ensures { result ≡ rules.names_are_wrongly_critical (option_map (λ e. e.now) extension.entry) subject_is_empty }
{
    match extension {
        None => false,
        Some(extension) => extension.is_critical() != subject_is_empty,
    }
}

pub fn names_are_many(parts: &[Tree<'_>]) -> bool
    ensures { result ≡ rules.names_are_many (nodes parts.now) }
{
    let mut count = 0;
    let mut rest = parts;
    while let [first, others @ ..] = rest {
        if is_general_name(first) {
            count += 1;
        }
        rest = others;
    }
    count > MOST_NAMES
}

fn is_v6(target: &Target) -> bool
    ensures { result ≡ spec.is_v6 target.now }
{
    match target {
        Target::Dns(_) => false,
        Target::Ip(Address::V4(_)) => false,
        Target::Ip(Address::V6(_)) => true,
    }
}

/// Whether the content is the text of the target, which is no IPv6 address.
pub fn is_text_of(alloc: Global, content: &[u8], target: &Target) -> Result<bool, NoMemory>
    ensures { IfOk result (λ is. is ≡ spec.is_text_of content.now target.now) }
{
    if is_v6(target) {
        return Ok(false);
    }
    let mut text = Vec::new(alloc);
    target_text(target, &mut text)?;
    Ok(text.as_slice() == content)
}
