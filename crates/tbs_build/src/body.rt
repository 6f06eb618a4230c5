//! The body of a certificate (RFC 5280, section 4.1), from its plan.
ghost use Rattle.std.specs.Prelude.{◌≡◌, ◌+◌, ◌*◌, ◌^◌, ◌<◌, ◌≤◌, [], ◌++◌, length, IfOk, OnOk};
ghost use Rattle.der_text.specs.Tree.{spelling, spellings};
ghost use Rattle.names_core.specs.Target.{target_text as text_of_target};
ghost use Rattle.tbs_build.specs.Body as spec;
ghost use Rattle.tbs_build.specs.Body.{body_of, common_name, time_node};
ghost use Rattle.tbs_build.specs.Extension.{about_key_and_names, about_policy_and_addresses, extensions_of as spec_extensions_of, extension_trees};
ghost use Rattle.tbs_build.specs.Plan.{plan_of, IsSound};

use crate::algorithm::algorithm_bytes;
use crate::element::{push_element, push_wrapped, wrapped};
use crate::extension::{
    push_authority_info_access, push_authority_key_identifier, push_certificate_policies,
    push_crl_distribution_points, push_extended_key_usage, push_key_usage, push_subject_alt_name,
};
use crate::laws::a_body_of_few_targets_is_short;
use crate::plan::Plan;
use cert_time::time_of;
use der_text::tag::{INTEGER, OBJECT_IDENTIFIER, SEQUENCE, SET, UTF8_STRING};
use gate_base::{Bytes, Moment, NoMemory, Target};
use names_core::target_text;
use std::alloc::Global;

/// Version 3, `[0]` of the INTEGER 2.
const VERSION: [u8; 5] = [0xa0, 0x03, 0x02, 0x01, 0x02];

/// The type of a commonName.
const COMMON_NAME: [u8; 3] = [0x55, 0x04, 0x03];

/// The tag of the extensions, `[3]`.
const EXTENSIONS: u8 = 0xa3;

/// Appends a moment as a Time.
fn push_time(moment: Moment, out: &mut Vec<u8>) -> Result<(), NoMemory>
    requires { moment.0 ≤ 253402300799 }
    ensures ok { OnOk result (out.new.items ≡ out.old.items ++ spelling (time_node moment.0)) }
    ensures few { OnOk result (length out.new.items ≤ length out.old.items + 21) }
{
    let time = time_of(moment);
    push_element(time.tag(), time.as_bytes(), out)
}

/// Appends the first and the last second.
fn push_validity(p: &Plan<'_>, out: &mut Vec<u8>) -> Result<(), NoMemory>
    requires { IsSound (plan_of p.now) }
    ensures ok { OnOk result (out.new.items ≡ out.old.items ++ spelling (spec.validity (plan_of p.now))) }
    ensures few { OnOk result (length out.new.items ≤ length out.old.items + 48) }
{
    let mut times = Vec::new(*out.allocator());
    push_time(p.not_before, &mut times)?;
    push_time(p.not_after, &mut times)?;
    push_wrapped(SEQUENCE, &times, out)
}

/// A relative name that is a target's text.
fn common_name_of(alloc: Global, target: &Target) -> Result<Vec<u8>, NoMemory>
    requires { length (text_of_target target.now) ≤ 253 }
    ensures name { IfOk result (λ name. name.items ≡ spelling (common_name (text_of_target target.now))) }
    ensures few { IfOk result (λ name. length name.items ≤ 280) }
{
    let mut text = Vec::new(alloc);
    target_text(target, &mut text)?;
    let mut attribute = Vec::new(alloc);
    push_element(OBJECT_IDENTIFIER, &COMMON_NAME, &mut attribute)?;
    push_element(UTF8_STRING, &text, &mut attribute)?;
    let attributes = wrapped(alloc, SEQUENCE, &attribute)?;
    wrapped(alloc, SET, &attributes)
}

/// The parts of the subject.
#[tactic(auto, using(crate::proofs::Plans::common_is_short))]
fn subject_of(alloc: Global, p: &Plan<'_>) -> Result<Vec<u8>, NoMemory>
    requires { IsSound (plan_of p.now) }
    ensures parts { IfOk result (λ parts. parts.items ++ [] ≡ spellings (spec.subject_parts (plan_of p.now))) }
    ensures few { IfOk result (λ parts. length parts.items ≤ 280) }
{
    match p.targets.as_slice() {
        [first, ..] if p.common => common_name_of(alloc, first),
        _ => Ok(Vec::new(alloc)),
    }
}

/// Appends the subject.
fn push_subject(p: &Plan<'_>, out: &mut Vec<u8>) -> Result<(), NoMemory>
    requires { IsSound (plan_of p.now) }
    ensures ok { OnOk result (out.new.items ≡ out.old.items ++ spelling (spec.subject (plan_of p.now))) }
    ensures few { OnOk result (length out.new.items ≤ length out.old.items + 286) }
{
    let parts = subject_of(*out.allocator(), p)?;
    push_wrapped(SEQUENCE, &parts, out)
}

/// Appends the version.
#[tactic(auto, unfolding(der_text::specs::Tree::length_octets))]
fn push_version(out: &mut Vec<u8>) -> Result<(), NoMemory>
    ensures ok { OnOk result (out.new.items ≡ out.old.items ++ spelling spec.version) }
    ensures few { OnOk result (length out.new.items ≤ length out.old.items + 5) }
{
    out.extend_from_slice(&VERSION)?;
    Ok(())
}

/// Appends what stands before the subject.
fn push_front(p: &Plan<'_>, out: &mut Vec<u8>) -> Result<(), NoMemory>
    requires { IsSound (plan_of p.now) }
    ensures ok { OnOk result (out.new.items ≡ out.old.items ++ spec.front_of (plan_of p.now)) }
    ensures few { OnOk result (length out.new.items ≤ length out.old.items + 1114) }
{
    push_version(out)?;
    push_element(INTEGER, &p.serial.0, out)?;
    out.extend_from_slice(algorithm_bytes(p.profile.alg))?;
    out.extend_from_slice(p.profile.issuer.as_slice())?;
    push_validity(p, out)
}

/// Appends the extensions about the keys and the names.
fn push_key_and_names(p: &Plan<'_>, out: &mut Vec<u8>) -> Result<(), NoMemory>
    requires { IsSound (plan_of p.now) }
    ensures ok { OnOk result (out.new.items ≡ out.old.items
        ++ spellings (extension_trees (about_key_and_names (plan_of p.now)))) }
    ensures few { OnOk result (length out.new.items ≤ length out.old.items + 65536) }
{
    push_authority_key_identifier(&p.profile.key_id, out)?;
    push_key_usage(p.kind, out)?;
    push_extended_key_usage(out)?;
    push_subject_alt_name(p.common, p.targets, out)
}

/// Appends the extensions about the policy and the authority's addresses.
#[tactic(auto, using(crate::proofs::Plans::address_is_short))]
fn push_policy_and_addresses(p: &Plan<'_>, out: &mut Vec<u8>) -> Result<(), NoMemory>
    requires { IsSound (plan_of p.now) }
    ensures ok { OnOk result (out.new.items ≡ out.old.items
        ++ spellings (extension_trees (about_policy_and_addresses (plan_of p.now)))) }
    ensures few { OnOk result (length out.new.items ≤ length out.old.items + 1200) }
{
    push_certificate_policies(out)?;
    push_crl_distribution_points(p.profile.crl.as_slice(), out)?;
    push_authority_info_access(p.profile.aia.as_slice(), out)
}

/// The extensions, one after another.
fn extensions_of(alloc: Global, p: &Plan<'_>) -> Result<Vec<u8>, NoMemory>
    requires { IsSound (plan_of p.now) }
    ensures all { IfOk result (λ all. all.items ≡ spellings (extension_trees (spec_extensions_of (plan_of p.now)))) }
    ensures few { IfOk result (λ all. length all.items ≤ 66736) }
{
    let mut all = Vec::new(alloc);
    push_key_and_names(p, &mut all)?;
    push_policy_and_addresses(p, &mut all)?;
    Ok(all)
}

/// Appends the extensions.
fn push_extensions(p: &Plan<'_>, out: &mut Vec<u8>) -> Result<(), NoMemory>
    requires { IsSound (plan_of p.now) }
    ensures ok { OnOk result (out.new.items ≡ out.old.items ++ spelling (spec.extensions (plan_of p.now))) }
    ensures few { OnOk result (length out.new.items ≤ length out.old.items + 66748) }
{
    let alloc = *out.allocator();
    let all = extensions_of(alloc, p)?;
    let mut sequence = Vec::new(alloc);
    push_element(SEQUENCE, &all, &mut sequence)?;
    push_wrapped(EXTENSIONS, &sequence, out)
}

/// The bytes of the body.
fn body_bytes(alloc: Global, p: &Plan<'_>) -> Result<Bytes, NoMemory>
    requires { IsSound (plan_of p.now) }
    ensures body { IfOk result (λ body. body ≡ body_of (plan_of p.now)) }
    ensures few { IfOk result (λ body. length body ≤ 2 ^ 17) }
{
    let mut content = Vec::new(alloc);
    push_front(p, &mut content)?;
    push_subject(p, &mut content)?;
    content.extend_from_slice(p.spki)?;
    push_extensions(p, &mut content)?;
    let mut body = Vec::new(alloc);
    push_element(SEQUENCE, &content, &mut body)?;
    Ok(Bytes::from_vec(body))
}

/// The bytes of the body that a sound plan has.
pub fn build(alloc: Global, p: &Plan<'_>) -> Result<Bytes, NoMemory>
    requires sound { IsSound (plan_of p.now) }
    ensures body { IfOk result (λ body. body ≡ body_of (plan_of p.now)) }
    ensures few { IfOk result (λ body. length body ≤ 2 ^ 17) }
    // A number of two bytes counts the bytes of a body of at most 100 targets.
    ensures few_targets { IfOk result (λ body. length p.now.targets.now ≤ 100 → length body < 2 ^ 16) }
{
    a_body_of_few_targets_is_short();
    let body = body_bytes(alloc, p)?;
    Ok(body)
}
