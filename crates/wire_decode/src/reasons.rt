//! Why an order may not be sent, in JSON.
ghost use Rattle.std.specs.Prelude.{◌≡◌, IfOk, string_bytes};
ghost use Rattle.names_core.specs.Target.{target_text};
ghost use Rattle.wire_decode.specs.Reply.{name_json, named_json, counted_json, dropped_json, dated_json, tagged_json, reason_json, reasons_json};

use crate::texts::{hex_of, text_json};
use gate_base::{Bytes, Moment, Target};
use gate_entries::Why;
use names_core::target_text;
use std::alloc::{AllocError, Global};

/// Reasons with a comma between two.
pub fn reasons_json(alloc: Global, whys: &[Why]) -> Result<String, AllocError>
    ensures { IfOk result (λ json. string_bytes json ≡ reasons_json whys.now) }
{
    let [first, rest @ ..] = whys else {
        return Ok(String::new(alloc));
    };
    let mut json = reason_json(alloc, first)?;
    let mut rest = rest;
    while let [next, behind @ ..] = rest {
        json.push_str(",")?;
        json.push_str(reason_json(alloc, next)?.as_str())?;
        rest = behind;
    }
    Ok(json)
}

fn reason_json(alloc: Global, why: &Why) -> Result<String, AllocError>
    ensures { IfOk result (λ json. string_bytes json ≡ reason_json why.now) }
{
    match why {
        Why::KeyBlocked { number } => format!(in alloc;
            "{{\"number\":{number},\"rule\":\"key_blocked\"}}"
        ),
        Why::NoProof { target } => named_json(alloc, target, "no_proof"),
        Why::ProofTooFew {
            target,
            good,
            needed,
        } => counted_json(alloc, target, *good, *needed, "proof_too_few"),
        Why::ProofOneRegion { target } => named_json(alloc, target, "proof_one_region"),
        Why::ProofOld { target, seen_at } => {
            dated_json(alloc, target, "proof_old", "seen_at", *seen_at)
        }
        Why::CaaMissing { target } => named_json(alloc, target, "caa_missing"),
        Why::CaaUnknown { target, drop } => dropped_json(alloc, target, *drop, "caa_unknown"),
        Why::CaaOld { target, until } => dated_json(alloc, target, "caa_old", "until", *until),
        Why::CaaCritical { target, tag } => tagged_json(alloc, target, "caa_critical", tag),
        Why::CaaDenied { target, drop } => dropped_json(alloc, target, *drop, "caa_denied"),
        Why::CaaTooFew {
            target,
            good,
            needed,
        } => counted_json(alloc, target, *good, *needed, "caa_too_few"),
        Why::CaaOneRegion { target } => named_json(alloc, target, "caa_one_region"),
    }
}

/// A target and the rule.
fn named_json(alloc: Global, target: &Target, rule: &str) -> Result<String, AllocError>
    ensures { IfOk result (λ json. string_bytes json ≡ named_json target.now rule.now) }
{
    let mut json = String::from_str(alloc, "{")?;
    json.push_str(name_json(alloc, target)?.as_str())?;
    json.push_str(",\"rule\":\"")?;
    json.push_str(rule)?;
    json.push_str("\"}")?;
    Ok(json)
}

/// How many perspectives are good and how many are needed.
fn counted_json(
    alloc: Global,
    target: &Target,
    good: u64,
    needed: u64,
    rule: &str,
) -> Result<String, AllocError>
    ensures { IfOk result (λ json. string_bytes json ≡ counted_json target.now good needed rule.now) }
{
    let mut json = format!(in alloc; "{{\"good\":{good},")?;
    json.push_str(name_json(alloc, target)?.as_str())?;
    json.push_str(format!(in alloc; ",\"needed\":{needed},\"rule\":\"")?.as_str())?;
    json.push_str(rule)?;
    json.push_str("\"}")?;
    Ok(json)
}

/// How many labels are left out in front of the name.
fn dropped_json(
    alloc: Global,
    target: &Target,
    count: u64,
    rule: &str,
) -> Result<String, AllocError>
    ensures { IfOk result (λ json. string_bytes json ≡ dropped_json target.now count rule.now) }
{
    let mut json = format!(in alloc; "{{\"drop\":{count},")?;
    json.push_str(name_json(alloc, target)?.as_str())?;
    json.push_str(",\"rule\":\"")?;
    json.push_str(rule)?;
    json.push_str("\"}")?;
    Ok(json)
}

/// A moment under its name.
fn dated_json(
    alloc: Global,
    target: &Target,
    rule: &str,
    member: &str,
    moment: Moment,
) -> Result<String, AllocError>
    ensures { IfOk result (λ json. string_bytes json ≡ dated_json target.now rule.now member.now moment.0) }
{
    let seconds = moment.0;
    let mut json = String::from_str(alloc, "{")?;
    json.push_str(name_json(alloc, target)?.as_str())?;
    json.push_str(",\"rule\":\"")?;
    json.push_str(rule)?;
    json.push_str("\",\"")?;
    json.push_str(member)?;
    json.push_str(format!(in alloc; "\":{seconds}}}")?.as_str())?;
    Ok(json)
}

/// A record's tag.
fn tagged_json(
    alloc: Global,
    target: &Target,
    rule: &str,
    tag: &Bytes,
) -> Result<String, AllocError>
    ensures { IfOk result (λ json. string_bytes json ≡ tagged_json target.now rule.now tag.now) }
{
    let mut json = String::from_str(alloc, "{")?;
    json.push_str(name_json(alloc, target)?.as_str())?;
    json.push_str(",\"rule\":\"")?;
    json.push_str(rule)?;
    json.push_str("\",\"tag\":\"")?;
    json.push_str(hex_of(alloc, tag.as_slice())?.as_str())?;
    json.push_str("\"}")?;
    Ok(json)
}

/// The member that names a target.
fn name_json(alloc: Global, target: &Target) -> Result<String, AllocError>
    ensures { IfOk result (λ json. string_bytes json ≡ name_json target.now) }
{
    let text = text_of_target(alloc, target)?;
    let mut json = String::from_str(alloc, "\"name\":\"")?;
    json.push_str(text_json(alloc, &text)?.as_str())?;
    json.push_str("\"")?;
    Ok(json)
}

fn text_of_target(alloc: Global, target: &Target) -> Result<Vec<u8>, AllocError>
    ensures { IfOk result (λ text. text.items ≡ target_text target.now) }
{
    let mut text = Vec::new(alloc);
    match target_text(target, &mut text) {
        Ok(()) => Ok(text),
        Err(_) => Err(AllocError),
    }
}
