//! The bytes of a reply.
ghost use Rattle.std.specs.Prelude.{◌≡◌, ◌≤◌, ◌<◌, ◌++◌, IfOk, OnOk, string_bytes};
ghost use Rattle.gate_entries.specs.declared.reply.Reply.TheVariants.{ChallengeMade, ObservationLate, Issued, EntropyRepeat, Refused};
ghost use Rattle.names_core.specs.Target.{target_text};
ghost use Rattle.wire_front.specs.Reply.{status_of, reason_of, byte_hex, hex_of, base64_of, character_json, text_json, name_json, named_json, counted_json, dropped_json, dated_json, tagged_json, reason_json, reasons_json, json_of, status_line, header_lines, response_of, text_of};

use base64::engine::general_purpose::STANDARD;
use gate_base::{Bytes, Moment, Sixteen, Target};
use gate_entries::{Reply, Why};
use http::StatusCode;
use names_core::target_text;
use std::alloc::{AllocError, Global};

/// The reply as the bytes of an HTTP/1.1 response.
#[tactic(auto, unfolding(crate::specs::Reply::text_of))]
pub fn reply_text(alloc: Global, reply: &Reply) -> Result<String, AllocError>
    ensures { IfOk result (λ text. string_bytes text ≡ text_of reply.now) }
{
    let json = json_of(alloc, reply)?;
    response_of(alloc, status_of(reply), json.as_str())
}

fn response_of(alloc: Global, status: u16, json: &str) -> Result<String, AllocError>
    requires { (100 ≤ status) × (status < 1000) }
    ensures { IfOk result (λ text. string_bytes text ≡ response_of status json.now) }
{
    let mut text = status_line(alloc, status, reason_of(status))?;
    text.push_str(header_lines(alloc, json)?.as_str())?;
    text.push_str(json)?;
    Ok(text)
}

fn status_line(alloc: Global, status: u16, reason: &str) -> Result<String, AllocError>
    ensures { IfOk result (λ text. string_bytes text ≡ status_line status reason.now) }
{
    let mut line = format!(in alloc; "HTTP/1.1 {status} ")?;
    line.push_str(reason)?;
    line.push_str("\r\n")?;
    Ok(line)
}

fn header_lines(alloc: Global, json: &str) -> Result<String, AllocError>
    ensures { IfOk result (λ text. string_bytes text ≡ header_lines json.now) }
{
    let size = json.len();
    format!(in alloc; "content-type: application/json\r\ncontent-length: {size}\r\n\r\n")
}

fn status_of(reply: &Reply) -> u16
    ensures { result ≡ status_of reply.now }
{
    match reply {
        Reply::Placed { .. }
        | Reply::ChallengeMade { .. }
        | Reply::Observed { .. }
        | Reply::Issued { .. }
        | Reply::Blocked { .. } => 200,
        Reply::RoleDenied => 403,
        Reply::NoSuchOrder | Reply::NoSuchChallenge => 404,
        Reply::KeyReused { .. } => 409,
        Reply::BadFields { .. } | Reply::ObservationLate { .. } | Reply::Refused { .. } => 422,
        Reply::NoMemory => 500,
        Reply::ClockRange { .. }
        | Reply::EntropyRepeat { .. }
        | Reply::ClockFault
        | Reply::EntropyFault
        | Reply::DiskFault
        | Reply::SignerFault
        | Reply::JournalBad { .. } => 503,
        Reply::Full => 507,
    }
}

#[tactic(auto, unfolding(crate::specs::Reply::reason_of))]
fn reason_of(status: u16) -> &'static str
    requires { (100 ≤ status) × (status < 1000) }
    ensures { result.now ≡ reason_of status }
{
    match StatusCode::from_u16(status) {
        Ok(code) => code.canonical_reason().unwrap_or(""),
        Err(_) => unreachable!(),
    }
}

fn json_of(alloc: Global, reply: &Reply) -> Result<String, AllocError>
    ensures { IfOk result (λ json. string_bytes json ≡ json_of reply.now) }
{
    match reply {
        Reply::Placed { order } => format!(in alloc; "{{\"order\":{order},\"reply\":\"placed\"}}"),
        Reply::ChallengeMade { challenge, text } => challenge_made_json(alloc, *challenge, text),
        Reply::Observed { number } => format!(in alloc;
            "{{\"number\":{number},\"reply\":\"observed\"}}"
        ),
        Reply::Issued {
            order,
            serial,
            certificate,
        } => issued_json(alloc, *order, serial, certificate),
        Reply::Blocked { number } => format!(in alloc;
            "{{\"number\":{number},\"reply\":\"blocked\"}}"
        ),
        Reply::RoleDenied => String::from_str(alloc, "{\"reply\":\"role_denied\"}"),
        Reply::ClockRange { reading } => format!(in alloc;
            "{{\"reading\":{reading},\"reply\":\"clock_range\"}}"
        ),
        Reply::NoSuchOrder => String::from_str(alloc, "{\"reply\":\"no_such_order\"}"),
        Reply::NoSuchChallenge => String::from_str(alloc, "{\"reply\":\"no_such_challenge\"}"),
        Reply::KeyReused { kept } => format!(in alloc;
            "{{\"kept\":{kept},\"reply\":\"key_reused\"}}"
        ),
        Reply::BadFields { rule } => format!(in alloc;
            "{{\"reply\":\"bad_fields\",\"rule\":{rule}}}"
        ),
        Reply::ObservationLate { m } => observation_late_json(alloc, *m),
        Reply::EntropyRepeat { value } => entropy_repeat_json(alloc, value),
        Reply::Refused { why } => refused_json(alloc, why.as_slice()),
        Reply::Full => String::from_str(alloc, "{\"reply\":\"full\"}"),
        Reply::ClockFault => String::from_str(alloc, "{\"reply\":\"clock_fault\"}"),
        Reply::EntropyFault => String::from_str(alloc, "{\"reply\":\"entropy_fault\"}"),
        Reply::DiskFault => String::from_str(alloc, "{\"reply\":\"disk_fault\"}"),
        Reply::SignerFault => String::from_str(alloc, "{\"reply\":\"signer_fault\"}"),
        Reply::JournalBad { at } => format!(in alloc; "{{\"at\":{at},\"reply\":\"journal_bad\"}}"),
        Reply::NoMemory => String::from_str(alloc, "{\"reply\":\"no_memory\"}"),
    }
}

fn challenge_made_json(alloc: Global, challenge: u64, text: &Bytes) -> Result<String, AllocError>
    ensures { IfOk result (λ json. string_bytes json ≡ json_of (ChallengeMade challenge text.now)) }
{
    let mut json = format!(in alloc;
        "{{\"challenge\":{challenge},\"reply\":\"challenge_made\",\"text\":\""
    )?;
    json.push_str(text_json(alloc, text.as_slice())?.as_str())?;
    json.push_str("\"}")?;
    Ok(json)
}

fn observation_late_json(alloc: Global, moment: Moment) -> Result<String, AllocError>
    ensures { IfOk result (λ json. string_bytes json ≡ json_of (ObservationLate moment)) }
{
    let seconds = moment.0;
    format!(in alloc; "{{\"m\":{seconds},\"reply\":\"observation_late\"}}")
}

fn issued_json(
    alloc: Global,
    order: u64,
    serial: &Sixteen,
    certificate: &Bytes,
) -> Result<String, AllocError>
    ensures { IfOk result (λ json. string_bytes json ≡ json_of (Issued order serial.now certificate.now)) }
{
    let mut json = String::from_str(alloc, "{\"certificate\":\"")?;
    json.push_str(base64_of(alloc, certificate)?.as_str())?;
    json.push_str("\",\"order\":")?;
    json.push_str(format!(in alloc; "{order}")?.as_str())?;
    json.push_str(",\"reply\":\"issued\",\"serial\":\"")?;
    json.push_str(hex_of(alloc, &serial.0)?.as_str())?;
    json.push_str("\"}")?;
    Ok(json)
}

fn entropy_repeat_json(alloc: Global, value: &Sixteen) -> Result<String, AllocError>
    ensures { IfOk result (λ json. string_bytes json ≡ json_of (EntropyRepeat value.now)) }
{
    let mut json = String::from_str(alloc, "{\"reply\":\"entropy_repeat\",\"value\":\"")?;
    json.push_str(hex_of(alloc, &value.0)?.as_str())?;
    json.push_str("\"}")?;
    Ok(json)
}

fn refused_json(alloc: Global, whys: &[Why]) -> Result<String, AllocError>
    ensures { IfOk result (λ json. string_bytes json ≡ json_of (Refused whys.now)) }
{
    let mut json = String::from_str(alloc, "{\"reply\":\"refused\",\"why\":[")?;
    json.push_str(reasons_json(alloc, whys)?.as_str())?;
    json.push_str("]}")?;
    Ok(json)
}

/// Reasons with a comma between two.
fn reasons_json(alloc: Global, whys: &[Why]) -> Result<String, AllocError>
    ensures { IfOk result (λ json. string_bytes json ≡ reasons_json whys.now) }
{
    let [first, rest @ ..] = whys else {
        return Ok(String::new(alloc));
    };
    let mut json = reason_json(alloc, first)?;
    let mut rest = rest;
    while let [next, behind @ ..] = rest {
        json.push_str(",")?;
        json.push_str(reason_json(alloc, next)?.as_str())?;
        rest = behind;
    }
    Ok(json)
}

fn reason_json(alloc: Global, why: &Why) -> Result<String, AllocError>
    ensures { IfOk result (λ json. string_bytes json ≡ reason_json why.now) }
{
    match why {
        Why::KeyBlocked { number } => format!(in alloc;
            "{{\"number\":{number},\"rule\":\"key_blocked\"}}"
        ),
        Why::NoProof { target } => named_json(alloc, target, "no_proof"),
        Why::ProofTooFew {
            target,
            good,
            needed,
        } => counted_json(alloc, target, *good, *needed, "proof_too_few"),
        Why::ProofOneRegion { target } => named_json(alloc, target, "proof_one_region"),
        Why::ProofOld { target, seen_at } => {
            dated_json(alloc, target, "proof_old", "seen_at", *seen_at)
        }
        Why::CaaMissing { target } => named_json(alloc, target, "caa_missing"),
        Why::CaaUnknown { target, drop } => dropped_json(alloc, target, *drop, "caa_unknown"),
        Why::CaaOld { target, until } => dated_json(alloc, target, "caa_old", "until", *until),
        Why::CaaCritical { target, tag } => tagged_json(alloc, target, "caa_critical", tag),
        Why::CaaDenied { target, drop } => dropped_json(alloc, target, *drop, "caa_denied"),
        Why::CaaTooFew {
            target,
            good,
            needed,
        } => counted_json(alloc, target, *good, *needed, "caa_too_few"),
        Why::CaaOneRegion { target } => named_json(alloc, target, "caa_one_region"),
    }
}

/// A target and the rule.
fn named_json(alloc: Global, target: &Target, rule: &str) -> Result<String, AllocError>
    ensures { IfOk result (λ json. string_bytes json ≡ named_json target.now rule.now) }
{
    let mut json = String::from_str(alloc, "{")?;
    json.push_str(name_json(alloc, target)?.as_str())?;
    json.push_str(",\"rule\":\"")?;
    json.push_str(rule)?;
    json.push_str("\"}")?;
    Ok(json)
}

/// How many perspectives are good and how many are needed.
fn counted_json(
    alloc: Global,
    target: &Target,
    good: u64,
    needed: u64,
    rule: &str,
) -> Result<String, AllocError>
    ensures { IfOk result (λ json. string_bytes json ≡ counted_json target.now good needed rule.now) }
{
    let mut json = format!(in alloc; "{{\"good\":{good},")?;
    json.push_str(name_json(alloc, target)?.as_str())?;
    json.push_str(format!(in alloc; ",\"needed\":{needed},\"rule\":\"")?.as_str())?;
    json.push_str(rule)?;
    json.push_str("\"}")?;
    Ok(json)
}

/// How many labels are left out in front of the name.
fn dropped_json(
    alloc: Global,
    target: &Target,
    count: u64,
    rule: &str,
) -> Result<String, AllocError>
    ensures { IfOk result (λ json. string_bytes json ≡ dropped_json target.now count rule.now) }
{
    let mut json = format!(in alloc; "{{\"drop\":{count},")?;
    json.push_str(name_json(alloc, target)?.as_str())?;
    json.push_str(",\"rule\":\"")?;
    json.push_str(rule)?;
    json.push_str("\"}")?;
    Ok(json)
}

/// A moment under its name.
fn dated_json(
    alloc: Global,
    target: &Target,
    rule: &str,
    member: &str,
    moment: Moment,
) -> Result<String, AllocError>
    ensures { IfOk result (λ json. string_bytes json ≡ dated_json target.now rule.now member.now moment.0) }
{
    let seconds = moment.0;
    let mut json = String::from_str(alloc, "{")?;
    json.push_str(name_json(alloc, target)?.as_str())?;
    json.push_str(",\"rule\":\"")?;
    json.push_str(rule)?;
    json.push_str("\",\"")?;
    json.push_str(member)?;
    json.push_str(format!(in alloc; "\":{seconds}}}")?.as_str())?;
    Ok(json)
}

/// A record's tag.
fn tagged_json(
    alloc: Global,
    target: &Target,
    rule: &str,
    tag: &Bytes,
) -> Result<String, AllocError>
    ensures { IfOk result (λ json. string_bytes json ≡ tagged_json target.now rule.now tag.now) }
{
    let mut json = String::from_str(alloc, "{")?;
    json.push_str(name_json(alloc, target)?.as_str())?;
    json.push_str(",\"rule\":\"")?;
    json.push_str(rule)?;
    json.push_str("\",\"tag\":\"")?;
    json.push_str(hex_of(alloc, tag.as_slice())?.as_str())?;
    json.push_str("\"}")?;
    Ok(json)
}

/// The member that names a target.
fn name_json(alloc: Global, target: &Target) -> Result<String, AllocError>
    ensures { IfOk result (λ json. string_bytes json ≡ name_json target.now) }
{
    let text = text_of_target(alloc, target)?;
    let mut json = String::from_str(alloc, "\"name\":\"")?;
    json.push_str(text_json(alloc, &text)?.as_str())?;
    json.push_str("\"")?;
    Ok(json)
}

fn text_of_target(alloc: Global, target: &Target) -> Result<Vec<u8>, AllocError>
    ensures { IfOk result (λ text. text.items ≡ target_text target.now) }
{
    let mut text = Vec::new(alloc);
    match target_text(target, &mut text) {
        Ok(()) => Ok(text),
        Err(_) => Err(AllocError),
    }
}

/// A text in a JSON string, each of its bytes as the character of that number.
fn text_json(alloc: Global, bytes: &[u8]) -> Result<String, AllocError>
    ensures { IfOk result (λ json. string_bytes json ≡ text_json bytes.now) }
{
    let mut json = String::new(alloc);
    let mut rest = bytes;
    while let [byte, behind @ ..] = rest {
        push_character(alloc, *byte, &mut json)?;
        rest = behind;
    }
    Ok(json)
}

/// Appends what stands in a JSON string for a character.
#[tactic(auto, unfolding(crate::specs::Reply::character_json))]
fn push_character(alloc: Global, byte: u8, json: &mut String) -> Result<(), AllocError>
    ensures { OnOk result (string_bytes json.new ≡ string_bytes json.old ++ character_json byte) }
{
    match byte {
        b'"' => json.push_str("\\\""),
        b'\\' => json.push_str("\\\\"),
        8 => json.push_str("\\b"),
        9 => json.push_str("\\t"),
        10 => json.push_str("\\n"),
        12 => json.push_str("\\f"),
        13 => json.push_str("\\r"),
        0..32 => {
            json.push_str("\\u00")?;
            json.push_str(byte_hex(alloc, byte)?.as_str())
        }
        _ => json.push(char::from(byte)),
    }
}

#[tactic(auto, unfolding(crate::specs::Reply::base64_of))]
fn base64_of(alloc: Global, bytes: &Bytes) -> Result<String, AllocError>
    ensures { IfOk result (λ text. string_bytes text ≡ base64_of bytes.now) }
{
    STANDARD.encode(alloc, bytes.as_slice())
}

fn hex_of(alloc: Global, bytes: &[u8]) -> Result<String, AllocError>
    ensures { IfOk result (λ text. string_bytes text ≡ hex_of bytes.now) }
{
    let mut text = String::new(alloc);
    let mut rest = bytes;
    while let [byte, behind @ ..] = rest {
        text.push_str(byte_hex(alloc, *byte)?.as_str())?;
        rest = behind;
    }
    Ok(text)
}

/// Two lower-case hexadecimal digits.
fn byte_hex(alloc: Global, byte: u8) -> Result<String, AllocError>
    ensures { IfOk result (λ text. string_bytes text ≡ byte_hex byte) }
{
    format!(in alloc; "{byte:02x}")
}
