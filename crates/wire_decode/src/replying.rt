//! The bytes of a reply.
ghost use Rattle.std.specs.Prelude.{◌≡◌, ◌++◌, IfOk, OnOk, OnErr, string_bytes};
ghost use Rattle.gate_entries.specs.declared.reply.Reply.TheVariants.{ChallengeMade, ObservationLate, Issued, EntropyRepeat, Refused};
ghost use Rattle.wire_decode.specs.Reply.{status_of, json_of, reply_text};

use crate::reasons::reasons_json;
use crate::response::response_of;
use crate::texts::{base64_of, hex_of, text_json};
use gate_base::{Bytes, Moment, NoMemory, Sixteen};
use gate_entries::{Reply, Why};
use std::alloc::{AllocError, Global};

/// Appends the reply as the bytes of an HTTP/1.1 response.
pub fn reply_bytes(reply: &Reply, out: &mut Vec<u8>) -> Result<(), NoMemory>
    ensures ok { OnOk result (out.new.items ≡ out.old.items ++ reply_text reply.now) }
    ensures err { OnErr result (out.new.items ≡ out.old.items) }
{
    let text = reply_text(*out.allocator(), reply)?;
    out.extend_from_slice(text.as_bytes())?;
    Ok(())
}

#[tactic(auto, unfolding(crate::specs::Reply::reply_text))]
fn reply_text(alloc: Global, reply: &Reply) -> Result<String, AllocError>
    ensures { IfOk result (λ text. string_bytes text ≡ reply_text reply.now) }
{
    let json = json_of(alloc, reply)?;
    response_of(alloc, status_of(reply), json.as_str())
}

fn status_of(reply: &Reply) -> u16
    ensures { result ≡ status_of reply.now }
{
    match reply {
        Reply::Placed { .. }
        | Reply::ChallengeMade { .. }
        | Reply::Observed { .. }
        | Reply::Issued { .. }
        | Reply::Blocked { .. } => 200,
        Reply::RoleDenied => 403,
        Reply::NoSuchOrder | Reply::NoSuchChallenge => 404,
        Reply::KeyReused { .. } => 409,
        Reply::BadFields { .. } | Reply::ObservationLate { .. } | Reply::Refused { .. } => 422,
        Reply::NoMemory => 500,
        Reply::ClockRange { .. }
        | Reply::EntropyRepeat { .. }
        | Reply::ClockFault
        | Reply::EntropyFault
        | Reply::DiskFault
        | Reply::SignerFault
        | Reply::JournalBad { .. } => 503,
        Reply::Full => 507,
    }
}

fn json_of(alloc: Global, reply: &Reply) -> Result<String, AllocError>
    ensures { IfOk result (λ json. string_bytes json ≡ json_of reply.now) }
{
    match reply {
        Reply::Placed { order } => format!(in alloc; "{{\"order\":{order},\"reply\":\"placed\"}}"),
        Reply::ChallengeMade { challenge, text } => challenge_made_json(alloc, *challenge, text),
        Reply::Observed { number } => format!(in alloc;
            "{{\"number\":{number},\"reply\":\"observed\"}}"
        ),
        Reply::Issued {
            order,
            serial,
            certificate,
        } => issued_json(alloc, *order, serial, certificate),
        Reply::Blocked { number } => format!(in alloc;
            "{{\"number\":{number},\"reply\":\"blocked\"}}"
        ),
        Reply::RoleDenied => String::from_str(alloc, "{\"reply\":\"role_denied\"}"),
        Reply::ClockRange { reading } => format!(in alloc;
            "{{\"reading\":{reading},\"reply\":\"clock_range\"}}"
        ),
        Reply::NoSuchOrder => String::from_str(alloc, "{\"reply\":\"no_such_order\"}"),
        Reply::NoSuchChallenge => String::from_str(alloc, "{\"reply\":\"no_such_challenge\"}"),
        Reply::KeyReused { kept } => format!(in alloc;
            "{{\"kept\":{kept},\"reply\":\"key_reused\"}}"
        ),
        Reply::BadFields { rule } => format!(in alloc;
            "{{\"reply\":\"bad_fields\",\"rule\":{rule}}}"
        ),
        Reply::ObservationLate { m } => observation_late_json(alloc, *m),
        Reply::EntropyRepeat { value } => entropy_repeat_json(alloc, value),
        Reply::Refused { why } => refused_json(alloc, why.as_slice()),
        Reply::Full => String::from_str(alloc, "{\"reply\":\"full\"}"),
        Reply::ClockFault => String::from_str(alloc, "{\"reply\":\"clock_fault\"}"),
        Reply::EntropyFault => String::from_str(alloc, "{\"reply\":\"entropy_fault\"}"),
        Reply::DiskFault => String::from_str(alloc, "{\"reply\":\"disk_fault\"}"),
        Reply::SignerFault => String::from_str(alloc, "{\"reply\":\"signer_fault\"}"),
        Reply::JournalBad { at } => format!(in alloc; "{{\"at\":{at},\"reply\":\"journal_bad\"}}"),
        Reply::NoMemory => String::from_str(alloc, "{\"reply\":\"no_memory\"}"),
    }
}

fn challenge_made_json(alloc: Global, challenge: u64, text: &Bytes) -> Result<String, AllocError>
    ensures { IfOk result (λ json. string_bytes json ≡ json_of (ChallengeMade challenge text.now)) }
{
    let mut json = format!(in alloc;
        "{{\"challenge\":{challenge},\"reply\":\"challenge_made\",\"text\":\""
    )?;
    json.push_str(text_json(alloc, text.as_slice())?.as_str())?;
    json.push_str("\"}")?;
    Ok(json)
}

fn observation_late_json(alloc: Global, moment: Moment) -> Result<String, AllocError>
    ensures { IfOk result (λ json. string_bytes json ≡ json_of (ObservationLate moment)) }
{
    let seconds = moment.0;
    format!(in alloc; "{{\"m\":{seconds},\"reply\":\"observation_late\"}}")
}

fn issued_json(
    alloc: Global,
    order: u64,
    serial: &Sixteen,
    certificate: &Bytes,
) -> Result<String, AllocError>
    ensures { IfOk result (λ json. string_bytes json ≡ json_of (Issued order serial.now certificate.now)) }
{
    let mut json = String::from_str(alloc, "{\"certificate\":\"")?;
    json.push_str(base64_of(alloc, certificate)?.as_str())?;
    json.push_str("\",\"order\":")?;
    json.push_str(format!(in alloc; "{order}")?.as_str())?;
    json.push_str(",\"reply\":\"issued\",\"serial\":\"")?;
    json.push_str(hex_of(alloc, &serial.0)?.as_str())?;
    json.push_str("\"}")?;
    Ok(json)
}

fn entropy_repeat_json(alloc: Global, value: &Sixteen) -> Result<String, AllocError>
    ensures { IfOk result (λ json. string_bytes json ≡ json_of (EntropyRepeat value.now)) }
{
    let mut json = String::from_str(alloc, "{\"reply\":\"entropy_repeat\",\"value\":\"")?;
    json.push_str(hex_of(alloc, &value.0)?.as_str())?;
    json.push_str("\"}")?;
    Ok(json)
}

fn refused_json(alloc: Global, whys: &[Why]) -> Result<String, AllocError>
    ensures { IfOk result (λ json. string_bytes json ≡ json_of (Refused whys.now)) }
{
    let mut json = String::from_str(alloc, "{\"reply\":\"refused\",\"why\":[")?;
    json.push_str(reasons_json(alloc, whys)?.as_str())?;
    json.push_str("]}")?;
    Ok(json)
}
