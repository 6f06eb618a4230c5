//! The two forms of message, both of the account `acme`: an order, and the finalizing of an order.
ghost use Rattle.std.specs.Prelude.{◌≡◌, ◌++◌, length, IfOk, IfErr};
ghost use Rattle.std.specs.Option.{option_map};
ghost use Rattle.std.specs.Fmt.{decimal};
ghost use Rattle.base64.specs.GeneralPurpose.{encode_of};
ghost use Rattle.base64.specs.Engines.{standard};
ghost use Rattle.wire_front.specs.Message.{body_of, framed, is_key, IsRequest, IsDays, IsSaid, TellsMessage};
ghost use Rattle.wire_front.specs.Reading.{TellsOrder, Reads, IsAbsent, StartsWithFrame, IsSize, members_at, texts_of};

use crate::cutting::{
    Absent, read_number, strip_end, strip_field, strip_size, strip_start, strip_text,
};
use crate::finalizing::find_finalize;
use crate::naming::{are_plain_bytes, read_targets};
use base64::DecodeAllocError;
use base64::engine::general_purpose::STANDARD;
use gate_base::{Bytes, NoMemory};
use gate_entries::Command;
use std::alloc::Global;

/// The lines of an order's head, up to the body's length.
const HEAD: &[u8] =
    b"POST /orders HTTP/1.1\r\nhost: gate\r\nx-gate-key: acme-token\r\ncontent-length: ";

/// What stands between the body's length with its carriage return and the body.
const HEAD_END: &[u8] = b"\n\r\n";

/// The greatest numbers of bytes of a retry key and of a request.
const KEY_LIMIT: usize = 64;

const REQUEST_LIMIT: usize = 16_384;

/// The greatest number of days.
const DAYS_LIMIT: u64 = 398;

/// What stands at the front of some bytes.
#[derive(Debug, Drop)]
pub enum Found {
    /// A message, and how many bytes stand behind it.
    Message { command: Command, left: usize },
    /// Further bytes may make a message of it.
    More,
    /// No bytes that follow make a message of it.
    Never,
    NoMemory,
}

/// Finds the message at the front.
pub fn find_message(alloc: Global, bytes: &[u8]) -> Found
    ensures { TellsMessage bytes.now result }
{
    match find_finalize(bytes) {
        Ok((order, behind)) => Found::Message {
            command: Command::Finalize { order },
            left: behind.len(),
        },
        Err(Absent::SoFar) => match find_order(alloc, bytes) {
            Found::Never => Found::More,
            found => found,
        },
        Err(Absent::ForGood) => find_order(alloc, bytes),
    }
}

/// Finds the order at the front.
fn find_order(alloc: Global, bytes: &[u8]) -> Found
    ensures { TellsOrder bytes.now result }
{
    match find_body(bytes) {
        Ok((body, behind)) => match read_body(alloc, body) {
            Ok(Some(command)) => Found::Message {
                command,
                left: behind.len(),
            },
            Ok(None) => Found::Never,
            Err(NoMemory) => Found::NoMemory,
        },
        Err(Absent::SoFar) => Found::More,
        Err(Absent::ForGood) => Found::Never,
    }
}

/// The body at the front, behind its head, and what stands behind it.
fn find_body(bytes: &[u8]) -> Result<(&[u8], &[u8]), Absent>
    ensures fits { IfOk result (λ x. IsSize (length x.0.now)) }
    ensures found { IfOk result (λ x. bytes.now ≡ framed x.0.now ++ x.1.now) }
    ensures absent { IfErr result (λ absent. IsAbsent StartsWithFrame bytes.now absent) }
{
    let rest = strip_start(bytes, HEAD)?;
    let (size, rest) = strip_size(rest)?;
    let rest = strip_start(rest, HEAD_END)?;
    if rest.len() < size {
        return Err(Absent::SoFar);
    }
    let (body, behind) = rest.split_at(size);
    Ok((body, behind))
}

/// The order that a body asks for; None where it has not the form.
fn read_body(alloc: Global, body: &[u8]) -> Result<Option<Command>, NoMemory>
    ensures { IfOk result (λ found. Reads body_of IsSaid body.now found) }
{
    match members_of(body) {
        Some(members) => read_members(alloc, &members),
        None => Ok(None),
    }
}

/// The texts of a body's members.
#[derive(Clone, Copy)]
struct Members<'a> {
    days: &'a [u8],
    key: &'a [u8],
    names: &'a [u8],
    request: &'a [u8],
}

#[tactic(auto, unfolding(crate::specs::Reading::members_at))]
fn members_of(body: &[u8]) -> Option<Members<'_>>
    ensures { option_map (λ m. (m.days.now, m.key.now, m.names.now, m.request.now)) result ≡ members_at body.now }
{
    let (days, rest) = strip_field(body, b"{\"common\":false,\"days\":", b',')?;
    let (key, rest) = strip_field(rest, b"\"key\":\"", b'"')?;
    let (names, rest) = strip_field(rest, b",\"names\":[", b']')?;
    let rest = strip_text(rest, b",\"request\":\"")?;
    let request = strip_end(rest, b"\"}")?;
    Some(Members {
        days,
        key,
        names,
        request,
    })
}

fn read_members(alloc: Global, members: &Members<'_>) -> Result<Option<Command>, NoMemory>
    ensures { IfOk result (λ found. Reads texts_of IsSaid (members.now.days.now, members.now.key.now, members.now.names.now, members.now.request.now) found) }
{
    let Some(days) = read_days(members.days) else {
        return Ok(None);
    };
    if !is_key(members.key) {
        return Ok(None);
    }
    let Some(targets) = read_targets(alloc, members.names)? else {
        return Ok(None);
    };
    let Some(request) = read_request(alloc, members.request)? else {
        return Ok(None);
    };
    let key = Bytes::from_slice(alloc, members.key)?;
    Ok(Some(Command::Order {
        key,
        targets,
        days,
        common: false,
        request,
    }))
}

fn read_days(text: &[u8]) -> Option<u16>
    ensures { Reads decimal IsDays text.now result }
{
    match read_number(text) {
        Some(days) if days <= DAYS_LIMIT => Some(days as u16),
        _ => None,
    }
}

fn is_key(text: &[u8]) -> bool
    ensures { result ≡ is_key text.now }
{
    let size = text.len();
    1 <= size && size <= KEY_LIMIT && are_plain_bytes(text)
}

fn read_request(alloc: Global, text: &[u8]) -> Result<Option<Bytes>, NoMemory>
    ensures { IfOk result (λ found. Reads (encode_of standard) IsRequest text.now found) }
{
    match STANDARD.decode(alloc, text) {
        Ok(request) => {
            let size = request.len();
            if 1 <= size && size <= REQUEST_LIMIT {
                Ok(Some(Bytes::from_vec(request)))
            } else {
                Ok(None)
            }
        }
        Err(DecodeAllocError::OutOfMemory) => Err(NoMemory),
        Err(_) => Ok(None),
    }
}
