//! Replies, spelled by hand.

use gate_base::{Bytes, Moment, Sixteen, Target};
use gate_entries::{Reply, Why, Whys};
use names_core::read_target;
use std::alloc::Global;
use wire_decode::reply_bytes;

fn few(alloc: Global, bytes: &[u8]) -> Option<Bytes> {
    Bytes::from_slice(alloc, bytes).ok()
}

/// The response with this status, whose body has this size.
fn response(alloc: Global, status: &str, size: &str, json: &str) -> Option<String> {
    let mut text = String::from_str(alloc, "HTTP/1.1 ").ok()?;
    for piece in [
        status,
        "\r\ncontent-type: application/json\r\ncontent-length: ",
        size,
        "\r\n\r\n",
        json,
    ] {
        text.push_str(piece).ok()?;
    }
    Some(text)
}

/// Whether the reply has this response.
fn has_response(
    alloc: Global,
    reply: &Reply,
    status: &str,
    size: &str,
    json: &str,
) -> Option<bool> {
    let mut out = Vec::new(alloc);
    reply_bytes(reply, &mut out).ok()?;
    let want = response(alloc, status, size, json)?;
    Some(out.as_slice() == want.as_bytes())
}

/// What is told of a target.
#[derive(Clone, Copy, Debug)]
enum Reason {
    NoProof,
    ProofTooFew(u64, u64),
    ProofOneRegion,
    ProofOld(u64),
    CaaMissing,
    CaaUnknown(u64),
    CaaOld(u64),
    CaaCritical(&'static [u8]),
    CaaDenied(u64),
    CaaTooFew(u64, u64),
    CaaOneRegion,
}

fn why(alloc: Global, target: Target, reason: Reason) -> Option<Why> {
    let why = match reason {
        Reason::NoProof => Why::NoProof { target },
        Reason::ProofTooFew(good, needed) => Why::ProofTooFew {
            target,
            good,
            needed,
        },
        Reason::ProofOneRegion => Why::ProofOneRegion { target },
        Reason::ProofOld(seen_at) => Why::ProofOld {
            target,
            seen_at: Moment(seen_at),
        },
        Reason::CaaMissing => Why::CaaMissing { target },
        Reason::CaaUnknown(drop) => Why::CaaUnknown { target, drop },
        Reason::CaaOld(until) => Why::CaaOld {
            target,
            until: Moment(until),
        },
        Reason::CaaCritical(tag) => Why::CaaCritical {
            target,
            tag: few(alloc, tag)?,
        },
        Reason::CaaDenied(drop) => Why::CaaDenied { target, drop },
        Reason::CaaTooFew(good, needed) => Why::CaaTooFew {
            target,
            good,
            needed,
        },
        Reason::CaaOneRegion => Why::CaaOneRegion { target },
    };
    Some(why)
}

/// The target of a text, of a reason, and the size of the reply that tells it alone, and the reason's members.
const REASONS: &[(&str, Reason, &str, &str)] = &[
    (
        "example.com",
        Reason::NoProof,
        "68",
        "{\"name\":\"example.com\",\"rule\":\"no_proof\"}",
    ),
    (
        "*.example.com",
        Reason::ProofTooFew(3, 4),
        "95",
        "{\"good\":3,\"name\":\"*.example.com\",\"needed\":4,\"rule\":\"proof_too_few\"}",
    ),
    (
        "192.0.3.7",
        Reason::ProofOneRegion,
        "74",
        "{\"name\":\"192.0.3.7\",\"rule\":\"proof_one_region\"}",
    ),
    (
        "2001:0db9:0000:0000:0000:0000:0000:0001",
        Reason::ProofOld(1_772_720_000),
        "118",
        "{\"name\":\"2001:0db9:0000:0000:0000:0000:0000:0001\",\"rule\":\"proof_old\",\"seen_at\":1772720000}",
    ),
    (
        "xn--mnchen-3ya.example",
        Reason::CaaMissing,
        "82",
        "{\"name\":\"xn--mnchen-3ya.example\",\"rule\":\"caa_missing\"}",
    ),
    (
        "a.b.example.com",
        Reason::CaaUnknown(2),
        "84",
        "{\"drop\":2,\"name\":\"a.b.example.com\",\"rule\":\"caa_unknown\"}",
    ),
    (
        "example.com",
        Reason::CaaOld(1_790_028_800),
        "86",
        "{\"name\":\"example.com\",\"rule\":\"caa_old\",\"until\":1790028800}",
    ),
    (
        "example.com",
        Reason::CaaCritical(b"AUTH\"\xff"),
        "93",
        "{\"name\":\"example.com\",\"rule\":\"caa_critical\",\"tag\":\"4155544822ff\"}",
    ),
    (
        "example.com",
        Reason::CaaCritical(b""),
        "81",
        "{\"name\":\"example.com\",\"rule\":\"caa_critical\",\"tag\":\"\"}",
    ),
    (
        "*.example.com",
        Reason::CaaDenied(0),
        "81",
        "{\"drop\":0,\"name\":\"*.example.com\",\"rule\":\"caa_denied\"}",
    ),
    (
        "example.com",
        Reason::CaaTooFew(0, 18_446_744_073_709_551_615),
        "110",
        "{\"good\":0,\"name\":\"example.com\",\"needed\":18446744073709551615,\"rule\":\"caa_too_few\"}",
    ),
    (
        "example.com",
        Reason::CaaOneRegion,
        "74",
        "{\"name\":\"example.com\",\"rule\":\"caa_one_region\"}",
    ),
];

fn refused(alloc: Global, reasons: &[(&str, Reason)]) -> Option<Reply> {
    let mut whys = Whys::new(alloc);
    for (text, reason) in reasons {
        let target = read_target(alloc, text.as_bytes()).ok()?;
        whys.push(why(alloc, target, *reason)?).ok()?;
    }
    Some(Reply::Refused { why: whys })
}

fn reason_is_told(alloc: Global, row: &(&str, Reason, &str, &str)) -> Option<bool> {
    let (text, reason, size, json) = row;
    let mut body = String::from_str(alloc, "{\"reply\":\"refused\",\"why\":[").ok()?;
    body.push_str(json).ok()?;
    body.push_str("]}").ok()?;
    let reply = refused(alloc, &[(text, *reason)])?;
    has_response(
        alloc,
        &reply,
        "422 Unprocessable Entity",
        size,
        body.as_str(),
    )
}

/// The first of the reasons that has another response.
pub fn first_wrong_reason(alloc: Global) -> Option<usize> {
    for at in 0..REASONS.len() {
        if reason_is_told(alloc, &REASONS[at]) != Some(true) {
            return Some(at);
        }
    }
    None
}

/// Two targets of which nothing was proved.
const UNPROVED: &str =
    "{\"reply\":\"refused\",\"why\":[{\"name\":\"example.com\",\"rule\":\"no_proof\"},{\"name\":\"example.com\",\"rule\":\"caa_missing\"},{\"name\":\"*.example.com\",\"rule\":\"no_proof\"},{\"name\":\"*.example.com\",\"rule\":\"caa_missing\"}]}";

/// Whether reasons stand in their order.
pub fn reasons_have_their_order(alloc: Global) -> Option<bool> {
    let reply = refused(
        alloc,
        &[
            ("example.com", Reason::NoProof),
            ("example.com", Reason::CaaMissing),
            ("*.example.com", Reason::NoProof),
            ("*.example.com", Reason::CaaMissing),
        ],
    )?;
    has_response(alloc, &reply, "422 Unprocessable Entity", "201", UNPROVED)
}

/// A challenge's text, and the size of the reply's body and the body.
const TEXTS: &[(&[u8], &str, &str)] = &[
    (
        b"000102030405060708090a0b0c0d0e0f",
        "82",
        "{\"challenge\":3,\"reply\":\"challenge_made\",\"text\":\"000102030405060708090a0b0c0d0e0f\"}",
    ),
    (
        b"-_8AAQIDBAUGBwgJCgsMDQ",
        "72",
        "{\"challenge\":3,\"reply\":\"challenge_made\",\"text\":\"-_8AAQIDBAUGBwgJCgsMDQ\"}",
    ),
    (
        b"",
        "50",
        "{\"challenge\":3,\"reply\":\"challenge_made\",\"text\":\"\"}",
    ),
    (
        b"a\"\\/\x08\t\n\x0c\r\0\x1f\x7f\x80\xff",
        "83",
        "{\"challenge\":3,\"reply\":\"challenge_made\",\"text\":\"a\\\"\\\\/\\b\\t\\n\\f\\r\\u0000\\u001f\u{7f}\u{80}\u{ff}\"}",
    ),
];

/// The first of the texts that has another response.
pub fn first_wrong_text(alloc: Global) -> Option<usize> {
    for at in 0..TEXTS.len() {
        let (text, size, json) = TEXTS[at];
        let reply = Reply::ChallengeMade {
            challenge: 3,
            text: few(alloc, text)?,
        };
        if has_response(alloc, &reply, "200 OK", size, json) != Some(true) {
            return Some(at);
        }
    }
    None
}

/// Replies without a list, by a number.
fn reply_of(alloc: Global, number: usize) -> Option<Reply> {
    let reply = match number {
        0 => Reply::Placed { order: 2 },
        1 => Reply::Observed { number: 4 },
        2 => Reply::Issued {
            order: 2,
            serial: Sixteen([0x4f; 16]),
            certificate: few(alloc, b"\x30\x00\xff")?,
        },
        3 => Reply::Blocked { number: 9 },
        4 => Reply::RoleDenied,
        5 => Reply::NoSuchOrder,
        6 => Reply::NoSuchChallenge,
        7 => Reply::KeyReused { kept: 2 },
        8 => Reply::BadFields { rule: 18 },
        9 => Reply::ObservationLate {
            m: Moment(1_790_000_000),
        },
        10 => Reply::NoMemory,
        11 => Reply::ClockRange {
            reading: 18_446_744_073_709_551_615,
        },
        12 => Reply::ClockFault,
        13 => Reply::EntropyRepeat {
            value: Sixteen([0; 16]),
        },
        14 => Reply::EntropyFault,
        15 => Reply::DiskFault,
        16 => Reply::SignerFault,
        17 => Reply::JournalBad { at: 16 },
        _ => Reply::Full,
    };
    Some(reply)
}

/// The status of each, and the size of its body and the body.
const REPLIES: &[(&str, &str, &str)] = &[
    ("200 OK", "28", "{\"order\":2,\"reply\":\"placed\"}"),
    ("200 OK", "31", "{\"number\":4,\"reply\":\"observed\"}"),
    (
        "200 OK",
        "93",
        "{\"certificate\":\"MAD/\",\"order\":2,\"reply\":\"issued\",\"serial\":\"4f4f4f4f4f4f4f4f4f4f4f4f4f4f4f4f\"}",
    ),
    ("200 OK", "30", "{\"number\":9,\"reply\":\"blocked\"}"),
    ("403 Forbidden", "23", "{\"reply\":\"role_denied\"}"),
    ("404 Not Found", "25", "{\"reply\":\"no_such_order\"}"),
    ("404 Not Found", "29", "{\"reply\":\"no_such_challenge\"}"),
    (
        "409 Conflict",
        "31",
        "{\"kept\":2,\"reply\":\"key_reused\"}",
    ),
    (
        "422 Unprocessable Entity",
        "32",
        "{\"reply\":\"bad_fields\",\"rule\":18}",
    ),
    (
        "422 Unprocessable Entity",
        "43",
        "{\"m\":1790000000,\"reply\":\"observation_late\"}",
    ),
    (
        "500 Internal Server Error",
        "21",
        "{\"reply\":\"no_memory\"}",
    ),
    (
        "503 Service Unavailable",
        "54",
        "{\"reading\":18446744073709551615,\"reply\":\"clock_range\"}",
    ),
    (
        "503 Service Unavailable",
        "23",
        "{\"reply\":\"clock_fault\"}",
    ),
    (
        "503 Service Unavailable",
        "69",
        "{\"reply\":\"entropy_repeat\",\"value\":\"00000000000000000000000000000000\"}",
    ),
    (
        "503 Service Unavailable",
        "25",
        "{\"reply\":\"entropy_fault\"}",
    ),
    (
        "503 Service Unavailable",
        "22",
        "{\"reply\":\"disk_fault\"}",
    ),
    (
        "503 Service Unavailable",
        "24",
        "{\"reply\":\"signer_fault\"}",
    ),
    (
        "503 Service Unavailable",
        "31",
        "{\"at\":16,\"reply\":\"journal_bad\"}",
    ),
    ("507 Insufficient Storage", "16", "{\"reply\":\"full\"}"),
];

/// The first of the replies without a list that has another response.
pub fn first_wrong_reply(alloc: Global) -> Option<usize> {
    for at in 0..REPLIES.len() {
        let (status, size, json) = REPLIES[at];
        let reply = reply_of(alloc, at)?;
        if has_response(alloc, &reply, status, size, json) != Some(true) {
            return Some(at);
        }
    }
    None
}
