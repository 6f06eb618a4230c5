//! Replies to challenges and observations, and reasons of targets, spelled by hand.

use super::joined;
use crate::*;
use gate_base::{Bytes, Moment, Target};
use gate_entries::{Reply, Why, Whys};
use names_core::read_target;
use std::alloc::Global;
use std::process::Abort;

fn few(rt: &impl Abort, alloc: Global, bytes: &[u8]) -> Bytes {
    Bytes::from_slice(alloc, bytes).expect(rt, "memory")
}

/// The response with this status, whose body has this size.
fn response(rt: &impl Abort, alloc: Global, status: &str, size: &str, json: &str) -> String {
    joined(
        rt,
        alloc,
        &[
            "HTTP/1.1 ",
            status,
            "\r\ncontent-type: application/json\r\ncontent-length: ",
            size,
            "\r\n\r\n",
            json,
        ],
    )
}

/// What is told of a target.
#[derive(Clone, Copy, Debug)]
enum Reason {
    NoProof,
    ProofTooFew(u64, u64),
    ProofOneRegion,
    ProofOld(u64),
    CaaMissing,
    CaaUnknown(u64),
    CaaOld(u64),
    CaaCritical(&'static [u8]),
    CaaDenied(u64),
    CaaTooFew(u64, u64),
    CaaOneRegion,
}

fn why(rt: &impl Abort, alloc: Global, target: Target, reason: Reason) -> Why {
    match reason {
        Reason::NoProof => Why::NoProof { target },
        Reason::ProofTooFew(good, needed) => Why::ProofTooFew {
            target,
            good,
            needed,
        },
        Reason::ProofOneRegion => Why::ProofOneRegion { target },
        Reason::ProofOld(seen_at) => Why::ProofOld {
            target,
            seen_at: Moment(seen_at),
        },
        Reason::CaaMissing => Why::CaaMissing { target },
        Reason::CaaUnknown(drop) => Why::CaaUnknown { target, drop },
        Reason::CaaOld(until) => Why::CaaOld {
            target,
            until: Moment(until),
        },
        Reason::CaaCritical(tag) => Why::CaaCritical {
            target,
            tag: few(rt, alloc, tag),
        },
        Reason::CaaDenied(drop) => Why::CaaDenied { target, drop },
        Reason::CaaTooFew(good, needed) => Why::CaaTooFew {
            target,
            good,
            needed,
        },
        Reason::CaaOneRegion => Why::CaaOneRegion { target },
    }
}

/// The target of a text, of a reason, and the size of the reply that tells it alone, and the reason's members.
const REASONS: &[(&str, Reason, &str, &str)] = &[
    (
        "example.com",
        Reason::NoProof,
        "68",
        "{\"name\":\"example.com\",\"rule\":\"no_proof\"}",
    ),
    (
        "*.example.com",
        Reason::ProofTooFew(3, 4),
        "95",
        "{\"good\":3,\"name\":\"*.example.com\",\"needed\":4,\"rule\":\"proof_too_few\"}",
    ),
    (
        "192.0.3.7",
        Reason::ProofOneRegion,
        "74",
        "{\"name\":\"192.0.3.7\",\"rule\":\"proof_one_region\"}",
    ),
    (
        "2001:0db9:0000:0000:0000:0000:0000:0001",
        Reason::ProofOld(1_772_720_000),
        "118",
        "{\"name\":\"2001:0db9:0000:0000:0000:0000:0000:0001\",\"rule\":\"proof_old\",\"seen_at\":1772720000}",
    ),
    (
        "xn--mnchen-3ya.example",
        Reason::CaaMissing,
        "82",
        "{\"name\":\"xn--mnchen-3ya.example\",\"rule\":\"caa_missing\"}",
    ),
    (
        "a.b.example.com",
        Reason::CaaUnknown(2),
        "84",
        "{\"drop\":2,\"name\":\"a.b.example.com\",\"rule\":\"caa_unknown\"}",
    ),
    (
        "example.com",
        Reason::CaaOld(1_790_028_800),
        "86",
        "{\"name\":\"example.com\",\"rule\":\"caa_old\",\"until\":1790028800}",
    ),
    (
        "example.com",
        Reason::CaaCritical(b"AUTH\"\xff"),
        "93",
        "{\"name\":\"example.com\",\"rule\":\"caa_critical\",\"tag\":\"4155544822ff\"}",
    ),
    (
        "example.com",
        Reason::CaaCritical(b""),
        "81",
        "{\"name\":\"example.com\",\"rule\":\"caa_critical\",\"tag\":\"\"}",
    ),
    (
        "*.example.com",
        Reason::CaaDenied(0),
        "81",
        "{\"drop\":0,\"name\":\"*.example.com\",\"rule\":\"caa_denied\"}",
    ),
    (
        "example.com",
        Reason::CaaTooFew(0, 18_446_744_073_709_551_615),
        "110",
        "{\"good\":0,\"name\":\"example.com\",\"needed\":18446744073709551615,\"rule\":\"caa_too_few\"}",
    ),
    (
        "example.com",
        Reason::CaaOneRegion,
        "74",
        "{\"name\":\"example.com\",\"rule\":\"caa_one_region\"}",
    ),
];

fn target(rt: &impl Abort, alloc: Global, text: &str) -> Target {
    read_target(alloc, text.as_bytes()).expect(rt, "a target")
}

fn refused(rt: &impl Abort, alloc: Global, row: &(&str, Reason, &str, &str)) -> Reply {
    let (text, reason, _, _) = row;
    let target = target(rt, alloc, text);
    let mut whys = Whys::new(alloc);
    whys.push(why(rt, alloc, target, *reason))
        .expect(rt, "memory");
    Reply::Refused { why: whys }
}

#[test]
fn reasons_name_their_targets(rt: HostRuntime) {
    let alloc = rt.alloc();
    for row in REASONS {
        let (_, _, size, json) = row;
        let body = joined(
            &rt,
            alloc,
            &["{\"reply\":\"refused\",\"why\":[", json, "]}"],
        );
        let want = response(&rt, alloc, "422 Unprocessable Entity", size, &body);
        let text = reply_text(alloc, &refused(&rt, alloc, row)).expect(&rt, "memory");
        assert_eq!(rt; text, want, "{row:?}");
    }
}

/// Two targets of which nothing was proved.
const UNPROVED: &str =
    "{\"reply\":\"refused\",\"why\":[{\"name\":\"example.com\",\"rule\":\"no_proof\"},{\"name\":\"example.com\",\"rule\":\"caa_missing\"},{\"name\":\"*.example.com\",\"rule\":\"no_proof\"},{\"name\":\"*.example.com\",\"rule\":\"caa_missing\"}]}";

#[test]
fn reasons_come_in_their_order(rt: HostRuntime) {
    let alloc = rt.alloc();
    let mut whys = Whys::new(alloc);
    for (text, reason) in [
        ("example.com", Reason::NoProof),
        ("example.com", Reason::CaaMissing),
        ("*.example.com", Reason::NoProof),
        ("*.example.com", Reason::CaaMissing),
    ] {
        let target = target(&rt, alloc, text);
        whys.push(why(&rt, alloc, target, reason))
            .expect(&rt, "memory");
    }
    let text = reply_text(alloc, &Reply::Refused { why: whys }).expect(&rt, "memory");
    let want = response(&rt, alloc, "422 Unprocessable Entity", "201", UNPROVED);
    assert_eq!(rt; text, want);
}

/// A challenge's text, and the size of the reply's body and the body.
const TEXTS: &[(&[u8], &str, &str)] = &[
    (
        b"000102030405060708090a0b0c0d0e0f",
        "82",
        "{\"challenge\":3,\"reply\":\"challenge_made\",\"text\":\"000102030405060708090a0b0c0d0e0f\"}",
    ),
    (
        b"-_8AAQIDBAUGBwgJCgsMDQ",
        "72",
        "{\"challenge\":3,\"reply\":\"challenge_made\",\"text\":\"-_8AAQIDBAUGBwgJCgsMDQ\"}",
    ),
    (
        b"",
        "50",
        "{\"challenge\":3,\"reply\":\"challenge_made\",\"text\":\"\"}",
    ),
    (
        b"a\"\\/\x08\t\n\x0c\r\0\x1f\x7f\x80\xff",
        "83",
        "{\"challenge\":3,\"reply\":\"challenge_made\",\"text\":\"a\\\"\\\\/\\b\\t\\n\\f\\r\\u0000\\u001f\u{7f}\u{80}\u{ff}\"}",
    ),
];

#[test]
fn texts_are_spelled_byte_by_byte(rt: HostRuntime) {
    let alloc = rt.alloc();
    for (text, size, json) in TEXTS {
        let reply = Reply::ChallengeMade {
            challenge: 3,
            text: few(&rt, alloc, text),
        };
        let want = response(&rt, alloc, "200 OK", size, json);
        let text = reply_text(alloc, &reply).expect(&rt, "memory");
        assert_eq!(rt; text, want);
    }
}

#[test]
fn observations_have_their_replies(rt: HostRuntime) {
    let alloc = rt.alloc();
    let late = Reply::ObservationLate {
        m: Moment(1_790_000_000),
    };
    for (reply, status, size, json) in [
        (
            Reply::Observed { number: 4 },
            "200 OK",
            "31",
            "{\"number\":4,\"reply\":\"observed\"}",
        ),
        (
            Reply::NoSuchChallenge,
            "404 Not Found",
            "29",
            "{\"reply\":\"no_such_challenge\"}",
        ),
        (
            late,
            "422 Unprocessable Entity",
            "43",
            "{\"m\":1790000000,\"reply\":\"observation_late\"}",
        ),
    ] {
        let want = response(&rt, alloc, status, size, json);
        let text = reply_text(alloc, &reply).expect(&rt, "memory");
        assert_eq!(rt; text, want);
    }
}
