mod messages;
mod replies;
mod telling;

use gate_base::Bytes;
use gate_settings::{Callers, read_settings};
use http_frames::{Got, Wire};
use messages::{BROKEN, COMMANDS, HEADS, Row, SETTINGS};
use plant::{Calls, MemorySource};
use replies::{first_wrong_reason, first_wrong_reply, first_wrong_text, reasons_have_their_order};
use std::alloc::Global;
use std::process::Abort;
use telling::told;
use wire_decode::{WireFault, decode, fault_bytes};

/// The lines of a head, a body, and the message that they make.
fn message_of(alloc: Global, head: &str, body: &str) -> Option<Bytes> {
    let size = body.len();
    let mut text = String::from_str(alloc, head).ok()?;
    text.push_str("\r\n").ok()?;
    let line = format!(in alloc; "content-length: {size}\r\n\r\n").ok()?;
    text.push_str(line.as_str()).ok()?;
    text.push_str(body).ok()?;
    Bytes::from_slice(alloc, text.as_bytes()).ok()
}

/// What is told of the message that a head and a body make.
fn told_of(alloc: Global, callers: &Callers, head: &str, body: &str) -> Option<String> {
    let bytes = message_of(alloc, head, body)?;
    let mut source = MemorySource::new(bytes, Calls::new(alloc));
    let mut wire = Wire::new(alloc);
    match wire.read_message(alloc, &mut source) {
        Got::Message(message) => told(alloc, &decode(alloc, &message, callers)),
        _ => None,
    }
}

/// The first row of which something else is told than it says.
fn first_wrong(alloc: Global, callers: &Callers, rows: &[Row]) -> Option<usize> {
    for at in 0..rows.len() {
        let (head, body, want) = rows[at];
        match told_of(alloc, callers, head, body) {
            Some(text) if text.as_str() == want => {}
            _ => return Some(at),
        }
    }
    None
}

#[test]
fn messages_say_their_commands_or_faults(rt: HostRuntime) {
    let alloc = rt.alloc();
    let settings = read_settings(alloc, SETTINGS.as_bytes()).expect(&rt, "settings");
    let callers = settings.callers;
    assert_eq!(rt; first_wrong(alloc, &callers, HEADS), None);
    assert_eq!(rt; first_wrong(alloc, &callers, COMMANDS), None);
    assert_eq!(rt; first_wrong(alloc, &callers, BROKEN), None);
}

/// The bytes of a fault, where they are appended to some.
fn fault_text(rt: &impl Abort, alloc: Global, fault: WireFault) -> Vec<u8> {
    let mut out = Vec::from_slice(alloc, b"+").expect(rt, "memory");
    fault_bytes(&fault, &mut out).expect(rt, "memory");
    out
}

#[test]
fn faults_have_their_bytes(rt: HostRuntime) {
    let alloc = rt.alloc();
    for (fault, want) in [
        (
            WireFault::BadForm(6),
            "+HTTP/1.1 400 Bad Request\r\ncontent-type: application/json\r\ncontent-length: 29\r\n\r\n{\"reply\":\"bad_form\",\"rule\":6}",
        ),
        (
            WireFault::NoCaller,
            "+HTTP/1.1 401 Unauthorized\r\ncontent-type: application/json\r\ncontent-length: 21\r\n\r\n{\"reply\":\"no_caller\"}",
        ),
        (
            WireFault::NotFound,
            "+HTTP/1.1 404 Not Found\r\ncontent-type: application/json\r\ncontent-length: 21\r\n\r\n{\"reply\":\"not_found\"}",
        ),
        (
            WireFault::TooLarge,
            "+HTTP/1.1 413 Payload Too Large\r\ncontent-type: application/json\r\ncontent-length: 21\r\n\r\n{\"reply\":\"too_large\"}",
        ),
        (
            WireFault::NotOffered,
            "+HTTP/1.1 501 Not Implemented\r\ncontent-type: application/json\r\ncontent-length: 23\r\n\r\n{\"reply\":\"not_offered\"}",
        ),
    ] {
        let out = fault_text(&rt, alloc, fault);
        assert_eq!(rt; out.as_slice(), want.as_bytes(), "{fault:?}");
    }
}

#[test]
fn replies_have_their_bytes(rt: HostRuntime) {
    let alloc = rt.alloc();
    assert_eq!(rt; first_wrong_reply(alloc), None);
    assert_eq!(rt; first_wrong_text(alloc), None);
    assert_eq!(rt; first_wrong_reason(alloc), None);
    assert_eq!(rt; reasons_have_their_order(alloc), Some(true));
}
