use gate_base::Bytes;
use http_frames::{Got, Message, Wire};
use plant::{Calls, MemorySource, Source, TakeFault};
use std::alloc::Global;
use std::process::Abort;

/// A source that gives so many bytes at once at the most, and one at the least.
#[derive(Drop)]
struct Pieces {
    inner: MemorySource,
    most: usize,
}

impl Source for Pieces {
    ghost use Rattle.std.specs.Prelude.{None};
    ghost use Rattle.plant.specs.Memory.{source_told};

    ghost told = { λ p. source_told p.inner };

    ghost beside = { λ _. record { held = None; faults = 0 } };

    fn take(&mut self, out: &mut [u8]) -> Result<usize, TakeFault> {
        let most = self.most.max(1).min(out.len());
        let (front, _) = out.split_at_mut(most);
        self.inner.take(front)
    }
}

/// Bytes, and what is read of them until nothing more can be: each message by its method, target, token and body.
const MESSAGES: &[(&[u8], &[u8])] = &[
    (b"", b"end"),
    (b"\r\n", b"cut"),
    (b"\r\n\n\r\n", b"cut"),
    (b"\r", b"cut"),
    (b"G", b"cut"),
    (b"GET", b"cut"),
    (b"GET ", b"cut"),
    (b"GET /", b"cut"),
    (b"GET / ", b"cut"),
    (b"GET / HTTP/1.1", b"cut"),
    (b"GET / HTTP/1.1\r", b"cut"),
    (b"GET / HTTP/1.1\r\n", b"cut"),
    (b"GET / HTTP/1.1\r\n\r", b"cut"),
    (b"GET / HTTP/1.1\r\n\r\n", b"GET / - ;end"),
    (b"GET / HTTP/1.1\n\n", b"GET / - ;end"),
    (b"\r\n\nGET / HTTP/1.1\r\n\r\n", b"GET / - ;end"),
    (b"GET / HTTP/1.0\r\n\r\n", b"GET / - ;end"),
    (b"GET / HTTP/1.2\r\n\r\n", b"400"),
    (b"GET / HTTP/2.0\r\n\r\n", b"400"),
    (b"GET /\r\n\r\n", b"400"),
    (b"GET  / HTTP/1.1\r\n\r\n", b"400"),
    (b"G@T / HTTP/1.1\r\n\r\n", b"400"),
    (
        b"BREW /pot?x=1#y HTTP/1.1\r\n\r\n",
        b"BREW /pot?x=1#y - ;end",
    ),
    (b" GET / HTTP/1.1\r\n\r\n", b"400"),
    (b"GET /\xc3\xa9 HTTP/1.1\r\n\r\n", b"GET /\xc3\xa9 - ;end"),
    (b"GET /\xff HTTP/1.1\r\n\r\n", b"400"),
    (b"GET / HTTP/1.1\r\na: b\r\n\r\n", b"GET / - ;end"),
    (b"GET / HTTP/1.1\r\na : b\r\n\r\n", b"400"),
    (b"GET / HTTP/1.1\r\n a: b\r\n\r\n", b"400"),
    (b"GET / HTTP/1.1\r\na: b\r\n c\r\n\r\n", b"400"),
    (b"GET / HTTP/1.1\r\na\r\n\r\n", b"400"),
    (b"GET / HTTP/1.1\r\na: \x01\r\n\r\n", b"400"),
    (b"GET / HTTP/1.1\r\n:b\r\n\r\n", b"400"),
    (b"GET / HTTP/1.1\r\na:b", b"cut"),
    (b"GET / HTTP/1.1\r\na:b\r\n", b"cut"),
    (
        b"POST /a HTTP/1.1\r\ncontent-length: 3\r\n\r\nabc",
        b"POST /a - abc;end",
    ),
    (b"POST /a HTTP/1.1\r\ncontent-length: 3\r\n\r\nab", b"cut"),
    (b"POST /a HTTP/1.1\r\ncontent-length: 3\r\n\r\n", b"cut"),
    (
        b"POST /a HTTP/1.1\r\ncontent-length: 3\r\n\r\nabcd",
        b"POST /a - abc;cut",
    ),
    (
        b"POST /a HTTP/1.1\r\nContent-LENGTH:\t3 \r\n\r\nabc",
        b"POST /a - abc;end",
    ),
    (
        b"POST /a HTTP/1.1\r\ncontent-length: 003\r\n\r\nabc",
        b"POST /a - abc;end",
    ),
    (
        b"POST /a HTTP/1.1\r\ncontent-length: 3\r\ncontent-length: 3\r\n\r\nabc",
        b"POST /a - abc;end",
    ),
    (
        b"POST /a HTTP/1.1\r\ncontent-length: 3\r\nCONTENT-LENGTH: 03\r\n\r\nabc",
        b"400",
    ),
    (
        b"POST /a HTTP/1.1\r\ncontent-length: 3\r\ncontent-length: 4\r\n\r\nabcd",
        b"400",
    ),
    (b"POST /a HTTP/1.1\r\ncontent-length: +3\r\n\r\nabc", b"400"),
    (
        b"POST /a HTTP/1.1\r\ncontent-length: 3, 3\r\n\r\nabc",
        b"400",
    ),
    (b"POST /a HTTP/1.1\r\ncontent-length:\r\n\r\n", b"400"),
    (b"POST /a HTTP/1.1\r\ncontent-length: -1\r\n\r\n", b"400"),
    (b"POST /a HTTP/1.1\r\ncontent-length: 3x\r\n\r\nabc", b"400"),
    (
        b"POST /a HTTP/1.1\r\ncontent-length: 0000000000000000003\r\n\r\nabc",
        b"POST /a - abc;end",
    ),
    (
        b"POST /a HTTP/1.1\r\ncontent-length: 00000000000000000003\r\n\r\nabc",
        b"400",
    ),
    (
        b"POST /a HTTP/1.1\r\ncontent-length: 9999999999999999999\r\n\r\n",
        b"413",
    ),
    (
        b"POST /a HTTP/1.1\r\ncontent-length: 1048577\r\n\r\n",
        b"413",
    ),
    (
        b"POST /a HTTP/1.1\r\ncontent-length: 1048576\r\n\r\nab",
        b"cut",
    ),
    (
        b"POST /a HTTP/1.1\r\ncontent-length: 65537\r\n\r\nab",
        b"cut",
    ),
    (
        b"POST /a HTTP/1.1\r\ntransfer-encoding: chunked\r\n\r\n0\r\n\r\n",
        b"501",
    ),
    (
        b"POST /a HTTP/1.1\r\nContent-Encoding: gzip\r\ncontent-length: 3\r\n\r\nabc",
        b"501",
    ),
    (
        b"POST /a HTTP/1.1\r\ntransfer-encoding: chunked\r\ncontent-length: x\r\n\r\n",
        b"400",
    ),
    (
        b"POST /a HTTP/1.1\r\ntransfer-encoding:\r\ncontent-length: 1048577\r\n\r\n",
        b"501",
    ),
    (
        b"POST /a HTTP/1.1\r\ntransfer-encoding: chunked\r\n",
        b"cut",
    ),
    (b"GET / HTTP/1.1\r\nx-gate-key: a\r\n\r\n", b"GET / a ;end"),
    (
        b"GET / HTTP/1.1\r\nX-GATE-KEY: a\r\nx-gate-key: b\r\n\r\n",
        b"GET / a ;end",
    ),
    (
        b"GET / HTTP/1.1\r\nx-gate-key:\r\nx-gate-key: b\r\n\r\n",
        b"GET /  ;end",
    ),
    (b"GET / HTTP/1.1\r\nx-gate-keys: b\r\n\r\n", b"GET / - ;end"),
    (
        b"GET / HTTP/1.1\r\nconnection: close\r\n\r\n",
        b"GET / -  close;end",
    ),
    (
        b"GET / HTTP/1.1\r\nConnection: CLOSE\r\n\r\n",
        b"GET / -  close;end",
    ),
    (
        b"GET / HTTP/1.1\r\nconnection: keep-alive\r\nconnection: close\r\n\r\n",
        b"GET / -  close;end",
    ),
    (
        b"GET / HTTP/1.1\r\nconnection: keep-alive, close\r\n\r\n",
        b"GET / - ;end",
    ),
    (
        b"GET / HTTP/1.1\r\nconnection: closed\r\n\r\n",
        b"GET / - ;end",
    ),
    (
        b"GET / HTTP/1.1\r\nexpect: 100-continue\r\n\r\n",
        b"GET / - ;end",
    ),
    (
        b"GET / HTTP/1.1\r\n\r\nPOST /a HTTP/1.1\r\ncontent-length: 2\r\nx-gate-key: k\r\n\r\nhiGET / HTTP/1.1\r\nconnection: close\r\n\r\nGET / HTTP/1.1\r\n\r\n",
        b"GET / - ;POST /a k hi;GET / -  close;GET / - ;end",
    ),
    (
        b"POST /a HTTP/1.1\r\ncontent-length: 2\r\n\r\n\r\nGET / HTTP/1.1\r\n\r\n",
        b"POST /a - \r\n;GET / - ;end",
    ),
    (
        b"POST /a HTTP/1.1\r\ncontent-length: 1\r\n\r\nabGET / HTTP/1.1\r\n\r\n",
        b"POST /a - a;bGET / - ;end",
    ),
    (b"GET / HTTP/1.1\r\n\r\n\r\n\r\n", b"GET / - ;cut"),
    (b"GET / HTTP/1.1\r\n\r\nGET / HTTP/1.1x", b"GET / - ;400"),
    (
        b"POST /a HTTP/1.1\r\ncontent-length: 0\r\n\r\nPOST /a HTTP/1.1\r\ncontent-length: 0\r\n\r\n",
        b"POST /a - ;POST /a - ;end",
    ),
];

fn push(rt: &impl Abort, out: &mut Vec<u8>, text: &[u8]) {
    out.extend_from_slice(text).expect(rt, "memory");
}

fn push_message(rt: &impl Abort, out: &mut Vec<u8>, message: &Message) {
    push(rt, out, message.method.as_slice());
    push(rt, out, b" ");
    push(rt, out, message.path.as_slice());
    push(rt, out, b" ");
    match &message.token {
        Some(token) => push(rt, out, token.as_slice()),
        None => push(rt, out, b"-"),
    }
    push(rt, out, b" ");
    push(rt, out, message.body.as_slice());
    if message.last {
        push(rt, out, b" close");
    }
}

/// Why nothing more is read.
fn name_of(got: &Got) -> &'static [u8] {
    match got {
        Got::End => b"end",
        Got::Unframed(400) => b"400",
        Got::Unframed(413) => b"413",
        Got::Unframed(501) => b"501",
        Got::Truncated => b"cut",
        Got::StreamLong => b"long",
        Got::Fault => b"fault",
        _ => b"other",
    }
}

/// What is read of the bytes, which come in pieces of so many.
fn told(rt: &impl Abort, alloc: Global, bytes: &[u8], most: usize, fails: Calls) -> Vec<u8> {
    let bytes = Bytes::from_slice(alloc, bytes).expect(rt, "memory");
    let inner = MemorySource::new(bytes, fails);
    let mut source = Pieces { inner, most };
    let mut wire = Wire::new(alloc);
    let mut out = Vec::new(alloc);
    for _ in 0..100 {
        match wire.read_message(alloc, &mut source) {
            Got::Message(message) => push_message(rt, &mut out, &message),
            Got::TooLarge => push(rt, &mut out, b"large"),
            other => {
                push(rt, &mut out, name_of(&other));
                return out;
            }
        }
        push(rt, &mut out, b";");
    }
    out
}

/// The first row of which something else is read than it says, where bytes come in pieces of so many.
fn first_misread(
    rt: &impl Abort,
    alloc: Global,
    rows: &[(&[u8], &[u8])],
    most: usize,
) -> Option<usize> {
    for (at, row) in rows.iter().enumerate() {
        if told(rt, alloc, row.0, most, Calls::new(alloc)).as_slice() != row.1 {
            return Some(at);
        }
    }
    None
}

#[test]
fn messages_are_read_in_any_pieces(rt: HostRuntime) {
    let alloc = rt.alloc();
    assert_eq!(rt; first_misread(&rt, alloc, MESSAGES, 1), None);
    assert_eq!(rt; first_misread(&rt, alloc, MESSAGES, 7), None);
    assert_eq!(rt; first_misread(&rt, alloc, MESSAGES, 4_096), None);
}

/// Some bytes, then others so many times, and then some more.
fn joined(
    rt: &impl Abort,
    alloc: Global,
    front: &[u8],
    piece: &[u8],
    count: usize,
    back: &[u8],
) -> Vec<u8> {
    let mut out = Vec::new(alloc);
    push(rt, &mut out, front);
    for _ in 0..count {
        push(rt, &mut out, piece);
    }
    push(rt, &mut out, back);
    out
}

/// A front, what follows it so many times, and what comes last; and what is read of that.
type LimitRow = (
    &'static [u8],
    &'static [u8],
    usize,
    &'static [u8],
    &'static [u8],
);

const LIMITS: &[LimitRow] = &[
    // header lines
    (
        b"GET / HTTP/1.1\r\n",
        b"a:b\r\n",
        64,
        b"\r\n",
        b"GET / - ;end",
    ),
    (b"GET / HTTP/1.1\r\n", b"a:b\r\n", 65, b"\r\n", b"400"),
    (b"GET / HTTP/1.1\r\n", b"a:b\r\n", 65, b"", b"cut"),
    (b"GET / HTTP/1.1\n", b"a:\n", 2_700, b"\n", b"400"),
    // heads of 8,192 bytes and of one more, whole and unfinished
    (
        b"GET / HTTP/1.1\r\na:",
        b"b",
        8_170,
        b"\r\n\r\n",
        b"GET / - ;end",
    ),
    (b"GET / HTTP/1.1\r\na:", b"b", 8_171, b"\r\n\r\n", b"400"),
    (b"GET / HTTP/1.1\r\na:", b"b", 8_174, b"", b"cut"),
    (b"GET / HTTP/1.1\r\na:", b"b", 8_175, b"", b"400"),
    (b"", b"\r\n", 4_096, b"", b"cut"),
    (b"", b"\r\n", 4_096, b"\r", b"400"),
    // bodies
    (
        b"POST / HTTP/1.1\r\ncontent-length: 65536\r\n\r\n",
        b"x",
        65_535,
        b"",
        b"cut",
    ),
    (
        b"POST / HTTP/1.1\r\ncontent-length: 65537\r\n\r\n",
        b"x",
        65_536,
        b"",
        b"cut",
    ),
    (
        b"POST / HTTP/1.1\r\nconnection: close\r\ncontent-length: 65537\r\n\r\n",
        b"x",
        65_537,
        b"GET / HTTP/1.1\r\n\r\n",
        b"large;GET / - ;end",
    ),
    (
        b"POST / HTTP/1.1\r\ncontent-length: 180000\r\n\r\n",
        b"GET / HTTP/1.1\r\n\r\n",
        10_002,
        b"",
        b"large;GET / - ;GET / - ;end",
    ),
];

fn first_wrong_limit(rt: &impl Abort, alloc: Global, rows: &[LimitRow]) -> Option<usize> {
    for (at, row) in rows.iter().enumerate() {
        let bytes = joined(rt, alloc, row.0, row.1, row.2, row.3);
        if told(rt, alloc, &bytes, 4_096, Calls::new(alloc)).as_slice() != row.4 {
            return Some(at);
        }
    }
    None
}

#[test]
fn limits_are_kept(rt: HostRuntime) {
    let alloc = rt.alloc();
    assert_eq!(rt; first_wrong_limit(&rt, alloc, LIMITS), None);
    let whole = joined(
        &rt,
        alloc,
        b"POST / HTTP/1.1\r\ncontent-length: 65536\r\n\r\n",
        b"x",
        65_536,
        b"",
    );
    let out = told(&rt, alloc, &whole, 4_096, Calls::new(alloc));
    assert_eq!(rt; out.len(), 65_536 + b"POST / - ;end".len());
}

/// The first number of bytes from the front that are no cut message.
fn first_uncut(rt: &impl Abort, alloc: Global, bytes: &[u8]) -> Option<usize> {
    for size in 1..bytes.len() {
        let out = told(rt, alloc, &bytes[..size], 7, Calls::new(alloc));
        if out.as_slice() != b"cut".as_slice() {
            return Some(size);
        }
    }
    None
}

#[test]
fn a_message_is_cut_at_each_byte(rt: HostRuntime) {
    let alloc = rt.alloc();
    let bytes = b"\r\nPOST /a HTTP/1.1\r\nx-gate-key: k\r\ncontent-length: 3\r\n\r\nabc";
    assert_eq!(rt; first_uncut(&rt, alloc, bytes), None);
    let out = told(&rt, alloc, bytes, 7, Calls::new(alloc));
    assert_eq!(rt; out.as_slice(), b"POST /a k abc;end".as_slice());
}

#[test]
fn a_fault_loses_nothing(rt: HostRuntime) {
    let alloc = rt.alloc();
    let text = b"GET / HTTP/1.1\r\n\r\nGET /b HTTP/1.1\r\n\r\n";
    let bytes = Bytes::from_slice(alloc, text).expect(&rt, "memory");
    let mut fails = Calls::new(alloc);
    fails.push(2).expect(&rt, "memory");
    let inner = MemorySource::new(bytes, fails);
    let mut source = Pieces { inner, most: 30 };
    let mut wire = Wire::new(alloc);
    let first = wire.read_message(alloc, &mut source);
    assert!(rt; matches!(&first, Got::Message(_)));
    let second = wire.read_message(alloc, &mut source);
    assert!(rt; matches!(&second, Got::Fault));
    let third = wire.read_message(alloc, &mut source);
    assert!(rt;
        matches!(&third, Got::Message(message) if message.path.as_slice() == b"/b".as_slice())
    );
    let last = wire.read_message(alloc, &mut source);
    assert!(rt; matches!(&last, Got::End));
}

#[test]
fn what_is_held_is_read_first(rt: HostRuntime) {
    let alloc = rt.alloc();
    let text = b"GET / HTTP/1.1\r\n\r\nGET /b HTTP/1.1\r\n\r\n";
    let mut fails = Calls::new(alloc);
    fails.push(2).expect(&rt, "memory");
    let out = told(&rt, alloc, text, 4_096, fails);
    assert_eq!(rt; out.as_slice(), b"GET / - ;GET /b - ;fault".as_slice());
}
