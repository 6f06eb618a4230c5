mod replies;

use super::*;
use gate_base::{Bytes, Labels, Sixteen, Target, Targets};
use gate_entries::{Command, Reply, Why, Whys};
use plant::{Calls, MemorySource};
use std::alloc::Global;
use std::process::Abort;

/// An order for `example.com` and `*.a1.b2`, and a byte behind it.
const ORDER: &[u8] =
    b"POST /orders HTTP/1.1\r\nhost: gate\r\nx-gate-key: acme-token\r\ncontent-length: 88\r\n\r\n{\"common\":false,\"days\":90,\"key\":\"k1\",\"names\":[\"example.com\",\"*.a1.b2\"],\"request\":\"MAA=\"}P";

/// Three labels of 63 bytes, with a dot before each: 192 bytes.
const THREE_LABELS: &str = ".bbbbbbbbbbbbbbbbbbbbbbbbbbbbbbbbbbbbbbbbbbbbbbbbbbbbbbbbbbbbbbb\
    .bbbbbbbbbbbbbbbbbbbbbbbbbbbbbbbbbbbbbbbbbbbbbbbbbbbbbbbbbbbbbbb\
    .bbbbbbbbbbbbbbbbbbbbbbbbbbbbbbbbbbbbbbbbbbbbbbbbbbbbbbbbbbbbbbb";

const HEAD: &str =
    "POST /orders HTTP/1.1\r\nhost: gate\r\nx-gate-key: acme-token\r\ncontent-length: ";

/// A message that finalizes order 7.
const FINALIZE: &[u8] =
    b"POST /orders/007/finalize HTTP/1.1\r\nhost: gate\r\nx-gate-key: acme-token\r\n\r\n";

/// What stands behind the number of an order to finalize, and a byte behind it.
const FINALIZE_END: &str = "/finalize HTTP/1.1\r\nhost: gate\r\nx-gate-key: acme-token\r\n\r\nP";

const MESSAGE: u64 = 1_000;

const MORE: u64 = 2_000;

const NEVER: u64 = 3_000;

/// A message as 1,000 and how many bytes stand behind it; what else was found as one of the other numbers.
fn number_of(found: &Found) -> u64 {
    match found {
        Found::Message { left, .. } => MESSAGE.saturating_add(*left as u64),
        Found::More => MORE,
        Found::Never => NEVER,
        Found::NoMemory => 0,
    }
}

fn joined(rt: &impl Abort, alloc: Global, pieces: &[&str]) -> String {
    let mut text = String::new(alloc);
    for piece in pieces {
        text.push_str(piece).expect(rt, "memory");
    }
    text
}

fn repeated(rt: &impl Abort, alloc: Global, piece: &str, count: u64) -> String {
    let mut text = String::new(alloc);
    for _ in 0..count {
        text.push_str(piece).expect(rt, "memory");
    }
    text
}

/// What is found in these pieces, one behind another.
fn told(rt: &impl Abort, alloc: Global, pieces: &[&str]) -> u64 {
    let text = joined(rt, alloc, pieces);
    number_of(&find_message(alloc, text.as_bytes()))
}

/// What is found of a body.
fn bodied(rt: &impl Abort, alloc: Global, body: &str) -> u64 {
    let size = body.len();
    let size = format!(in alloc; "{size}").expect(rt, "memory");
    told(rt, alloc, &[HEAD, &size, "\r\n\r\n", body])
}

/// What is found of an order of these members: days, retry key, names and request.
fn ordered(rt: &impl Abort, alloc: Global, members: [&str; 4]) -> u64 {
    let [days, key, names, request] = members;
    let body = joined(
        rt,
        alloc,
        &[
            "{\"common\":false,\"days\":",
            days,
            ",\"key\":\"",
            key,
            "\",\"names\":[",
            names,
            "],\"request\":\"",
            request,
            "\"}",
        ],
    );
    bodied(rt, alloc, &body)
}

/// What is found of an order whose retry key has so many letters.
fn keyed(rt: &impl Abort, alloc: Global, letters: u64) -> u64 {
    let key = repeated(rt, alloc, "k", letters);
    ordered(rt, alloc, ["90", &key, "\"a.b\"", "MAA="])
}

/// What is found of an order with a request of 16,383 bytes and those behind them, in base64.
fn requested(rt: &impl Abort, alloc: Global, last: &str) -> u64 {
    let front = repeated(rt, alloc, "MAAA", 5_461);
    let request = joined(rt, alloc, &[&front, last]);
    ordered(rt, alloc, ["90", "k1", "\"a.b\"", &request])
}

/// What is found of an order for so many names, the last of which is another one or the first again.
fn counted(rt: &impl Abort, alloc: Global, count: u64, last: &str) -> u64 {
    let mut names = String::new(alloc);
    for number in 1..count {
        let name = format!(in alloc; "\"n{number}.com\",").expect(rt, "memory");
        names.push_str(&name).expect(rt, "memory");
    }
    names.push_str(last).expect(rt, "memory");
    ordered(rt, alloc, ["90", "k1", &names, "MAA="])
}

/// What is found of an order for one name, with so many letters in front.
fn named(rt: &impl Abort, alloc: Global, letters: u64, name: &str) -> u64 {
    let letters = repeated(rt, alloc, "a", letters);
    let names = joined(rt, alloc, &["\"", &letters, name, "\""]);
    ordered(rt, alloc, ["90", "k1", &names, "MAA="])
}

/// What is found in so many bytes of the order.
fn cut(alloc: Global, size: usize) -> u64 {
    match ORDER.get(..size) {
        Some(front) => number_of(&find_message(alloc, front)),
        None => 0,
    }
}

fn is_order(command: &Command) -> bool {
    match command {
        Command::Order {
            key,
            targets,
            days,
            common,
            request,
        } => {
            key.as_slice() == b"k1".as_slice()
                && *days == 90
                && !*common
                && request.as_slice() == b"0\0".as_slice()
                && are_its_names(targets)
        }
        Command::Challenge { .. }
        | Command::Observe { .. }
        | Command::ObserveCaa { .. }
        | Command::Finalize { .. }
        | Command::Block { .. } => false,
    }
}

fn are_its_names(targets: &Targets) -> bool {
    match targets.as_slice() {
        [Target::Dns(first), Target::Dns(second)] => !first.wild
            && are_labels(&first.labels, b"example", b"com")
            && second.wild
            && are_labels(&second.labels, b"a1", b"b2"),
        _ => false,
    }
}

fn are_labels(labels: &Labels, left: &[u8], right: &[u8]) -> bool {
    match labels.as_slice() {
        [first, second] => is_label(first, left) && is_label(second, right),
        _ => false,
    }
}

fn is_label(label: &Bytes, text: &[u8]) -> bool {
    label.as_slice() == text
}

/// What is found of a message that finalizes the order with a number of these digits, and its number.
fn finalized(rt: &impl Abort, alloc: Global, digits: &str) -> (u64, Option<u64>) {
    let text = joined(rt, alloc, &["POST /orders/", digits, FINALIZE_END]);
    let found = find_message(alloc, text.as_bytes());
    let order = match &found {
        Found::Message {
            command: Command::Finalize { order },
            ..
        } => Some(*order),
        _ => None,
    };
    (number_of(&found), order)
}

const SERIAL: Sixteen = Sixteen([0x40, 0xab, 9, 0xff, 0, 1, 2, 3, 4, 5, 6, 7, 8, 9, 10, 11]);

/// What a reply says.
#[derive(Clone, Copy)]
enum Says {
    Issued(&'static [u8]),
    Blocked(u64),
    RoleDenied,
    NoSuchOrder,
    BadFields(u8),
    EntropyRepeat,
    /// Refused for keys that the entries with these numbers block.
    Refused(&'static [u64]),
    EntropyFault,
    SignerFault,
    Full,
}

fn whys(rt: &impl Abort, alloc: Global, numbers: &[u64]) -> Whys {
    let mut whys = Whys::new(alloc);
    for number in numbers {
        whys.push(Why::KeyBlocked { number: *number })
            .expect(rt, "memory");
    }
    whys
}

fn reply(rt: &impl Abort, alloc: Global, says: Says) -> Reply {
    match says {
        Says::Issued(certificate) => Reply::Issued {
            order: 18_446_744_073_709_551_615,
            serial: SERIAL,
            certificate: Bytes::from_slice(alloc, certificate).expect(rt, "memory"),
        },
        Says::Blocked(number) => Reply::Blocked { number },
        Says::RoleDenied => Reply::RoleDenied,
        Says::NoSuchOrder => Reply::NoSuchOrder,
        Says::BadFields(rule) => Reply::BadFields { rule },
        Says::EntropyRepeat => Reply::EntropyRepeat { value: SERIAL },
        Says::Refused(numbers) => Reply::Refused {
            why: whys(rt, alloc, numbers),
        },
        Says::EntropyFault => Reply::EntropyFault,
        Says::SignerFault => Reply::SignerFault,
        Says::Full => Reply::Full,
    }
}

/// What a reply says, the status line of its response, and the size of its body and the body.
const REPLIES: &[(Says, &str, &str, &str)] = &[
    (
        Says::Issued(b"\x30\x01\x02\xff"),
        "200 OK",
        "116",
        "{\"certificate\":\"MAEC/w==\",\"order\":18446744073709551615,\"reply\":\"issued\",\
            \"serial\":\"40ab09ff000102030405060708090a0b\"}",
    ),
    (
        Says::Blocked(2),
        "200 OK",
        "30",
        "{\"number\":2,\"reply\":\"blocked\"}",
    ),
    (
        Says::RoleDenied,
        "403 Forbidden",
        "23",
        "{\"reply\":\"role_denied\"}",
    ),
    (
        Says::NoSuchOrder,
        "404 Not Found",
        "25",
        "{\"reply\":\"no_such_order\"}",
    ),
    (
        Says::BadFields(7),
        "422 Unprocessable Entity",
        "31",
        "{\"reply\":\"bad_fields\",\"rule\":7}",
    ),
    (
        Says::EntropyRepeat,
        "503 Service Unavailable",
        "69",
        "{\"reply\":\"entropy_repeat\",\"value\":\"40ab09ff000102030405060708090a0b\"}",
    ),
    (
        Says::Refused(&[]),
        "422 Unprocessable Entity",
        "28",
        "{\"reply\":\"refused\",\"why\":[]}",
    ),
    (
        Says::Refused(&[3]),
        "422 Unprocessable Entity",
        "61",
        "{\"reply\":\"refused\",\"why\":[{\"number\":3,\"rule\":\"key_blocked\"}]}",
    ),
    (
        Says::Refused(&[3, 12, 4]),
        "422 Unprocessable Entity",
        "130",
        "{\"reply\":\"refused\",\"why\":[{\"number\":3,\"rule\":\"key_blocked\"},\
            {\"number\":12,\"rule\":\"key_blocked\"},{\"number\":4,\"rule\":\"key_blocked\"}]}",
    ),
    (
        Says::EntropyFault,
        "503 Service Unavailable",
        "25",
        "{\"reply\":\"entropy_fault\"}",
    ),
    (
        Says::SignerFault,
        "503 Service Unavailable",
        "24",
        "{\"reply\":\"signer_fault\"}",
    ),
    (
        Says::Full,
        "507 Insufficient Storage",
        "16",
        "{\"reply\":\"full\"}",
    ),
];

#[test]
fn replies_are_spelled(rt: HostRuntime) {
    let alloc = rt.alloc();
    for (says, status, size, json) in REPLIES {
        let want = joined(
            &rt,
            alloc,
            &[
                "HTTP/1.1 ",
                status,
                "\r\ncontent-type: application/json\r\ncontent-length: ",
                size,
                "\r\n\r\n",
                json,
            ],
        );
        let reply = reply(&rt, alloc, *says);
        let text = reply_text(alloc, &reply).expect(&rt, "memory");
        assert_eq!(rt; text, want);
    }
}

/// The digits of an order's number, and the number that is read.
const NUMBERS: &[(&str, Option<u64>)] = &[
    ("7", Some(7)),
    ("0", Some(0)),
    ("007", Some(7)),
    ("9999999999999999999", Some(9_999_999_999_999_999_999)),
    ("0000000000000000012", Some(12)),
    ("10000000000000000000", None),
    ("00000000000000000007", None),
    ("", None),
    ("+7", None),
    ("7a", None),
    ("7/8", None),
];

/// The pieces of a text, and what is found in it.
const TEXTS: &[(&[&str], u64)] = &[
    // behind the number of an order to finalize
    (&["POST /orders/12345678901234567890"], NEVER),
    (&["POST /orders/1234567890123456789"], MORE),
    (&["POST /orders/7/"], MORE),
    (&["POST /orders/7/finalise"], NEVER),
    (&["POST /orders/7/challenges HTTP/1.1"], NEVER),
    (&["POST /orders/7/finalize HTTP/1.0"], NEVER),
    (
        &["POST /orders/7/finalize HTTP/1.1\r\nhost: gate\r\n\r\n"],
        NEVER,
    ),
    (&["POST /orders/7 HTTP/1.1"], NEVER),
    (&["POST /orders/ HTTP/1.1"], NEVER),
    // heads of another form
    (&["GET "], NEVER),
    (&["POST /orders HTTP/1.0"], NEVER),
    (&["POST /orders HTTP/1.1\n"], NEVER),
    (&["POST /orders HTTP/1.1\r\nhost: gate\r\n\r\n"], NEVER),
    // sizes of a body
    (&[HEAD, "65536\r\n\r\n"], MORE),
    (&[HEAD, "65537\r\n\r\n"], NEVER),
    (&[HEAD, "99999"], MORE),
    (&[HEAD, "100000"], NEVER),
    (&[HEAD, "88\r\n\r"], MORE),
    (&[HEAD, "88\r\r"], NEVER),
    (&[HEAD, "088\r\n\r\n"], NEVER),
    (&[HEAD, "0\r\n\r\n"], NEVER),
    (&[HEAD, "\r\n"], NEVER),
    (&[HEAD, "8x"], NEVER),
    (&[HEAD, " 8"], NEVER),
    (&[HEAD, "+8"], NEVER),
];

#[test]
fn messages_are_found_by_their_heads(rt: HostRuntime) {
    let alloc = rt.alloc();
    let found = find_message(alloc, ORDER);
    assert_eq!(rt; number_of(&found), MESSAGE + 1);
    match &found {
        Found::Message { command, .. } => assert!(rt; is_order(command)),
        _ => assert!(rt; false),
    }
    for size in [0, 1, 40, 59, 75, 76, 77, 78, 81, 82, 100, 168] {
        assert_eq!(rt; cut(alloc, size), MORE, "of {size} bytes");
    }
    assert_eq!(rt; cut(alloc, 169), MESSAGE);
    for count in 0..FINALIZE.len() {
        let front = FINALIZE.get(..count).expect(&rt, "fewer bytes");
        assert_eq!(rt;
            number_of(&find_message(alloc, front)),
            MORE,
            "of {count} bytes"
        );
    }
    assert_eq!(rt; number_of(&find_message(alloc, FINALIZE)), MESSAGE);
    for (digits, want) in NUMBERS {
        let found = match want {
            Some(_) => MESSAGE + 1,
            None => NEVER,
        };
        assert_eq!(rt; finalized(&rt, alloc, digits), (found, *want), "{digits}");
    }
    for (pieces, want) in TEXTS {
        assert_eq!(rt; told(&rt, alloc, pieces), *want, "{pieces:?}");
    }
}

/// Days, retry key, names and request of an order, and what is found.
const ORDERS: &[([&str; 4], u64)] = &[
    (["1", "k", "\"a.b\"", "MA=="], MESSAGE),
    (["398", "0", "\"a.b\",\"*.a.b\"", "MAAA"], MESSAGE),
    (["0", "k", "\"a.b\"", "MA=="], NEVER),
    (["399", "k", "\"a.b\"", "MA=="], NEVER),
    (["090", "k", "\"a.b\"", "MA=="], NEVER),
    (["", "k", "\"a.b\"", "MA=="], NEVER),
    (["90", "", "\"a.b\"", "MA=="], NEVER),
    (["90", "K", "\"a.b\"", "MA=="], NEVER),
    (["90", "k-", "\"a.b\"", "MA=="], NEVER),
    (["90", "k", "", "MA=="], NEVER),
    (["90", "k", "\"a.b\",", "MA=="], NEVER),
    (["90", "k", "\"a.b\" ", "MA=="], NEVER),
    (["90", "k", "\"a.b\",\"c.d\",\"a.b\"", "MA=="], NEVER),
    (["90", "k", "\"a.b\"", ""], NEVER),
    (["90", "k", "\"a.b\"", "MA="], NEVER),
    (["90", "k", "\"a.b\"", "MB=="], NEVER),
    (["90", "k", "\"a.b\"", "MA-_"], NEVER),
];

/// So many letters and what stands behind them as a name, and what is found.
const NAMES: &[(u64, &str, u64)] = &[
    (0, "a", MESSAGE),
    (0, "0.a9", MESSAGE),
    (0, "", NEVER),
    (0, "*.", NEVER),
    (0, "*", NEVER),
    (0, "*.*.a", NEVER),
    (0, ".a", NEVER),
    (0, "a.", NEVER),
    (0, "a..b", NEVER),
    (0, "A.b", NEVER),
    (0, "a-1.b", NEVER),
    (0, "a.9b", NEVER),
    (0, "a.b\\u0020", NEVER),
    (63, ".b", MESSAGE),
    (64, ".b", NEVER),
    (61, THREE_LABELS, MESSAGE),
    (62, THREE_LABELS, NEVER),
];

#[test]
fn orders_are_found_by_their_bodies(rt: HostRuntime) {
    let alloc = rt.alloc();
    for (members, want) in ORDERS {
        assert_eq!(rt; ordered(&rt, alloc, *members), *want, "{members:?}");
    }
    for (letters, name, want) in NAMES {
        assert_eq!(rt;
            named(&rt, alloc, *letters, name),
            *want,
            "{letters} letters and {name}"
        );
    }
    for (count, last, want) in [
        (100, "\"n0.com\"", MESSAGE),
        (101, "\"n0.com\"", NEVER),
        (100, "\"n99.com\"", NEVER),
    ] {
        assert_eq!(rt; counted(&rt, alloc, count, last), want, "{count} names");
    }
    assert_eq!(rt; bodied(&rt, alloc, "{}"), NEVER);
    // keys of 64 and 65 letters, and requests of 16,384 and 16,385 bytes
    for (letters, want) in [(64, MESSAGE), (65, NEVER)] {
        assert_eq!(rt; keyed(&rt, alloc, letters), want, "{letters} letters");
    }
    for (last, want) in [("MA==", MESSAGE), ("MAA=", NEVER)] {
        assert_eq!(rt; requested(&rt, alloc, last), want, "{last}");
    }
}

#[test]
fn messages_are_taken_one_after_another(rt: HostRuntime) {
    let alloc = rt.alloc();
    let mut bytes = FINALIZE.to_vec(alloc).expect(&rt, "memory");
    bytes.extend_from_slice(ORDER).expect(&rt, "memory");
    let mut source = MemorySource::new(Bytes::from_vec(bytes), Calls::new(alloc));
    let mut stream = Stream::new(alloc);
    let first = stream.take_message(alloc, &mut source);
    assert!(rt; matches!(&first, Taken::Message(Command::Finalize { order: 7 })));
    let second = stream.take_message(alloc, &mut source);
    assert!(rt; matches!(&second, Taken::Message(command) if is_order(command)));
    let last = stream.take_message(alloc, &mut source);
    assert!(rt; matches!(&last, Taken::NotBuilt));
}
