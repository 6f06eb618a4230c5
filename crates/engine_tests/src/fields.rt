//! Orders with fields that break a rule: the least one is told, and nothing is written.
ghost use Rattle.gate_entries.specs.Command.{IsCommand};

use crate::commands::{
    BAD_FIELDS, BEGUN, Gate, KEY_REUSED, PLACED, Said, bytes, caller, empty_plant, gate_over, said,
};
use crate::listed::{put, put_counted};
use crate::requests::{
    DNS, General, IP, P256, P384, P521, key, long_request, names_attribute, point_key, request,
    request_with, rsa_key,
};
use crate::settings::begin_journal;
use gate_base::Bytes;
use gate_entries::{Command, Entry, What, read_entry};
use std::alloc::Global;
use std::process::Abort;

/// A name or an address of an order.
#[derive(Clone, Copy)]
enum Named {
    Name(&'static [u8]),
    Wildcard(&'static [u8]),
    /// Four octets, or sixteen.
    Address(&'static [u8]),
    /// 192.0.2 and this octet.
    Host(u8),
}

use Named::{Address, Host, Name, Wildcard};

/// The fields of an order beside its request.
#[derive(Clone, Copy)]
struct Fields<'a> {
    key: &'a [u8],
    names: &'a [Named],
    days: u16,
    common: bool,
}

fn put_named(rt: &impl Abort, out: &mut Vec<u8>, named: Named) {
    match named {
        Name(text) => {
            put(rt, out, &[1, 0]);
            put_counted(rt, out, text);
        }
        Wildcard(behind) => {
            put(rt, out, &[1, 1]);
            put_counted(rt, out, behind);
        }
        Address(octets) => {
            put(rt, out, &[if octets.len() == 4 { 2 } else { 3 }]);
            put(rt, out, octets);
        }
        Host(octet) => put(rt, out, &[2, 192, 0, 2, octet]),
    }
}

/// The order's entry, whose number, moment and caller are nothing in particular.
fn entry_bytes(rt: &impl Abort, alloc: Global, fields: Fields<'_>, request: &[u8]) -> Vec<u8> {
    let count = u8::try_from(fields.names.len()).expect(rt, "a few names");
    let size = u16::try_from(request.len()).expect(rt, "a request");
    let mut out = Vec::new(alloc);
    put(rt, &mut out, &[2]);
    put(rt, &mut out, &[0; 18]);
    put_counted(rt, &mut out, fields.key);
    put(rt, &mut out, &[u8::from(fields.common)]);
    put(rt, &mut out, &fields.days.to_be_bytes());
    put(rt, &mut out, &[count]);
    for named in fields.names {
        put_named(rt, &mut out, *named);
    }
    put(rt, &mut out, &size.to_be_bytes());
    put(rt, &mut out, request);
    out
}

/// The order that such an entry says.
fn order(rt: &impl Abort, alloc: Global, fields: Fields<'_>, request: &[u8]) -> Command
    ensures { IsCommand result }
{
    let written = entry_bytes(rt, alloc, fields, request);
    let Entry { what, .. } = read_entry(alloc, written.as_slice()).expect(rt, "an entry");
    match what {
        What::Order {
            key,
            common,
            days,
            targets,
            request,
        } => Command::Order {
            key,
            targets,
            days,
            common,
            request,
        },
        _ => rt.panic("no order"),
    }
}

fn begun_gate(rt: &impl Abort, alloc: Global) -> Gate {
    let mut plant = empty_plant(rt, alloc, &[]);
    begin_journal(rt, alloc, &mut plant);
    gate_over(rt, alloc, plant, &[Some(BEGUN)])
}

/// The gate's reply to the order of account `acme`. What isn't placed writes nothing.
fn reply(
    rt: &impl Abort,
    alloc: Global,
    gate: &mut Gate,
    fields: Fields<'_>,
    request: &[u8],
) -> Said {
    let before = gate.plant.disk().len();
    let count = gate.engine.count();
    let asked = order(rt, alloc, fields, request);
    let reply = said(gate.ask(&caller(rt, alloc, 0), &asked));
    let (kind, _) = reply;
    if kind != PLACED {
        assert_eq!(rt; gate.plant.disk().len(), before);
        assert_eq!(rt; gate.engine.count(), count);
    }
    reply
}

// ---- retry keys, names, days and sizes

const ONE: &[Named] = &[Name(b"example.com")];

const NONE: &[Named] = &[];

const TWICE: &[Named] = &[
    Name(b"example.com"),
    Name(b"www.example.com"),
    Name(b"example.com"),
];

const ADDRESS_TWICE: &[Named] = &[
    Name(b"example.com"),
    Address(b"\xc0\0\x02\x01"),
    Address(b"\xc0\0\x02\x01"),
];

/// A name, the wildcard below it, and addresses of both kinds.
const FOUR: &[Named] = &[
    Name(b"example.com"),
    Wildcard(b"example.com"),
    Address(b"\xc0\0\x02\x01"),
    Address(b"\x20\x01\x0d\xb8\0\0\0\0\0\0\0\0\0\0\0\x01"),
];

const ADDRESS_FIRST: &[Named] = &[Address(b"\xc0\0\x02\x01"), Name(b"example.com")];

/// Texts of 64 and of 65 bytes.
const TEXT_OF_64: &[Named] = &[Name(
    b"a123456789a123456789a123456789a123456789a123456789ab.example.com",
)];

const TEXT_OF_65: &[Named] = &[Name(
    b"a123456789a123456789a123456789a123456789a123456789abc.example.com",
)];

const WILDCARD_OF_64: &[Named] = &[Wildcard(
    b"a123456789a123456789a123456789a123456789a123456789.example.com",
)];

const WILDCARD_OF_65: &[Named] = &[Wildcard(
    b"a123456789a123456789a123456789a123456789a123456789a.example.com",
)];

const LONG_SECOND: &[Named] = &[
    Name(b"example.com"),
    Name(b"a123456789a123456789a123456789a123456789a123456789abc.example.com"),
];

const KEY_OF_64: &[u8] = b"0123456789abcdef0123456789abcdef0123456789abcdef0123456789abcdef";

const KEY_OF_65: &[u8] = b"0123456789abcdef0123456789abcdef0123456789abcdef0123456789abcdef0";

/// Retry key, names, days, whether there is a common name, the size of the request, and the reply. The requests are good,
/// but for their size; that of 118 bytes is the small one.
const FIELDS: &[(&[u8], &[Named], u16, bool, usize, Said)] = &[
    (b"k1", ONE, 47, false, 118, (PLACED, 2)),
    // 1: the retry key, alone and beside other faults
    (b"", ONE, 47, false, 118, (BAD_FIELDS, 1)),
    (KEY_OF_65, ONE, 47, false, 118, (BAD_FIELDS, 1)),
    (b"k 1", ONE, 47, false, 118, (BAD_FIELDS, 1)),
    (b" k1", ONE, 47, false, 118, (BAD_FIELDS, 1)),
    (b"k\x7f", ONE, 47, false, 118, (BAD_FIELDS, 1)),
    (b"k\x80", ONE, 47, false, 118, (BAD_FIELDS, 1)),
    (b"k\xff", ONE, 47, false, 118, (BAD_FIELDS, 1)),
    (b"k\0", ONE, 47, false, 118, (BAD_FIELDS, 1)),
    (b"", NONE, 0, true, 16_385, (BAD_FIELDS, 1)),
    (b"", TWICE, 399, false, 118, (BAD_FIELDS, 1)),
    (KEY_OF_64, ONE, 47, false, 118, (PLACED, 3)),
    (b"!~", ONE, 47, false, 118, (PLACED, 4)),
    // 2 and 3: no name, and names that stand twice
    (b"k2", NONE, 47, false, 118, (BAD_FIELDS, 2)),
    (b"k2", NONE, 0, true, 16_385, (BAD_FIELDS, 2)),
    (b"k2", TWICE, 47, false, 118, (BAD_FIELDS, 3)),
    (b"k2", TWICE, 0, true, 16_385, (BAD_FIELDS, 3)),
    (b"k2", ADDRESS_TWICE, 47, false, 118, (BAD_FIELDS, 3)),
    (b"k2", FOUR, 47, false, 118, (PLACED, 5)),
    // 4: the days
    (b"k3", ONE, 0, false, 118, (BAD_FIELDS, 4)),
    (b"k3", ONE, 399, false, 118, (BAD_FIELDS, 4)),
    (b"k3", ONE, 65_535, false, 118, (BAD_FIELDS, 4)),
    (b"k3", ADDRESS_FIRST, 0, true, 16_385, (BAD_FIELDS, 4)),
    (b"k3", ONE, 1, false, 118, (PLACED, 6)),
    (b"k4", ONE, 398, false, 118, (PLACED, 7)),
    // 5: the common name
    (b"k5", ADDRESS_FIRST, 47, true, 118, (BAD_FIELDS, 5)),
    (b"k5", TEXT_OF_65, 47, true, 118, (BAD_FIELDS, 5)),
    (b"k5", WILDCARD_OF_65, 47, true, 118, (BAD_FIELDS, 5)),
    (b"k5", TEXT_OF_65, 47, true, 16_385, (BAD_FIELDS, 5)),
    (b"k5", ADDRESS_FIRST, 47, false, 118, (PLACED, 8)),
    (b"k6", TEXT_OF_65, 47, false, 118, (PLACED, 9)),
    (b"k7", TEXT_OF_64, 47, true, 118, (PLACED, 10)),
    (b"k8", WILDCARD_OF_64, 47, true, 118, (PLACED, 11)),
    (b"k9", LONG_SECOND, 47, true, 118, (PLACED, 12)),
    // 6: the request's size
    (b"k10", ONE, 47, false, 16_385, (BAD_FIELDS, 6)),
    (b"k10", ONE, 47, false, 65_535, (BAD_FIELDS, 6)),
    (b"k10", ONE, 47, false, 16_384, (PLACED, 13)),
    // a retry key that stands is judged first
    (b"k1", ONE, 47, false, 118, (PLACED, 2)),
    (b"k1", NONE, 0, true, 16_385, (KEY_REUSED, 2)),
    (b"k1", TWICE, 47, false, 118, (KEY_REUSED, 2)),
    (b"k10", ONE, 399, false, 16_384, (KEY_REUSED, 13)),
    // a retry key of a refused order didn't stand
    (b"k3", ONE, 0, false, 118, (KEY_REUSED, 6)),
    (b"k11", ONE, 0, false, 118, (BAD_FIELDS, 4)),
    (b"k11", ONE, 48, false, 118, (PLACED, 14)),
];

fn sized_request(rt: &impl Abort, alloc: Global, size: usize) -> Bytes {
    match size {
        118 => request(rt, alloc, 0x11),
        _ => long_request(rt, alloc, size),
    }
}

/// So many names, each another one.
fn many_names(rt: &impl Abort, alloc: Global, count: usize) -> Vec<Named> {
    let mut names = Vec::new(alloc);
    for octet in 0..=255 {
        if names.len() < count {
            names.push(Host(octet)).expect(rt, "memory");
        }
    }
    names
}

/// The retry key, how many names, and the reply.
const COUNTS: &[(&[u8], usize, Said)] = &[
    (b"a", 0, (BAD_FIELDS, 2)),
    (b"b", 1, (PLACED, 15)),
    (b"c", 100, (PLACED, 16)),
    (b"d", 101, (BAD_FIELDS, 2)),
    (b"e", 255, (BAD_FIELDS, 2)),
];

/// The reply to an order for so many names.
fn counted(rt: &impl Abort, alloc: Global, gate: &mut Gate, key: &[u8], count: usize) -> Said {
    let request = request(rt, alloc, 0x11);
    let names = many_names(rt, alloc, count);
    let fields = Fields {
        key,
        names: names.as_slice(),
        days: 47,
        common: false,
    };
    reply(rt, alloc, gate, fields, request.as_slice())
}

#[test]
fn the_least_broken_rule_is_told(rt: HostRuntime) {
    let alloc = rt.alloc();
    let mut gate = begun_gate(&rt, alloc);
    for (key, names, days, common, size, want) in FIELDS {
        let fields = Fields {
            key: *key,
            names: *names,
            days: *days,
            common: *common,
        };
        let request = sized_request(&rt, alloc, *size);
        let got = reply(&rt, alloc, &mut gate, fields, request.as_slice());
        assert_eq!(rt; got, *want, "{key:?} {days} {common} {size}");
    }
    assert_eq!(rt; gate.engine.count(), 14);
    for (key, count, want) in COUNTS {
        let got = counted(&rt, alloc, &mut gate, key, *count);
        assert_eq!(rt; got, *want, "{count} names");
    }
}

// ---- requests

/// The names of a subjectAltName.
type Sans = &'static [General];

/// A request, good but for what its variant says.
#[derive(Clone, Copy, Debug)]
enum Asking {
    /// These bytes.
    These(&'static [u8]),
    /// The good request up to this place, and behind it as many zeros.
    Cut(usize, usize),
    Version(u8),
    /// The version 1 and a point in compressed form.
    VersionAndKey,
    /// The curve's algorithm, the point's form, and the size of its coordinates.
    Point(&'static [u8], u8, usize),
    /// The modulus's first byte and size, and the exponent.
    Rsa(u8, usize, &'static [u8]),
    /// Attributes as they are.
    Attributes(&'static [u8]),
    /// A subjectAltName with these names.
    San(Sans),
    TwoSans(Sans, Sans),
    /// A point in compressed form, and two subjectAltNames.
    KeyAndSans(Sans, Sans),
}

use Asking::{
    Attributes, Cut, KeyAndSans, Point, Rsa, San, These, TwoSans, Version, VersionAndKey,
};

fn compressed(rt: &impl Abort, alloc: Global) -> Vec<u8> {
    point_key(rt, alloc, P256, 2, 32, 0x11)
}

fn cut_request(rt: &impl Abort, alloc: Global, kept: usize, zeros: usize) -> Bytes {
    let request = request(rt, alloc, 0x11);
    let mut out = Vec::new(alloc);
    for (place, byte) in request.as_slice().iter().enumerate() {
        if place < kept {
            put(rt, &mut out, &[*byte]);
        }
    }
    out.resize(out.len().saturating_add(zeros), 0)
        .expect(rt, "memory");
    Bytes::from_vec(out)
}

fn request_of(rt: &impl Abort, alloc: Global, asking: Asking) -> Bytes {
    let good = key(rt, alloc, 0x11);
    let good = good.as_slice();
    match asking {
        These(written) => bytes(rt, alloc, written),
        Cut(kept, zeros) => cut_request(rt, alloc, kept, zeros),
        Version(version) => request_with(rt, alloc, version, good, b""),
        VersionAndKey => request_with(rt, alloc, 1, &compressed(rt, alloc), b""),
        Point(curve, form, size) => {
            let key = point_key(rt, alloc, curve, form, size, 0x11);
            request_with(rt, alloc, 0, &key, b"")
        }
        Rsa(first, size, exponent) => {
            let key = rsa_key(rt, alloc, first, size, exponent);
            request_with(rt, alloc, 0, &key, b"")
        }
        Attributes(written) => request_with(rt, alloc, 0, good, written),
        San(names) => {
            let attribute = names_attribute(rt, alloc, &[names]);
            request_with(rt, alloc, 0, good, &attribute)
        }
        TwoSans(names, others) => {
            let attribute = names_attribute(rt, alloc, &[names, others]);
            request_with(rt, alloc, 0, good, &attribute)
        }
        KeyAndSans(names, others) => {
            let attribute = names_attribute(rt, alloc, &[names, others]);
            request_with(rt, alloc, 0, &compressed(rt, alloc), &attribute)
        }
    }
}

/// Two names, and an address.
const THREE: &[Named] = &[
    Name(b"example.com"),
    Wildcard(b"example.com"),
    Address(b"\xc0\0\x02\x01"),
];

const EXAMPLE: General = (DNS, b"example.com");

const WILD: General = (DNS, b"*.example.com");

const HOST: General = (IP, b"\xc0\0\x02\x01");

const OTHER: General = (DNS, b"example.net");

const BAD: General = (DNS, b"a_b.com");

/// An attribute that is no SEQUENCE, and one without values.
const NO_ATTRIBUTE: &[u8] = b"\x05\0";

const NO_VALUES: &[u8] = b"\x30\x0b\x06\x09\x2a\x86\x48\x86\xf7\x0d\x01\x09\x0e";

/// A subjectAltName whose value is an INTEGER.
const SAN_OF_INTEGER: &[u8] =
    b"\x30\x1b\x06\x09\x2a\x86\x48\x86\xf7\x0d\x01\x09\x0e\x31\x0e\x30\x0c\x30\x0a\
    \x06\x03\x55\x1d\x11\x04\x03\x02\x01\x01";

/// An extensionRequest with a key usage alone.
const KEY_USAGE: &[u8] =
    b"\x30\x1f\x06\x09\x2a\x86\x48\x86\xf7\x0d\x01\x09\x0e\x31\x12\x30\x10\x30\x0e\
    \x06\x03\x55\x1d\x0f\x01\x01\xff\x04\x04\x03\x02\x07\x80";

/// The exponent 65537.
const F4: &[u8] = b"\x01\0\x01";

/// The names that are ordered, the request, and the rule that it breaks; 0 where the order is placed.
const REQUESTS: &[(&[Named], Asking, u64)] = &[
    // 7: no DER
    (ONE, These(b""), 7),
    (ONE, These(b"\x30\x82\x01"), 7),
    (ONE, These(b"\x30\x81\x05\0\0\0\0\0"), 7),
    (ONE, Cut(117, 0), 7),
    (ONE, Cut(118, 1), 7),
    (ONE, Cut(117, 1), 0),
    (ONE, Cut(60, 58), 7),
    // 8: another shape
    (ONE, These(b"\x30\0"), 8),
    (ONE, These(b"\x02\x01\0"), 8),
    (ONE, Attributes(NO_ATTRIBUTE), 8),
    (ONE, Attributes(NO_VALUES), 8),
    (ONE, Attributes(SAN_OF_INTEGER), 8),
    // 9: another version, also with another fault behind
    (ONE, Version(1), 9),
    (ONE, Version(2), 9),
    (ONE, VersionAndKey, 9),
    // 10: keys
    (ONE, Point(P256, 2, 32), 10),
    (ONE, Point(P256, 4, 63), 10),
    (ONE, Point(P256, 4, 65), 10),
    (ONE, Point(P256, 4, 96), 10),
    (ONE, Point(P384, 4, 64), 10),
    (ONE, Point(P521, 4, 128), 10),
    (ONE, Rsa(0x80, 255, F4), 10),
    (ONE, Rsa(0x7f, 256, F4), 10),
    (ONE, Rsa(0x7f, 257, F4), 10),
    (ONE, Rsa(0x80, 256, b"\x01"), 10),
    (ONE, Rsa(0x80, 256, b"\x04"), 10),
    (ONE, KeyAndSans(&[EXAMPLE], &[BAD]), 10),
    (ONE, Point(P384, 4, 96), 0),
    (ONE, Point(P521, 4, 132), 0),
    (ONE, Rsa(0x80, 256, F4), 0),
    (ONE, Rsa(0xff, 384, b"\x03"), 0),
    (ONE, Rsa(0x80, 257, F4), 0),
    // 11: two subjectAltNames, of the same names too
    (ONE, TwoSans(&[EXAMPLE], &[EXAMPLE]), 11),
    (ONE, TwoSans(&[OTHER], &[BAD]), 11),
    (THREE, TwoSans(&[EXAMPLE], &[WILD, HOST]), 11),
    // 12: what is no name or address
    (ONE, San(&[BAD]), 12),
    (ONE, San(&[EXAMPLE, BAD]), 12),
    (ONE, San(&[OTHER, BAD]), 12),
    (ONE, San(&[(IP, b"\xc0\0\x02\x01\0")]), 12),
    (ONE, San(&[EXAMPLE, (0x81, b"a@example.com")]), 12),
    // 13: other names
    (THREE, San(&[EXAMPLE, WILD]), 13),
    (THREE, San(&[EXAMPLE, WILD, HOST, OTHER]), 13),
    (THREE, San(&[EXAMPLE, WILD, OTHER]), 13),
    (THREE, San(&[]), 13),
    (ONE, San(&[WILD]), 13),
    (ONE, San(&[OTHER]), 13),
    (ADDRESS_FIRST, San(&[EXAMPLE, (IP, b"\xc0\0\x02\x02")]), 13),
    // the same names in another order, in upper case, and twice
    (THREE, San(&[EXAMPLE, WILD, HOST]), 0),
    (THREE, San(&[HOST, WILD, EXAMPLE]), 0),
    (ONE, San(&[(DNS, b"EXAMPLE.com")]), 0),
    (ONE, San(&[EXAMPLE, EXAMPLE]), 0),
    // no subjectAltName
    (THREE, Version(0), 0),
    (THREE, Attributes(KEY_USAGE), 0),
];

#[test]
fn the_first_fault_of_a_request_is_told(rt: HostRuntime) {
    let alloc = rt.alloc();
    let mut gate = begun_gate(&rt, alloc);
    let mut row: u8 = 0x21;
    for (names, asking, rule) in REQUESTS {
        let fields = Fields {
            key: &[row],
            names: *names,
            days: 47,
            common: false,
        };
        let request = request_of(&rt, alloc, *asking);
        let next = gate.engine.count().saturating_add(1);
        let want = if *rule == 0 {
            (PLACED, next)
        } else {
            (BAD_FIELDS, *rule)
        };
        let got = reply(&rt, alloc, &mut gate, fields, request.as_slice());
        assert_eq!(rt; got, want, "{asking:?}");
        row = row.saturating_add(1);
    }
}
