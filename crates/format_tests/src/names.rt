use gate_base::{Address, Target};
use names_core::{
    NameFault, NameRead, SuffixFault, Suffixes, is_reserved, read_name, read_target, target_text,
};
use std::alloc::Global;
use std::fmt::Display;
use std::process::Abort;

/// A label of 63 bytes, and the full stop behind it.
const LABEL: &str = "aaaaaaaaaaaaaaaaaaaaaaaaaaaaaaaaaaaaaaaaaaaaaaaaaaaaaaaaaaaaaaa.";

fn name_fault(alloc: Global, text: &[u8]) -> Option<NameRead> {
    read_name(alloc, text).err()
}

fn target_fault(alloc: Global, text: &str) -> Option<NameRead> {
    read_target(alloc, text.as_bytes()).err()
}

const NAMES: &[&str] = &[
    "example.com",
    "Example.COM",
    "*.a-b.example",
    "xn--bcher-kva.example",
];

const NAME_FAULTS: &[(&str, NameFault)] = &[
    ("", NameFault::Empty),
    ("*.", NameFault::Empty),
    ("a..b", NameFault::Empty),
    ("a_b", NameFault::BadByte),
    ("-a", NameFault::BadHyphen),
    ("a-", NameFault::BadHyphen),
    ("ab--c", NameFault::BadHyphen),
    ("xn--c", NameFault::BadPunycode),
    ("xn--a-b-c", NameFault::BadPunycode),
    ("a.*.b", NameFault::BadStar),
    // and the first of two faults
    ("_.", NameFault::Empty),
    ("-.", NameFault::Empty),
    ("xn--c.", NameFault::Empty),
    ("a.*.", NameFault::Empty),
    ("*.*.", NameFault::Empty),
    ("_-", NameFault::BadByte),
    ("a_b.-c", NameFault::BadByte),
    ("xn--c_", NameFault::BadByte),
    ("xn--c._", NameFault::BadByte),
    ("*_", NameFault::BadByte),
    ("-.xn--c", NameFault::BadHyphen),
    ("xn---", NameFault::BadHyphen),
    ("-*", NameFault::BadHyphen),
    ("xn--*", NameFault::BadPunycode),
    ("a.*.xn--c", NameFault::BadPunycode),
    ("xn--c.*.a", NameFault::BadPunycode),
];

/// The first text that is read as no name.
fn first_refused(alloc: Global, texts: &[&str]) -> Option<usize> {
    for (at, text) in texts.iter().enumerate() {
        if name_fault(alloc, text.as_bytes()).is_some() {
            return Some(at);
        }
    }
    None
}

/// The first text that gets another fault than its own.
fn first_wrong_name(alloc: Global, rows: &[(&str, NameFault)]) -> Option<usize> {
    for (at, row) in rows.iter().enumerate() {
        if name_fault(alloc, row.0.as_bytes()) != Some(NameRead::Fault(row.1)) {
            return Some(at);
        }
    }
    None
}

fn push_times(rt: &impl Abort, text: &mut Vec<u8>, piece: &str, count: usize) {
    for _ in 0..count {
        text.extend_from_slice(piece.as_bytes())
            .expect(rt, "memory");
    }
}

/// The front, so many labels of 63 bytes, and a piece so many times.
fn long_text(
    rt: &impl Abort,
    alloc: Global,
    front: &str,
    labels: usize,
    piece: &str,
    count: usize,
) -> Vec<u8> {
    let mut text = Vec::new(alloc);
    push_times(rt, &mut text, front, 1);
    push_times(rt, &mut text, LABEL, labels);
    push_times(rt, &mut text, piece, count);
    text
}

/// A front, a number of labels, a piece and how often it stands, and the fault.
type LengthRow = (&'static str, usize, &'static str, usize, Option<NameFault>);

const LENGTHS: &[LengthRow] = &[
    ("", 3, "b", 61, None),
    ("", 3, "b", 62, Some(NameFault::LongName)),
    ("*.", 3, "b", 59, None),
    ("*.", 3, "b", 60, Some(NameFault::LongName)),
    ("", 0, "a", 63, None),
    ("", 0, "a", 64, Some(NameFault::LongLabel)),
    // and the first of two faults
    ("*.", 3, "b", 64, Some(NameFault::LongLabel)),
    ("", 0, "a", 254, Some(NameFault::LongLabel)),
    ("_.", 0, "a", 64, Some(NameFault::LongLabel)),
    ("", 0, "_", 64, Some(NameFault::LongLabel)),
    ("-.", 0, "a", 64, Some(NameFault::LongLabel)),
    ("", 0, "-", 64, Some(NameFault::LongLabel)),
    ("xn--c.", 0, "a", 64, Some(NameFault::LongLabel)),
    ("xn--", 0, "9", 60, Some(NameFault::LongLabel)),
    ("a.*.", 0, "a", 64, Some(NameFault::LongLabel)),
    ("", 0, "*", 64, Some(NameFault::LongLabel)),
    (".", 0, "a", 64, Some(NameFault::Empty)),
    ("", 0, "a.", 127, Some(NameFault::Empty)),
    ("_", 0, ".a", 127, Some(NameFault::LongName)),
    ("-", 0, ".a", 127, Some(NameFault::LongName)),
    ("xn--c", 0, ".a", 127, Some(NameFault::LongName)),
    ("a.*", 0, ".a", 127, Some(NameFault::LongName)),
];

fn first_wrong_length(rt: &impl Abort, alloc: Global, rows: &[LengthRow]) -> Option<usize> {
    for (at, row) in rows.iter().enumerate() {
        let text = long_text(rt, alloc, row.0, row.1, row.2, row.3);
        if name_fault(alloc, &text) != row.4.map(NameRead::Fault) {
            return Some(at);
        }
    }
    None
}

#[test]
fn names_and_their_faults(rt: HostRuntime) {
    let alloc = rt.alloc();
    assert_eq!(rt; first_refused(alloc, NAMES), None);
    assert_eq!(rt; first_wrong_name(alloc, NAME_FAULTS), None);
    assert_eq!(rt; first_wrong_length(&rt, alloc, LENGTHS), None);
}

/// The first and the last address of each reserved block.
const BLOCKS: &[(u32, u32)] = &[
    (0x0000_0000, 0x00FF_FFFF),
    (0x0A00_0000, 0x0AFF_FFFF),
    (0x6440_0000, 0x647F_FFFF),
    (0x7F00_0000, 0x7FFF_FFFF),
    (0xA9FE_0000, 0xA9FE_FFFF),
    (0xAC10_0000, 0xAC1F_FFFF),
    (0xC000_0000, 0xC000_00FF),
    (0xC000_0200, 0xC000_02FF),
    (0xC0A8_0000, 0xC0A8_FFFF),
    (0xC612_0000, 0xC613_FFFF),
    (0xC633_6400, 0xC633_64FF),
    (0xCB00_7100, 0xCB00_71FF),
    (0xE000_0000, 0xFFFF_FFFF),
];

/// The first four bytes of an IPv6 address, and whether it is reserved.
const SIXES: &[(u32, bool)] = &[
    (0x1FFF_FFFF, true),
    (0x2000_0000, false),
    (0x2001_0DB7, false),
    (0x2001_0DB8, true),
    (0x2001_0DB9, false),
    (0x3FFF_FFFF, false),
    (0x4000_0000, true),
];

fn is_four_reserved(number: u32) -> bool {
    is_reserved(&Address::V4(number.to_be_bytes()))
}

fn is_six_reserved(front: u32) -> bool {
    let [a, b, c, d] = front.to_be_bytes();
    is_reserved(&Address::V6([a, b, c, d, 0, 0, 0, 0, 0, 0, 0, 0, 0, 0, 0, 1]))
}

/// Whether both ends are reserved, and what lies beside them isn't.
fn is_block(first: u32, last: u32) -> bool {
    is_four_reserved(first)
        && is_four_reserved(last)
        && (first == 0 || !is_four_reserved(first.saturating_sub(1)))
        && (last == u32::MAX || !is_four_reserved(last.saturating_add(1)))
}

fn first_wrong_block(rows: &[(u32, u32)]) -> Option<usize> {
    for (at, row) in rows.iter().enumerate() {
        if !is_block(row.0, row.1) {
            return Some(at);
        }
    }
    None
}

fn first_wrong_six(rows: &[(u32, bool)]) -> Option<usize> {
    for (at, row) in rows.iter().enumerate() {
        if is_six_reserved(row.0) != row.1 {
            return Some(at);
        }
    }
    None
}

#[test]
fn reserved_blocks_at_their_ends(rt: HostRuntime) {
    assert_eq!(rt; first_wrong_block(BLOCKS), None);
    assert_eq!(rt; first_wrong_six(SIXES), None);
}

/// A text, and the text of the target that it is read to, behind another text.
const TEXTS: &[(&str, &str)] = &[
    ("Example.COM", "> example.com"),
    ("*.a.example", "> *.a.example"),
    ("0.10.200.255", "> 0.10.200.255"),
    (
        "2001:0db8:0000:0000:0000:ff00:0042:8329",
        "> 2001:0db8:0000:0000:0000:ff00:0042:8329",
    ),
];

const TARGET_FAULTS: &[(&str, NameFault)] = &[
    ("10.0.0.01", NameFault::BadAddress),
    ("10.0.0", NameFault::BadAddress),
    ("10.0.0.256", NameFault::BadAddress),
    ("1.2.3.4.5", NameFault::BadAddress),
    ("example.123", NameFault::BadAddress),
    ("7", NameFault::BadAddress),
    ("1..2.3", NameFault::BadAddress),
    ("2001:db8::1", NameFault::BadAddress),
    (
        "2001:0DB8:0000:0000:0000:ff00:0042:8329",
        NameFault::BadAddress,
    ),
    ("2001:0db8:0000:0000:0000:ff00:0042", NameFault::BadAddress),
    (
        "2001:0db8:0000:0000:0000:ff00:0042:8329:0000",
        NameFault::BadAddress,
    ),
    ("a:b", NameFault::BadAddress),
    ("..7", NameFault::BadAddress),
    ("a_b.7", NameFault::BadAddress),
    ("a_b:", NameFault::BadAddress),
    ("-.7", NameFault::BadAddress),
    ("xn--c.7", NameFault::BadAddress),
    ("*.7", NameFault::BadAddress),
    ("", NameFault::Empty),
    ("1.2.3.", NameFault::Empty),
    ("1.2.3.4_", NameFault::BadByte),
    ("7.-7", NameFault::BadHyphen),
];

/// The text of the target that a text is read to, behind another text.
fn text_behind(rt: &impl Abort, alloc: Global, front: &str, text: &str) -> Vec<u8> {
    let target = read_target(alloc, text.as_bytes()).expect(rt, "a target");
    let mut out = front.as_bytes().to_vec(alloc).expect(rt, "memory");
    target_text(&target, &mut out).expect(rt, "memory");
    out
}

fn first_wrong_text(rt: &impl Abort, alloc: Global, rows: &[(&str, &str)]) -> Option<usize> {
    for (at, row) in rows.iter().enumerate() {
        if text_behind(rt, alloc, "> ", row.0).as_slice() != row.1.as_bytes() {
            return Some(at);
        }
    }
    None
}

/// The first text that gets another fault than its own.
fn first_wrong_target(alloc: Global, rows: &[(&str, NameFault)]) -> Option<usize> {
    for (at, row) in rows.iter().enumerate() {
        if target_fault(alloc, row.0) != Some(NameRead::Fault(row.1)) {
            return Some(at);
        }
    }
    None
}

#[test]
fn targets_and_their_texts(rt: HostRuntime) {
    let alloc = rt.alloc();
    assert_eq!(rt; first_wrong_text(&rt, alloc, TEXTS), None);
    assert_eq!(rt;
        read_target(alloc, b"1.2.3.4"),
        Ok(Target::Ip(Address::V4([1, 2, 3, 4])))
    );
    assert_eq!(rt; first_wrong_target(alloc, TARGET_FAULTS), None);
}

fn base_len(rt: &impl Abort, alloc: Global, suffixes: &Suffixes, name: &str) -> Option<u64> {
    let name = read_name(alloc, name.as_bytes()).expect(rt, "a name");
    suffixes.base_len(&name)
}

/// Whether a fault is printed so.
fn says(alloc: Global, fault: &impl Display, text: &str) -> bool {
    match fault.to_string(alloc) {
        Ok(said) => said.as_str() == text,
        Err(_) => false,
    }
}

const PRINTED_NAMES: &[(NameFault, &str)] = &[
    (NameFault::Empty, "an empty label"),
    (NameFault::LongLabel, "a label above 63 bytes"),
    (NameFault::LongName, "a name above 253 bytes"),
    (NameFault::BadByte, "a byte that no name has"),
    (NameFault::BadHyphen, "a misplaced hyphen"),
    (NameFault::BadPunycode, "bad Punycode"),
    (NameFault::BadStar, "a misplaced asterisk"),
    (NameFault::BadAddress, "a malformed address"),
];

const PRINTED_RULES: &[(SuffixFault, &str)] = &[
    (SuffixFault::Line(2), "line 2 is no rule"),
    (SuffixFault::TooMany, "too many rules"),
    (SuffixFault::NoMemory, "out of memory"),
];

fn first_misprinted_name(alloc: Global, rows: &[(NameFault, &str)]) -> Option<usize> {
    for (at, row) in rows.iter().enumerate() {
        if !says(alloc, &NameRead::Fault(row.0), row.1) {
            return Some(at);
        }
    }
    None
}

fn first_misprinted_rule(alloc: Global, rows: &[(SuffixFault, &str)]) -> Option<usize> {
    for (at, row) in rows.iter().enumerate() {
        if !says(alloc, &row.0, row.1) {
            return Some(at);
        }
    }
    None
}

#[test]
fn faults_are_printed(rt: HostRuntime) {
    let alloc = rt.alloc();
    assert_eq!(rt; first_misprinted_name(alloc, PRINTED_NAMES), None);
    assert_eq!(rt; first_misprinted_rule(alloc, PRINTED_RULES), None);
    assert!(rt; says(alloc, &NameRead::NoMemory, "out of memory"));
}

/// The cases are those of the test data of the public suffix list.
const BASES: &[(&str, Option<u64>)] = &[
    ("com", None),
    ("example.com", Some(2)),
    ("a.b.example.com", Some(2)),
    ("co.uk", None),
    ("a.b.co.uk", Some(3)),
    ("ck", None),
    ("test.ck", None),
    ("b.test.ck", Some(3)),
    ("www.ck", Some(2)),
    ("www.www.ck", Some(2)),
    ("kobe.jp", Some(2)),
    ("c.kobe.jp", None),
    ("b.c.kobe.jp", Some(4)),
    ("city.kobe.jp", Some(3)),
    ("www.city.kobe.jp", Some(3)),
    ("a.xn--bcher-kva.test", Some(3)),
    ("example.test", None),
];

fn first_wrong_base(
    rt: &impl Abort,
    alloc: Global,
    suffixes: &Suffixes,
    rows: &[(&str, Option<u64>)],
) -> Option<usize> {
    for (at, row) in rows.iter().enumerate() {
        if base_len(rt, alloc, suffixes, row.0) != row.1 {
            return Some(at);
        }
    }
    None
}

#[test]
fn bases_of_names(rt: HostRuntime) {
    let text =
        "// a comment\n\ncom\r\nuk\nco.uk other words\n*.ck\n!www.ck\njp\n*.kobe.jp\n!city.kobe.jp\nb\u{FC}cher.test\n";
    let suffixes = Suffixes::from_rules(rt.alloc(), text.as_bytes()).expect(&rt, "rules");
    assert_eq!(rt; first_wrong_base(&rt, rt.alloc(), &suffixes, BASES), None);
}

fn suffix_fault(alloc: Global, text: &[u8]) -> Option<SuffixFault> {
    Suffixes::from_rules(alloc, text).err()
}

/// Rules, and the line that is told.
const RULE_FAULTS: &[(&str, u64)] = &[
    ("com\na_b\n", 2),
    ("//\n\ncom\na..b\n*.", 4),
    ("*", 1),
    ("!*.ck", 1),
    ("com\n*.*.ck", 2),
    ("xn--a", 1),
    ("!", 1),
];

fn first_wrong_rules(alloc: Global, rows: &[(&str, u64)]) -> Option<usize> {
    for (at, row) in rows.iter().enumerate() {
        if suffix_fault(alloc, row.0.as_bytes()) != Some(SuffixFault::Line(row.1)) {
            return Some(at);
        }
    }
    None
}

#[test]
fn faults_of_rules(rt: HostRuntime) {
    let alloc = rt.alloc();
    assert_eq!(rt; first_wrong_rules(alloc, RULE_FAULTS), None);
    let mut text = Vec::new(alloc);
    push_times(&rt, &mut text, "a\n", 16_384);
    assert_eq!(rt; suffix_fault(alloc, &text), None);
    push_times(&rt, &mut text, "-", 1);
    assert_eq!(rt; suffix_fault(alloc, &text), Some(SuffixFault::TooMany));
}
