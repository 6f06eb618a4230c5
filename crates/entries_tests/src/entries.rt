ghost use Rattle.gate_entries.specs.Spelling.{IsEntry};

mod making;
mod spelled;

use gate_base::{
    Address, ByteLists, Bytes, CaaAnswer, CaaAnswers, CaaRow, CaaRows, CaaSeen, DnsSeen, Hop,
    Labels, Method, NoMemory, Role, Seen, Sequence, Target, Targets,
};
use gate_entries::{Command, Entry, EntryRead, What, entry_len, read_entry, write_entry};
use spelled::{ACME, CAA, Change, KIND_CHANGES, SPELLED, Spelled, WEB};
use std::alloc::Global;

/// The first entry: settings without bytes, at moment 1790000000.
const SETTINGS: &[u8] = b"\x01\0\0\0\0\0\0\0\x01\0\0\0\0\x6a\xb1\x3b\x80\0\0\0\0\0\0";

/// The second entry: caller `a` orders `example.com` for 90 days under the key `k1`, with a request of one byte.
const ORDER: &[u8; 44] =
    b"\x02\0\0\0\0\0\0\0\x02\0\0\0\0\x6a\xb1\x3b\x80\0\x01a\x02k1\0\0\x5a\x01\x01\0\x0bexample.com\0\x01\x30";

/// A body of two bytes that is sent for order 2, as entry 3, and its signature of one byte, as entry 4.
const SEND: &[u8] =
    b"\x06\0\0\0\0\0\0\0\x03\0\0\0\0\x6a\xb1\x3b\x80\0\x01a\0\0\0\0\0\0\0\x02\0\x02\x30\0";

const SIGNED: &[u8] =
    b"\x07\0\0\0\0\0\0\0\x04\0\0\0\0\x6a\xb1\x3b\x80\0\x01a\0\0\0\0\0\0\0\x02\0\x01\x55";

/// Caller `op` blocks a key of three bytes under the key `k1`, as entry 2.
const BLOCKED: &[u8] =
    b"\x08\0\0\0\0\0\0\0\x02\0\0\0\0\x6a\xb1\x3b\x80\0\x02op\x02k1\0\x03\xaa\xbb\xcc";

/// The order with a byte behind it.
const LONGER: &[u8] =
    b"\x02\0\0\0\0\0\0\0\x02\0\0\0\0\x6a\xb1\x3b\x80\0\x01a\x02k1\0\0\x5a\x01\x01\0\x0bexample.com\0\x01\x30\0";

/// The fields of the order, each from its first byte up to the next field: kind, number, moment, caller, key, common, days,
/// count, the target's kind, wildcard, text, request.
const FIELDS: &[(usize, usize)] = &[
    (0, 1),
    (1, 9),
    (9, 17),
    (17, 20),
    (20, 23),
    (23, 24),
    (24, 26),
    (26, 27),
    (27, 28),
    (28, 29),
    (29, 41),
    (41, 44),
];

/// A place in the order, the byte that is put there, and the place that is told.
const CHANGES: &[(usize, u8, u64)] = &[
    // an unknown kind
    (0, 9, 0),
    // settings with a caller
    (0, 1, 17),
    // a truth value of 2
    (23, 2, 23),
    // more targets than there are
    (26, 2, 41),
    // a target of an unknown kind
    (27, 4, 27),
    // a wildcard's truth value of 2
    (28, 2, 28),
    // a text past the end
    (29, 20, 29),
    // an upper-case letter
    (30, b'E', 29),
    // an empty label
    (36, b'.', 29),
    // a request past the end
    (42, 2, 41),
];

/// Whether it is a wildcard, the front of its text, how many labels `a` come behind it, and what is told.
type NameRow = (bool, &'static [u8], u8, Option<u64>);

const NAMES: &[NameRow] = &[
    (false, b"example.com", 0, None),
    (true, b"example.com", 0, None),
    (false, b"xn--mnchen-3ya.example", 0, None),
    (false, b"a", 126, None),
    (true, b"a", 125, None),
    // an upper-case letter
    (false, b"Example.com", 0, Some(29)),
    // a hyphen at an end
    (false, b"a-.example", 0, Some(29)),
    (false, b"-a.example", 0, Some(29)),
    // hyphens at the third and fourth places
    (false, b"ab--c.example", 0, Some(29)),
    // no Punycode behind `xn--`
    (false, b"xn--c.example", 0, Some(29)),
    // an empty label
    (false, b"a..example", 0, Some(29)),
    // no label
    (false, b"", 0, Some(29)),
    // 64 bytes of a label
    (
        false,
        b"aaaaaaaaaaaaaaaaaaaaaaaaaaaaaaaaaaaaaaaaaaaaaaaaaaaaaaaaaaaaaaaa",
        0,
        Some(29),
    ),
    // 254 bytes of text
    (false, b"aa", 126, Some(29)),
    (true, b"aa", 125, Some(29)),
    // a star within
    (false, b"a.*.example", 0, Some(29)),
    // a star before a text that has its own field
    (false, b"*.example.com", 0, Some(29)),
    (true, b"*.example.com", 0, Some(29)),
];

/// What is told without memory, and of an entry that isn't written as it was read.
const NO_MEMORY: u64 = 1_000_000;

const OTHERWISE_WRITTEN: u64 = 2_000_000;

/// Whether the entry is written as these bytes, and is as long as is told.
fn is_written(alloc: Global, entry: &Entry, bytes: &[u8]) -> bool
    requires { IsEntry entry.now }
{
    let mut out = Vec::new(alloc);
    match write_entry(entry, &mut out) {
        Ok(()) => out.as_slice() == bytes && entry_len(entry) == bytes.len() as u64,
        Err(_) => false,
    }
}

/// Where the first bad field begins, of bytes that are not read as an entry and written again.
fn told(alloc: Global, bytes: &[u8]) -> Option<u64> {
    match read_entry(alloc, bytes) {
        Ok(entry) => {
            if is_written(alloc, &entry, bytes) {
                None
            } else {
                Some(OTHERWISE_WRITTEN)
            }
        }
        Err(EntryRead::Fault(fault)) => Some(fault.at),
        Err(EntryRead::NoMemory) => Some(NO_MEMORY),
    }
}

/// What is told of the order, cut after so many bytes.
fn cut(alloc: Global, size: usize) -> Option<u64> {
    told(alloc, ORDER.get(..size)?)
}

/// What is told of the order with one byte changed.
fn changed(alloc: Global, index: usize, byte: u8) -> Option<u64> {
    let mut bytes = *ORDER;
    if let Some(found) = bytes.as_mut_slice().get_mut(index) {
        *found = byte;
    }
    told(alloc, &bytes)
}

/// A name's text with its number of bytes: a front, and so many labels of one letter behind it.
fn push_text(bytes: &mut Vec<u8>, front: &[u8], labels: u8) -> Result<(), NoMemory> {
    bytes.push((front.len() % 256) as u8)?;
    bytes.extend_from_slice(front)?;
    for _ in 0..labels {
        bytes.extend_from_slice(b".a")?;
    }
    if let Some(count) = bytes.get_mut(29) {
        *count = count.saturating_add(labels).saturating_add(labels);
    }
    Ok(())
}

/// The order, of a name with this text, and a wildcard or not.
fn push_order(bytes: &mut Vec<u8>, row: &NameRow) -> Result<(), NoMemory> {
    let (wild, front, labels, _) = row;
    bytes.extend_from_slice(
        b"\x02\0\0\0\0\0\0\0\x02\0\0\0\0\x6a\xb1\x3b\x80\0\x01a\x02k1\0\0\x5a\x01\x01",
    )?;
    bytes.push(u8::from(*wild))?;
    push_text(bytes, front, *labels)?;
    bytes.extend_from_slice(b"\0\x01\x30")?;
    Ok(())
}

/// What is told of the order of such a name.
fn told_of_name(alloc: Global, row: &NameRow) -> Option<u64> {
    let mut bytes = Vec::new(alloc);
    match push_order(&mut bytes, row) {
        Ok(()) => told(alloc, &bytes),
        Err(NoMemory) => Some(NO_MEMORY),
    }
}

fn are_settings(alloc: Global) -> bool {
    match read_entry(alloc, SETTINGS) {
        Ok(entry) => {
            entry.number == 1 && entry.moment.0 == 1_790_000_000 && are_empty(&entry.what)
        }
        Err(_) => false,
    }
}

fn are_empty(what: &What) -> bool {
    match what {
        What::Settings { bytes } => bytes.is_empty(),
        _ => false,
    }
}

fn is_order(alloc: Global) -> bool {
    match read_entry(alloc, ORDER) {
        Ok(entry) => {
            entry.number == 2
                && entry.caller.as_slice() == b"a".as_slice()
                && is_ordered(&entry.what)
        }
        Err(_) => false,
    }
}

fn is_ordered(what: &What) -> bool {
    match what {
        What::Order {
            key,
            common,
            days,
            targets,
            request,
        } => {
            key.as_slice() == b"k1".as_slice()
                && !*common
                && *days == 90
                && request.as_slice() == b"0".as_slice()
                && are_example(targets)
        }
        _ => false,
    }
}

fn are_example(targets: &Targets) -> bool {
    match targets.as_slice() {
        [Target::Dns(name)] => !name.wild && are_its_labels(&name.labels),
        _ => false,
    }
}

fn are_its_labels(labels: &Labels) -> bool {
    match labels.as_slice() {
        [first, second] => first.as_slice() == b"example".as_slice()
            && second.as_slice() == b"com".as_slice(),
        _ => false,
    }
}

/// A block with a retry key and a key of so many bytes.
fn block(alloc: Global, key: usize, spki: usize) -> Command {
    Command::Block {
        key: zeros(alloc, key),
        spki: zeros(alloc, spki),
    }
}

/// So many bytes, or fewer without memory.
fn zeros(alloc: Global, size: usize) -> Bytes {
    let mut bytes = Vec::new(alloc);
    let _ = bytes.resize(size, 0);
    Bytes::from_vec(bytes)
}

/// What is told of the bytes, cut after so many of them.
fn cut_after(alloc: Global, bytes: &[u8], size: usize) -> Option<u64> {
    told(alloc, bytes.get(..size)?)
}

/// Where the field begins that lies at a place.
fn field_at(starts: &[usize], place: usize) -> Option<u64> {
    let mut found = None;
    for start in starts {
        if *start <= place {
            found = Some(*start as u64);
        }
    }
    found
}

/// What is told of the bytes with one of them changed.
fn changed_in(alloc: Global, bytes: &[u8], index: usize, byte: u8) -> Option<u64> {
    let Ok(mut changed) = Vec::from_slice(alloc, bytes) else {
        return Some(NO_MEMORY);
    };
    if let Some(found) = changed.get_mut(index) {
        *found = byte;
    }
    told(alloc, &changed)
}

/// Whether it is the challenge of account `a` for the order 2 on 192.0.3.7, with its value and thumbprint.
fn is_acme(alloc: Global) -> bool {
    match read_entry(alloc, ACME) {
        Ok(entry) => match &entry.what {
            What::Challenge {
                order,
                method,
                target,
                value,
                thumb,
                ..
            } => {
                *order == 2
                    && *method == Method::AcmeHttp
                    && is_address(target)
                    && value.0[15] == 15
                    && thumb.len() == 43
            }
            _ => false,
        },
        Err(_) => false,
    }
}

fn is_address(target: &Target) -> bool {
    match target {
        Target::Ip(Address::V4(octets)) => *octets == [192, 0, 3, 7],
        _ => false,
    }
}

/// Whether it is an observation of challenge 3, of a page behind one redirect.
fn is_web(alloc: Global) -> bool {
    match read_entry(alloc, WEB) {
        Ok(entry) => match &entry.what {
            What::Observation {
                challenge,
                seen_at,
                seen: Seen::Web(seen),
                ..
            } => {
                *challenge == 3
                    && *seen_at == 1_789_999_999
                    && seen.url.as_slice() == b"http://e/".as_slice()
                    && is_moved(seen.hops.as_slice())
                    && seen.status == 200
                    && seen.body.as_slice() == b"x\n".as_slice()
            }
            _ => false,
        },
        Err(_) => false,
    }
}

fn is_moved(hops: &[Hop]) -> bool {
    match hops {
        [hop] => hop.status == 301 && hop.location.as_slice() == b"http://f/".as_slice(),
        _ => false,
    }
}

/// Whether it is an answer that failed, two records, and none.
fn are_caa_answers(alloc: Global) -> bool {
    match read_entry(alloc, CAA) {
        Ok(entry) => match &entry.what {
            What::CaaAnswer { order, answers, .. } => {
                *order == 2 && are_three(answers.answers.as_slice())
            }
            _ => false,
        },
        Err(_) => false,
    }
}

fn are_three(answers: &[CaaAnswer]) -> bool {
    match answers {
        [
            CaaAnswer::Failed,
            CaaAnswer::Set { ttl, rows },
            CaaAnswer::Set { ttl: 0, rows: none },
        ] => *ttl == 300 && is_issue(rows.as_slice()) && none.is_empty(),
        _ => false,
    }
}

fn is_issue(rows: &[CaaRow]) -> bool {
    match rows {
        [first, second] => {
            first.flags == 128
                && first.tag.as_slice() == b"issue".as_slice()
                && first.value.as_slice() == b";".as_slice()
                && second.value.is_empty()
        }
        _ => false,
    }
}

/// So many TXT records of so many bytes, or fewer without memory.
fn observe(alloc: Global, count: usize, size: usize) -> Command {
    let mut txts: ByteLists = Sequence::new(alloc);
    for _ in 0..count {
        let _ = txts.push(zeros(alloc, size));
    }
    Command::Observe {
        key: zeros(alloc, 1),
        challenge: 3,
        seen_at: 0,
        seen: Seen::Dns(DnsSeen {
            prefix: zeros(alloc, 0),
            txts,
            cnames: Sequence::new(alloc),
        }),
    }
}

/// So many answers of so many records, whose values have so many bytes; or fewer without memory.
fn observe_caa(alloc: Global, count: usize, records: usize, size: usize) -> Command {
    let mut answers: CaaAnswers = Sequence::new(alloc);
    for _ in 0..count {
        let _ = answers.push(CaaAnswer::Set {
            ttl: 0,
            rows: rows(alloc, records, size),
        });
    }
    Command::ObserveCaa {
        key: zeros(alloc, 1),
        order: 2,
        target: Target::Ip(Address::V4([192, 0, 3, 7])),
        seen_at: 0,
        caa: CaaSeen { answers },
    }
}

fn rows(alloc: Global, count: usize, size: usize) -> CaaRows {
    let mut rows: CaaRows = Sequence::new(alloc);
    for _ in 0..count {
        let _ = rows.push(CaaRow {
            flags: 0,
            tag: zeros(alloc, 0),
            value: zeros(alloc, size),
        });
    }
    rows
}

fn challenge(alloc: Global, key: usize) -> Command {
    Command::Challenge {
        key: zeros(alloc, key),
        order: 2,
        target: Target::Ip(Address::V4([192, 0, 3, 7])),
        method: Method::WebChange,
    }
}

/// Whether an account, a perspective and an operator have the command.
fn roles(command: &Command) -> (bool, bool, bool) {
    (
        command.allowed(Role::Account),
        command.allowed(Role::Perspective),
        command.allowed(Role::Operator),
    )
}

/// The sizes of a key and of a blocked key, and whether the command fits.
const BLOCKS: [(usize, usize, bool); 3] = [
    (255, 65_535, true),
    (256, 0, false),
    (0, 65_536, false),
];

fn first_wrong_block(alloc: Global, rows: &[(usize, usize, bool)]) -> Option<usize> {
    for (place, (key, spki, fits)) in rows.iter().enumerate() {
        if block(alloc, *key, *spki).fits() != *fits {
            return Some(place);
        }
    }
    None
}

/// So many records of so many bytes, and whether the command fits.
const OBSERVATIONS: [(usize, usize, bool); 5] = [
    (255, 0, true),
    (256, 0, false),
    (1, 65_536, false),
    // 17 records are longer than an entry
    (16, 65_535, true),
    (17, 65_535, false),
];

fn first_wrong_observation(alloc: Global, rows: &[(usize, usize, bool)]) -> Option<usize> {
    for (place, (count, size, fits)) in rows.iter().enumerate() {
        if observe(alloc, *count, *size).fits() != *fits {
            return Some(place);
        }
    }
    None
}

/// So many answers of so many records of so many bytes, and whether the command fits.
const CAA_ANSWERS: [(usize, usize, usize, bool); 7] = [
    (255, 1, 0, true),
    (256, 0, 0, false),
    (1, 255, 0, true),
    (1, 256, 0, false),
    (1, 1, 65_536, false),
    (2, 8, 65_535, true),
    (1, 17, 65_535, false),
];

fn first_wrong_answer(alloc: Global, rows: &[(usize, usize, usize, bool)]) -> Option<usize> {
    for (place, (count, records, size, fits)) in rows.iter().enumerate() {
        if observe_caa(alloc, *count, *records, *size).fits() != *fits {
            return Some(place);
        }
    }
    None
}

#[test]
fn commands_fit_and_have_their_roles(rt: HostRuntime) {
    let alloc = rt.alloc();
    assert_eq!(rt; first_wrong_block(alloc, &BLOCKS), None);
    assert_eq!(rt; challenge(alloc, 255).fits(), true);
    assert_eq!(rt; challenge(alloc, 256).fits(), false);
    assert_eq!(rt; first_wrong_observation(alloc, &OBSERVATIONS), None);
    assert_eq!(rt; first_wrong_answer(alloc, &CAA_ANSWERS), None);
    let finalize = Command::Finalize { order: 2 };
    assert_eq!(rt; roles(&block(alloc, 1, 1)), (false, false, true));
    assert_eq!(rt; roles(&finalize), (true, false, false));
    assert_eq!(rt; roles(&challenge(alloc, 1)), (true, false, false));
    assert_eq!(rt; roles(&observe(alloc, 1, 1)), (false, true, false));
    assert_eq!(rt; roles(&observe_caa(alloc, 1, 1, 1)), (false, true, false));
}

/// Whether the place that is told of each cut is that of the field that is cut.
fn are_cuts_told(alloc: Global, bytes: &[u8], starts: &[usize]) -> bool {
    for size in 0..bytes.len() {
        if cut_after(alloc, bytes, size) != field_at(starts, size) {
            return false;
        }
    }
    true
}

/// The first spelling that isn't read and written again, or of which a cut is told at another place.
fn first_wrong_spelling(alloc: Global, rows: &[Spelled]) -> Option<&'static str> {
    for (name, bytes, starts) in rows {
        if told(alloc, bytes).is_some() || !are_cuts_told(alloc, bytes, starts) {
            return Some(*name);
        }
    }
    None
}

fn first_wrong_change(alloc: Global, rows: &[Change]) -> Option<usize> {
    for (place, (bytes, index, byte, at)) in rows.iter().enumerate() {
        if changed_in(alloc, bytes, *index, *byte) != Some(*at) {
            return Some(place);
        }
    }
    None
}

#[test]
fn challenges_and_what_was_seen_are_read_written_and_refused(rt: HostRuntime) {
    let alloc = rt.alloc();
    assert_eq!(rt; first_wrong_spelling(alloc, SPELLED), None);
    assert_eq!(rt; first_wrong_change(alloc, KIND_CHANGES), None);
    assert!(rt; is_acme(alloc));
    assert!(rt; is_web(alloc));
    assert!(rt; are_caa_answers(alloc));
}

/// Whether cuts of the order inside a field are told at its first byte.
fn is_field(alloc: Global, start: usize, end: usize) -> bool {
    for size in start..end {
        if cut(alloc, size) != Some(start as u64) {
            return false;
        }
    }
    true
}

fn first_wrong_field(alloc: Global, rows: &[(usize, usize)]) -> Option<usize> {
    for (place, (start, end)) in rows.iter().enumerate() {
        if !is_field(alloc, *start, *end) {
            return Some(place);
        }
    }
    None
}

fn first_wrong_byte(alloc: Global, rows: &[(usize, u8, u64)]) -> Option<usize> {
    for (place, (index, byte, at)) in rows.iter().enumerate() {
        if changed(alloc, *index, *byte) != Some(*at) {
            return Some(place);
        }
    }
    None
}

fn first_wrong_name(alloc: Global, rows: &[NameRow]) -> Option<usize> {
    for (place, row) in rows.iter().enumerate() {
        if told_of_name(alloc, row) != row.3 {
            return Some(place);
        }
    }
    None
}

#[test]
fn entries_are_read_written_and_refused(rt: HostRuntime) {
    let alloc = rt.alloc();
    assert_eq!(rt; BLOCKED.len(), 29);
    assert_eq!(rt; told(alloc, SETTINGS), None);
    assert_eq!(rt; told(alloc, ORDER), None);
    assert_eq!(rt; told(alloc, SEND), None);
    assert_eq!(rt; told(alloc, SIGNED), None);
    assert_eq!(rt; told(alloc, BLOCKED), None);
    assert!(rt; are_settings(alloc));
    assert!(rt; is_order(alloc));
    assert_eq!(rt; told(alloc, LONGER), Some(44));
    assert_eq!(rt; first_wrong_field(alloc, FIELDS), None);
    assert_eq!(rt; first_wrong_byte(alloc, CHANGES), None);
    assert_eq!(rt; first_wrong_name(alloc, NAMES), None);
}
