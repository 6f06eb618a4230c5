//! A table of commands, answered by an engine and by a list.
ghost use Rattle.std.specs.Prelude.{◌≡◌, ◌<◌, ◌≤◌, ◌^◌, length};
ghost use Rattle.gate_entries.specs.Target.{IsTarget, AreTargets};
ghost use Rattle.gate_entries.specs.Command.{IsCommand, IsCaller};

use crate::listed::{Row, Rows, payload, put};
use crate::requests::request;
use crate::settings::{SETTINGS, begin_journal, check_settings};
use gate_base::{Bytes, Role, Sequence, Target, Targets};
use gate_engine::{Engine, StartFault};
use gate_entries::{Caller, Command, Reply, Why, Whys, read_name_text};
use journal_core::{Journal, MAX_PAYLOAD, group_total};
use plant::{Fail, ListClock, ListEntropy, MemoryPlant};
use std::alloc::Global;
use std::marker::Model;
use std::process::Abort;

/// 2025-09-15T00:00:00Z and 2099-12-31T23:59:59Z.
pub const FIRST: u64 = 1_757_894_400;

pub const LAST: u64 = 4_102_444_799;

/// 2026-09-21T14:13:20Z, when the journal began.
pub const BEGUN: u64 = 1_790_000_000;

/// The head, an open gate, and the head of the group of the settings at that moment, whose chain Python's hashlib computes.
pub const BEGUN_HEAD: &[u8] = b"gate journal 01\n\x01\0\0\x04\xe5\
    \x5a\x2c\x68\xe7\xa9\x0f\x17\xac\xfc\x33\x92\x4f\xe7\x67\xf6\x2d\
    \xa5\x5b\xbd\x64\x94\xdb\x7b\xd8\x61\x53\x4c\xe6\x7f\x76\x73\x77";

/// The payload of that group, up to the settings.
pub const BEGUN_ENTRY: &[u8] = b"\x01\0\0\0\0\0\0\0\x01\0\0\0\0\x6a\xb1\x3b\x80\0\0\0\0\x04\xce";

/// Whether a disk begins with those bytes and the settings.
pub fn is_begun(disk: &[u8]) -> bool {
    disk.get(..53) == Some(BEGUN_HEAD)
        && disk.get(53..76) == Some(BEGUN_ENTRY)
        && disk.get(76..1_306) == Some(SETTINGS)
}

/// The length of a journal that was begun: those bytes and a closed gate.
const BEGUN_BYTES: u64 = 1_307;

/// The greatest length of a journal.
pub const MOST_BYTES: u64 = 67_108_864;

/// A command: the numbers of its caller, key and content.
pub type Asked = (u8, u8, u8);

/// A reply: its kind, and the number that it gives or 0.
pub type Said = (u8, u64);

pub const PLACED: u8 = 1;

pub const KEY_REUSED: u8 = 2;

pub const CLOCK_RANGE: u8 = 3;

pub const CLOCK_FAULT: u8 = 4;

pub const DISK_FAULT: u8 = 5;

pub const FULL: u8 = 6;

pub const BLOCKED: u8 = 9;

pub const ROLE_DENIED: u8 = 10;

pub const BAD_FIELDS: u8 = 11;

pub const ISSUED: u8 = 12;

pub const NO_SUCH_ORDER: u8 = 13;

pub const ENTROPY_REPEAT: u8 = 14;

pub const REFUSED: u8 = 15;

pub const ENTROPY_FAULT: u8 = 16;

pub const SIGNER_FAULT: u8 = 17;

const CHALLENGE_MADE: u8 = 18;

const OBSERVED: u8 = 19;

const NO_SUCH_CHALLENGE: u8 = 20;

const OBSERVATION_LATE: u8 = 21;

pub fn said(reply: Reply) -> Said {
    match reply {
        Reply::Placed { order } => (PLACED, order),
        Reply::KeyReused { kept } => (KEY_REUSED, kept),
        Reply::ClockRange { reading } => (CLOCK_RANGE, reading),
        Reply::ClockFault => (CLOCK_FAULT, 0),
        Reply::DiskFault => (DISK_FAULT, 0),
        Reply::Full => (FULL, 0),
        Reply::JournalBad { at } => (7, at),
        Reply::NoMemory => (8, 0),
        Reply::Blocked { number } => (BLOCKED, number),
        Reply::RoleDenied => (ROLE_DENIED, 0),
        Reply::BadFields { rule } => (BAD_FIELDS, u64::from(rule)),
        Reply::Issued { order, .. } => (ISSUED, order),
        Reply::NoSuchOrder => (NO_SUCH_ORDER, 0),
        Reply::EntropyRepeat { .. } => (ENTROPY_REPEAT, 0),
        Reply::Refused { why } => (REFUSED, blocking(&why)),
        Reply::EntropyFault => (ENTROPY_FAULT, 0),
        Reply::SignerFault => (SIGNER_FAULT, 0),
        Reply::ChallengeMade { challenge, .. } => (CHALLENGE_MADE, challenge),
        Reply::Observed { number } => (OBSERVED, number),
        Reply::NoSuchChallenge => (NO_SUCH_CHALLENGE, 0),
        Reply::ObservationLate { m } => (OBSERVATION_LATE, m.0),
    }
}

/// The entry that the only reason names; 0 for none or several.
fn blocking(why: &Whys) -> u64 {
    match why.as_slice() {
        [Why::KeyBlocked { number }] => *number,
        _ => 0,
    }
}

// ---- what a command's numbers stand for

/// A caller's id. With the keys below, two of them make one text with another key.
pub fn id_of(caller: u8) -> &'static [u8]
    ensures { length result.now ≤ 64 }
{
    match caller {
        0 => b"acme",
        1 => b"acm",
        2 => b"0123456789abcdef0123456789abcdef0123456789abcdef0123456789abcdef",
        _ => b"a",
    }
}

pub fn key_of(key: u8) -> &'static [u8]
    ensures { length result.now < 2 ^ 8 }
{
    match key {
        0 => b"k1",
        1 => b"k10",
        2 => b"~",
        3 => b"ek1",
        _ => b"0123456789abcdef0123456789abcdef0123456789abcdef0123456789abcdef",
    }
}

/// What is ordered. Each differs from the first in one field. That with the number 5 breaks a rule, and the name of that with
/// the number 6 is read to another text.
#[derive(Clone, Copy)]
pub struct Content {
    pub days: u16,
    pub common: bool,
    pub name: &'static [u8],
    /// What the bytes of the key's point are, in the request.
    pub request: u8,
}

pub fn content_of(number: u8) -> Content {
    let mut content = Content {
        days: 47,
        common: false,
        name: b"example.com",
        request: 0x11,
    };
    match number {
        0 => {}
        1 => content.days = 48,
        2 => content.common = true,
        3 => content.name = b"www.example.com",
        5 => content.days = 0,
        6 => content.name = b"Example.com",
        _ => content.request = 0x12,
    }
    content
}

// ---- an engine

/// An engine with the outside that it stands for.
#[derive(Drop)]
pub struct Gate {
    pub engine: Engine,
    pub plant: MemoryPlant,
    clock: ListClock,
    pub entropy: ListEntropy,
}

impl Model for Gate {
    ghost use Rattle.gate_machine.specs.Move.{Held};
    ghost use Rattle.plant.specs.Memory.{plant_stops};
    ghost use Rattle.gate_engine.specs.Kept.{Stands};

    ghost Value = { Held };

    ghost view = { λ g. g.engine };

    ghost invariant = { λ g. Stands g.engine (plant_stops g.plant) };
}

impl Gate {
    pub fn ask(&mut self, caller: &Caller, command: &Command) -> Reply
        requires caller { IsCaller caller.now }
        requires command { IsCommand command.now }
    {
        self.engine.ask(
            &mut self.plant,
            &mut self.clock,
            &mut self.entropy,
            caller,
            command,
        )
    }
}

pub fn bytes(rt: &impl Abort, alloc: Global, text: &[u8]) -> Bytes
    ensures { result ≡ text.now }
{
    Bytes::from_slice(alloc, text).expect(rt, "memory")
}

fn target(rt: &impl Abort, alloc: Global, text: &[u8]) -> Target
    ensures { IsTarget result }
{
    let read = read_name_text(alloc, text).expect(rt, "memory");
    Target::Dns(read.expect(rt, "a name"))
}

fn one_target(rt: &impl Abort, alloc: Global, text: &[u8]) -> Targets
    ensures { AreTargets result }
{
    let mut targets = Targets::new(alloc);
    targets.push(target(rt, alloc, text)).expect(rt, "memory");
    targets
}

pub fn command(rt: &impl Abort, alloc: Global, key: u8, content: Content) -> Command
    ensures { IsCommand result }
{
    Command::Order {
        key: bytes(rt, alloc, key_of(key)),
        targets: one_target(rt, alloc, content.name),
        days: content.days,
        common: content.common,
        request: request(rt, alloc, content.request),
    }
}

pub fn caller(rt: &impl Abort, alloc: Global, caller: u8) -> Caller
    ensures { IsCaller result }
{
    Caller {
        id: bytes(rt, alloc, id_of(caller)),
        role: Role::Account,
    }
}

fn ask(rt: &impl Abort, alloc: Global, gate: &mut Gate, asked: Asked) -> Said {
    let (asker, key, content) = asked;
    let asker = caller(rt, alloc, asker);
    let asked = command(rt, alloc, key, content_of(content));
    said(gate.ask(&asker, &asked))
}

pub fn clock(rt: &impl Abort, alloc: Global, readings: &[Option<u64>]) -> ListClock {
    ListClock::new(Sequence::from_slice(alloc, readings).expect(rt, "memory"))
}

/// An empty disk, of which the calls with these numbers fail.
pub fn empty_plant(rt: &impl Abort, alloc: Global, calls: &[u64]) -> MemoryPlant {
    let mut fails = Sequence::new(alloc);
    for call in calls {
        fails.push((*call, Fail::Disk)).expect(rt, "memory");
    }
    MemoryPlant::new(alloc, Bytes::new(alloc), Bytes::new(alloc), fails)
}

/// A gate over the journal that the disk holds.
pub fn gate_over(
    rt: &impl Abort,
    alloc: Global,
    mut plant: MemoryPlant,
    readings: &[Option<u64>],
) -> Gate {
    let mut clock = clock(rt, alloc, readings);
    check_settings(rt, alloc, SETTINGS);
    let engine = Engine::start(alloc, &mut plant, &mut clock, SETTINGS).expect(rt, "an engine");
    Gate {
        engine,
        plant,
        clock,
        entropy: ListEntropy::new(Sequence::new(alloc)),
    }
}

/// Caller, key and content of each command, and its reply.
const COMMANDS: &[(Asked, Said)] = &[
    ((0, 0, 0), (CLOCK_FAULT, 0)),
    ((0, 0, 0), (CLOCK_RANGE, FIRST - 1)),
    ((0, 0, 0), (CLOCK_RANGE, LAST + 1)),
    ((0, 0, 0), (CLOCK_RANGE, 0)),
    ((0, 0, 0), (CLOCK_RANGE, u64::MAX)),
    // before the settings' moment
    ((0, 0, 0), (PLACED, 2)),
    ((0, 0, 0), (PLACED, 2)),
    ((0, 0, 1), (KEY_REUSED, 2)),
    ((0, 0, 2), (KEY_REUSED, 2)),
    ((0, 0, 3), (KEY_REUSED, 2)),
    ((0, 0, 4), (KEY_REUSED, 2)),
    // another caller, with the same key and with one that makes the same text
    ((1, 0, 0), (PLACED, 3)),
    ((1, 3, 0), (PLACED, 4)),
    ((1, 0, 1), (KEY_REUSED, 3)),
    ((0, 0, 0), (PLACED, 2)),
    // the group's write fails, then each of the four calls of the mount
    ((0, 1, 0), (DISK_FAULT, 0)),
    ((0, 1, 0), (DISK_FAULT, 0)),
    ((0, 0, 0), (DISK_FAULT, 0)),
    ((0, 0, 1), (DISK_FAULT, 0)),
    ((1, 1, 0), (DISK_FAULT, 0)),
    ((0, 1, 0), (PLACED, 5)),
    // the gate's sync fails: the order comes back
    ((2, 2, 0), (DISK_FAULT, 0)),
    ((2, 2, 0), (PLACED, 6)),
    ((2, 2, 1), (KEY_REUSED, 6)),
    // the same, and the clock fails when it is back
    ((0, 4, 0), (DISK_FAULT, 0)),
    ((0, 0, 0), (CLOCK_FAULT, 0)),
    ((0, 4, 1), (KEY_REUSED, 7)),
    // the group's sync fails, and another order takes the number
    ((3, 0, 0), (DISK_FAULT, 0)),
    ((3, 1, 0), (PLACED, 8)),
    // the last moment, and readings below it
    ((3, 0, 4), (PLACED, 9)),
    ((3, 0, 4), (PLACED, 9)),
    // the gate's write fails: the order is gone
    ((3, 2, 0), (DISK_FAULT, 0)),
    ((3, 2, 0), (PLACED, 10)),
    ((2, 0, 3), (CLOCK_RANGE, LAST + 1)),
    // the gate's sync fails, and another order finds the key taken
    ((2, 0, 3), (DISK_FAULT, 0)),
    ((2, 0, 2), (KEY_REUSED, 11)),
    ((2, 0, 3), (PLACED, 11)),
];

/// What the clock gives to those commands that come as far as to read it.
const READINGS: &[Option<u64>] = &[
    None,
    Some(FIRST - 1),
    Some(LAST + 1),
    Some(0),
    Some(u64::MAX),
    Some(FIRST),
    Some(BEGUN + 10),
    Some(BEGUN + 10),
    Some(BEGUN + 10),
    Some(BEGUN + 10),
    Some(BEGUN + 10),
    Some(BEGUN + 10),
    Some(BEGUN + 5),
    Some(BEGUN + 10),
    Some(BEGUN + 10),
    Some(BEGUN + 15),
    Some(BEGUN + 20),
    Some(BEGUN + 25),
    Some(BEGUN + 30),
    Some(BEGUN + 30),
    Some(BEGUN + 40),
    None,
    Some(BEGUN + 1),
    Some(BEGUN + 50),
    Some(BEGUN + 45),
    Some(LAST),
    Some(FIRST),
    Some(BEGUN),
    Some(BEGUN),
    Some(LAST + 1),
    Some(LAST),
];

/// The calls of the disk that fail. Seven begin the journal, four mount it, and four commit an entry: the group's write
/// and its sync, the gate's write and its sync.
const FAILS: &[u64] = &[24, 25, 27, 30, 34, 46, 54, 60, 75, 87];

fn begun_rows(alloc: Global) -> Rows<'static> {
    Rows {
        rows: Vec::new(alloc),
        size: BEGUN_BYTES,
        loose: false,
        calls: 11,
        fails: FAILS,
        readings: READINGS,
        read: 0,
    }
}

/// A gate over a journal that was begun, with the outside of the list.
fn begun_gate(rt: &impl Abort, alloc: Global, rows: &Rows<'_>) -> Gate {
    let mut plant = empty_plant(rt, alloc, rows.fails);
    begin_journal(rt, alloc, &mut plant);
    gate_over(rt, alloc, plant, rows.readings)
}

/// A gate over a journal that was begun, where the clock gives that moment.
pub fn begun_gate_at(rt: &impl Abort, alloc: Global, moment: u64) -> Gate {
    let mut plant = empty_plant(rt, alloc, &[]);
    begin_journal(rt, alloc, &mut plant);
    gate_over(rt, alloc, plant, &[Some(moment)])
}

/// The first command that the list or the gate answers otherwise.
fn wrong_answer(
    rt: &impl Abort,
    alloc: Global,
    rows: &mut Rows<'_>,
    gate: &mut Gate,
    commands: &[(Asked, Said)],
) -> Option<Asked> {
    for (asked, want) in commands {
        if rows.answer(rt, alloc, *asked) != *want || ask(rt, alloc, gate, *asked) != *want {
            return Some(*asked);
        }
    }
    None
}

/// Whether the disk holds these orders behind the settings, and nothing behind its closed gate.
fn holds(rt: &impl Abort, alloc: Global, plant: &mut MemoryPlant, rows: &Rows<'_>) -> bool {
    if plant.disk().len() as u64 != rows.size || plant.short() != 0 {
        return false;
    }
    let (_, payloads) = Journal::mount(alloc, plant).expect(rt, "a journal");
    let behind = payloads.as_slice().iter().skip(1);
    for (written, row) in behind.zip(rows.rows.as_slice()) {
        if written.as_slice() != payload(rt, alloc, *row).as_slice() {
            return false;
        }
    }
    payloads.len() == rows.rows.len().saturating_add(1)
}

/// How many entries an engine has that starts from the disk.
pub fn count_again(rt: &impl Abort, alloc: Global, plant: &mut MemoryPlant) -> u64 {
    let mut clock = clock(rt, alloc, &[]);
    check_settings(rt, alloc, SETTINGS);
    let engine = Engine::start(alloc, plant, &mut clock, SETTINGS).expect(rt, "an engine");
    engine.count()
}

#[test]
fn a_table_of_commands_is_answered_as_by_a_list(rt: HostRuntime) {
    let alloc = rt.alloc();
    let mut rows = begun_rows(alloc);
    let mut gate = begun_gate(&rt, alloc, &rows);
    let wrong = wrong_answer(&rt, alloc, &mut rows, &mut gate, COMMANDS);
    assert_eq!(rt; wrong, None);
    assert_eq!(rt; rows.rows.len(), 10);
    assert_eq!(rt; gate.engine.count(), 11);
    assert!(rt; is_begun(gate.plant.disk()));
    assert!(rt; holds(&rt, alloc, &mut gate.plant, &rows));
    assert_eq!(rt; count_again(&rt, alloc, &mut gate.plant), 11);
}

// ---- payloads that are no legal history

/// An order that may come behind these settings. Its group takes 201 bytes.
pub const ORDER: Row = Row {
    number: 2,
    moment: BEGUN,
    caller: 0,
    key: 0,
    content: 0,
};

fn begin_payload(rt: &impl Abort, alloc: Global, plant: &mut MemoryPlant, payload: &[u8]) {
    assert!(rt; 1 <= payload.len() && payload.len() <= MAX_PAYLOAD);
    journal_core::begin(alloc, plant, payload).expect(rt, "a journal");
}

fn append(rt: &impl Abort, alloc: Global, plant: &mut MemoryPlant, payload: &[u8]) {
    assert!(rt; 1 <= payload.len() && payload.len() <= MAX_PAYLOAD);
    let size = payload.len() as u64;
    let (mut journal, _) = Journal::mount(alloc, plant).expect(rt, "a journal");
    journal.reserve(size).expect(rt, "memory");
    assert!(rt; journal.has_room(group_total(size)));
    journal.append(plant, payload).expect(rt, "a disk");
}

/// Why no engine starts from the disk.
fn start_fault(rt: &impl Abort, alloc: Global, plant: &mut MemoryPlant) -> Option<StartFault> {
    let mut clock = clock(rt, alloc, &[]);
    check_settings(rt, alloc, SETTINGS);
    Engine::start(alloc, plant, &mut clock, SETTINGS).err()
}

/// The payload of a group.
#[derive(Clone, Copy, Debug)]
enum Payload {
    /// The settings that a journal begins with, and an order that may come behind them.
    Begin,
    FirstOrder,
    /// The same order with this number and this moment.
    Numbered(u64, u64),
    /// An order with this number, caller, retry key and content.
    Keyed(u64, u8, u8, u8),
    /// Settings with this number.
    Settings(u64, &'static [u8]),
    These(&'static [u8]),
}

use Payload::{Begin, FirstOrder, Keyed, Numbered, Settings, These};

/// The payload of settings with this number, at the moment of the first ones.
fn settings_payload(rt: &impl Abort, alloc: Global, number: u64, settings: &[u8]) -> Vec<u8> {
    let size = u32::try_from(settings.len()).expect(rt, "few bytes");
    let mut out = Vec::new(alloc);
    put(rt, &mut out, &[1]);
    put(rt, &mut out, &number.to_be_bytes());
    put(rt, &mut out, &BEGUN.to_be_bytes());
    put(rt, &mut out, &[0, 0]);
    put(rt, &mut out, &size.to_be_bytes());
    put(rt, &mut out, settings);
    out
}

fn payload_bytes(rt: &impl Abort, alloc: Global, wanted: Payload) -> Vec<u8> {
    match wanted {
        Begin => settings_payload(rt, alloc, 1, SETTINGS),
        Settings(number, settings) => settings_payload(rt, alloc, number, settings),
        These(written) => written.to_vec(alloc).expect(rt, "memory"),
        FirstOrder => payload(rt, alloc, ORDER),
        Numbered(number, moment) => {
            let row = Row {
                number,
                moment,
                ..ORDER
            };
            payload(rt, alloc, row)
        }
        Keyed(number, caller, key, content) => {
            let row = Row {
                number,
                moment: BEGUN,
                caller,
                key,
                content,
            };
            payload(rt, alloc, row)
        }
    }
}

/// Begins a journal with the first of these payloads, and appends the others.
fn fault_of_payloads(rt: &impl Abort, alloc: Global, payloads: &[Payload]) -> Option<StartFault> {
    let mut plant = empty_plant(rt, alloc, &[]);
    for (place, payload) in payloads.iter().enumerate() {
        let written = payload_bytes(rt, alloc, *payload);
        if place == 0 {
            begin_payload(rt, alloc, &mut plant, &written);
        } else {
            append(rt, alloc, &mut plant, &written);
        }
    }
    start_fault(rt, alloc, &mut plant)
}

/// A disk with these bytes, and zeros up to the size where they are fewer.
pub fn plant_of(rt: &impl Abort, alloc: Global, pieces: &[&[u8]], size: usize) -> MemoryPlant {
    plant_behind(rt, alloc, &[], pieces, size)
}

fn plant_behind(
    rt: &impl Abort,
    alloc: Global,
    front: &[&[u8]],
    pieces: &[&[u8]],
    size: usize,
) -> MemoryPlant {
    let mut disk = Vec::new(alloc);
    for piece in front {
        put(rt, &mut disk, piece);
    }
    for piece in pieces {
        put(rt, &mut disk, piece);
    }
    let size = size.max(disk.len());
    disk.resize(size, 0).expect(rt, "memory");
    let disk = Bytes::from_vec(disk);
    MemoryPlant::new(alloc, disk, Bytes::new(alloc), Sequence::new(alloc))
}

/// The payloads of a journal, and from which place on it is bad.
const JOURNALS: &[(&[Payload], Option<u64>)] = &[
    // numbers and moments behind the settings
    (&[Begin, Numbered(2, BEGUN)], None),
    (&[Begin, Numbered(2, LAST)], None),
    (&[Begin, Numbered(0, BEGUN)], Some(1_306)),
    (&[Begin, Numbered(1, BEGUN)], Some(1_306)),
    (&[Begin, Numbered(3, BEGUN)], Some(1_306)),
    (&[Begin, Numbered(u64::MAX, BEGUN)], Some(1_306)),
    (&[Begin, Numbered(2, BEGUN - 1)], Some(1_306)),
    (&[Begin, Numbered(2, LAST + 1)], Some(1_306)),
    // fields that break a rule
    (&[Begin, Keyed(2, 0, 0, 5)], Some(1_306)),
    (&[Begin, Keyed(2, 0, 0, 6)], Some(1_306)),
    // keys behind an order
    (&[Begin, FirstOrder, Keyed(3, 0, 1, 0)], None),
    (&[Begin, FirstOrder, Keyed(3, 1, 0, 0)], None),
    (&[Begin, FirstOrder, Keyed(3, 0, 0, 0)], Some(1_507)),
    (&[Begin, FirstOrder, Keyed(3, 0, 0, 1)], Some(1_507)),
    (&[Begin, FirstOrder, Keyed(2, 0, 1, 0)], Some(1_507)),
    // other payloads
    (&[FirstOrder, Begin], Some(16)),
    (&[Numbered(1, BEGUN), Begin], Some(16)),
    (&[Begin, Begin], Some(1_306)),
    // settings that are in force already, that say none, and that come first
    (&[Begin, Settings(2, SETTINGS)], Some(1_306)),
    (&[Begin, FirstOrder, Settings(3, SETTINGS)], Some(1_507)),
    (&[Begin, Settings(2, b"")], Some(1_306)),
    (&[Begin, Settings(2, b"issuers = []")], Some(1_306)),
    (&[Settings(1, b""), FirstOrder], Some(16)),
    (&[Settings(2, SETTINGS)], Some(16)),
    (&[Begin, These(b"x")], Some(1_306)),
    (&[These(b"x"), These(b"x")], Some(16)),
];

const HEAD: &[u8] = b"gate journal 01\n";

const BAD_FIRST: Option<StartFault> = Some(StartFault::JournalBad { at: 16 });

const BAD_SECOND: Option<StartFault> = Some(StartFault::JournalBad { at: 1_306 });

/// Whether a disk begins as a journal of the settings does, the bytes behind that, its size where that is more, and why no engine
/// starts from it.
const DISKS: &[(bool, &[&[u8]], usize, Option<StartFault>)] = &[
    (false, &[], 0, Some(StartFault::NotBegun)),
    (false, &[HEAD], 0, Some(StartFault::NotBegun)),
    (
        false,
        &[b"gate journal 00\n\0"],
        0,
        Some(StartFault::NotBegun),
    ),
    (true, &[b"\0"], 0, None),
    // no entry, and a first group that isn't whole
    (false, &[HEAD, b"\0"], 0, BAD_FIRST),
    (false, &[HEAD, b"\x01"], 0, BAD_FIRST),
    (false, &[HEAD, b"\x01\0\0"], 0, BAD_FIRST),
    (false, &[HEAD, b"\x01\0\0\0\0"], 100, BAD_FIRST),
    (false, &[HEAD, b"\x01\0\0\0\x17"], 100, BAD_FIRST),
    (true, &[], 0, BAD_FIRST),
    // no second group behind an open gate
    (true, &[b"\x01"], 0, BAD_SECOND),
    (true, &[b"\x01\0\0\0\0"], 1_350, BAD_SECOND),
    (true, &[b"\x01\xff\xff\xff\xff"], 1_350, BAD_SECOND),
    // any bytes behind a closed gate
    (true, &[b"\0\x01\xff"], 1_430, None),
    (true, &[b"\x02\xff"], 1_430, None),
    // the greatest length of a journal, and one byte more
    (false, &[HEAD], 67_108_864, BAD_FIRST),
    (
        true,
        &[],
        67_108_865,
        Some(StartFault::JournalBad { at: 67_108_864 }),
    ),
];

/// The place of the first journal from which an engine starts otherwise.
fn wrong_journal(rt: &impl Abort, alloc: Global) -> Option<usize> {
    for (place, (payloads, want)) in JOURNALS.iter().enumerate() {
        let want = want.map(|at| StartFault::JournalBad { at });
        if fault_of_payloads(rt, alloc, payloads) != want {
            return Some(place);
        }
    }
    None
}

/// What stands in front of a disk's pieces: nothing, or a begun journal but for its last gate.
fn front_of(begun: bool) -> &'static [&'static [u8]] {
    match begun {
        true => &[BEGUN_HEAD, BEGUN_ENTRY, SETTINGS],
        false => &[],
    }
}

/// The place of the first disk from which an engine starts otherwise.
fn wrong_disk(rt: &impl Abort, alloc: Global) -> Option<usize> {
    for (place, (begun, pieces, size, want)) in DISKS.iter().enumerate() {
        let mut plant = plant_behind(rt, alloc, front_of(*begun), pieces, *size);
        if start_fault(rt, alloc, &mut plant) != *want {
            return Some(place);
        }
    }
    None
}

#[test]
fn no_engine_starts_from_what_is_no_legal_journal(rt: HostRuntime) {
    let alloc = rt.alloc();
    assert_eq!(rt; wrong_journal(&rt, alloc), None);
    assert_eq!(rt; wrong_disk(&rt, alloc), None);
}
