//! The settings that a gate begins with, and others that come into force.
ghost use Rattle.gate_settings.specs.Meaning.{IsReadable};

use crate::commands::{BEGUN, FIRST, LAST, clock, empty_plant, plant_of};
use crate::listed::put;
use gate_base::{Bytes, Moment, Sequence};
use gate_engine::{Engine, StartFault, begin};
use gate_settings::read_settings;
use plant::{Fail, MemoryPlant};
use std::alloc::Global;
use std::process::Abort;

/// Those of the example in examples/settings.toml: one account, an operator and six perspectives.
pub const SETTINGS: &[u8] = br#"issuers = ["ca.example"]
[ca]
issuer = "30123110300e06035504030c0747617465204341"
algorithm = "ecdsa-sha256"
key_id = "2222222222222222222222222222222222222222"
crl = "http://c.example/1.crl"
aia = "http://c.example/1.cer"
[suffixes]
rules = "com\nexample\n"
[[callers]]
id = "acme"
role = "account"
token = "acme-token"
thumb = "AAAAAAAAAAAAAAAAAAAAAAAAAAAAAAAAAAAAAAAAAAA"
[[callers]]
id = "op"
role = "operator"
token = "op-token"
[[callers]]
id = "p0"
role = "perspective"
token = "t0"
[[callers]]
id = "p1"
role = "perspective"
token = "t1"
[[callers]]
id = "p2"
role = "perspective"
token = "t2"
[[callers]]
id = "p3"
role = "perspective"
token = "t3"
[[callers]]
id = "p4"
role = "perspective"
token = "t4"
[[callers]]
id = "p5"
role = "perspective"
token = "t5"
[[perspectives]]
id = "p0"
primary = true
region = "arin"
at = [0, 0, 0]
[[perspectives]]
id = "p1"
primary = false
region = "ripe"
at = [1000, 0, 0]
[[perspectives]]
id = "p2"
primary = false
region = "ripe"
at = [2000, 0, 0]
[[perspectives]]
id = "p3"
primary = false
region = "apnic"
at = [3000, 0, 0]
[[perspectives]]
id = "p4"
primary = false
region = "apnic"
at = [4000, 0, 0]
[[perspectives]]
id = "p5"
primary = false
region = "arin"
at = [5000, 0, 0]
"#;

/// Ends the test where these are no settings.
pub fn check_settings(rt: &impl Abort, alloc: Global, settings: &[u8])
    ensures { IsReadable settings.now }
{
    read_settings(alloc, settings).expect(rt, "settings");
}

/// A journal of these settings, begun at that moment.
pub fn begin_with(rt: &impl Abort, alloc: Global, plant: &mut MemoryPlant, settings: &[u8]) {
    check_settings(rt, alloc, settings);
    begin(alloc, plant, Moment(BEGUN), settings).expect(rt, "a journal");
}

pub fn begin_journal(rt: &impl Abort, alloc: Global, plant: &mut MemoryPlant) {
    begin_with(rt, alloc, plant, SETTINGS);
}

/// The settings with a comment of that letter behind them. Their entry's group takes 1,293 bytes.
fn commented(rt: &impl Abort, alloc: Global, letter: u8) -> Vec<u8> {
    let mut out = Vec::new(alloc);
    put(rt, &mut out, SETTINGS);
    put(rt, &mut out, &[b'#', letter, b'\n']);
    out
}

/// What a start over a disk gives: how many entries the engine has, or why none started.
type Started = Result<u64, StartFault>;

fn started(
    rt: &impl Abort,
    alloc: Global,
    plant: &mut MemoryPlant,
    readings: &[Option<u64>],
    settings: &[u8],
) -> Started {
    check_settings(rt, alloc, settings);
    let mut clock = clock(rt, alloc, readings);
    let engine = Engine::start(alloc, plant, &mut clock, settings)?;
    Ok(engine.count())
}

/// The letter of the settings that a start is given, its readings, what it gives, and the disk's length afterwards.
type Start = (u8, &'static [Option<u64>], Started, usize);

/// Over one disk, one start after another. 0 stands for the settings without a comment.
const STARTS: &[Start] = &[
    // the settings that are in force: nothing is written, and the clock isn't read
    (0, &[None], Ok(1), 1_307),
    (0, &[], Ok(1), 1_307),
    // others: the clock has to give a reading in range
    (b'a', &[], Err(StartFault::Clock), 1_307),
    (b'a', &[None, Some(BEGUN)], Err(StartFault::Clock), 1_307),
    (
        b'a',
        &[Some(FIRST - 1)],
        Err(StartFault::ClockRange { reading: FIRST - 1 }),
        1_307,
    ),
    (
        b'a',
        &[Some(LAST + 1)],
        Err(StartFault::ClockRange { reading: LAST + 1 }),
        1_307,
    ),
    (b'a', &[Some(BEGUN)], Ok(2), 2_600),
    (b'a', &[None], Ok(2), 2_600),
    // back to the first ones, which are not the last ones; a reading below the last moment is no fault
    (0, &[Some(FIRST)], Ok(3), 3_890),
    (0, &[None], Ok(3), 3_890),
    (b'b', &[Some(LAST)], Ok(4), 5_183),
    (b'a', &[Some(BEGUN)], Ok(5), 6_476),
    (b'a', &[None], Ok(5), 6_476),
];

/// The place of the first start that gives something else, or leaves a disk of another length.
fn wrong_start(rt: &impl Abort, alloc: Global) -> Option<usize> {
    let mut plant = empty_plant(rt, alloc, &[]);
    begin_journal(rt, alloc, &mut plant);
    for (place, (letter, readings, want, size)) in STARTS.iter().enumerate() {
        let settings = match letter {
            0 => SETTINGS.to_vec(alloc).expect(rt, "memory"),
            _ => commented(rt, alloc, *letter),
        };
        let got = started(rt, alloc, &mut plant, readings, settings.as_slice());
        if got != *want || plant.disk().len() != *size {
            return Some(place);
        }
    }
    None
}

/// A disk with a begun journal, of which the calls of the next start with these numbers fail. Five mount it, and the four of a commit
/// follow: the group's write and its sync, the gate's write and its sync.
fn failing_plant(rt: &impl Abort, alloc: Global, call: u64) -> MemoryPlant {
    let mut plant = empty_plant(rt, alloc, &[]);
    begin_journal(rt, alloc, &mut plant);
    let mut fails = Sequence::new(alloc);
    fails.push((call, Fail::Disk)).expect(rt, "memory");
    let disk = Bytes::from_slice(alloc, plant.disk()).expect(rt, "memory");
    MemoryPlant::new(alloc, disk, Bytes::new(alloc), fails)
}

/// The call that fails, and the entries that the next start finds where no settings change.
const FAILING: &[(u64, u64)] = &[
    (1, 1),
    (2, 1),
    (3, 1),
    (4, 1),
    (5, 1),
    (6, 1),
    (7, 1),
    (8, 2),
];

/// The first call behind which another start is given something else than that the disk failed, or leaves another journal.
fn wrong_failure(rt: &impl Abort, alloc: Global) -> Option<u64> {
    let other = commented(rt, alloc, b'a');
    for (call, found) in FAILING {
        let mut plant = failing_plant(rt, alloc, *call);
        let readings = &[Some(BEGUN)];
        let got = started(rt, alloc, &mut plant, readings, other.as_slice());
        let again = if *found == 1 {
            started(rt, alloc, &mut plant, &[None], SETTINGS)
        } else {
            started(rt, alloc, &mut plant, &[None], other.as_slice())
        };
        let after = started(rt, alloc, &mut plant, readings, other.as_slice());
        if got != Err(StartFault::Disk) || again != Ok(*found) || after != Ok(2) {
            return Some(*call);
        }
    }
    None
}

#[test]
fn settings_come_into_force_at_a_start(rt: HostRuntime) {
    let alloc = rt.alloc();
    assert_eq!(rt; SETTINGS.len(), 1_230);
    assert_eq!(rt; wrong_start(&rt, alloc), None);
    assert_eq!(rt; wrong_failure(&rt, alloc), None);
}
