ghost use Rattle.journal_core.specs.Journal.{IsPayload};

use gate_base::{Bytes, Sequence};
use journal_core::{AppendDisk, BeginFault, FIRST_GATE, Journal, MountFault, begin, group_total};
use plant::{Fail, MAX_BYTES, MemoryPlant};
use std::alloc::Global;
use std::test::Fail as TestFail;

/// The line that a journal begins with.
const HEAD: &[u8] = b"gate journal 01\n";

/// The group of the payload `ab` behind the first gate, as Python's hashlib computes it.
const FIRST: &[u8] = b"\0\0\0\x02\
    \x4e\xe2\xc0\x00\x37\xb5\xd8\x16\x25\x66\xcf\x64\x00\xb7\xf9\xe9\
    \x87\x24\x8d\xc9\x55\x34\xba\x10\xdd\xaf\x4f\x02\xf0\x6c\xc9\x2dab";

/// The group of the payload `cde` behind that one, and a closed gate.
const SECOND_AND_GATE: &[u8] = b"\0\0\0\x03\
    \x64\xa9\x3b\x09\x10\xaa\x87\xfa\xfe\x10\x53\x71\x25\x82\x89\x12\
    \xd0\xe5\x89\xaa\x55\xcd\x86\xb3\xa6\xcb\xec\xb3\xa4\x3c\xe1\xaccde\0";

/// The place of the gate behind the first group.
const SECOND_GATE: u64 = 55;

/// The bytes of the pieces, one after another.
fn joined(alloc: Global, pieces: &[&[u8]]) -> Result<Vec<u8>, TestFail> {
    let mut bytes = Vec::new(alloc);
    for piece in pieces {
        bytes.extend_from_slice(piece)?;
    }
    Ok(bytes)
}

/// A plant with these bytes, of which the calls with these numbers fail.
fn plant_with(alloc: Global, disk: &[u8], fails: &[(u64, Fail)]) -> Result<MemoryPlant, TestFail> {
    let disk = Bytes::from_slice(alloc, disk)?;
    let fails = Sequence::from_slice(alloc, fails)?;
    Ok(MemoryPlant::new(alloc, disk, Bytes::new(alloc), fails))
}

/// How many payloads a mount finds, or why there is no journal.
fn mounted(alloc: Global, plant: &mut MemoryPlant) -> Result<usize, MountFault> {
    Journal::mount(alloc, plant).map(|(_, payloads)| payloads.len())
}

/// Mounts the journal, and appends a payload where it has room.
fn append_once(
    alloc: Global,
    plant: &mut MemoryPlant,
    payload: &[u8],
) -> Result<(Journal, Option<AppendDisk>), MountFault>
    requires { IsPayload payload.now }
{
    let (mut journal, _payloads) = Journal::mount(alloc, plant)?;
    journal.reserve(payload.len() as u64)?;
    if !journal.has_room(group_total(payload.len() as u64)) {
        return Err(MountFault::NoMemory);
    }
    match journal.append(plant, payload) {
        Ok(()) => Ok((journal, None)),
        Err(fault) => Ok((journal, Some(fault))),
    }
}

#[test]
fn a_journal_is_begun_mounted_and_grows(rt: HostRuntime) -> Result<(), TestFail> {
    let alloc = rt.alloc();
    let mut plant = plant_with(alloc, b"", &[])?;
    assert_eq!(rt; begin(alloc, &mut plant, b"ab"), Ok(()));
    let begun = joined(alloc, &[b"gate journal 01\n\x01", FIRST, b"\0"])?;
    assert_eq!(rt; plant.disk(), begun.as_slice());
    let again = begin(alloc, &mut plant, b"c");
    assert_eq!(rt; again, Err(BeginFault::NotEmpty { length: 56 }));
    match append_once(alloc, &mut plant, b"cde") {
        Ok((journal, None)) => {
            assert!(rt; !journal.broken());
            assert_eq!(rt; journal.chain().as_slice(), &SECOND_AND_GATE[4..36]);
            assert!(rt; journal.has_room(MAX_BYTES - 96));
            assert!(rt; !journal.has_room(MAX_BYTES - 95));
            assert!(rt; !journal.has_room(u64::MAX));
        }
        _ => panic!(rt; "not appended"),
    }
    let grown = joined(
        alloc,
        &[b"gate journal 01\n\x01", FIRST, b"\x01", SECOND_AND_GATE],
    )?;
    assert_eq!(rt; plant.disk(), grown.as_slice());
    assert_eq!(rt; mounted(alloc, &mut plant), Ok(2));
    assert_eq!(rt; plant.short(), 0);
    Ok(())
}

/// How many payloads a mount finds behind the first group, a gate with this byte, and more.
fn mounted_behind(
    alloc: Global,
    gate: u8,
    more: &[u8],
) -> Result<Result<usize, MountFault>, TestFail> {
    let mut disk = joined(alloc, &[HEAD, b"\x01", FIRST])?;
    disk.push(gate)?;
    disk.extend_from_slice(more)?;
    let mut plant = plant_with(alloc, &disk, &[])?;
    Ok(mounted(alloc, &mut plant))
}

/// The first value of a gate behind which something else is found.
fn first_wrong_gate(alloc: Global) -> Result<Option<u8>, TestFail> {
    for gate in 0..=255_u8 {
        let bare = mounted_behind(alloc, gate, b"")?;
        let whole = mounted_behind(alloc, gate, SECOND_AND_GATE)?;
        let right = if gate == 1 {
            bare == Err(MountFault::BadHead { at: SECOND_GATE }) && whole == Ok(2)
        } else {
            bare == Ok(1) && whole == Ok(1)
        };
        if !right {
            return Ok(Some(gate));
        }
    }
    Ok(None)
}

/// The first number of bytes of which a mount tells something else; the last gate and its group are cut off byte by byte.
fn first_wrong_cut(alloc: Global) -> Result<Option<usize>, TestFail> {
    let mut bytes = joined(alloc, &[HEAD, b"\x01", FIRST, b"\x01", SECOND_AND_GATE])?;
    for _ in 0..96 {
        bytes.pop();
        let mut plant = plant_with(alloc, &bytes, &[])?;
        let count = bytes.len();
        let want = match count {
            0..=16 => MountFault::NotBegun,
            17..=55 => MountFault::BadHead { at: FIRST_GATE },
            _ => MountFault::BadHead { at: SECOND_GATE },
        };
        if mounted(alloc, &mut plant) != Err(want) {
            return Ok(Some(count));
        }
    }
    Ok(None)
}

#[test]
fn the_last_gate_and_a_file_that_is_cut(rt: HostRuntime) -> Result<(), TestFail> {
    let alloc = rt.alloc();
    assert_eq!(rt; first_wrong_gate(alloc)?, None);
    assert_eq!(rt; first_wrong_cut(alloc)?, None);
    Ok(())
}

/// Another head, no payload, the length 0, the length 1,114,113, another chain; zeros follow.
const FRONTS: &[(&[u8], Result<usize, MountFault>)] = &[
    (b"gate journal 00\n", Err(MountFault::NotBegun)),
    (b"gate journal 01\n", Ok(0)),
    (b"gate journal 01\n\x01\0\0\0\0", Err(BAD_FIRST)),
    (b"gate journal 01\n\x01\0\x11\0\x01", Err(BAD_FIRST)),
    (b"gate journal 01\n\x01\0\0\0\x02", Err(BAD_FIRST)),
];

const BAD_FIRST: MountFault = MountFault::BadHead { at: FIRST_GATE };

fn first_wrong_front(
    alloc: Global,
    rows: &[(&[u8], Result<usize, MountFault>)],
) -> Result<Option<usize>, TestFail> {
    for (at, row) in rows.iter().enumerate() {
        let mut disk = Vec::from_slice(alloc, row.0)?;
        disk.extend_from_slice(&[0; 40])?;
        let mut plant = plant_with(alloc, &disk, &[])?;
        if mounted(alloc, &mut plant) != row.1 {
            return Ok(Some(at));
        }
    }
    Ok(None)
}

#[test]
fn bytes_that_are_no_journal_are_told(rt: HostRuntime) -> Result<(), TestFail> {
    assert_eq!(rt; first_wrong_front(rt.alloc(), FRONTS)?, None);
    Ok(())
}

/// A failing call of begin, which asks the length, and writes and syncs three times; and what a mount then finds.
const OF_BEGIN: &[(u64, Result<usize, MountFault>)] = &[
    (1, Err(MountFault::NotBegun)),
    (2, Err(MountFault::NotBegun)),
    (3, Ok(0)),
    (4, Ok(0)),
    (5, Ok(0)),
    (6, Ok(0)),
    (7, Ok(1)),
];

fn first_wrong_begin(
    alloc: Global,
    rows: &[(u64, Result<usize, MountFault>)],
) -> Result<Option<usize>, TestFail> {
    for (at, row) in rows.iter().enumerate() {
        let mut plant = plant_with(alloc, b"", &[(row.0, Fail::Disk)])?;
        let failed = begin(alloc, &mut plant, b"ab") == Err(BeginFault::Disk);
        let found = mounted(alloc, &mut plant) == row.1;
        if !failed || !found || plant.short() != 0 {
            return Ok(Some(at));
        }
    }
    Ok(None)
}

/// The first call of a mount whose fault isn't told, or after which the next mount finds something else: the sync, the
/// length, the head and the rest.
fn first_wrong_mount(alloc: Global, begun: &[u8]) -> Result<Option<u64>, TestFail> {
    for call in 1..=4_u64 {
        let mut plant = plant_with(alloc, begun, &[(call, Fail::Disk)])?;
        let failed = mounted(alloc, &mut plant) == Err(MountFault::Disk);
        if !failed || mounted(alloc, &mut plant) != Ok(1) {
            return Ok(Some(call));
        }
    }
    Ok(None)
}

/// Whether an append fails at the disk and leaves a broken journal.
fn breaks(alloc: Global, plant: &mut MemoryPlant) -> bool {
    match append_once(alloc, plant, b"cde") {
        Ok((journal, Some(AppendDisk))) => journal.broken(),
        _ => false,
    }
}

/// A failing call of an append behind a mount: the group and its sync, the gate and its sync; and what a mount then finds.
const OF_APPEND: &[(u64, usize)] = &[(5, 1), (6, 1), (7, 1), (8, 2)];

fn first_wrong_append(
    alloc: Global,
    begun: &[u8],
    rows: &[(u64, usize)],
) -> Result<Option<usize>, TestFail> {
    for (at, row) in rows.iter().enumerate() {
        let mut plant = plant_with(alloc, begun, &[(row.0, Fail::Disk)])?;
        if !breaks(alloc, &mut plant) || mounted(alloc, &mut plant) != Ok(row.1) {
            return Ok(Some(at));
        }
    }
    Ok(None)
}

#[test]
fn a_failing_call_of_the_disk(rt: HostRuntime) -> Result<(), TestFail> {
    let alloc = rt.alloc();
    let begun = joined(alloc, &[HEAD, b"\x01", FIRST, b"\0"])?;
    assert_eq!(rt; first_wrong_begin(alloc, OF_BEGIN)?, None);
    assert_eq!(rt; first_wrong_mount(alloc, &begun)?, None);
    assert_eq!(rt; first_wrong_append(alloc, &begun, OF_APPEND)?, None);
    Ok(())
}
