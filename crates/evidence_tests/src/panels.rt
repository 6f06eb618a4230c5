use gate_base::{Bytes, Moment, NoMemory};
use perspectives::{Panel, PanelFault, Perspective, Quorum, Region, quorum};
use std::alloc::Global;
use std::test::Fail;

const ARIN: Region = Region::Arin;

const RIPE: Region = Region::Ripe;

/// A perspective on the first axis, named by one byte.
fn standing(
    alloc: Global,
    name: u8,
    primary: bool,
    region: Region,
    x: i64,
) -> Result<Perspective, NoMemory> {
    Ok(Perspective {
        id: Bytes::from_slice(alloc, &[name])?,
        primary,
        region,
        x,
        y: 0,
        z: 0,
    })
}

/// Members in these regions, a thousand kilometres apart, of which the one at a place is the primary.
fn members(
    alloc: Global,
    regions: &[Region],
    primary: usize,
) -> Result<Vec<Perspective>, NoMemory> {
    let mut list = Vec::new(alloc);
    let mut x = -16_000i64;
    for at in 0..regions.len() {
        let id = u8::try_from(at).unwrap_or(u8::MAX);
        list.push(standing(alloc, id, at == primary, regions[at], x)?)?;
        x = x.saturating_add(1_000);
    }
    Ok(list)
}

/// What is told of a primary, remotes in these regions, and who is good.
fn verdict(alloc: Global, regions: &[Region], good: &[bool]) -> Option<Quorum> {
    let Ok(list) = members(alloc, regions, 0) else {
        return None;
    };
    match Panel::from_list(alloc, list.as_slice()) {
        Ok(panel) => Some(quorum(&panel, good, Moment(1_799_539_200))),
        Err(_) => None,
    }
}

/// The primary's region and the remotes', who is good, and what is told.
const QUORUMS: &[(&[Region], &[bool], Quorum)] = &[
    (
        &[
            RIPE,
            ARIN,
            RIPE,
            Region::Apnic,
            Region::Lacnic,
            Region::Afrinic,
        ],
        &[true, true, false, true, false, true],
        Quorum::TooFew { good: 3, needed: 4 },
    ),
    (
        &[RIPE, ARIN, ARIN, ARIN, ARIN, ARIN],
        &[true, true, false, true, true, true],
        Quorum::OneRegion,
    ),
    (
        &[RIPE, ARIN, RIPE, ARIN, RIPE, ARIN, RIPE],
        &[false, true, true, false, false, true, true],
        Quorum::Met,
    ),
];

fn first_wrong_quorum(alloc: Global, rows: &[(&[Region], &[bool], Quorum)]) -> Option<usize> {
    for (at, row) in rows.iter().enumerate() {
        if verdict(alloc, row.0, row.1) != Some(row.2) {
            return Some(at);
        }
    }
    None
}

#[test]
fn silent_remotes_count_as_missing(rt: HostRuntime) {
    assert_eq!(rt; first_wrong_quorum(rt.alloc(), QUORUMS), None);
}

/// How many members a panel has, and where its primary stands.
fn told(alloc: Global, list: &[Perspective]) -> Result<(u64, i64), PanelFault> {
    let panel = Panel::from_list(alloc, list)?;
    Ok((panel.len(), panel.primary().x))
}

#[test]
fn a_panel_shows_its_members(rt: HostRuntime) -> Result<(), Fail> {
    let regions = [ARIN; 34];
    let rows = [
        (1, 0, Ok((1, -16_000))),
        (3, 1, Ok((3, -15_000))),
        (33, 32, Ok((33, 16_000))),
        (34, 33, Err(PanelFault::TooMany)),
        (33, 33, Err(PanelFault::NoPrimary)),
    ];
    for (count, primary, want) in rows {
        let list = members(rt.alloc(), &regions[..count], primary)?;
        assert_eq!(rt; told(rt.alloc(), list.as_slice()), want, "{count} members");
    }
    let list = members(rt.alloc(), &[ARIN, RIPE], 0)?;
    let panel = Panel::from_list(rt.alloc(), list.as_slice())?;
    assert_eq!(rt; panel.member(1).map(|member| member.region), Some(RIPE));
    assert_eq!(rt; panel.member(2).is_none(), true);
    Ok(())
}

#[test]
fn the_first_broken_rule_is_told(rt: HostRuntime) -> Result<(), Fail> {
    let rows = [
        (
            PanelFault::NoPrimary,
            [(1, false, 0), (1, false, 0), (2, false, 99_999)],
        ),
        (
            PanelFault::TwicePrimary,
            [(1, true, 0), (1, true, 0), (2, false, 99_999)],
        ),
        (
            PanelFault::TwiceNamed,
            [(1, true, 0), (2, false, 99_999), (1, false, 0)],
        ),
        (
            PanelFault::BadPlace(1),
            [(1, true, 0), (2, false, 20_001), (3, false, -20_001)],
        ),
        (
            PanelFault::BadPlace(2),
            [(1, true, 0), (2, false, 20_000), (3, false, -20_001)],
        ),
        (
            PanelFault::TooNear(0, 2),
            [(1, true, 0), (2, false, 600), (3, false, 499)],
        ),
        (
            PanelFault::TooNear(1, 2),
            [(1, true, 0), (2, false, 500), (3, false, 501)],
        ),
    ];
    for (fault, places) in rows {
        let mut list = Vec::new(rt.alloc());
        for (name, primary, x) in places {
            list.push(standing(rt.alloc(), name, primary, ARIN, x)?)?;
        }
        assert_eq!(rt; told(rt.alloc(), list.as_slice()), Err(fault));
    }
    Ok(())
}

#[test]
fn each_fault_is_printed(rt: HostRuntime) -> Result<(), Fail> {
    let rows = [
        (PanelFault::TooMany, "more than 33 perspectives"),
        (PanelFault::NoPrimary, "no primary perspective"),
        (
            PanelFault::TwicePrimary,
            "more than one primary perspective",
        ),
        (PanelFault::TwiceNamed, "two perspectives with one name"),
        (
            PanelFault::BadPlace(7),
            "perspective 7 has a place out of range",
        ),
        (
            PanelFault::TooNear(0, 2),
            "perspectives 0 and 2 are too near",
        ),
        (PanelFault::NoMemory, "out of memory"),
    ];
    for (fault, text) in rows {
        assert_eq!(rt; fault.to_string(rt.alloc())?.as_str(), text);
    }
    Ok(())
}
