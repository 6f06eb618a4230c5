mod changes;

use changes::{CHANGES, EXAMPLE, LIMITS, Long, Row};
use gate_base::Role;
use gate_settings::{CallerRow, Callers, SettingsFault, read_settings};
use std::alloc::Global;
use std::test::Fail;

/// The rule and the item that are told of a file, or zeros.
fn told(alloc: Global, bytes: &[u8]) -> (u8, u64) {
    match read_settings(alloc, bytes) {
        Ok(_) => (0, 0),
        Err(SettingsFault::Rule { rule, item }) => (rule, item),
        Err(SettingsFault::NoMemory) => (255, 0),
    }
}

/// Appends so many of a text; whether memory was enough.
fn push_all(text: &mut String, piece: &str, count: usize) -> bool {
    for _ in 0..count {
        if text.push_str(piece).is_err() {
            return false;
        }
    }
    true
}

/// Appends the example with another text in place of the first of one: a front, and so many of a piece.
fn push_changed(text: &mut String, old: &str, front: &str, piece: &str, count: usize) -> bool {
    match EXAMPLE.split_once(old) {
        Some((before, behind)) => {
            push_all(text, before, 1)
                && push_all(text, front, 1)
                && push_all(text, piece, count)
                && push_all(text, behind, 1)
        }
        None => false,
    }
}

/// What is told of the example so changed.
fn told_of(alloc: Global, old: &str, front: &str, piece: &str, count: usize) -> (u8, u64) {
    let mut text = String::new(alloc);
    if push_changed(&mut text, old, front, piece, count) {
        told(alloc, text.as_bytes())
    } else {
        (254, 0)
    }
}

/// The first row that gets something else than it says.
fn first_wrong(alloc: Global, rows: &[Row]) -> Option<usize> {
    for at in 0..rows.len() {
        let (old, new, rule, item) = rows[at];
        if told_of(alloc, old, new, "", 0) != (rule, item) {
            return Some(at);
        }
    }
    None
}

/// The same of rows that repeat a text.
fn first_wrong_long(alloc: Global, rows: &[Long]) -> Option<usize> {
    for at in 0..rows.len() {
        let (old, front, piece, count, rule, item) = rows[at];
        if told_of(alloc, old, front, piece, count) != (rule, item) {
            return Some(at);
        }
    }
    None
}

#[test]
fn each_change_gets_its_rule_and_item(rt: HostRuntime) {
    let alloc = rt.alloc();
    assert_eq!(rt; EXAMPLE.len(), 1_230);
    assert_eq!(rt; told(alloc, EXAMPLE.as_bytes()), (0, 0));
    assert_eq!(rt; told(alloc, b""), (3, 0));
    assert_eq!(rt; told(alloc, b"issuers = ['\xff']"), (2, 0));
    assert_eq!(rt; first_wrong(alloc, &CHANGES), None);
    assert_eq!(rt; first_wrong_long(alloc, &LIMITS), None);
}

/// How long a caller's id and thumb are, and what it may ask.
fn told_of_row(row: Option<&CallerRow>) -> Option<(usize, usize, Role)> {
    match row {
        Some(row) => Some((row.id.len(), row.thumb.len(), row.role)),
        None => None,
    }
}

/// The same of the rows that are found by some tokens and ids.
fn found_in(callers: &Callers) -> [Option<(usize, usize, Role)>; 4] {
    [
        told_of_row(callers.find(b"acme-token")),
        told_of_row(callers.find_id(b"op")),
        told_of_row(callers.find(b"t6")),
        told_of_row(callers.find_id(b"acme-token")),
    ]
}

#[test]
fn the_example_says_what_it_says(rt: HostRuntime) -> Result<(), Fail> {
    let settings = read_settings(rt.alloc(), EXAMPLE.as_bytes())?;
    let account = Some((4, 43, Role::Account));
    let operator = Some((2, 0, Role::Operator));
    assert_eq!(rt;
        found_in(&settings.callers),
        [account, operator, None, None]
    );
    let panel = (settings.panel.len(), settings.panel.primary().id.len());
    assert_eq!(rt; panel, (6, 2));
    assert_eq!(rt; settings.panel.member(2).map(|member| member.x), Some(2000));
    let sizes = (settings.issuers.len(), settings.profile.issuer.len());
    assert_eq!(rt; sizes, (1, 20));
    assert_eq!(rt; settings.profile.key_id.0[19], 0x22);
    Ok(())
}

#[test]
fn each_fault_is_printed(rt: HostRuntime) -> Result<(), Fail> {
    let rows = [
        (
            SettingsFault::Rule { rule: 1, item: 0 },
            "settings break S01 at 0",
        ),
        (
            SettingsFault::Rule { rule: 12, item: 3 },
            "settings break S12 at 3",
        ),
        (SettingsFault::NoMemory, "out of memory"),
    ];
    for (fault, text) in rows {
        assert_eq!(rt; fault.to_string(rt.alloc())?.as_str(), text);
    }
    Ok(())
}
