use caa_climb::{
    Climb, Permission, climb, fresh_until, is_issuer_domain_name, permission, read_issue_value,
};
use gate_base::{
    ByteLists, Bytes, CaaAnswer, CaaAnswers, CaaRow, CaaRows, CaaSeen, Labels, Moment, Name,
    NoMemory,
};
use std::alloc::Global;
use std::test::Fail;

/// A value, and its issuer's domain name and its parameters where it has the form of an issue value.
type ValueRow = (&'static str, Option<(&'static str, &'static str)>);

const VALUES: &[ValueRow] = &[
    ("", Some(("", ""))),
    (" \t ", Some(("", ""))),
    (";", Some(("", ""))),
    (" ; \t", Some(("", ""))),
    ("ca.example", Some(("ca.example", ""))),
    ("\t CA.Example \t", Some(("CA.Example", ""))),
    ("c--a1.9example;", Some(("c--a1.9example", ""))),
    (
        "ca.example; account=230123",
        Some(("ca.example", "account=230123")),
    ),
    (";a-b=1", Some(("", "a-b=1"))),
    ("ca ; a = 1 ;\tb=2\t", Some(("ca", "a = 1 ;\tb=2"))),
    ("ca; a=", Some(("ca", "a="))),
    ("ca; a= \t", Some(("ca", "a= \t"))),
    ("ca; a=1; b = ", Some(("ca", "a=1; b = "))),
    ("ca; a=; b=~! ", Some(("ca", "a=; b=~!"))),
    ("ca; a== ", Some(("ca", "a=="))),
    ("%%%%%", None),
    ("ca example", None),
    ("ca-.example", None),
    ("-ca.example", None),
    ("ca.example-", None),
    (".example", None),
    ("ca..example", None),
    ("ca.example.", None),
    ("ca_.example", None),
    ("caf\u{e9}.example", None),
    ("ca; a", None),
    ("ca; =1", None),
    ("ca; a-=1", None),
    ("ca; a=1;", None),
    ("ca;; a=1", None),
    ("ca; a=b c", None),
    ("ca; a=\u{7f}", None),
    ("ca; a=\u{e9}", None),
];

fn is_read_so(value: &str, want: Option<(&str, &str)>) -> bool {
    match (read_issue_value(value.as_bytes()), want) {
        (Some(read), Some((issuer, parameters))) => {
            read.issuer == issuer.as_bytes() && read.parameters == parameters.as_bytes()
        }
        (None, None) => true,
        _ => false,
    }
}

fn first_wrong_value(rows: &[ValueRow]) -> Option<usize> {
    for (at, row) in rows.iter().enumerate() {
        if !is_read_so(row.0, row.1) {
            return Some(at);
        }
    }
    None
}

const ISSUERS: &[(&str, bool)] = &[
    ("ca.example", true),
    ("P--9", true),
    ("", false),
    ("ca..example", false),
    ("ca.example.", false),
    ("-ca.example", false),
    (" ca.example", false),
    ("ca.example; a=b", false),
];

fn first_wrong_issuer(rows: &[(&str, bool)]) -> Option<usize> {
    for (at, row) in rows.iter().enumerate() {
        if is_issuer_domain_name(row.0.as_bytes()) != row.1 {
            return Some(at);
        }
    }
    None
}

#[test]
fn issue_values_and_issuers_are_read(rt: HostRuntime) {
    assert_eq!(rt; first_wrong_value(VALUES), None);
    assert_eq!(rt; first_wrong_issuer(ISSUERS), None);
}

fn row(alloc: Global, flags: u8, tag: &str, value: &str) -> Result<CaaRow, NoMemory> {
    Ok(CaaRow {
        flags,
        tag: Bytes::from_slice(alloc, tag.as_bytes())?,
        value: Bytes::from_slice(alloc, value.as_bytes())?,
    })
}

fn set(alloc: Global, rows: &[(u8, &str, &str)]) -> Result<CaaRows, NoMemory> {
    let mut list = CaaRows::new(alloc);
    for (flags, tag, value) in rows {
        list.push(row(alloc, *flags, tag, value)?)?;
    }
    Ok(list)
}

fn texts(alloc: Global, texts: &[&str]) -> Result<ByteLists, NoMemory> {
    let mut list = ByteLists::new(alloc);
    for text in texts {
        list.push(Bytes::from_slice(alloc, text.as_bytes())?)?;
    }
    Ok(list)
}

fn name(alloc: Global, labels: &[&str]) -> Result<Name, NoMemory> {
    let labels: Labels = texts(alloc, labels)?;
    Ok(Name {
        labels,
        wild: false,
    })
}

/// So many empty answers, and then this set.
fn seen(alloc: Global, empty: usize, ttl: u32, rows: CaaRows) -> Result<CaaSeen, NoMemory> {
    let mut answers = CaaAnswers::new(alloc);
    for _ in 0..empty {
        let rows = CaaRows::new(alloc);
        answers.push(CaaAnswer::Set { ttl, rows })?;
    }
    answers.push(CaaAnswer::Set { ttl, rows })?;
    Ok(CaaSeen { answers })
}

#[test]
fn records_are_found_above_the_name(rt: HostRuntime) -> Result<(), Fail> {
    let alloc = rt.alloc();
    let wanted = name(alloc, &["a", "b", "example", "com"])?;
    let issuers = texts(alloc, &["ca.example"])?;
    for (value, want) in [
        ("ca.example", Permission::Allowed),
        (";", Permission::Denied),
    ] {
        let rows = set(alloc, &[(0, "issue", value)])?;
        let seen = seen(alloc, 2, 300, rows)?;
        match climb(&seen, &wanted) {
            Climb::Found { drop, ttl, rows } => {
                assert_eq!(rt; (drop, ttl), (2, 300));
                assert_eq!(rt; permission(rows, false, &issuers), want);
            }
            _ => assert!(rt; false, "nothing found"),
        }
    }
    Ok(())
}

#[test]
fn the_root_is_never_asked(rt: HostRuntime) -> Result<(), Fail> {
    let alloc = rt.alloc();
    let wanted = name(alloc, &["example", "com"])?;
    let rows = set(alloc, &[(0, "issue", ";")])?;
    let above = seen(alloc, 2, 300, rows)?;
    assert!(rt; matches!(climb(&above, &wanted), Climb::Empty));

    let short = seen(alloc, 0, 300, CaaRows::new(alloc))?;
    assert!(rt; matches!(climb(&short, &wanted), Climb::Unknown { drop: 1 }));

    let mut answers = CaaAnswers::new(alloc);
    answers.push(CaaAnswer::Failed)?;
    let failed = CaaSeen { answers };
    assert!(rt; matches!(climb(&failed, &wanted), Climb::Unknown { drop: 0 }));
    Ok(())
}

/// A record, and what it permits where it stands alone and the name is no wildcard.
const RECORDS: &[(u8, &str, &str, Permission)] = &[
    (0, "iodef", "mailto:a@b.example", Permission::Allowed),
    (128, "AUTH", "", Permission::Critical { row: 0 }),
    (128, "IODEF", "", Permission::Allowed),
    (1, "AUTH", "", Permission::Allowed),
    (0, "ISSUE", "CA.Example", Permission::Allowed),
    (128, "issue", "other.example", Permission::Denied),
    (0, "issue", "%%%%%", Permission::Denied),
    (0, "issuewild", "other.example", Permission::Allowed),
    (0, "issue", "", Permission::Denied),
    (0, "issue", "; a=b", Permission::Denied),
];

fn first_wrong_record(
    alloc: Global,
    rows: &[(u8, &str, &str, Permission)],
    issuers: &ByteLists,
) -> Result<Option<usize>, NoMemory> {
    for (at, row) in rows.iter().enumerate() {
        let one = set(alloc, &[(row.0, row.1, row.2)])?;
        if permission(&one, false, issuers) != row.3 {
            return Ok(Some(at));
        }
    }
    Ok(None)
}

#[test]
fn records_permit(rt: HostRuntime) -> Result<(), Fail> {
    let alloc = rt.alloc();
    let issuers = texts(alloc, &["pki.example", "", "ca.example"])?;
    let both = [
        (0, "issue", "ca.example"),
        (0, "issuewild", "other.example"),
    ];
    let plain = set(alloc, &both)?;
    assert_eq!(rt; permission(&plain, false, &issuers), Permission::Allowed);
    assert_eq!(rt; permission(&plain, true, &issuers), Permission::Denied);
    assert_eq!(rt; first_wrong_record(alloc, RECORDS, &issuers)?, None);
    Ok(())
}

#[test]
fn answers_are_used_for_their_time(rt: HostRuntime) -> Result<(), Fail> {
    let seen_at = Moment(1_790_000_000);
    let rows = set(rt.alloc(), &[(0, "issue", "ca.example")])?;
    for (ttl, until) in [(60, 1_790_028_800), (40_000, 1_790_040_000)] {
        let found = Climb::Found {
            drop: 0,
            ttl,
            rows: &rows,
        };
        assert_eq!(rt; fresh_until(&found, seen_at), Moment(until));
    }
    let wanted = name(rt.alloc(), &["com"])?;
    let empty = seen(rt.alloc(), 0, 40_000, CaaRows::new(rt.alloc()))?;
    assert_eq!(rt;
        fresh_until(&climb(&empty, &wanted), seen_at),
        Moment(1_790_028_800)
    );
    Ok(())
}
