mod tables;

use domain_methods::{Challenge, Verdict, confirms, covers, value_text};
use gate_base::{
    ByteLists, Bytes, DnsSeen, Hop, Hops, Method, Moment, NoMemory, Seen, Sixteen, WebSeen,
};
use names_core::{Suffixes, read_target};
use std::alloc::Global;
use std::test::Fail;
use tables::{
    ACME, ADDRESSES, BARE_TOKENS, COVERS, DNS, FILES, Kind, RECORDS, REDIRECTS, TEXTS, TIMES,
    TOKENS, WEB,
};

const VALUE: Sixteen = Sixteen([
    0xFB, 0xFF, 0x22, 0x33, 0x44, 0x55, 0x66, 0x77, 0x88, 0x99, 0xAA, 0xBB, 0xCC, 0xDD, 0xEE, 0xFF,
]);

/// The value in hexadecimal; in base64url it is -_8iM0RVZneImaq7zN3u_w.
const TEXT: &str = "fbff2233445566778899aabbccddeeff";

const MADE: u64 = 1_790_000_000;

const FILE: &[u8] = b"http://example.com/.well-known/pki-validation/a";

const TOKEN: &[u8] = b"http://192.0.3.7/.well-known/acme-challenge/-_8iM0RVZneImaq7zN3u_w";

/// What an account is asked to show.
#[derive(Clone, Copy)]
struct Asked<'a> {
    method: Method,
    target: &'a str,
    thumb: &'a str,
    made: u64,
}

/// A change on a website, asked for example.com.
const CHANGE: Asked<'static> = Asked {
    method: WEB,
    target: "example.com",
    thumb: "thumb",
    made: MADE,
};

/// A file of a website, and the redirects that led to it: so many good ones, and so many of another.
#[derive(Clone, Copy)]
struct Page<'a> {
    url: &'a [u8],
    before: usize,
    hops: usize,
    hop: (u16, &'a [u8]),
    status: u16,
    body: &'a [u8],
}

const GOOD: Page<'static> = Page {
    url: FILE,
    before: 0,
    hops: 0,
    hop: (301, FILE),
    status: 200,
    body: b"fbff2233445566778899aabbccddeeff",
};

fn challenge(alloc: Global, asked: &Asked<'_>) -> Option<Challenge> {
    let Ok(target) = read_target(alloc, asked.target.as_bytes()) else {
        return None;
    };
    let Ok(thumb) = Bytes::from_slice(alloc, asked.thumb.as_bytes()) else {
        return None;
    };
    Some(Challenge {
        number: 3,
        order: 2,
        target,
        method: asked.method,
        value: VALUE,
        made: Moment(asked.made),
        thumb,
    })
}

fn push_text(alloc: Global, list: &mut ByteLists, text: &str) -> Result<(), NoMemory> {
    let item = Bytes::from_slice(alloc, text.as_bytes())?;
    list.push(item)
}

fn fill_records(
    alloc: Global,
    seen: &mut DnsSeen,
    prefix: &str,
    txt: &str,
    cname: &str,
) -> Result<(), NoMemory> {
    push_text(alloc, &mut seen.txts, "another")?;
    push_text(alloc, &mut seen.txts, txt)?;
    push_text(alloc, &mut seen.cnames, "another")?;
    push_text(alloc, &mut seen.cnames, cname)?;
    seen.prefix = Bytes::from_slice(alloc, prefix.as_bytes())?;
    Ok(())
}

fn records(alloc: Global, prefix: &str, txt: &str, cname: &str) -> Option<Seen> {
    let mut seen = DnsSeen {
        prefix: Bytes::new(alloc),
        txts: ByteLists::new(alloc),
        cnames: ByteLists::new(alloc),
    };
    match fill_records(alloc, &mut seen, prefix, txt, cname) {
        Ok(()) => Some(Seen::Dns(seen)),
        Err(NoMemory) => None,
    }
}

fn push_hops(
    alloc: Global,
    hops: &mut Hops,
    count: usize,
    hop: (u16, &[u8]),
) -> Result<(), NoMemory> {
    for _ in 0..count {
        let location = Bytes::from_slice(alloc, hop.1)?;
        hops.push(Hop {
            status: hop.0,
            location,
        })?;
    }
    Ok(())
}

fn fill_page(alloc: Global, seen: &mut WebSeen, page: &Page<'_>) -> Result<(), NoMemory> {
    push_hops(alloc, &mut seen.hops, page.before, (301, FILE))?;
    push_hops(alloc, &mut seen.hops, page.hops, page.hop)?;
    seen.url = Bytes::from_slice(alloc, page.url)?;
    seen.body = Bytes::from_slice(alloc, page.body)?;
    Ok(())
}

fn website(alloc: Global, page: &Page<'_>) -> Option<Seen> {
    let mut seen = WebSeen {
        url: Bytes::new(alloc),
        hops: Hops::new(alloc),
        status: page.status,
        body: Bytes::new(alloc),
    };
    match fill_page(alloc, &mut seen, page) {
        Ok(()) => Some(Seen::Web(seen)),
        Err(NoMemory) => None,
    }
}

fn seen_as(alloc: Global, kind: Kind) -> Option<Seen> {
    match kind {
        Kind::Records => records(alloc, "", TEXT, ""),
        Kind::Others => records(alloc, "acme", "", ""),
        Kind::File => website(alloc, &GOOD),
    }
}

/// The number of the rule that is broken, or 0; 255 stands for out of memory.
fn rule(alloc: Global, c: &Challenge, seen: &Seen, at: u64) -> u8 {
    match confirms(alloc, c, seen, Moment(at)) {
        Ok(Verdict::Good) => 0,
        Ok(Verdict::Broken(number)) => number,
        Err(NoMemory) => 255,
    }
}

fn rule_of(alloc: Global, asked: &Asked<'_>, seen: Option<Seen>, at: u64) -> u8 {
    let Some(seen) = seen else {
        return 255;
    };
    match challenge(alloc, asked) {
        Some(c) => rule(alloc, &c, &seen, at),
        None => 255,
    }
}

fn rule_of_page(alloc: Global, asked: &Asked<'_>, page: &Page<'_>) -> u8 {
    rule_of(alloc, asked, website(alloc, page), MADE)
}

/// The first row that breaks another rule than it says.
fn first_wrong_time(alloc: Global, rows: &[(u8, Method, Kind, u64, u64)]) -> Option<usize> {
    for (at, row) in rows.iter().enumerate() {
        let asked = Asked {
            method: row.1,
            made: row.3,
            ..CHANGE
        };
        if rule_of(alloc, &asked, seen_as(alloc, row.2), row.4) != row.0 {
            return Some(at);
        }
    }
    None
}

fn first_wrong_record(
    alloc: Global,
    rows: &[(u8, &'static str, &'static str, &'static str)],
) -> Option<usize> {
    let asked = Asked {
        method: DNS,
        ..CHANGE
    };
    for (at, row) in rows.iter().enumerate() {
        if rule_of(alloc, &asked, records(alloc, row.1, row.2, row.3), MADE) != row.0 {
            return Some(at);
        }
    }
    None
}

#[test]
fn times_and_records_are_judged(rt: HostRuntime) {
    assert_eq!(rt; first_wrong_time(rt.alloc(), &TIMES), None);
    assert_eq!(rt; first_wrong_record(rt.alloc(), &RECORDS), None);
}

fn first_wrong_address(alloc: Global, rows: &[(u8, &'static str, &'static [u8])]) -> Option<usize> {
    for (at, row) in rows.iter().enumerate() {
        let asked = Asked {
            target: row.1,
            ..CHANGE
        };
        let page = Page { url: row.2, ..GOOD };
        if rule_of_page(alloc, &asked, &page) != row.0 {
            return Some(at);
        }
    }
    None
}

fn first_wrong_redirect(
    alloc: Global,
    rows: &[(u8, usize, u16, &'static [u8], u16)],
) -> Option<usize> {
    for (at, row) in rows.iter().enumerate() {
        let page = Page {
            before: row.1,
            hops: 1,
            hop: (row.2, row.3),
            status: row.4,
            ..GOOD
        };
        if rule_of_page(alloc, &CHANGE, &page) != row.0 {
            return Some(at);
        }
    }
    None
}

fn first_wrong_file(alloc: Global, rows: &[(u8, u16, &'static [u8])]) -> Option<usize> {
    for (at, row) in rows.iter().enumerate() {
        let page = Page {
            status: row.1,
            body: row.2,
            ..GOOD
        };
        if rule_of_page(alloc, &CHANGE, &page) != row.0 {
            return Some(at);
        }
    }
    None
}

#[test]
fn websites_are_judged(rt: HostRuntime) {
    assert_eq!(rt; first_wrong_address(rt.alloc(), &ADDRESSES), None);
    assert_eq!(rt; first_wrong_redirect(rt.alloc(), &REDIRECTS), None);
    assert_eq!(rt; first_wrong_file(rt.alloc(), &FILES), None);
}

#[test]
fn long_addresses_are_judged(rt: HostRuntime) -> Result<(), Fail> {
    let mut long = vec![in rt.alloc(); b'a'; 70_000]?;
    long[..FILE.len()].copy_from_slice(FILE);
    let first = Page {
        url: long.as_slice(),
        ..GOOD
    };
    let next = Page {
        hops: 1,
        hop: (301, long.as_slice()),
        ..GOOD
    };
    for page in [first, next] {
        assert_eq!(rt; rule_of_page(rt.alloc(), &CHANGE, &page), 0);
    }
    Ok(())
}

fn first_wrong_token(
    alloc: Global,
    asked: &Asked<'_>,
    rows: &[(u8, &'static [u8], u16, &'static [u8])],
) -> Option<usize> {
    for (at, row) in rows.iter().enumerate() {
        let page = Page {
            url: row.1,
            status: row.2,
            body: row.3,
            ..GOOD
        };
        if rule_of_page(alloc, asked, &page) != row.0 {
            return Some(at);
        }
    }
    None
}

fn first_wrong_bare_token(
    alloc: Global,
    asked: &Asked<'_>,
    rows: &[(u8, &'static [u8])],
) -> Option<usize> {
    for (at, row) in rows.iter().enumerate() {
        let page = Page {
            url: TOKEN,
            body: row.1,
            ..GOOD
        };
        if rule_of_page(alloc, asked, &page) != row.0 {
            return Some(at);
        }
    }
    None
}

#[test]
fn files_of_acme_are_judged(rt: HostRuntime) {
    let asked = Asked {
        method: ACME,
        ..CHANGE
    };
    assert_eq!(rt; first_wrong_token(rt.alloc(), &asked, &TOKENS), None);
    let bare = Asked {
        target: "192.0.3.7",
        thumb: "",
        ..asked
    };
    assert_eq!(rt;
        first_wrong_bare_token(rt.alloc(), &bare, &BARE_TOKENS),
        None
    );
}

fn is_text(alloc: Global, method: Method, want: &str) -> bool {
    let Some(c) = challenge(alloc, &Asked { method, ..CHANGE }) else {
        return false;
    };
    let mut out = Vec::new(alloc);
    out.extend_from_slice(b"> ").is_ok()
        && value_text(&c, &mut out).is_ok()
        && out.as_slice() == want.as_bytes()
}

fn covering_methods(alloc: Global, proved: &str, wanted: &str, s: &Suffixes) -> u8 {
    let Ok(proved) = read_target(alloc, proved.as_bytes()) else {
        return 255;
    };
    let Ok(wanted) = read_target(alloc, wanted.as_bytes()) else {
        return 255;
    };
    u8::from(covers(DNS, &proved, &wanted, s))
        | u8::from(covers(WEB, &proved, &wanted, s)) << 1
        | u8::from(covers(ACME, &proved, &wanted, s)) << 2
}

fn first_wrong_value(alloc: Global, rows: &[(bool, Method, &'static str)]) -> Option<usize> {
    for (at, row) in rows.iter().enumerate() {
        if is_text(alloc, row.1, row.2) != row.0 {
            return Some(at);
        }
    }
    None
}

fn first_wrong_cover(
    alloc: Global,
    rows: &[(u8, &'static str, &'static str)],
    s: &Suffixes,
) -> Option<usize> {
    for (at, row) in rows.iter().enumerate() {
        if covering_methods(alloc, row.1, row.2, s) != row.0 {
            return Some(at);
        }
    }
    None
}

#[test]
fn values_have_texts_and_targets_are_covered(rt: HostRuntime) -> Result<(), Fail> {
    assert_eq!(rt; first_wrong_value(rt.alloc(), &TEXTS), None);
    let s = Suffixes::from_rules(rt.alloc(), b"com\nuk\nco.uk\n*.ck\n!www.ck\n")?;
    assert_eq!(rt; first_wrong_cover(rt.alloc(), &COVERS, &s), None);
    Ok(())
}
