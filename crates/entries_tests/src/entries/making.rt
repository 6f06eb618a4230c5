//! Entries that are made of their fields, and reasons that are copied.

ghost use Rattle.std.specs.Prelude.{◌≡◌, ◌<◌, ◌^◌, true, length};
ghost use Rattle.gate_entries.specs.Challenge.{is_thumb_of};
ghost use Rattle.gate_entries.specs.Spelling.{IsEntry};
ghost use Rattle.gate_entries.specs.Target.{IsTarget};

use super::spelled::{ACME, CHALLENGE};
use gate_base::{Address, Bytes, Method, Moment, NoMemory, Plain, Role, Sixteen, Target};
use gate_entries::{Caller, Entry, Why, Whys, read_name_text, write_entry};
use std::alloc::Global;
use std::process::Abort;

const VALUE: Sixteen = Sixteen([0, 1, 2, 3, 4, 5, 6, 7, 8, 9, 10, 11, 12, 13, 14, 15]);

const THUMB: &[u8; 43] = b"AAAAAAAAAAAAAAAAAAAAAAAAAAAAAAAAAAAAAAAAAAA";

fn few(rt: &impl Abort, alloc: Global, bytes: &[u8]) -> Bytes
    ensures { result ≡ bytes.now }
{
    Bytes::from_slice(alloc, bytes).expect(rt, "memory")
}

/// The bytes of the entry.
fn written(rt: &impl Abort, alloc: Global, entry: &Entry) -> Vec<u8>
    requires { IsEntry entry.now }
{
    let mut out = Vec::new(alloc);
    write_entry(entry, &mut out).expect(rt, "memory");
    out
}

/// The bytes of account `a`'s challenge for order 2 under the key `k1`.
fn challenged(
    rt: &impl Abort,
    alloc: Global,
    method: Method,
    target: &Target,
    thumb: &Bytes,
) -> Vec<u8>
    requires target { IsTarget target.now }
    requires thumb { length thumb.now < 2 ^ 8 }
    requires account { is_thumb_of method thumb.now ≡ true }
{
    let caller = Caller {
        id: few(rt, alloc, b"a"),
        role: Role::Account,
    };
    let key = few(rt, alloc, b"k1");
    let moment = Moment(1_790_000_000);
    let entry = Entry::challenge(
        alloc, 3, moment, &caller, &key, 2, method, target, VALUE, thumb,
    )
    .expect(rt, "memory");
    written(rt, alloc, &entry)
}

#[test]
fn challenges_are_made_as_they_are_spelled(rt: HostRuntime) {
    let alloc = rt.alloc();
    let address = Target::Ip(Address::V4([192, 0, 3, 7]));
    let thumb = few(&rt, alloc, THUMB);
    let acme = challenged(&rt, alloc, Method::AcmeHttp, &address, &thumb);
    assert_eq!(rt; acme.as_slice(), ACME);
    let name = read_name_text(alloc, b"example.com").expect(&rt, "memory");
    let name = name.expect(&rt, "a name");
    let none = few(&rt, alloc, b"");
    let web = challenged(&rt, alloc, Method::WebChange, &Target::Dns(name), &none);
    assert_eq!(rt; web.as_slice(), CHALLENGE);
}

/// Each reason once.
fn reasons(rt: &impl Abort, alloc: Global) -> Whys {
    let mut all = Whys::new(alloc);
    for number in 0..12 {
        let why = reason(alloc, number).expect(rt, "memory");
        all.push(why).expect(rt, "memory");
    }
    all
}

fn reason(alloc: Global, number: u64) -> Result<Why, NoMemory> {
    let target = Target::Ip(Address::V4([192, 0, 3, 7]));
    let (good, needed, drop) = (3, 4, 1);
    let (seen_at, until) = (Moment(5), Moment(6));
    let why = match number {
        0 => Why::KeyBlocked { number: 2 },
        1 => Why::NoProof { target },
        2 => Why::ProofTooFew {
            target,
            good,
            needed,
        },
        3 => Why::ProofOneRegion { target },
        4 => Why::ProofOld { target, seen_at },
        5 => Why::CaaMissing { target },
        6 => Why::CaaUnknown { target, drop },
        7 => Why::CaaOld { target, until },
        8 => Why::CaaCritical {
            target,
            tag: Bytes::from_slice(alloc, b"auth")?,
        },
        9 => Why::CaaDenied { target, drop },
        10 => Why::CaaTooFew {
            target,
            good,
            needed,
        },
        _ => Why::CaaOneRegion { target },
    };
    Ok(why)
}

/// The first place at which a reason is told apart from its own copy, or isn't from another's.
fn first_wrong_reason(all: &Whys, copies: &Whys) -> Option<(usize, usize)> {
    for (place, why) in all.as_slice().iter().enumerate() {
        for (other, copy) in copies.as_slice().iter().enumerate() {
            if why.is_same(copy) != (place == other) {
                return Some((place, other));
            }
        }
    }
    None
}

#[test]
fn reasons_are_copied_and_told_apart(rt: HostRuntime) {
    let alloc = rt.alloc();
    let all = reasons(&rt, alloc);
    let copies = all.copied(alloc).expect(&rt, "memory");
    assert_eq!(rt; all.len(), 12);
    assert!(rt; copies.is_same(&all));
    assert_eq!(rt; first_wrong_reason(&all, &copies), None);
}
