use cert_fields::{is_address, is_issuer_name, is_sound_profile, target_of_general_name};
use der_text::read_tree;
use gate_base::{Address, Bytes, NoMemory, Profile, SigAlg, Sixteen4, Target};
use std::alloc::Global;
use std::test::Fail;

const ADDRESSES: &[(&[u8], bool)] = &[
    (b"http://", true),
    (b"http://c.example/~!", true),
    (b"https://c.example/", false),
    (b"HTTP://c.example/", false),
    (b"http:/", false),
    (b"http://c example/", false),
    (b"http://c.example/\x7f", false),
    (b"", false),
];

fn first_wrong_address(rows: &[(&[u8], bool)]) -> Option<usize> {
    for (at, row) in rows.iter().enumerate() {
        if is_address(row.0) != row.1 {
            return Some(at);
        }
    }
    None
}

#[test]
fn addresses_are_told(rt: HostRuntime) {
    assert_eq!(rt; first_wrong_address(ADDRESSES), None);
    let mut long = [b'a'; 513];
    long[..7].copy_from_slice(b"http://");
    assert_eq!(rt;
        (is_address(&long[..512]), is_address(&long)),
        (true, false)
    );
}

/// SEQUENCEs, each with the next one as its only part.
fn nested(alloc: Global, levels: u8) -> Result<Bytes, NoMemory> {
    let mut name = Bytes::new(alloc);
    for inside in (0..levels).rev() {
        name.push(0x30)?;
        name.push(inside.saturating_mul(2))?;
    }
    Ok(name)
}

/// A SEQUENCE of an OCTET STRING of so many bytes, which are more than 255.
fn long_name(alloc: Global, len: u16) -> Result<Bytes, NoMemory> {
    let mut name = Bytes::new(alloc);
    for (tag, len) in [(0x30, len.saturating_add(4)), (0x04, len)] {
        name.push(tag)?;
        name.push(0x82)?;
        name.push(len.to_be_bytes()[0])?;
        name.push(len.to_be_bytes()[1])?;
    }
    for _ in 0..len {
        name.push(0)?;
    }
    Ok(name)
}

fn first_wrong_depth(alloc: Global, rows: &[(u8, bool)]) -> Result<Option<usize>, NoMemory> {
    for (at, row) in rows.iter().enumerate() {
        let name = nested(alloc, row.0)?;
        if is_issuer_name(alloc, name.as_slice())? != row.1 {
            return Ok(Some(at));
        }
    }
    Ok(None)
}

fn first_wrong_length(alloc: Global, rows: &[(u16, bool)]) -> Result<Option<usize>, NoMemory> {
    for (at, row) in rows.iter().enumerate() {
        let name = long_name(alloc, row.0)?;
        if is_issuer_name(alloc, name.as_slice())? != row.1 {
            return Ok(Some(at));
        }
    }
    Ok(None)
}

fn first_wrong_name(alloc: Global, rows: &[(&[u8], bool)]) -> Result<Option<usize>, NoMemory> {
    for (at, row) in rows.iter().enumerate() {
        if is_issuer_name(alloc, row.0)? != row.1 {
            return Ok(Some(at));
        }
    }
    Ok(None)
}

const ISSUERS: &[(&[u8], bool)] = &[
    (b"\x30\x02\x05\x00", true),
    (b"\x31\x02\x05\x00", false),
    (b"\x30\x02\x05\x00\x00", false),
    (b"\x30\x03\x05\x00", false),
    (b"\x05\x00", false),
];

#[test]
fn names_of_issuers_are_told(rt: HostRuntime) -> Result<(), Fail> {
    let alloc = rt.alloc();
    let depths = [(0, false), (1, true), (31, true), (32, false)];
    assert_eq!(rt; first_wrong_depth(alloc, &depths)?, None);
    assert_eq!(rt;
        first_wrong_length(alloc, &[(1_016, true), (1_017, false)])?,
        None
    );
    assert_eq!(rt; first_wrong_name(alloc, ISSUERS)?, None);
    Ok(())
}

/// Whether a profile with this issuer and this address is sound.
fn is_sound(alloc: Global, issuer: &[u8], crl: &[u8]) -> Result<bool, NoMemory> {
    let profile = Profile {
        issuer: Bytes::from_slice(alloc, issuer)?,
        alg: SigAlg::RsaSha256,
        key_id: Sixteen4([0x22; 20]),
        crl: Bytes::from_slice(alloc, crl)?,
        aia: Bytes::from_slice(alloc, b"http://c.example/")?,
    };
    is_sound_profile(alloc, &profile)
}

const PROFILES: &[(&[u8], &[u8], bool)] = &[
    (b"\x30\x00", b"http://c.example/", true),
    (b"\x05\x00", b"http://c.example/", false),
    (b"\x30\x00", b"ldap://c.example/", false),
];

fn first_wrong_profile(
    alloc: Global,
    rows: &[(&[u8], &[u8], bool)],
) -> Result<Option<usize>, NoMemory> {
    for (at, row) in rows.iter().enumerate() {
        if is_sound(alloc, row.0, row.1)? != row.2 {
            return Ok(Some(at));
        }
    }
    Ok(None)
}

/// What kind of target the element is: 0 for none, 1 for a name, 4 or 6 for an address.
fn kind_of(alloc: Global, bytes: &[u8]) -> u8 {
    let Ok(tree) = read_tree(alloc, bytes) else {
        return 255;
    };
    match target_of_general_name(alloc, &tree) {
        Ok(None) => 0,
        Ok(Some(Target::Dns(_))) => 1,
        Ok(Some(Target::Ip(Address::V4(_)))) => 4,
        Ok(Some(Target::Ip(Address::V6(_)))) => 6,
        Err(_) => 254,
    }
}

const GENERAL_NAMES: &[(&[u8], u8)] = &[
    (b"\x82\x05a.com", 1),
    (b"\x82\x07*.a.com", 1),
    (b"\x82\x05a_com", 0),
    (b"\x82\x00", 0),
    (b"\x87\x04\xc0\x00\x02\x01", 4),
    (b"\x87\x10\x20\x01\x0d\xb8\0\0\0\0\0\0\0\0\0\0\0\x01", 6),
    (b"\x87\x03\xc0\x00\x02", 0),
    (b"\x86\x05a.com", 0),
    (b"\xa2\x02\x05\x00", 0),
];

fn first_wrong_general_name(alloc: Global, rows: &[(&[u8], u8)]) -> Option<usize> {
    for (at, row) in rows.iter().enumerate() {
        if kind_of(alloc, row.0) != row.1 {
            return Some(at);
        }
    }
    None
}

#[test]
fn profiles_and_general_names_are_told(rt: HostRuntime) -> Result<(), Fail> {
    let alloc = rt.alloc();
    assert_eq!(rt; first_wrong_profile(alloc, PROFILES)?, None);
    assert_eq!(rt; first_wrong_general_name(alloc, GENERAL_NAMES), None);
    Ok(())
}
