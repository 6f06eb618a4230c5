use std::test::Fail;
use tbs_shape::{Body, BodyFault, read_body};

/// A body with a version, a countryName and a commonName, and two extensions.
const FULL: &[u8] =
    b"0\x81\xba\xa0\x03\x02\x01\x02\x02\x10@\0\0\0\0\0\0\0\0\0\0\0\0\0\0\00\x0a\x06\x08*\x86H\xce=\
    \x04\x03\x020\x121\x100\x0e\x06\x03U\x04\x03\x0c\x07Gate CA0\x1e\x17\x0d260921141320Z\x17\
    \x0d261107141319Z0\x1d1\x0b0\x09\x06\x03U\x04\x06\x13\x02US1\x0e0\x0c\x06\x03U\x04\x03\x0c\
    \x05a.com0\x190\x13\x06\x07*\x86H\xce=\x02\x01\x06\x08*\x86H\xce=\x03\x01\x07\x03\x02\0\x04\
    \xa3'0%0\x0e\x06\x03U\x1d\x0f\x01\x01\xff\x04\x04\x03\x02\x07\x800\x13\x06\x03U\x1d \x04\x0c\
    0\x0a0\x08\x06\x06g\x81\x0c\x01\x02\x01";

/// One without a version, a subject and extensions, but with a unique identifier.
const SPARE: &[u8] =
    b"0r\x02\x10@\0\0\0\0\0\0\0\0\0\0\0\0\0\0\00\x0a\x06\x08*\x86H\xce=\x04\x03\x020\x121\x100\x0e\
    \x06\x03U\x04\x03\x0c\x07Gate CA0\x1e\x17\x0d260921141320Z\x17\x0d261107141319Z0\00\x190\x13\
    \x06\x07*\x86H\xce=\x02\x01\x06\x08*\x86H\xce=\x03\x01\x07\x03\x02\0\x04\x81\x01\x01";

const ISSUER: &[u8] = b"0\x121\x100\x0e\x06\x03U\x04\x03\x0c\x07Gate CA";

const P256: &[u8] = b"0\x13\x06\x07*\x86H\xce=\x02\x01\x06\x08*\x86H\xce=\x03\x01\x07";

/// Whether the second of two attributes is this commonName.
fn has_common_name(body: &Body<'_>, text: &[u8]) -> bool {
    match body.subject() {
        [_, second] => {
            second.identifier() == b"U\x04\x03".as_slice() && second.value().content() == text
        }
        _ => false,
    }
}

/// Whether the second of two extensions has twelve bytes of policies, and the first is critical.
fn has_policies(body: &Body<'_>) -> bool {
    match body.extensions() {
        Some([first, second]) => {
            first.is_critical()
                && !second.is_critical()
                && second.identifier() == b"U\x1d ".as_slice()
                && second.value().len() == 12
        }
        _ => false,
    }
}

#[test]
fn a_full_body_is_read(rt: HostRuntime) -> Result<(), Fail> {
    let body = read_body(rt.alloc(), FULL).expect(&rt, "a body");
    assert_eq!(rt; body.version().expect(&rt, "a version"), b"\x02".as_slice());
    assert_eq!(rt; body.serial().len(), 16);
    assert_eq!(rt; body.algorithm().len(), 12);
    assert_eq!(rt; body.issuer(), ISSUER);
    assert_eq!(rt; body.not_before().tag(), 0x17);
    assert_eq!(rt; body.not_after().content(), b"261107141319Z".as_slice());
    assert_eq!(rt; body.has_empty_subject(), false);
    assert_eq!(rt; has_common_name(&body, b"a.com"), true);
    assert_eq!(rt; body.key_algorithm(), P256);
    assert_eq!(rt; body.key_bits(), b"\0\x04".as_slice());
    assert_eq!(rt; body.has_unique_id(), false);
    assert_eq!(rt; has_policies(&body), true);
    Ok(())
}

#[test]
fn what_is_left_out_is_told(rt: HostRuntime) -> Result<(), Fail> {
    let body = read_body(rt.alloc(), SPARE).expect(&rt, "a body");
    assert_eq!(rt; body.version().is_none(), true);
    assert_eq!(rt; body.issuer(), ISSUER);
    assert_eq!(rt; body.has_empty_subject(), true);
    assert_eq!(rt; body.key_algorithm(), P256);
    assert_eq!(rt; body.has_unique_id(), true);
    assert_eq!(rt; body.extensions().is_none(), true);
    match read_body(rt.alloc(), &SPARE[1..]) {
        Err(BodyFault::Shape) => Ok(()),
        _ => panic!(rt; "no body has another shape"),
    }
}
