use csr10::{CsrFault, read_request};
use der_text::{DerFault, DerKind, push_element, tag};
use gate_base::NoMemory;
use std::alloc::Global;
use std::test::Fail;

/// A key on P-256, up to the 64 bytes of its point.
const KEY: &[u8] =
    b"\x30\x59\x30\x13\x06\x07\x2a\x86\x48\xce\x3d\x02\x01\x06\x08\x2a\x86\x48\xce\x3d\x03\x01\
    \x07\x03\x42\0\x04";

/// The same with the form of a compressed point.
const FORM_2: &[u8] =
    b"\x30\x59\x30\x13\x06\x07\x2a\x86\x48\xce\x3d\x02\x01\x06\x08\x2a\x86\x48\xce\x3d\x03\x01\
    \x07\x03\x42\0\x02";

/// The same with a curve that is not certified.
const OTHER_CURVE: &[u8] =
    b"\x30\x59\x30\x13\x06\x07\x2a\x86\x48\xce\x3d\x02\x01\x06\x08\x2a\x86\x48\xce\x3d\x03\x01\
    \x08\x03\x42\0\x04";

/// ecdsa-with-SHA256, and a signature of eight bits.
const END: &[u8] = b"\x30\x0a\x06\x08\x2a\x86\x48\xce\x3d\x04\x03\x02\x03\x02\0\0";

/// The version, the key, the attributes, what follows the info, and the number of what is told.
type Row = (
    &'static [u8],
    &'static [u8],
    &'static [u8],
    &'static [u8],
    u64,
);

const GOOD: &[Row] = &[
    // no attributes
    (b"\0", KEY, b"", END, 100),
    // another attribute alone
    (
        b"\0",
        KEY,
        b"\x30\x15\x06\x09\x2a\x86\x48\x86\xf7\x0d\x01\x09\x07\x31\x08\x0c\x06secret",
        END,
        100,
    ),
    // an extensionRequest without a subjectAltName
    (
        b"\0",
        KEY,
        b"\x30\x1f\x06\x09\x2a\x86\x48\x86\xf7\x0d\x01\x09\x0e\x31\x12\x30\x10\x30\x0e\x06\x03\x55\
        \x1d\x0f\x01\x01\xff\x04\x04\x03\x02\x07\x80",
        END,
        100,
    ),
    // a name, and beside it another extension and another attribute
    (
        b"\0",
        KEY,
        b"\x30\x15\x06\x09\x2a\x86\x48\x86\xf7\x0d\x01\x09\x07\x31\x08\x0c\x06secret\x30\x3a\x06\
        \x09\x2a\x86\x48\x86\xf7\x0d\x01\x09\x0e\x31\x2d\x30\x2b\x30\x0e\x06\x03\x55\x1d\x0f\x01\
        \x01\xff\x04\x04\x03\x02\x07\x80\x30\x19\x06\x03\x55\x1d\x11\x01\x01\xff\x04\x0f\x30\x0d\
        \x82\x0bexample.com",
        END,
        201,
    ),
    // names and addresses
    (
        b"\0",
        KEY,
        b"\x30\x48\x06\x09\x2a\x86\x48\x86\xf7\x0d\x01\x09\x0e\x31\x3b\x30\x39\x30\x37\x06\x03\x55\
        \x1d\x11\x04\x30\x30\x2e\x82\x0bexample.com\x87\x04\x01\x02\x03\x04\x87\x10\0\0\0\0\0\0\
        \0\0\0\0\0\0\0\0\0\0\x82\x07*.A.com",
        END,
        204,
    ),
    // no name
    (
        b"\0",
        KEY,
        b"\x30\x1a\x06\x09\x2a\x86\x48\x86\xf7\x0d\x01\x09\x0e\x31\x0d\x30\x0b\x30\x09\x06\x03\x55\
        \x1d\x11\x04\x02\x30\0",
        END,
        200,
    ),
];

/// The first fault, or the first of two.
const FAULTS: &[Row] = &[
    // no signature
    (
        b"\0",
        KEY,
        b"",
        b"\x30\x0a\x06\x08\x2a\x86\x48\xce\x3d\x04\x03\x02",
        2,
    ),
    // a part behind the signature
    (
        b"\0",
        KEY,
        b"",
        b"\x30\x0a\x06\x08\x2a\x86\x48\xce\x3d\x04\x03\x02\x03\x02\0\0\x05\0",
        2,
    ),
    // an algorithm without a name
    (b"\0", KEY, b"", b"\x30\x02\x05\0\x03\x02\0\0", 2),
    // an attribute without values
    (
        b"\0",
        KEY,
        b"\x30\x0b\x06\x09\x2a\x86\x48\x86\xf7\x0d\x01\x09\x0e",
        END,
        2,
    ),
    // no attribute, behind a good one
    (
        b"\0",
        KEY,
        b"\x30\x27\x06\x09\x2a\x86\x48\x86\xf7\x0d\x01\x09\x0e\x31\x1a\x30\x18\x30\x16\x06\x03\x55\
        \x1d\x11\x04\x0f\x30\x0d\x82\x0bexample.com\x30\0",
        END,
        2,
    ),
    // an extensionRequest with two values
    (
        b"\0",
        KEY,
        b"\x30\x31\x06\x09\x2a\x86\x48\x86\xf7\x0d\x01\x09\x0e\x31\x24\x30\x10\x30\x0e\x06\x03\x55\
        \x1d\x0f\x01\x01\xff\x04\x04\x03\x02\x07\x80\x30\x10\x30\x0e\x06\x03\x55\x1d\x0f\x01\x01\
        \xff\x04\x04\x03\x02\x07\x80",
        END,
        2,
    ),
    // an extension with a part behind its value
    (
        b"\0",
        KEY,
        b"\x30\x1a\x06\x09\x2a\x86\x48\x86\xf7\x0d\x01\x09\x0e\x31\x0d\x30\x0b\x30\x09\x06\x03\x55\
        \x1d\x0f\x04\0\x05\0",
        END,
        2,
    ),
    // a subjectAltName that is no SEQUENCE
    (
        b"\0",
        KEY,
        b"\x30\x1a\x06\x09\x2a\x86\x48\x86\xf7\x0d\x01\x09\x0e\x31\x0d\x30\x0b\x30\x09\x06\x03\x55\
        \x1d\x11\x04\x02\x05\0",
        END,
        2,
    ),
    // a subjectAltName that is no DER
    (
        b"\0",
        KEY,
        b"\x30\x19\x06\x09\x2a\x86\x48\x86\xf7\x0d\x01\x09\x0e\x31\x0c\x30\x0a\x30\x08\x06\x03\x55\
        \x1d\x11\x04\x01\x30",
        END,
        2,
    ),
    // before the version
    (
        b"\x01",
        KEY,
        b"",
        b"\x30\x0a\x06\x08\x2a\x86\x48\xce\x3d\x04\x03\x02",
        2,
    ),
    // a version that is written 1
    (b"\x01", KEY, b"", END, 3),
    // before the key
    (b"\x01", FORM_2, b"", END, 3),
    // the form of a compressed point
    (b"\0", FORM_2, b"", END, 4),
    // another curve, before two names of subjects
    (
        b"\0",
        OTHER_CURVE,
        b"\x30\x3f\x06\x09\x2a\x86\x48\x86\xf7\x0d\x01\x09\x0e\x31\x32\x30\x30\x30\x16\x06\x03\x55\
        \x1d\x11\x04\x0f\x30\x0d\x82\x0bexample.com\x30\x16\x06\x03\x55\x1d\x11\x04\x0f\x30\x0d\
        \x82\x0bexample.com",
        END,
        4,
    ),
    // two subjectAltName in one attribute
    (
        b"\0",
        KEY,
        b"\x30\x3f\x06\x09\x2a\x86\x48\x86\xf7\x0d\x01\x09\x0e\x31\x32\x30\x30\x30\x16\x06\x03\x55\
        \x1d\x11\x04\x0f\x30\x0d\x82\x0bexample.com\x30\x16\x06\x03\x55\x1d\x11\x04\x0f\x30\x0d\
        \x82\x0bexample.com",
        END,
        5,
    ),
    // in two attributes, before a bad name
    (
        b"\0",
        KEY,
        b"\x30\x23\x06\x09\x2a\x86\x48\x86\xf7\x0d\x01\x09\x0e\x31\x16\x30\x14\x30\x12\x06\x03\x55\
        \x1d\x11\x04\x0b\x30\x09\x82\x07a_b.com\x30\x27\x06\x09\x2a\x86\x48\x86\xf7\x0d\x01\x09\
        \x0e\x31\x1a\x30\x18\x30\x16\x06\x03\x55\x1d\x11\x04\x0f\x30\x0d\x82\x0bexample.com",
        END,
        5,
    ),
    // a bad name
    (
        b"\0",
        KEY,
        b"\x30\x23\x06\x09\x2a\x86\x48\x86\xf7\x0d\x01\x09\x0e\x31\x16\x30\x14\x30\x12\x06\x03\x55\
        \x1d\x11\x04\x0b\x30\x09\x82\x07a_b.com",
        END,
        10,
    ),
    // a bad address behind a name, and another behind it
    (
        b"\0",
        KEY,
        b"\x30\x30\x06\x09\x2a\x86\x48\x86\xf7\x0d\x01\x09\x0e\x31\x23\x30\x21\x30\x1f\x06\x03\x55\
        \x1d\x11\x04\x18\x30\x16\x82\x0bexample.com\x87\x05\x01\x02\x03\x04\x05\x82\0",
        END,
        11,
    ),
    // a mail address
    (
        b"\0",
        KEY,
        b"\x30\x3d\x06\x09\x2a\x86\x48\x86\xf7\x0d\x01\x09\x0e\x31\x30\x30\x2e\x30\x2c\x06\x03\x55\
        \x1d\x11\x04\x25\x30\x23\x82\x0bexample.com\x82\x0bexample.com\x81\x07a@b.com",
        END,
        12,
    ),
];

/// The type of an extensionRequest, and the identifier of a subjectAltName.
const EXTENSION_REQUEST: &[u8] = b"\x06\x09\x2a\x86\x48\x86\xf7\x0d\x01\x09\x0e";

const SUBJECT_ALT_NAME: &[u8] = b"\x06\x03\x55\x1d\x11";

/// Each fault with its text.
const TEXTS: &[(CsrFault, &str)] = &[
    (
        CsrFault::Der(DerFault {
            kind: DerKind::Short,
            place: 7,
        }),
        "Short at byte 7",
    ),
    (CsrFault::Shape, "no certificate request"),
    (CsrFault::Version, "a version other than 0"),
    (CsrFault::Key, "a key that is not certified"),
    (CsrFault::SanTwice, "two subjectAltName extensions"),
    (CsrFault::SanName(3), "name 3 is no target"),
    (CsrFault::NoMemory, "out of memory"),
];

/// An element whose content, of fewer than 65,536 bytes, is a front and a back.
fn element(alloc: Global, tag: u8, front: &[u8], back: &[u8]) -> Result<Vec<u8>, NoMemory> {
    let mut content = Vec::new(alloc);
    content.extend_from_slice(front)?;
    content.extend_from_slice(back)?;
    let mut out = Vec::new(alloc);
    if content.len() >= 0x1_0000 {
        return Err(NoMemory);
    }
    push_element(tag, &content, &mut out)?;
    Ok(out)
}

/// An attribute that asks for so many names.
fn names(alloc: Global, count: usize) -> Result<Vec<u8>, NoMemory> {
    let mut names = Vec::new(alloc);
    for _ in 0..count {
        names.extend_from_slice(b"\x82\x05a.com")?;
    }
    let names = element(alloc, tag::SEQUENCE, &names, b"")?;
    let value = element(alloc, tag::OCTET_STRING, &names, b"")?;
    let extension = element(alloc, tag::SEQUENCE, SUBJECT_ALT_NAME, &value)?;
    let extensions = element(alloc, tag::SEQUENCE, &extension, b"")?;
    let values = element(alloc, tag::SET, &extensions, b"")?;
    element(alloc, tag::SEQUENCE, EXTENSION_REQUEST, &values)
}

/// A request of the row's version, key and end, with these attributes.
fn request(alloc: Global, row: &Row, attributes: &[u8]) -> Result<Vec<u8>, NoMemory> {
    let (version, key, _, end, _) = row;
    let mut info = element(alloc, tag::INTEGER, version, b"")?;
    info.extend_from_slice(b"\x30\0")?;
    info.extend_from_slice(key)?;
    info.extend_from_slice(&[0x11; 64])?;
    let attributes = element(alloc, 0xa0, attributes, b"")?;
    let info = element(alloc, tag::SEQUENCE, &info, &attributes)?;
    element(alloc, tag::SEQUENCE, &info, end)
}

/// A number for what is told: a fault's own, 100 without a subjectAltName, or 200 and how many targets it has.
fn told(alloc: Global, bytes: &[u8]) -> u64 {
    match read_request(alloc, bytes) {
        Ok(fields) => match fields.san {
            Some(targets) => 200u64.saturating_add(targets.len() as u64),
            None => 100,
        },
        Err(CsrFault::Der(_)) => 1,
        Err(CsrFault::Shape) => 2,
        Err(CsrFault::Version) => 3,
        Err(CsrFault::Key) => 4,
        Err(CsrFault::SanTwice) => 5,
        Err(CsrFault::SanName(place)) => 10u64.saturating_add(place),
        Err(CsrFault::NoMemory) => 9,
    }
}

/// What is told of the request of a row.
fn told_of(alloc: Global, row: &Row) -> u64 {
    match request(alloc, row, row.2) {
        Ok(bytes) => told(alloc, &bytes),
        Err(NoMemory) => 9,
    }
}

/// What is told of a request for so many names.
fn told_of_names(alloc: Global, count: usize) -> u64 {
    match names(alloc, count) {
        Ok(attribute) => match request(alloc, &GOOD[0], &attribute) {
            Ok(bytes) => told(alloc, &bytes),
            Err(NoMemory) => 9,
        },
        Err(NoMemory) => 9,
    }
}

/// Whether a fault is printed so.
fn says(alloc: Global, fault: &CsrFault, text: &str) -> bool {
    match fault.to_string(alloc) {
        Ok(said) => said.as_str() == text,
        Err(_) => false,
    }
}

#[test]
fn requests_and_their_faults_are_told(rt: HostRuntime) {
    let alloc = rt.alloc();
    for row in GOOD {
        assert_eq!(rt; told_of(alloc, row), row.4, "{row:?}");
    }
    for row in FAULTS {
        assert_eq!(rt; told_of(alloc, row), row.4, "{row:?}");
    }
    for (bytes, fault) in [(b"\x30\x82\x01".as_slice(), 1), (b"\x31\0", 2)] {
        assert_eq!(rt; told(alloc, bytes), fault, "{bytes:?}");
    }
    assert_eq!(rt; told_of_names(alloc, 300), 500);
    for (fault, text) in TEXTS {
        assert!(rt; says(alloc, fault, text), "{text}");
    }
}

#[test]
fn the_key_stands_in_the_request(rt: HostRuntime) -> Result<(), Fail> {
    let alloc = rt.alloc();
    let bytes = request(alloc, &GOOD[0], b"")?;
    assert_eq!(rt; bytes.len(), 118);
    if let Ok(fields) = read_request(alloc, bytes.as_slice()) {
        assert_eq!(rt; Some(fields.spki), bytes.get(9..100));
    }
    Ok(())
}
