//! Certificate requests (RFC 2986, section 4), byte by byte.
ghost use Rattle.std.specs.Prelude.{◌<◌, ◌^◌, length};

use crate::listed::put;
use gate_base::Bytes;
use std::alloc::Global;
use std::process::Abort;

/// The algorithm of a key on P-256, as DER (RFC 5480, section 2.1.1).
pub const P256: &[u8] =
    b"\x30\x13\x06\x07\x2a\x86\x48\xce\x3d\x02\x01\x06\x08\x2a\x86\x48\xce\x3d\x03\x01\x07";

pub const P384: &[u8] = b"\x30\x10\x06\x07\x2a\x86\x48\xce\x3d\x02\x01\x06\x05\x2b\x81\x04\0\x22";

pub const P521: &[u8] = b"\x30\x10\x06\x07\x2a\x86\x48\xce\x3d\x02\x01\x06\x05\x2b\x81\x04\0\x23";

/// The algorithm of an RSA key (RFC 3279, section 2.3.1).
const RSA: &[u8] = b"\x30\x0d\x06\x09\x2a\x86\x48\x86\xf7\x0d\x01\x01\x01\x05\0";

/// The algorithm of the signature, and a signature of eight bits.
const SIGNATURE: &[u8] = b"\x30\x0a\x06\x08\x2a\x86\x48\xce\x3d\x04\x03\x02\x03\x02\0\0";

/// 1.2.840.113549.1.9.7, a challengePassword (RFC 2985, section 5.4.1).
const PASSWORD: &[u8] = b"\x06\x09\x2a\x86\x48\x86\xf7\x0d\x01\x09\x07";

/// 1.2.840.113549.1.9.14, an extensionRequest (RFC 2985, section 5.4.2).
const EXTENSION_REQUEST: &[u8] = b"\x06\x09\x2a\x86\x48\x86\xf7\x0d\x01\x09\x0e";

/// 2.5.29.17, a subjectAltName (RFC 5280, section 4.2.1.6).
const SUBJECT_ALT_NAME: &[u8] = b"\x06\x03\x55\x1d\x11";

/// The tag and the content of a name in a subjectAltName.
pub type General = (u8, &'static [u8]);

/// The tags of a name and of an address there.
pub const DNS: u8 = 0x82;

pub const IP: u8 = 0x87;

/// An element with its shortest length (X.690, section 10.1), for contents of less than 65,536 bytes.
pub fn element(rt: &impl Abort, alloc: Global, tag: u8, parts: &[&[u8]]) -> Vec<u8> {
    let mut content = Vec::new(alloc);
    for part in parts {
        put(rt, &mut content, part);
    }
    let size = u16::try_from(content.len()).expect(rt, "a small content");
    let [high, low] = size.to_be_bytes();
    let mut out = Vec::new(alloc);
    put(rt, &mut out, &[tag]);
    if 255 < size {
        put(rt, &mut out, &[0x82, high, low]);
    } else if 127 < size {
        put(rt, &mut out, &[0x81, low]);
    } else {
        put(rt, &mut out, &[low]);
    }
    put(rt, &mut out, content.as_slice());
    out
}

/// Bytes that an entry counts by two.
pub fn few(rt: &impl Abort, out: Vec<u8>) -> Bytes
    ensures { length result < 2 ^ 16 }
{
    assert!(rt; out.len() < 65_536);
    Bytes::from_vec(out)
}

// ---- keys

/// A key with that algorithm and these bits, as DER.
fn key_with(rt: &impl Abort, alloc: Global, algorithm: &[u8], bits: &[u8]) -> Vec<u8> {
    let bits = element(rt, alloc, 3, &[b"\0", bits]);
    element(rt, alloc, 0x30, &[algorithm, bits.as_slice()])
}

/// A key on a curve: the point's form, and so many bytes of that value as coordinates.
pub fn point_key(
    rt: &impl Abort,
    alloc: Global,
    curve: &[u8],
    form: u8,
    size: usize,
    value: u8,
) -> Vec<u8> {
    let mut bits = Vec::new(alloc);
    put(rt, &mut bits, &[form]);
    bits.resize(size.saturating_add(1), value)
        .expect(rt, "memory");
    key_with(rt, alloc, curve, bits.as_slice())
}

/// A number that is above 0, as an INTEGER (X.690, section 8.3).
fn positive(rt: &impl Abort, alloc: Global, octets: &[u8]) -> Vec<u8> {
    match octets {
        [0x80..=0xff, ..] => element(rt, alloc, 2, &[b"\0", octets]),
        _ => element(rt, alloc, 2, &[octets]),
    }
}

/// An RSA key: a modulus of so many bytes, of which the first is given, and the content of the exponent.
pub fn rsa_key(rt: &impl Abort, alloc: Global, first: u8, size: usize, exponent: &[u8]) -> Vec<u8> {
    let mut modulus = Vec::new(alloc);
    put(rt, &mut modulus, &[first]);
    modulus.resize(size, 0x11).expect(rt, "memory");
    let modulus = positive(rt, alloc, modulus.as_slice());
    let exponent = element(rt, alloc, 2, &[exponent]);
    let bits = element(rt, alloc, 0x30, &[modulus.as_slice(), exponent.as_slice()]);
    key_with(rt, alloc, RSA, bits.as_slice())
}

/// The key of `request`, of 91 bytes.
pub fn key(rt: &impl Abort, alloc: Global, value: u8) -> Bytes
    ensures { length result < 2 ^ 16 }
{
    few(rt, point_key(rt, alloc, P256, 4, 64, value))
}

// ---- attributes

/// The attribute that asks for subjectAltName extensions, one for each list of names.
pub fn names_attribute(rt: &impl Abort, alloc: Global, lists: &[&[General]]) -> Vec<u8> {
    let mut extensions = Vec::new(alloc);
    for names in lists {
        let extension = names_extension(rt, alloc, names);
        put(rt, &mut extensions, extension.as_slice());
    }
    let extensions = element(rt, alloc, 0x30, &[extensions.as_slice()]);
    let values = element(rt, alloc, 0x31, &[extensions.as_slice()]);
    element(rt, alloc, 0x30, &[EXTENSION_REQUEST, values.as_slice()])
}

fn names_extension(rt: &impl Abort, alloc: Global, names: &[General]) -> Vec<u8> {
    let mut listed = Vec::new(alloc);
    for (tag, content) in names {
        let name = element(rt, alloc, *tag, &[content]);
        put(rt, &mut listed, name.as_slice());
    }
    let listed = element(rt, alloc, 0x30, &[listed.as_slice()]);
    let value = element(rt, alloc, 4, &[listed.as_slice()]);
    element(rt, alloc, 0x30, &[SUBJECT_ALT_NAME, value.as_slice()])
}

// ---- requests

/// A request by its version, key and attributes.
pub fn request_with(
    rt: &impl Abort,
    alloc: Global,
    version: u8,
    key: &[u8],
    attributes: &[u8],
) -> Bytes
    ensures { length result < 2 ^ 16 }
{
    let version = element(rt, alloc, 2, &[&[version]]);
    let attributes = element(rt, alloc, 0xa0, &[attributes]);
    let parts: &[&[u8]] = &[version.as_slice(), b"\x30\0", key, attributes.as_slice()];
    let info = element(rt, alloc, 0x30, parts);
    few(rt, element(rt, alloc, 0x30, &[info.as_slice(), SIGNATURE]))
}

/// A good request without attributes, of 118 bytes; the bytes of its key's point have that value.
pub fn request(rt: &impl Abort, alloc: Global, value: u8) -> Bytes
    ensures { length result < 2 ^ 16 }
{
    let key = key(rt, alloc, value);
    request_with(rt, alloc, 0, key.as_slice(), b"")
}

/// A good request of so many bytes, 403 or more, of which an attribute takes most.
pub fn long_request(rt: &impl Abort, alloc: Global, size: usize) -> Bytes
    ensures { length result < 2 ^ 16 }
{
    let mut text = Vec::new(alloc);
    text.resize(size.saturating_sub(147), b'x')
        .expect(rt, "memory");
    let text = element(rt, alloc, 0x0c, &[text.as_slice()]);
    let values = element(rt, alloc, 0x31, &[text.as_slice()]);
    let attribute = element(rt, alloc, 0x30, &[PASSWORD, values.as_slice()]);
    let key = key(rt, alloc, 0x11);
    request_with(rt, alloc, 0, key.as_slice(), attribute.as_slice())
}

/// The good request by its own bytes.
const REQUEST: &[u8] = b"\x30\x74\x30\x62\x02\x01\0\x30\0\x30\x59\x30\x13\x06\x07\x2a\x86\
    \x48\xce\x3d\x02\x01\x06\x08\x2a\x86\x48\xce\x3d\x03\x01\x07\x03\x42\0\x04\
    \x11\x11\x11\x11\x11\x11\x11\x11\x11\x11\x11\x11\x11\x11\x11\x11\x11\x11\x11\x11\x11\x11\
    \x11\x11\x11\x11\x11\x11\x11\x11\x11\x11\x11\x11\x11\x11\x11\x11\x11\x11\x11\x11\x11\x11\
    \x11\x11\x11\x11\x11\x11\x11\x11\x11\x11\x11\x11\x11\x11\x11\x11\x11\x11\x11\x11\
    \xa0\0\x30\x0a\x06\x08\x2a\x86\x48\xce\x3d\x04\x03\x02\x03\x02\0\0";

#[test]
fn requests_have_their_bytes(rt: HostRuntime) {
    let alloc = rt.alloc();
    assert!(rt; request(&rt, alloc, 0x11).as_slice() == REQUEST);
    assert!(rt; Some(key(&rt, alloc, 0x11).as_slice()) == REQUEST.get(9..100));
    for size in [403, 16_384, 16_385] {
        assert_eq!(rt; long_request(&rt, alloc, size).len(), size);
    }
}
