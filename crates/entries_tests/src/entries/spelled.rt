//! Entries spelled by hand: a challenge for a website, one for ACME, what was seen in the DNS and on a website, and CAA
//! answers of which the first failed.

/// A name, the bytes, and where their fields begin.
pub type Spelled = (&'static str, &'static [u8], &'static [usize]);

pub const CHALLENGE: &[u8] =
    b"\x03\0\0\0\0\0\0\0\x03\0\0\0\0\x6a\xb1\x3b\x80\0\x01a\x02k1\0\0\0\0\0\0\0\x02\x02\x01\0\x0bexample.com\0\x01\x02\x03\x04\x05\x06\x07\x08\x09\x0a\x0b\x0c\x0d\x0e\x0f\0";

pub const ACME: &[u8] =
    b"\x03\0\0\0\0\0\0\0\x03\0\0\0\0\x6a\xb1\x3b\x80\0\x01a\x02k1\0\0\0\0\0\0\0\x02\x03\x02\xc0\0\x03\x07\0\x01\x02\x03\x04\x05\x06\x07\x08\x09\x0a\x0b\x0c\x0d\x0e\x0f\x2bAAAAAAAAAAAAAAAAAAAAAAAAAAAAAAAAAAAAAAAAAAA";

pub const DNS: &[u8] =
    b"\x04\0\0\0\0\0\0\0\x04\0\0\0\0\x6a\xb1\x3b\x80\0\x02p0\x01v\0\0\0\0\0\0\0\x03\0\0\0\0\x6a\xb1\x3b\x7f\x01\x05_acme\x02\0\x02t1\0\0\x01\0\x09c.example";

pub const WEB: &[u8] =
    b"\x04\0\0\0\0\0\0\0\x04\0\0\0\0\x6a\xb1\x3b\x80\0\x02p0\x01v\0\0\0\0\0\0\0\x03\0\0\0\0\x6a\xb1\x3b\x7f\x02\0\x09http://e/\x01\x01\x2d\0\x09http://f/\0\xc8\0\x02x\x0a";

pub const CAA: &[u8] =
    b"\x05\0\0\0\0\0\0\0\x05\0\0\0\0\x6a\xb1\x3b\x80\0\x02p0\x02a0\0\0\0\0\0\0\0\x02\x01\0\x0bexample.com\0\0\0\0\x6a\xb1\x3b\x7f\x03\0\x01\0\0\x01\x2c\x02\x80\x05issue\0\x01;\0\x05iodef\0\0\x01\0\0\0\0\0";

pub const SPELLED: &[Spelled] = &[
    (
        "challenge",
        CHALLENGE,
        &[0, 1, 9, 17, 20, 23, 31, 32, 33, 34, 46, 62],
    ),
    ("acme", ACME, &[0, 1, 9, 17, 20, 23, 31, 32, 33, 37, 53]),
    (
        "dns",
        DNS,
        &[0, 1, 9, 17, 21, 23, 31, 39, 40, 46, 47, 51, 53, 54],
    ),
    (
        "web",
        WEB,
        &[0, 1, 9, 17, 21, 23, 31, 39, 40, 51, 52, 54, 65, 67],
    ),
    (
        "caa",
        CAA,
        &[
            0, 1, 9, 17, 21, 24, 32, 33, 34, 46, 54, 55, 56, 57, 61, 62, 63, 69, 72, 73, 79, 81,
            82, 86,
        ],
    ),
];

/// A spelling, a place in it, the byte that is put there, and the place that is told.
pub type Change = (&'static [u8], usize, u8, u64);

pub const KIND_CHANGES: &[Change] = &[
    // no kind of entry
    (CHALLENGE, 0, 0, 0),
    (CHALLENGE, 0, 9, 0),
    // a key past the end
    (CHALLENGE, 20, 200, 20),
    // no method
    (CHALLENGE, 31, 0, 31),
    (CHALLENGE, 31, 4, 31),
    // no target, and a text with an upper-case letter
    (CHALLENGE, 32, 0, 32),
    (CHALLENGE, 35, b'E', 34),
    // a wildcard's truth value of 2, and an address of sixteen bytes
    (CHALLENGE, 33, 2, 33),
    (ACME, 32, 3, 65),
    // a thumbprint past the end, and a byte behind it
    (CHALLENGE, 62, 1, 62),
    (ACME, 53, 42, 96),
    (ACME, 53, 44, 53),
    // a thumbprint that isn't for ACME
    (ACME, 31, 1, 53),
    (ACME, 31, 2, 53),
    // nothing that was seen
    (DNS, 39, 0, 39),
    (DNS, 39, 3, 39),
    // a prefix, a record and a name past the end
    (DNS, 40, 99, 40),
    (DNS, 48, 5, 65),
    (DNS, 55, 10, 54),
    // one record more and one less, of each list
    (DNS, 46, 3, 53),
    (DNS, 46, 1, 52),
    (DNS, 53, 2, 65),
    (DNS, 53, 0, 54),
    // an address, a location and a body past the end
    (WEB, 41, 200, 40),
    (WEB, 55, 200, 54),
    (WEB, 68, 9, 67),
    // one redirect more and one less
    (WEB, 51, 2, 71),
    (WEB, 51, 0, 65),
    // one answer less and one more
    (CAA, 54, 2, 81),
    (CAA, 54, 4, 87),
    // no answer
    (CAA, 55, 2, 55),
    (CAA, 56, 3, 56),
    // an answer that failed has no records
    (CAA, 56, 0, 58),
    // a record less and one more
    (CAA, 61, 1, 73),
    (CAA, 61, 3, 86),
    // a tag and a value past the end
    (CAA, 63, 40, 63),
    (CAA, 70, 9, 86),
    // a record of the last answer
    (CAA, 86, 1, 87),
];
