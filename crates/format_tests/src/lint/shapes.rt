//! The parts of a good body, and elements in place of one of them with which the shape is another.

/// The parts of a body for `example.com`: version, serial number, algorithm, issuer, validity, subject, key, unique
/// identifiers, seven extensions, and further ones.
pub const PARTS: [&[u8]; 16] = [
    b"\xa0\x03\x02\x01\x02",
    b"\x02\x10@\0\0\0\0\0\0\0\0\0\0\0\0\0\0\0",
    b"0\x0a\x06\x08*\x86H\xce=\x04\x03\x02",
    b"0\x121\x100\x0e\x06\x03U\x04\x03\x0c\x07Gate CA",
    b"0\x1e\x17\x0d260921141320Z\x17\x0d261107141319Z",
    b"0\0",
    b"0Y0\x13\x06\x07*\x86H\xce=\x02\x01\x06\x08*\x86H\xce=\x03\x01\x07\x03B\0\x04\x11\x11\x11\
        \x11\x11\x11\x11\x11\x11\x11\x11\x11\x11\x11\x11\x11\x11\x11\x11\x11\x11\x11\x11\x11\x11\
        \x11\x11\x11\x11\x11\x11\x11\x11\x11\x11\x11\x11\x11\x11\x11\x11\x11\x11\x11\x11\x11\x11\
        \x11\x11\x11\x11\x11\x11\x11\x11\x11\x11\x11\x11\x11\x11\x11\x11\x11",
    b"",
    b"0\x1f\x06\x03U\x1d#\x04\x180\x16\x80\x14\"\"\"\"\"\"\"\"\"\"\"\"\"\"\"\"\"\"\"\"",
    b"0\x0e\x06\x03U\x1d\x0f\x01\x01\xff\x04\x04\x03\x02\x07\x80",
    b"0\x13\x06\x03U\x1d%\x04\x0c0\x0a\x06\x08+\x06\x01\x05\x05\x07\x03\x01",
    b"0\x19\x06\x03U\x1d\x11\x01\x01\xff\x04\x0f0\x0d\x82\x0bexample.com",
    b"0\x13\x06\x03U\x1d \x04\x0c0\x0a0\x08\x06\x06g\x81\x0c\x01\x02\x01",
    b"0'\x06\x03U\x1d\x1f\x04 0\x1e0\x1c\xa0\x1a\xa0\x18\x86\x16http://c.example/1.crl",
    b"02\x06\x08+\x06\x01\x05\x05\x07\x01\x01\x04&0$0\"\x06\x08+\x06\x01\x05\x05\x070\x02\x86\
        \x16http://c.example/1.cer",
    b"",
];

/// The number of a part, and what stands in its place; 16 are all extensions, and 17 what follows them.
pub const SHAPES: &[(usize, &[u8])] = &[
    // two numbers as a version
    (0, b"\xa0\x06\x02\x01\x02\x02\x01\x02"),
    // no number as a version
    (0, b"\xa0\0"),
    // a version that is no INTEGER
    (0, b"\xa0\x03\x04\x01\x02"),
    // a serial number that is no INTEGER
    (1, b"\x04\x01\x01"),
    // an algorithm that is no SEQUENCE
    (2, b"\x05\0"),
    // an issuer that is a SET
    (3, b"1\0"),
    // one time
    (4, b"0\x0f\x17\x0d260921141320Z"),
    // three times
    (
        4,
        b"0-\x17\x0d260921141320Z\x17\x0d261107141319Z\x17\x0d261107141319Z",
    ),
    // a time with parts
    (4, b"0\x11\x17\x0d260921141320Z0\0"),
    // times in a SET
    (4, b"1\x1e\x17\x0d260921141320Z\x17\x0d261107141319Z"),
    // a subject that is a SET
    (5, b"1\0"),
    // a part of the subject that is no SET
    (5, b"0\x0c0\x0a0\x08\x06\x03U\x04\x03\x0c\x01a"),
    // an attribute that is no SEQUENCE
    (5, b"0\x0c1\x0a1\x08\x06\x03U\x04\x03\x0c\x01a"),
    // an attribute whose type is no OBJECT IDENTIFIER
    (5, b"0\x0a1\x080\x06\x02\x01\x01\x0c\x01a"),
    // an attribute without a value
    (5, b"0\x091\x070\x05\x06\x03U\x04\x03"),
    // an attribute whose value has parts
    (5, b"0\x0b1\x090\x07\x06\x03U\x04\x030\0"),
    // an attribute with two values
    (5, b"0\x0f1\x0d0\x0b\x06\x03U\x04\x03\x0c\x01a\x0c\x01a"),
    // a key that is a SET
    (
        6,
        b"1\x190\x13\x06\x07*\x86H\xce=\x02\x01\x06\x08*\x86H\xce=\x03\x01\x07\x03\x02\0\x04",
    ),
    // a key without bits
    (
        6,
        b"0\x150\x13\x06\x07*\x86H\xce=\x02\x01\x06\x08*\x86H\xce=\x03\x01\x07",
    ),
    // a key whose algorithm is no SEQUENCE
    (6, b"0\x07\x06\x01+\x03\x02\0\x04"),
    // a key whose bits are no BIT STRING
    (
        6,
        b"0\x190\x13\x06\x07*\x86H\xce=\x02\x01\x06\x08*\x86H\xce=\x03\x01\x07\x04\x02\0\x04",
    ),
    // a key with a third part
    (
        6,
        b"0\x1b0\x13\x06\x07*\x86H\xce=\x02\x01\x06\x08*\x86H\xce=\x03\x01\x07\x03\x02\0\x04\x05\0",
    ),
    // unique identifiers in the other order
    (7, b"\x82\x01\0\x81\x01\0"),
    // a unique identifier with parts
    (7, b"\xa1\0"),
    // extensions in a SET
    (16, b"\xa3\x021\0"),
    // two lists of extensions
    (16, b"\xa3\x040\00\0"),
    // no list of extensions
    (16, b"\xa3\0"),
    // extensions under another tag
    (16, b"\xa2\x020\0"),
    // an extension that is a SET
    (15, b"1\x09\x06\x03U\x1d\x0e\x04\x02\x04\0"),
    // an extension whose name is no OBJECT IDENTIFIER
    (15, b"0\x07\x02\x01\x01\x04\x02\x04\0"),
    // an extension without a value
    (15, b"0\x05\x06\x03U\x1d\x0e"),
    // an extension whose value is no OCTET STRING
    (15, b"0\x08\x06\x03U\x1d\x0e\x03\x01\0"),
    // an extension that says that it is not critical
    (15, b"0\x0c\x06\x03U\x1d\x0e\x01\x01\0\x04\x02\x04\0"),
    // an extension with two values
    (15, b"0\x0d\x06\x03U\x1d\x0e\x04\x02\x04\0\x04\x02\x04\0"),
    // an element behind the extensions
    (17, b"\x05\0"),
];
