use der_text::{
    DerFault, DerKind, ReadFault, are_none, constructed_parts, element_len, part_at, push_element,
    push_head, read_tree, skip_first, tag, take_constructed, take_primitive, write_tree,
};
use std::alloc::Global;
use std::process::Abort;
use std::test::Fail;

type Case = (&'static [u8], DerKind, u64);

/// Bytes, the kind of their first fault, and its place; each with the test that is broken.
const FAULTS: &[Case] = &[
    // no tag byte
    (b"", DerKind::Short, 0),
    // a tag of several bytes
    (b"\x1f\x00", DerKind::LongForm, 0),
    // the same inside
    (b"\x30\x02\x1f\x00", DerKind::LongForm, 2),
    // of another class
    (b"\xbf\x1f\x00", DerKind::LongForm, 0),
    // before the length is missed
    (b"\xff", DerKind::LongForm, 0),
    // the same inside
    (b"\x30\x01\x9f", DerKind::LongForm, 2),
    // no length byte
    (b"\x30", DerKind::Short, 0),
    // the same inside
    (b"\x30\x01\x02", DerKind::Short, 2),
    // behind the end of the content
    (b"\x30\x01\x30\x80", DerKind::Short, 2),
    // an indefinite length
    (b"\x30\x80", DerKind::LongForm, 0),
    // the same inside
    (b"\x30\x02\x30\x80", DerKind::LongForm, 2),
    // also with its end
    (b"\x30\x80\x00\x00", DerKind::LongForm, 0),
    // five length bytes
    (b"\x04\x85\x01\x00\x00\x00\x00", DerKind::LongForm, 0),
    // the reserved length byte
    (b"\x04\xff", DerKind::LongForm, 0),
    // five length bytes inside
    (b"\x30\x02\x04\x85", DerKind::LongForm, 2),
    // length bytes missing
    (b"\x04\x81", DerKind::Short, 0),
    // one of two
    (b"\x04\x82\x01", DerKind::Short, 0),
    // one of four
    (b"\x04\x84\x01\x00\x00", DerKind::Short, 0),
    // the same inside
    (b"\x30\x02\x04\x81", DerKind::Short, 2),
    // behind the end of the content
    (b"\x30\x03\x04\x82\x01\x00", DerKind::Short, 2),
    // 127 in a long form
    (b"\x04\x81\x7f", DerKind::NotShortest, 0),
    // 0 in a long form
    (b"\x04\x81\x00", DerKind::NotShortest, 0),
    // a first length byte of 0
    (b"\x04\x82\x00\x80", DerKind::NotShortest, 0),
    // of three
    (b"\x04\x83\x00\xff\xff", DerKind::NotShortest, 0),
    // of four
    (b"\x04\x84\x00\xff\xff\xff", DerKind::NotShortest, 0),
    // both
    (b"\x04\x82\x00\x7f", DerKind::NotShortest, 0),
    // inside, before the end is passed
    (b"\x30\x03\x04\x81\x01\x00", DerKind::NotShortest, 2),
    // the content passes the input's end
    (b"\x04\x02\x00", DerKind::Short, 0),
    // bytes after the outermost element
    (b"\x30\x02\x05\x00\x30\x01", DerKind::Trailing, 4),
    // the content passes the end around it
    (b"\x30\x03\x04\x02\x00", DerKind::Short, 2),
    // though bytes follow there
    (b"\x30\x03\x04\x02\x00\x00", DerKind::Short, 2),
    // the greatest length
    (b"\x04\x84\xff\xff\xff\xff", DerKind::Short, 0),
    // the same inside
    (b"\x30\x06\x04\x84\xff\xff\xff\xff", DerKind::Short, 2),
    // before its content is bad
    (b"\x01\x02\x00", DerKind::Short, 0),
    // tag 00
    (b"\x00\x00", DerKind::BadContent, 0),
    // the same inside
    (b"\x30\x02\x00\x00", DerKind::BadContent, 2),
    // tag 00, constructed
    (b"\x20\x00", DerKind::BadContent, 0),
    // a primitive SEQUENCE
    (b"\x10\x00", DerKind::BadContent, 0),
    // a primitive SET
    (b"\x11\x00", DerKind::BadContent, 0),
    // a constructed OCTET STRING
    (b"\x24\x00", DerKind::BadContent, 0),
    // a constructed BIT STRING
    (b"\x23\x03\x03\x01\x00", DerKind::BadContent, 0),
    // of indefinite length
    (b"\x2c\x80", DerKind::LongForm, 0),
    // an empty BOOLEAN
    (b"\x01\x00", DerKind::BadContent, 0),
    // neither 00 nor ff
    (b"\x01\x01\x01", DerKind::BadContent, 0),
    // the same
    (b"\x01\x01\xfe", DerKind::BadContent, 0),
    // two bytes
    (b"\x01\x02\x00\x00", DerKind::BadContent, 0),
    // inside
    (b"\x30\x03\x01\x01\x7f", DerKind::BadContent, 2),
    // an empty INTEGER
    (b"\x02\x00", DerKind::BadContent, 0),
    // nine zero bits
    (b"\x02\x02\x00\x7f", DerKind::BadContent, 0),
    // nine one bits
    (b"\x02\x02\xff\x80", DerKind::BadContent, 0),
    // nine zero bits of more
    (b"\x02\x03\x00\x00\x80", DerKind::BadContent, 0),
    // inside
    (b"\x30\x04\x02\x02\x00\x01", DerKind::BadContent, 2),
    // an empty BIT STRING
    (b"\x03\x00", DerKind::BadContent, 0),
    // unused bits of nothing
    (b"\x03\x01\x01", DerKind::BadContent, 0),
    // eight unused bits
    (b"\x03\x02\x08\x00", DerKind::BadContent, 0),
    // an unused bit that is set
    (b"\x03\x02\x01\x01", DerKind::BadContent, 0),
    // the highest of seven
    (b"\x03\x03\x07\x00\x40", DerKind::BadContent, 0),
    // inside
    (b"\x30\x04\x03\x02\x04\x08", DerKind::BadContent, 2),
    // a NULL that isn't empty
    (b"\x05\x01\x00", DerKind::BadContent, 0),
    // inside
    (b"\x30\x03\x05\x01\x00", DerKind::BadContent, 2),
    // an empty OBJECT IDENTIFIER
    (b"\x06\x00", DerKind::BadContent, 0),
    // an arc that goes on
    (b"\x06\x01\x80", DerKind::BadContent, 0),
    // the same
    (b"\x06\x02\x2a\x81", DerKind::BadContent, 0),
    // a first arc that begins with 80
    (b"\x06\x02\x80\x01", DerKind::BadContent, 0),
    // a later one
    (b"\x06\x03\x2a\x80\x01", DerKind::BadContent, 0),
    // inside
    (b"\x30\x03\x06\x01\xff", DerKind::BadContent, 2),
    // one byte after
    (b"\x05\x00\x00", DerKind::Trailing, 2),
    // bytes that are no element
    (b"\x30\x00\x30\x80", DerKind::Trailing, 2),
    // an element after
    (
        b"\x30\x05\x05\x00\x02\x01\x05\x05\x00",
        DerKind::Trailing,
        7,
    ),
    // a part is told first
    (
        b"\x30\x05\x05\x00\x01\x01\x01\x05\x00",
        DerKind::BadContent,
        4,
    ),
    // the leftmost part is told
    (b"\x30\x06\x01\x01\x01\x02\x02\x00", DerKind::BadContent, 2),
    // a part of a part
    (b"\x30\x06\x30\x02\x1f\x00\x01\x00", DerKind::LongForm, 4),
    // in another class
    (b"\xa0\x03\x81\x02\x00", DerKind::Short, 2),
    // a rule within it
    (b"\xa1\x04\x02\x02\x00\x00", DerKind::BadContent, 2),
];

/// Bytes that spell trees.
const TREES: &[&[u8]] = &[
    b"\x30\x00",
    b"\x31\x00",
    b"\x01\x01\x00",
    b"\x01\x01\xff",
    b"\x02\x01\x00",
    b"\x02\x01\x80",
    b"\x02\x02\x00\x80",
    b"\x02\x02\xff\x7f",
    b"\x03\x01\x00",
    b"\x03\x02\x07\x80",
    b"\x03\x02\x00\xff",
    b"\x03\x03\x04\x01\xf0",
    b"\x04\x00",
    b"\x04\x02\x1f\x80",
    b"\x05\x00",
    b"\x06\x01\x00",
    b"\x06\x01\x7f",
    b"\x06\x03\x2a\x86\x48",
    b"\x0c\x01\xff",
    b"\x17\x00",
    b"\x1e\x00",
    b"\x80\x00",
    b"\x9e\x01\x00",
    b"\xa0\x00",
    b"\xe0\x02\x05\x00",
    b"\x40\x01\x01",
    b"\x30\x08\x30\x02\x05\x00\x02\x02\x01\x00",
];

/// Each kind with its text.
const TEXTS: &[(DerKind, &str)] = &[
    (DerKind::Short, "Short at byte 3"),
    (DerKind::LongForm, "LongForm at byte 3"),
    (DerKind::NotShortest, "NotShortest at byte 3"),
    (DerKind::BadContent, "BadContent at byte 3"),
    (DerKind::TooDeep, "TooDeep at byte 3"),
    (DerKind::Trailing, "Trailing at byte 3"),
];

/// What is told of the bytes: nothing where they spell a tree.
fn told(alloc: Global, bytes: &[u8]) -> Result<Option<DerFault>, ReadFault> {
    match read_tree(alloc, bytes) {
        Ok(_tree) => Ok(None),
        Err(ReadFault::Der(fault)) => Ok(Some(fault)),
        Err(ReadFault::NoMemory) => Err(ReadFault::NoMemory),
    }
}

/// An element of so many zero bytes, with its length octets.
fn zeros(alloc: Global, length_octets: &[u8], count: usize) -> Result<Vec<u8>, Fail> {
    let mut bytes = Vec::new(alloc);
    bytes.push(4)?;
    bytes.extend_from_slice(length_octets)?;
    for _ in 0..count {
        bytes.push(0)?;
    }
    Ok(bytes)
}

/// A NULL within so many SEQUENCEs, fewer than 64.
fn nested(alloc: Global, sequences: u8) -> Result<Vec<u8>, Fail> {
    let mut bytes = Vec::new(alloc);
    for inner in 0..sequences {
        bytes.push(0x30)?;
        bytes.push(2 * ((sequences - inner) % 64))?;
    }
    bytes.extend_from_slice(&[5, 0])?;
    Ok(bytes)
}

/// A SEQUENCE of 300 times NULL.
fn nulls(alloc: Global) -> Result<Vec<u8>, Fail> {
    let mut bytes = Vec::new(alloc);
    bytes.extend_from_slice(b"\x30\x82\x02\x58")?;
    for _ in 0..300 {
        bytes.extend_from_slice(b"\x05\x00")?;
    }
    Ok(bytes)
}

/// The bytes spell a tree, and it is written as they are, behind what stood there.
fn comes_back(rt: &impl Abort, alloc: Global, bytes: &[u8]) -> Result<(), Fail> {
    assert!(rt; bytes.len() < 0x8000_0000);
    let tree = read_tree(alloc, bytes)?;
    let mut out = Vec::new(alloc);
    out.push(7)?;
    write_tree(&tree, &mut out)?;
    assert_eq!(rt; out.first().copied(), Some(7));
    assert_eq!(rt; out.get(1..), Some(bytes));
    assert_eq!(rt; part_at(bytes, &[]), Some(bytes));
    Ok(())
}

/// An element of so many bytes is appended as a whole, and its head by itself.
fn is_pushed(rt: &impl Abort, alloc: Global, element: &[u8], count: usize) -> Result<(), Fail> {
    assert!(rt; count < 0x1_0001);
    assert_eq!(rt; element_len(count), element.len());
    let content = vec![in alloc; 0; count]?;
    let mut out = Vec::new(alloc);
    push_element(tag::OCTET_STRING, &content, &mut out)?;
    push_head(tag::OCTET_STRING, count, &mut out)?;
    assert_eq!(rt; out.get(..element.len()), Some(element));
    let head = element.len().saturating_sub(count);
    assert_eq!(rt; out.get(element.len()..), element.get(..head));
    Ok(())
}

/// The number in a SEQUENCE of something, an INTEGER and a SET of no elements.
fn number_in(alloc: Global, bytes: &[u8]) -> Option<u8> {
    let Ok(tree) = read_tree(alloc, bytes) else {
        return None;
    };
    let others = skip_first(constructed_parts(tag::SEQUENCE, &tree)?)?;
    let (number, others) = take_primitive(tag::INTEGER, others)?;
    let (elements, others) = take_constructed(tag::SET, others)?;
    if are_none(elements) && are_none(others) {
        number.first().copied()
    } else {
        None
    }
}

#[test]
fn the_first_fault_is_told_with_its_place(rt: HostRuntime) -> Result<(), Fail> {
    let alloc = rt.alloc();
    for (bytes, kind, place) in FAULTS {
        let fault = DerFault {
            kind: *kind,
            place: *place,
        };
        assert_eq!(rt; told(alloc, bytes)?, Some(fault), "{bytes:?}");
    }
    let deep = DerFault {
        kind: DerKind::TooDeep,
        place: 64,
    };
    assert_eq!(rt; told(alloc, &nested(alloc, 31)?)?, None);
    assert_eq!(rt; told(alloc, &nested(alloc, 32)?)?, Some(deep));
    let indefinite = DerFault {
        kind: DerKind::LongForm,
        place: 0,
    };
    assert_eq!(rt;
        told(alloc, &vec![in alloc; 0x80; 16384]?)?,
        Some(indefinite)
    );
    for (kind, text) in TEXTS {
        let fault = ReadFault::Der(DerFault {
            kind: *kind,
            place: 3,
        });
        assert_eq!(rt; fault.to_string(alloc)?.as_str(), *text);
    }
    assert_eq!(rt;
        ReadFault::NoMemory.to_string(alloc)?.as_str(),
        "out of memory"
    );
    Ok(())
}

#[test]
fn trees_come_back(rt: HostRuntime) -> Result<(), Fail> {
    let alloc = rt.alloc();
    for bytes in TREES {
        comes_back(&rt, alloc, bytes)?;
    }
    comes_back(&rt, alloc, &nested(alloc, 31)?)?;
    let lengths: [(&[u8], usize); 6] = [
        (b"\x7f", 127),
        (b"\x81\x80", 128),
        (b"\x81\xff", 255),
        (b"\x82\x01\x00", 256),
        (b"\x82\xff\xff", 65535),
        (b"\x83\x01\x00\x00", 65536),
    ];
    for (octets, count) in lengths {
        let element = zeros(alloc, octets, count)?;
        comes_back(&rt, alloc, &element)?;
        is_pushed(&rt, alloc, &element, count)?;
    }
    let parts = nulls(alloc)?;
    comes_back(&rt, alloc, &parts)?;
    assert_eq!(rt; part_at(&parts, &[299]), parts.get(602..604));
    assert_eq!(rt; part_at(&parts, &[300]), None);
    Ok(())
}

#[test]
fn parts_are_counted_from_0(rt: HostRuntime) -> Result<(), Fail> {
    let bytes: &[u8] = b"\x30\x0b\x30\x02\x05\x00\x02\x01\x05\xa0\x02\x30\x00";
    assert_eq!(rt; part_at(bytes, &[0]), bytes.get(2..6));
    assert_eq!(rt; part_at(bytes, &[0, 0]), bytes.get(4..6));
    assert_eq!(rt; part_at(bytes, &[1]), bytes.get(6..9));
    assert_eq!(rt; part_at(bytes, &[2, 0]), bytes.get(11..13));
    assert_eq!(rt; part_at(bytes, &[3]), None);
    assert_eq!(rt; part_at(bytes, &[u64::MAX]), None);
    assert_eq!(rt; part_at(bytes, &[0, 1]), None);
    assert_eq!(rt;
        part_at(bytes, &[1, 0]),
        None,
        "a primitive element has no parts"
    );
    assert_eq!(rt; part_at(bytes, &[2, 0, 0]), None);
    let forms: [(&[u8], Option<u8>); 5] = [
        (b"\x30\x07\x05\x00\x02\x01\x09\x31\x00", Some(9)),
        (b"\x31\x07\x05\x00\x02\x01\x09\x31\x00", None),
        (b"\x30\x07\x05\x00\x04\x01\x09\x31\x00", None),
        (b"\x30\x07\x05\x00\x02\x01\x09\x30\x00", None),
        (b"\x30\x09\x05\x00\x02\x01\x09\x31\x00\x05\x00", None),
    ];
    for (bytes, number) in forms {
        assert_eq!(rt; number_in(rt.alloc(), bytes), number, "{bytes:?}");
    }
    Ok(())
}
