//! Elements in place of one part of a good body, or of two, and the rules that are broken then.

/// The number of a part, what stands in its place, and the broken rules.
pub const ONE_CHANGE: &[(usize, &[u8], &[u8])] = &[
    // no version
    (0, b"", &[1]),
    // version 1
    (0, b"\xa0\x03\x02\x01\0", &[1]),
    // version 4
    (0, b"\xa0\x03\x02\x01\x03", &[1]),
    // serial number 1
    (1, b"\x02\x01\x01", &[]),
    // serial number 0
    (1, b"\x02\x01\0", &[2]),
    // serial number -1
    (1, b"\x02\x01\xff", &[2]),
    // 2^159 - 1
    (
        1,
        b"\x02\x14\x7f\xff\xff\xff\xff\xff\xff\xff\xff\xff\xff\xff\xff\xff\xff\xff\xff\xff\xff\xff",
        &[],
    ),
    // 2^159
    (
        1,
        b"\x02\x15\0\x80\0\0\0\0\0\0\0\0\0\0\0\0\0\0\0\0\0\0\0",
        &[2],
    ),
    // another algorithm
    (2, b"0\x0a\x06\x08*\x86H\xce=\x04\x03\x03", &[3]),
    // another issuer
    (3, b"0\x121\x100\x0e\x06\x03U\x04\x03\x0c\x07Gate CB", &[4]),
    // a GeneralizedTime of 2026
    (4, b"0 \x18\x0f20260921141320Z\x17\x0d261107141319Z", &[5]),
    // a time in a VisibleString
    (4, b"0\x1e\x17\x0d260921141320Z\x1a\x0d261107141319Z", &[5]),
    // a time without Z
    (4, b"0\x1d\x17\x0d260921141320Z\x17\x0c261107141319", &[5]),
    // a time without seconds
    (4, b"0\x1c\x17\x0d260921141320Z\x17\x0b2611071413Z", &[5]),
    // month 13
    (4, b"0\x1e\x17\x0d260921141320Z\x17\x0d261307141319Z", &[5]),
    // second 60
    (4, b"0\x1e\x17\x0d260921141320Z\x17\x0d261107141360Z", &[5]),
    // 29 February 2027
    (4, b"0\x1e\x17\x0d270201000000Z\x17\x0d270229000000Z", &[5]),
    // 29 February 2028
    (4, b"0\x1e\x17\x0d280229000000Z\x17\x0d280301000000Z", &[]),
    // the last second of 2049 and the first of 2050
    (4, b"0 \x17\x0d491231235959Z\x18\x0f20500101000000Z", &[]),
    // 2049 as a GeneralizedTime
    (4, b"0 \x17\x0d491231235959Z\x18\x0f20491231235959Z", &[5]),
    // a UTCTime of 1950
    (4, b"0\x1e\x17\x0d491231235959Z\x17\x0d500101000000Z", &[6]),
    // the same second
    (4, b"0\x1e\x17\x0d260921141320Z\x17\x0d260921141320Z", &[]),
    // the second before
    (4, b"0\x1e\x17\x0d260921141320Z\x17\x0d260921141319Z", &[6]),
    // 200 days
    (4, b"0\x1e\x17\x0d260921141320Z\x17\x0d270409141319Z", &[]),
    // 200 days and a second
    (4, b"0\x1e\x17\x0d260921141320Z\x17\x0d270409141320Z", &[7]),
    // issuerUniqueID
    (7, b"\x81\x01\0", &[8]),
    // subjectUniqueID
    (7, b"\x82\x01\0", &[8]),
    // both
    (7, b"\x81\x01\0\x82\x01\0", &[8]),
    // another curve
    (
        6,
        b"0Y0\x13\x06\x07*\x86H\xce=\x02\x01\x06\x08*\x86H\xce=\x03\x01\x08\x03B\0\x04\x11\x11\x11\
        \x11\x11\x11\x11\x11\x11\x11\x11\x11\x11\x11\x11\x11\x11\x11\x11\x11\x11\x11\x11\x11\x11\
        \x11\x11\x11\x11\x11\x11\x11\x11\x11\x11\x11\x11\x11\x11\x11\x11\x11\x11\x11\x11\x11\x11\
        \x11\x11\x11\x11\x11\x11\x11\x11\x11\x11\x11\x11\x11\x11\x11\x11\x11",
        &[12],
    ),
    // an RSA algorithm without NULL
    (
        6,
        b"0\x110\x0b\x06\x09*\x86H\x86\xf7\x0d\x01\x01\x01\x03\x02\0\x04",
        &[12],
    ),
    // a compressed point
    (
        6,
        b"090\x13\x06\x07*\x86H\xce=\x02\x01\x06\x08*\x86H\xce=\x03\x01\x07\x03\"\0\x02\x11\x11\
        \x11\x11\x11\x11\x11\x11\x11\x11\x11\x11\x11\x11\x11\x11\x11\x11\x11\x11\x11\x11\x11\x11\
        \x11\x11\x11\x11\x11\x11\x11\x11",
        &[15],
    ),
    // a point of 63 bytes
    (
        6,
        b"0X0\x13\x06\x07*\x86H\xce=\x02\x01\x06\x08*\x86H\xce=\x03\x01\x07\x03A\0\x04\x11\x11\x11\
        \x11\x11\x11\x11\x11\x11\x11\x11\x11\x11\x11\x11\x11\x11\x11\x11\x11\x11\x11\x11\x11\x11\
        \x11\x11\x11\x11\x11\x11\x11\x11\x11\x11\x11\x11\x11\x11\x11\x11\x11\x11\x11\x11\x11\x11\
        \x11\x11\x11\x11\x11\x11\x11\x11\x11\x11\x11\x11\x11\x11\x11\x11",
        &[15],
    ),
    // an unused bit
    (
        6,
        b"0Y0\x13\x06\x07*\x86H\xce=\x02\x01\x06\x08*\x86H\xce=\x03\x01\x07\x03B\x01\x04\x11\x11\
        \x11\x11\x11\x11\x11\x11\x11\x11\x11\x11\x11\x11\x11\x11\x11\x11\x11\x11\x11\x11\x11\x11\
        \x11\x11\x11\x11\x11\x11\x11\x11\x11\x11\x11\x11\x11\x11\x11\x11\x11\x11\x11\x11\x11\x11\
        \x11\x11\x11\x11\x11\x11\x11\x11\x11\x11\x11\x11\x11\x11\x11\x11\x11\x10",
        &[15],
    ),
    // no bits
    (
        6,
        b"0\x180\x13\x06\x07*\x86H\xce=\x02\x01\x06\x08*\x86H\xce=\x03\x01\x07\x03\x01\0",
        &[15],
    ),
    // a point of P-384
    (
        6,
        b"0v0\x10\x06\x07*\x86H\xce=\x02\x01\x06\x05+\x81\x04\0\"\x03b\0\x04\x11\x11\x11\x11\x11\
        \x11\x11\x11\x11\x11\x11\x11\x11\x11\x11\x11\x11\x11\x11\x11\x11\x11\x11\x11\x11\x11\x11\
        \x11\x11\x11\x11\x11\x11\x11\x11\x11\x11\x11\x11\x11\x11\x11\x11\x11\x11\x11\x11\x11\x11\
        \x11\x11\x11\x11\x11\x11\x11\x11\x11\x11\x11\x11\x11\x11\x11\x11\x11\x11\x11\x11\x11\x11\
        \x11\x11\x11\x11\x11\x11\x11\x11\x11\x11\x11\x11\x11\x11\x11\x11\x11\x11\x11\x11\x11\x11\
        \x11\x11\x11",
        &[],
    ),
    // an RSA key that is no SEQUENCE
    (
        6,
        b"0\x150\x0d\x06\x09*\x86H\x86\xf7\x0d\x01\x01\x01\x05\0\x03\x04\0\x02\x01\x01",
        &[13],
    ),
    // an RSA key that is no tree
    (
        6,
        b"0\x130\x0d\x06\x09*\x86H\x86\xf7\x0d\x01\x01\x01\x05\0\x03\x02\00",
        &[13],
    ),
    // an RSA key of one number
    (
        6,
        b"0\x170\x0d\x06\x09*\x86H\x86\xf7\x0d\x01\x01\x01\x05\0\x03\x06\00\x03\x02\x01\x01",
        &[13],
    ),
    // an RSA key of two small numbers
    (
        6,
        b"0\x1a0\x0d\x06\x09*\x86H\x86\xf7\x0d\x01\x01\x01\x05\0\x03\x09\00\x06\x02\x01\x01\x02\
        \x01\x03",
        &[13],
    ),
    // a negative exponent
    (
        6,
        b"0\x1a0\x0d\x06\x09*\x86H\x86\xf7\x0d\x01\x01\x01\x05\0\x03\x09\00\x06\x02\x01\x01\x02\
        \x01\xff",
        &[13, 14],
    ),
    // no extensions
    (16, b"", &[16, 18, 24, 26, 29, 31, 32, 33]),
    // an empty list of extensions
    (16, b"\xa3\x020\0", &[18, 24, 26, 29, 31, 32, 33]),
    // an extension twice
    (
        15,
        b"0\x1f\x06\x03U\x1d#\x04\x180\x16\x80\x14\"\"\"\"\"\"\"\"\"\"\"\"\"\"\"\"\"\"\"\"",
        &[16],
    ),
    // the second of two is bad
    (15, b"0\x0b\x06\x03U\x1d\x0f\x04\x04\x03\x02\x01\x06", &[16]),
    // subjectKeyIdentifier
    (15, b"0\x0a\x06\x03U\x1d\x0e\x04\x03\x04\x01\x11", &[17]),
    // no names
    (11, b"", &[18]),
    // an empty list of names
    (11, b"0\x0c\x06\x03U\x1d\x11\x01\x01\xff\x04\x020\0", &[19]),
    // names in a SET
    (
        11,
        b"0\x19\x06\x03U\x1d\x11\x01\x01\xff\x04\x0f1\x0d\x82\x0bexample.com",
        &[19],
    ),
    // names that are no tree
    (11, b"0\x0b\x06\x03U\x1d\x11\x01\x01\xff\x04\x010", &[19]),
    // an rfc822Name beside
    (
        11,
        b"0(\x06\x03U\x1d\x11\x01\x01\xff\x04\x1e0\x1c\x82\x0bexample.com\x81\x0da@example.com",
        &[19],
    ),
    // an address of five bytes
    (
        11,
        b"0 \x06\x03U\x1d\x11\x01\x01\xff\x04\x160\x14\x82\x0bexample.com\x87\x05\x08\x08\x08\x08\
        \x08",
        &[19],
    ),
    // a low line in a name, and an rfc822Name
    (
        11,
        b"0$\x06\x03U\x1d\x11\x01\x01\xff\x04\x1a0\x18\x82\x07a_b.com\x81\x0da@example.com",
        &[19, 20],
    ),
    // a low line in a name
    (
        11,
        b"0\x15\x06\x03U\x1d\x11\x01\x01\xff\x04\x0b0\x09\x82\x07a_b.com",
        &[20],
    ),
    // an upper-case letter in a name
    (
        11,
        b"0\x19\x06\x03U\x1d\x11\x01\x01\xff\x04\x0f0\x0d\x82\x0bExample.com",
        &[20],
    ),
    // a name twice
    (
        11,
        b"05\x06\x03U\x1d\x11\x01\x01\xff\x04+0)\x82\x0bexample.com\x82\x0da.example.com\x82\x0bex\
        ample.com",
        &[20],
    ),
    // a name twice, in two cases
    (
        11,
        b"0&\x06\x03U\x1d\x11\x01\x01\xff\x04\x1c0\x1a\x82\x0bexample.com\x82\x0bEXAMPLE.com",
        &[20],
    ),
    // an address twice
    (
        11,
        b"0\x18\x06\x03U\x1d\x11\x01\x01\xff\x04\x0e0\x0c\x87\x04\x08\x08\x08\x08\x87\x04\x08\x08\
        \x08\x08",
        &[20],
    ),
    // a name and its wildcard
    (
        11,
        b"0(\x06\x03U\x1d\x11\x01\x01\xff\x04\x1e0\x1c\x82\x0bexample.com\x82\x0d*.example.com",
        &[],
    ),
    // a public suffix
    (
        11,
        b"0\x11\x06\x03U\x1d\x11\x01\x01\xff\x04\x070\x05\x82\x03com",
        &[21],
    ),
    // a wildcard on a public suffix
    (
        11,
        b"0\x13\x06\x03U\x1d\x11\x01\x01\xff\x04\x090\x07\x82\x05*.com",
        &[21],
    ),
    // a name under no suffix
    (
        11,
        b"0\x14\x06\x03U\x1d\x11\x01\x01\xff\x04\x0a0\x08\x82\x06a.test",
        &[21],
    ),
    // an address as a name, beside the address
    (
        11,
        b"0\x1b\x06\x03U\x1d\x11\x01\x01\xff\x04\x110\x0f\x82\x078.8.8.8\x87\x04\x08\x08\x08\x08",
        &[21],
    ),
    // a private address
    (
        11,
        b"0\x12\x06\x03U\x1d\x11\x01\x01\xff\x04\x080\x06\x87\x04\x0a\0\0\x01",
        &[22],
    ),
    // the IPv6 loopback address
    (
        11,
        b"0\x1e\x06\x03U\x1d\x11\x01\x01\xff\x04\x140\x12\x87\x10\0\0\0\0\0\0\0\0\0\0\0\0\0\0\0\
        \x01",
        &[22],
    ),
    // an address of each family
    (
        11,
        b"0$\x06\x03U\x1d\x11\x01\x01\xff\x04\x1a0\x18\x87\x04\x08\x08\x08\x08\x87\x10 \x01H`\0\0\
        \0\0\0\0\0\0\0\0\0\x01",
        &[],
    ),
    // names not critical without a subject
    (
        11,
        b"0\x16\x06\x03U\x1d\x11\x04\x0f0\x0d\x82\x0bexample.com",
        &[23],
    ),
    // names critical beside a subject
    (
        5,
        b"0\x161\x140\x12\x06\x03U\x04\x03\x0c\x0bexample.com",
        &[23],
    ),
    // names critical beside a part without attributes
    (5, b"0\x021\0", &[23]),
    // no keyUsage
    (9, b"", &[24]),
    // keyUsage not critical
    (9, b"0\x0b\x06\x03U\x1d\x0f\x04\x04\x03\x02\x07\x80", &[24]),
    // keyUsage that is no BIT STRING
    (
        9,
        b"0\x0e\x06\x03U\x1d\x0f\x01\x01\xff\x04\x04\x04\x02\x07\x80",
        &[24, 25],
    ),
    // keyCertSign
    (
        9,
        b"0\x0e\x06\x03U\x1d\x0f\x01\x01\xff\x04\x04\x03\x02\x02\x04",
        &[25],
    ),
    // keyEncipherment without RSA
    (
        9,
        b"0\x0e\x06\x03U\x1d\x0f\x01\x01\xff\x04\x04\x03\x02\x05\xa0",
        &[25],
    ),
    // no extKeyUsage
    (10, b"", &[26]),
    // extKeyUsage critical
    (
        10,
        b"0\x16\x06\x03U\x1d%\x01\x01\xff\x04\x0c0\x0a\x06\x08+\x06\x01\x05\x05\x07\x03\x01",
        &[26],
    ),
    // a purpose that is no OBJECT IDENTIFIER
    (
        10,
        b"0\x16\x06\x03U\x1d%\x04\x0f0\x0d\x06\x08+\x06\x01\x05\x05\x07\x03\x01\x02\x01\x01",
        &[26],
    ),
    // purposes in a SET
    (
        10,
        b"0\x13\x06\x03U\x1d%\x04\x0c1\x0a\x06\x08+\x06\x01\x05\x05\x07\x03\x01",
        &[26, 27],
    ),
    // no purpose
    (10, b"0\x09\x06\x03U\x1d%\x04\x020\0", &[27]),
    // clientAuth alone
    (
        10,
        b"0\x13\x06\x03U\x1d%\x04\x0c0\x0a\x06\x08+\x06\x01\x05\x05\x07\x03\x02",
        &[27],
    ),
    // clientAuth beside
    (
        10,
        b"0\x1d\x06\x03U\x1d%\x04\x160\x14\x06\x08+\x06\x01\x05\x05\x07\x03\x01\x06\x08+\x06\x01\
        \x05\x05\x07\x03\x02",
        &[],
    ),
    // codeSigning beside
    (
        10,
        b"0\x1d\x06\x03U\x1d%\x04\x160\x14\x06\x08+\x06\x01\x05\x05\x07\x03\x01\x06\x08+\x06\x01\
        \x05\x05\x07\x03\x03",
        &[27],
    ),
    // basicConstraints of a subscriber
    (15, b"0\x0c\x06\x03U\x1d\x13\x01\x01\xff\x04\x020\0", &[]),
    // basicConstraints of an authority
    (
        15,
        b"0\x0f\x06\x03U\x1d\x13\x01\x01\xff\x04\x050\x03\x01\x01\xff",
        &[28],
    ),
    // no policies
    (12, b"", &[29]),
    // another policy
    (
        12,
        b"0\x13\x06\x03U\x1d \x04\x0c0\x0a0\x08\x06\x06g\x81\x0c\x01\x02\x02",
        &[29],
    ),
    // another policy beside
    (
        12,
        b"0\x1d\x06\x03U\x1d \x04\x160\x140\x08\x06\x06g\x81\x0c\x01\x02\x020\x08\x06\x06g\x81\x0c\
        \x01\x02\x01",
        &[],
    ),
    // a policy with qualifiers
    (
        12,
        b"0\x15\x06\x03U\x1d \x04\x0e0\x0c0\x0a\x06\x06g\x81\x0c\x01\x02\x010\0",
        &[],
    ),
    // a policy that is no SEQUENCE
    (
        12,
        b"0\x1b\x06\x03U\x1d \x04\x140\x120\x08\x06\x06g\x81\x0c\x01\x02\x01\x06\x06g\x81\x0c\x01\
        \x02\x01",
        &[29],
    ),
    // policies in a SET
    (
        12,
        b"0\x13\x06\x03U\x1d \x04\x0c1\x0a0\x08\x06\x06g\x81\x0c\x01\x02\x01",
        &[29],
    ),
    // nameConstraints
    (15, b"0\x0c\x06\x03U\x1d\x1e\x01\x01\xff\x04\x020\0", &[30]),
    // no authorityKeyIdentifier
    (8, b"", &[31]),
    // authorityKeyIdentifier critical
    (
        8,
        b"0\"\x06\x03U\x1d#\x01\x01\xff\x04\x180\x16\x80\x14\"\"\"\"\"\"\"\"\"\"\"\"\"\"\"\"\"\"\"\
        \"",
        &[31],
    ),
    // another key
    (
        8,
        b"0\x1f\x06\x03U\x1d#\x04\x180\x16\x80\x14\"\"\"\"\"\"\"\"\"\"\"\"\"\"\"\"\"\"\"#",
        &[31],
    ),
    // no authorityInfoAccess
    (14, b"", &[32]),
    // authorityInfoAccess critical
    (
        14,
        b"05\x06\x08+\x06\x01\x05\x05\x07\x01\x01\x01\x01\xff\x04&0$0\"\x06\x08+\x06\x01\x05\x05\
        \x070\x02\x86\x16http://c.example/1.cer",
        &[32],
    ),
    // an address of https
    (
        14,
        b"03\x06\x08+\x06\x01\x05\x05\x07\x01\x01\x04'0%0#\x06\x08+\x06\x01\x05\x05\x070\x02\x86\
        \x17https://c.example/1.cer",
        &[32],
    ),
    // OCSP alone
    (
        14,
        b"0-\x06\x08+\x06\x01\x05\x05\x07\x01\x01\x04!0\x1f0\x1d\x06\x08+\x06\x01\x05\x05\x070\x01\
        \x86\x11http://c.example/",
        &[32],
    ),
    // OCSP beside
    (
        14,
        b"0Q\x06\x08+\x06\x01\x05\x05\x07\x01\x01\x04E0C0\x1d\x06\x08+\x06\x01\x05\x05\x070\x01\
        \x86\x11http://c.example/0\"\x06\x08+\x06\x01\x05\x05\x070\x02\x86\x16http://c.example/1\
        .cer",
        &[],
    ),
    // a description of three parts
    (
        14,
        b"04\x06\x08+\x06\x01\x05\x05\x07\x01\x01\x04(0&0$\x06\x08+\x06\x01\x05\x05\x070\x02\x86\
        \x16http://c.example/1.cer\x05\0",
        &[32],
    ),
    // no cRLDistributionPoints
    (13, b"", &[33]),
    // cRLDistributionPoints critical
    (
        13,
        b"0*\x06\x03U\x1d\x1f\x01\x01\xff\x04 0\x1e0\x1c\xa0\x1a\xa0\x18\x86\x16http://c.example/1\
        .crl",
        &[33],
    ),
    // no point
    (13, b"0\x09\x06\x03U\x1d\x1f\x04\x020\0", &[33]),
    // an address of ldap
    (
        13,
        b"0\"\x06\x03U\x1d\x1f\x04\x1b0\x190\x17\xa0\x15\xa0\x13\x86\x11ldap://c.example/",
        &[33],
    ),
    // addresses of ldap and http
    (
        13,
        b"0:\x06\x03U\x1d\x1f\x043010/\xa0-\xa0+\x86\x11ldap://c.example/\x86\x16http://c.example/\
        1.crl",
        &[],
    ),
    // the second point alone has an address
    (
        13,
        b"0@\x06\x03U\x1d\x1f\x049070\x17\xa0\x15\xa0\x13\x86\x11ldap://c.example/0\x1c\xa0\x1a\
        \xa0\x18\x86\x16http://c.example/1.crl",
        &[33],
    ),
    // a point with reasons
    (
        13,
        b"0+\x06\x03U\x1d\x1f\x04$0\"0 \xa0\x1a\xa0\x18\x86\x16http://c.example/1.crl\x81\x02\x07\
        \x80",
        &[],
    ),
    // a name relative to the issuer
    (
        13,
        b"0'\x06\x03U\x1d\x1f\x04 0\x1e0\x1c\xa0\x1a\xa1\x18\x86\x16http://c.example/1.crl",
        &[33],
    ),
];

/// The same of two parts.
pub const TWO_CHANGES: &[(usize, &[u8], usize, &[u8], &[u8])] = &[
    // organizationName
    (
        5,
        b"0\x0c1\x0a0\x08\x06\x03U\x04\x0a\x0c\x01a",
        11,
        b"0\x16\x06\x03U\x1d\x11\x04\x0f0\x0d\x82\x0bexample.com",
        &[9],
    ),
    // countryName twice
    (
        5,
        b"0\x1a1\x0b0\x09\x06\x03U\x04\x06\x13\x02US1\x0b0\x09\x06\x03U\x04\x06\x13\x02US",
        11,
        b"0\x16\x06\x03U\x1d\x11\x04\x0f0\x0d\x82\x0bexample.com",
        &[9],
    ),
    // commonName twice in one SET
    (
        5,
        b"0*1(0\x12\x06\x03U\x04\x03\x0c\x0bexample.com0\x12\x06\x03U\x04\x03\x0c\x0bexample.com",
        11,
        b"0\x16\x06\x03U\x1d\x11\x04\x0f0\x0d\x82\x0bexample.com",
        &[9],
    ),
    // countryName and commonName
    (
        5,
        b"0#1\x0b0\x09\x06\x03U\x04\x06\x13\x02US1\x140\x12\x06\x03U\x04\x03\x0c\x0bexample.com",
        11,
        b"0\x16\x06\x03U\x1d\x11\x04\x0f0\x0d\x82\x0bexample.com",
        &[],
    ),
    // a countryName in lower case
    (
        5,
        b"0\x0d1\x0b0\x09\x06\x03U\x04\x06\x13\x02us",
        11,
        b"0\x16\x06\x03U\x1d\x11\x04\x0f0\x0d\x82\x0bexample.com",
        &[10],
    ),
    // a countryName of three letters
    (
        5,
        b"0\x0e1\x0c0\x0a\x06\x03U\x04\x06\x13\x03USA",
        11,
        b"0\x16\x06\x03U\x1d\x11\x04\x0f0\x0d\x82\x0bexample.com",
        &[10],
    ),
    // a countryName as UTF8String
    (
        5,
        b"0\x0d1\x0b0\x09\x06\x03U\x04\x06\x0c\x02US",
        11,
        b"0\x16\x06\x03U\x1d\x11\x04\x0f0\x0d\x82\x0bexample.com",
        &[10],
    ),
    // a commonName as PrintableString
    (
        5,
        b"0\x161\x140\x12\x06\x03U\x04\x03\x13\x0bexample.com",
        11,
        b"0\x16\x06\x03U\x1d\x11\x04\x0f0\x0d\x82\x0bexample.com",
        &[],
    ),
    // a commonName as IA5String
    (
        5,
        b"0\x161\x140\x12\x06\x03U\x04\x03\x16\x0bexample.com",
        11,
        b"0\x16\x06\x03U\x1d\x11\x04\x0f0\x0d\x82\x0bexample.com",
        &[11],
    ),
    // a commonName that is no name
    (
        5,
        b"0\x181\x160\x14\x06\x03U\x04\x03\x0c\x0da.example.com",
        11,
        b"0\x16\x06\x03U\x1d\x11\x04\x0f0\x0d\x82\x0bexample.com",
        &[11],
    ),
    // a commonName in upper case
    (
        5,
        b"0\x161\x140\x12\x06\x03U\x04\x03\x0c\x0bEXAMPLE.com",
        11,
        b"0\x16\x06\x03U\x1d\x11\x04\x0f0\x0d\x82\x0bexample.com",
        &[11],
    ),
    // an empty commonName
    (
        5,
        b"0\x0b1\x090\x07\x06\x03U\x04\x03\x0c\0",
        11,
        b"0\x16\x06\x03U\x1d\x11\x04\x0f0\x0d\x82\x0bexample.com",
        &[11],
    ),
    // a commonName of a wildcard
    (
        5,
        b"0\x181\x160\x14\x06\x03U\x04\x03\x0c\x0d*.example.com",
        11,
        b"0%\x06\x03U\x1d\x11\x04\x1e0\x1c\x82\x0bexample.com\x82\x0d*.example.com",
        &[],
    ),
    // a commonName of an IPv4 address
    (
        5,
        b"0\x121\x100\x0e\x06\x03U\x04\x03\x0c\x078.8.8.8",
        11,
        b"0\x0f\x06\x03U\x1d\x11\x04\x080\x06\x87\x04\x08\x08\x08\x08",
        &[],
    ),
    // a commonName of an IPv6 address
    (
        5,
        b"02100.\x06\x03U\x04\x03\x0c'2001:4860:0000:0000:0000:0000:0000:0001",
        11,
        b"0\x1b\x06\x03U\x1d\x11\x04\x140\x12\x87\x10 \x01H`\0\0\0\0\0\0\0\0\0\0\0\x01",
        &[11],
    ),
    // a commonName of 64 bytes
    (
        5,
        b"0K1I0G\x06\x03U\x04\x03\x0c@aaaaaaaaaaaaaaaaaaaaaaaaaaaaaaaaaaaaaaaaaaaaaaaaaaaaaaaaaaaa\
        .com",
        11,
        b"0K\x06\x03U\x1d\x11\x04D0B\x82@aaaaaaaaaaaaaaaaaaaaaaaaaaaaaaaaaaaaaaaaaaaaaaaaaaaaaaaaa\
        aaa.com",
        &[],
    ),
    // a commonName of 65 bytes
    (
        5,
        b"0L1J0H\x06\x03U\x04\x03\x0cAaaaaaaaaaaaaaaaaaaaaaaaaaaaaaaaaaaaaaaaaaaaaaaaaaaaaaaaaaaaa\
        a.com",
        11,
        b"0L\x06\x03U\x1d\x11\x04E0C\x82Aaaaaaaaaaaaaaaaaaaaaaaaaaaaaaaaaaaaaaaaaaaaaaaaaaaaaaaaaa\
        aaaa.com",
        &[11],
    ),
    // the first of two is bad
    (
        9,
        b"0\x0e\x06\x03U\x1d\x0f\x01\x01\xff\x04\x04\x03\x02\x01\x06",
        15,
        b"0\x0e\x06\x03U\x1d\x0f\x01\x01\xff\x04\x04\x03\x02\x07\x80",
        &[16, 25],
    ),
];

/// Of an RSA key its front, how many bytes `11`, and its back; and the broken rules.
pub const RSA_KEYS: &[(&[u8], usize, &[u8], &[u8])] = &[
    // 2,048 bits
    (
        b"0\x82\x01\"0\x0d\x06\x09*\x86H\x86\xf7\x0d\x01\x01\x01\x05\0\x03\x82\x01\x0f\00\x82\x01\
        \x0a\x02\x82\x01\x01\0\x80",
        255,
        b"\x02\x03\x01\0\x01",
        &[],
    ),
    // 32,768 bits, so that the body has more than 4,096 bytes
    (
        b"0\x82\x10\"0\x0d\x06\x09*\x86H\x86\xf7\x0d\x01\x01\x01\x05\0\x03\x82\x10\x0f\00\x82\x10\
        \x0a\x02\x82\x10\x01\0\x80",
        4095,
        b"\x02\x03\x01\0\x01",
        &[],
    ),
    // exponent 3
    (
        b"0\x82\x01 0\x0d\x06\x09*\x86H\x86\xf7\x0d\x01\x01\x01\x05\0\x03\x82\x01\x0d\00\x82\x01\
        \x08\x02\x82\x01\x01\0\x80",
        255,
        b"\x02\x01\x03",
        &[],
    ),
    // 2,040 bits
    (
        b"0\x82\x01!0\x0d\x06\x09*\x86H\x86\xf7\x0d\x01\x01\x01\x05\0\x03\x82\x01\x0e\00\x82\x01\
        \x09\x02\x82\x01\0\0\x80",
        254,
        b"\x02\x03\x01\0\x01",
        &[13],
    ),
    // 2,047 bits
    (
        b"0\x82\x01!0\x0d\x06\x09*\x86H\x86\xf7\x0d\x01\x01\x01\x05\0\x03\x82\x01\x0e\00\x82\x01\
        \x09\x02\x82\x01\0\x7f",
        255,
        b"\x02\x03\x01\0\x01",
        &[13],
    ),
    // 2,049 bits
    (
        b"0\x82\x01\"0\x0d\x06\x09*\x86H\x86\xf7\x0d\x01\x01\x01\x05\0\x03\x82\x01\x0f\00\x82\x01\
        \x0a\x02\x82\x01\x01\x01",
        256,
        b"\x02\x03\x01\0\x01",
        &[13],
    ),
    // a negative modulus
    (
        b"0\x82\x01!0\x0d\x06\x09*\x86H\x86\xf7\x0d\x01\x01\x01\x05\0\x03\x82\x01\x0e\00\x82\x01\
        \x09\x02\x82\x01\0\x80",
        255,
        b"\x02\x03\x01\0\x01",
        &[13],
    ),
    // an even exponent
    (
        b"0\x82\x01\"0\x0d\x06\x09*\x86H\x86\xf7\x0d\x01\x01\x01\x05\0\x03\x82\x01\x0f\00\x82\x01\
        \x0a\x02\x82\x01\x01\0\x80",
        255,
        b"\x02\x03\x01\0\0",
        &[14],
    ),
    // exponent 1
    (
        b"0\x82\x01 0\x0d\x06\x09*\x86H\x86\xf7\x0d\x01\x01\x01\x05\0\x03\x82\x01\x0d\00\x82\x01\
        \x08\x02\x82\x01\x01\0\x80",
        255,
        b"\x02\x01\x01",
        &[14],
    ),
    // exponent 0
    (
        b"0\x82\x01 0\x0d\x06\x09*\x86H\x86\xf7\x0d\x01\x01\x01\x05\0\x03\x82\x01\x0d\00\x82\x01\
        \x08\x02\x82\x01\x01\0\x80",
        255,
        b"\x02\x01\0",
        &[13, 14],
    ),
    // an exponent of 32 bytes
    (
        b"0\x82\x01@0\x0d\x06\x09*\x86H\x86\xf7\x0d\x01\x01\x01\x05\0\x03\x82\x01-\00\x82\x01(\x02\
        \x82\x01\x01\0\x80",
        255,
        b"\x02!\0\xff\x01\x01\x01\x01\x01\x01\x01\x01\x01\x01\x01\x01\x01\x01\x01\x01\x01\x01\x01\
        \x01\x01\x01\x01\x01\x01\x01\x01\x01\x01\x01\x01",
        &[],
    ),
    // an exponent of 33 bytes
    (
        b"0\x82\x01@0\x0d\x06\x09*\x86H\x86\xf7\x0d\x01\x01\x01\x05\0\x03\x82\x01-\00\x82\x01(\x02\
        \x82\x01\x01\0\x80",
        255,
        b"\x02!\x01\x01\x01\x01\x01\x01\x01\x01\x01\x01\x01\x01\x01\x01\x01\x01\x01\x01\x01\x01\
        \x01\x01\x01\x01\x01\x01\x01\x01\x01\x01\x01\x01\x01",
        &[14],
    ),
];
