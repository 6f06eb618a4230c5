use cert_time::{read_time, time_of};
use gate_base::Moment;

const UTC: u8 = 0x17;

const GENERALIZED: u8 = 0x18;

/// Moments and their Times, by `date -u`.
const WRITTEN: &[(u64, u8, &[u8])] = &[
    (0, UTC, b"700101000000Z"),
    (1_790_000_000, UTC, b"260921141320Z"),
    // forty-seven days later, less a second
    (1_794_060_799, UTC, b"261107141319Z"),
    // 29 February of a leap year
    (1_709_210_096, UTC, b"240229123456Z"),
    (2_524_607_999, UTC, b"491231235959Z"),
    (2_524_608_000, GENERALIZED, b"20500101000000Z"),
    (253_402_300_799, GENERALIZED, b"99991231235959Z"),
];

/// Texts that nothing is written to, and what is read of them.
const READ: &[(u8, &[u8], Option<i64>)] = &[
    (UTC, b"500101000000Z", Some(-631_152_000)),
    (UTC, b"691231235959Z", Some(-1)),
    // the year is a leap year only of the calendar before 1582
    (GENERALIZED, b"21000229000000Z", None),
    (UTC, b"230229000000Z", None),
    (UTC, b"260931000000Z", None),
    (UTC, b"261301000000Z", None),
    (UTC, b"260900000000Z", None),
    (UTC, b"260921240000Z", None),
    (UTC, b"260921146020Z", None),
    (UTC, b"260921141360Z", None),
    (GENERALIZED, b"20491231235959Z", None),
    (GENERALIZED, b"260921141320Z", None),
    (UTC, b"20500101000000Z", None),
    (UTC, b"260921141320", None),
    (UTC, b"260921141320+0000", None),
    (UTC, b"2609211413Z", None),
    (UTC, b"26O921141320Z", None),
    (GENERALIZED, b"20500101000000.0Z", None),
    (0x1e, b"260921141320Z", None),
    (UTC, b"", None),
];

#[test]
fn a_moment_has_its_time(rt: HostRuntime) {
    for (moment, tag, text) in WRITTEN {
        let time = time_of(Moment((*moment).min(253_402_300_799)));
        assert_eq!(rt; time.tag(), *tag, "the tag at {moment}");
        assert_eq!(rt; time.as_bytes(), *text, "the text at {moment}");
        assert_eq!(rt;
            read_time(*tag, text),
            Some(*moment as i64),
            "{moment} read again"
        );
    }
}

#[test]
fn a_text_is_read_or_refused(rt: HostRuntime) {
    for (tag, text, seconds) in READ {
        assert_eq!(rt; read_time(*tag, text), *seconds, "{text:?}");
    }
}
