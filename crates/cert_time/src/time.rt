ghost use Rattle.std.specs.Prelude.{◌≡◌, ◌≤◌, length};

/// A Time (RFC 5280, section 4.1.2.5), by the text that is its content. Its years are 1950 to 9999.
#[derive(Clone, Copy, Debug, PartialEq, Eq)]
pub enum Time {
    /// A UTCTime, `YYMMDDHHMMSSZ`, for the years 1950 to 2049.
    Utc([u8; 13]),
    /// A GeneralizedTime, `YYYYMMDDHHMMSSZ`, for the years from 2050 on.
    Generalized([u8; 15]),
}

/// The tag of a UTCTime.
pub const UTC_TIME: u8 = 0x17;

/// The tag of a GeneralizedTime.
pub const GENERALIZED_TIME: u8 = 0x18;

impl Time {
    ghost use Rattle.cert_time.specs.Time.{tag_of, text_of};

    /// The tag of the element.
    pub fn tag(&self) -> u8
        ensures { result ≡ tag_of self.now }
    {
        match self {
            Time::Utc(_) => UTC_TIME,
            Time::Generalized(_) => GENERALIZED_TIME,
        }
    }

    /// The text, 13 or 15 bytes.
    pub fn as_bytes(&self) -> &[u8]
        ensures text { result.now ≡ text_of self.now }
        ensures short { length result.now ≤ 15 }
    {
        match self {
            Time::Utc(text) => text,
            Time::Generalized(text) => text,
        }
    }
}
