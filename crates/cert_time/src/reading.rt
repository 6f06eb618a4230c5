ghost use Rattle.std.specs.Prelude.{◌≡◌, ◌↔◌, ℤ, Some, option_map, IfSome};
ghost use Rattle.cert_time.specs.declared.civil.Civil.{Civil as CivilValue};
ghost use Rattle.cert_time.specs.Calendar.{IsReal};
ghost use Rattle.cert_time.specs.Time.{IsTextOf, IsTimeText};
ghost use Rattle.cert_time.specs.Reading as spec;

use crate::civil::{Civil, seconds_of};
use crate::time::{GENERALIZED_TIME, UTC_TIME};

/// The number of two decimal digits at the front, and the bytes behind them.
fn number_at(bytes: &[u8]) -> Option<(u8, &[u8])>
    ensures { option_map (λ x. (x.0, x.1.now)) result ≡ spec.number_at bytes.now }
{
    match bytes {
        [tens @ b'0'..=b'9', ones @ b'0'..=b'9', rest @ ..] => {
            Some((10 * (tens - b'0') + (ones - b'0'), rest))
        }
        _ => None,
    }
}

/// The `Z` that ends the text.
fn is_zone(bytes: &[u8]) -> bool
    ensures { result ≡ spec.is_zone bytes.now }
{
    matches!(bytes, [b'Z'])
}

/// What stands behind a year: month, day, hour, minute, second and `Z`.
#[tactic(auto, unfolding(crate::specs::Reading::civil_in))]
fn civil_in(year: u16, bytes: &[u8]) -> Option<Civil>
    ensures { result ≡ spec.civil_in year bytes.now }
{
    let (month, bytes) = number_at(bytes)?;
    let (day, bytes) = number_at(bytes)?;
    let (hour, bytes) = number_at(bytes)?;
    let (minute, bytes) = number_at(bytes)?;
    let (second, bytes) = number_at(bytes)?;
    if !is_zone(bytes) {
        return None;
    }
    Some(Civil {
        year,
        month,
        day,
        hour,
        minute,
        second,
    })
}

/// What a UTCTime says. Its years from 50 on are those of the last century.
fn utc_civil(content: &[u8]) -> Option<Civil>
    ensures { result ≡ spec.utc_civil content.now }
{
    let (year, bytes) = number_at(content)?;
    let century = if year < 50 { 2000 } else { 1900 };
    civil_in(century + year as u16, bytes)
}

/// What a GeneralizedTime says, of a year from 2050 on.
fn generalized_civil(content: &[u8]) -> Option<Civil>
    ensures { result ≡ spec.generalized_civil content.now }
{
    let (century, bytes) = number_at(content)?;
    let (year, bytes) = number_at(bytes)?;
    let year = 100 * century as u16 + year as u16;
    if year < 2050 {
        return None;
    }
    civil_in(year, bytes)
}

/// The date and the time of day that a Time says.
#[tactic(auto, using(crate::proofs::Texts::utc_found, crate::proofs::Texts::utc_again, crate::proofs::Texts::generalized_found, crate::proofs::Texts::generalized_again, crate::proofs::Texts::no_other_tag))]
fn civil_read(tag: u8, content: &[u8]) -> Option<Civil>
    ensures found { IfSome result (IsTextOf tag content.now) }
    ensures again { (civil : CivilValue) → IsReal civil → IsTextOf tag content.now civil → result ≡ Some civil }
{
    match tag {
        UTC_TIME => utc_civil(content),
        GENERALIZED_TIME => generalized_civil(content),
        _ => None,
    }
}

/// The seconds since 1970 of a Time with this tag and content, negative before it; none of what is no such Time:
/// a UTCTime `YYMMDDHHMMSSZ` through 2049, or a GeneralizedTime `YYYYMMDDHHMMSSZ` from 2050 on
/// (RFC 5280, section 4.1.2.5), of a date that the calendar has and a time with no leap second.
pub fn read_time(tag: u8, content: &[u8]) -> Option<i64>
    ensures { (seconds : ℤ) → (result ≡ Some seconds) ↔ IsTimeText tag content.now seconds }
{
    seconds_of(&civil_read(tag, content)?)
}
