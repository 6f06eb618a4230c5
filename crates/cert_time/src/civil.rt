//! Seconds since 1970 as a date and a time of day, and back.
ghost use Rattle.std.specs.Prelude.{◌≡◌, ◌↔◌, ◌<◌, ◌≤◌, ◌^◌, ℤ, pos, ◌+ℤ◌, ◌*ℤ◌, Some, IfSome, IfNone};
ghost use Rattle.jiff_core.specs.Calendar.{days_from_civil, IsCivilDate, IsEpochDay};
ghost use Rattle.cert_time.specs.Calendar.{civil_of, seconds_of, IsReal};

use gate_base::Moment;
use jiff_core::civil::Date;

/// A date and a time of day, in UTC.
#[derive(Clone, Copy, Debug, PartialEq, Eq)]
pub struct Civil {
    pub year: u16,
    pub month: u8,
    pub day: u8,
    pub hour: u8,
    pub minute: u8,
    pub second: u8,
}

const SECONDS_OF_A_DAY: u64 = 86_400;

/// The date and the time of day of a moment.
#[tactic(auto, using(crate::proofs::Days::date_is))]
pub fn civil_of(moment: Moment) -> Civil
    requires { moment.0 ≤ 253402300799 }
    ensures civil { result ≡ civil_of moment.0 }
    ensures real { IsReal result }
{
    let Ok(date) = Date::from_unix_epoch_day((moment.0 / SECONDS_OF_A_DAY) as i64) else {
        unreachable!()
    };
    let time = moment.0 % SECONDS_OF_A_DAY;
    Civil {
        year: date.year as u16,
        month: date.month,
        day: date.day,
        hour: (time / 3600) as u8,
        minute: (time / 60 % 60) as u8,
        second: (time % 60) as u8,
    }
}

/// The days since 1970-01-01 of a date, negative before it, or none where the calendar has no such date.
fn day_number(year: u16, month: u8, day: u8) -> Option<i32>
    ensures found { IfSome result (λ number. IsCivilDate (pos year) month day × (number ≡ days_from_civil (pos year) month day) × IsEpochDay number) }
    ensures none { IfNone result (¬ (IsCivilDate (pos year) month day)) }
{
    if year > 9999 || month > 12 || day > 31 {
        return None;
    }
    match Date::new(year as i16, month as i8, day as i8) {
        Ok(date) => Some(date.to_unix_epoch_day()),
        Err(_) => None,
    }
}

/// The seconds since 1970 after so many days, and so many seconds of the next.
fn seconds_after(days: i32, time: u32) -> i64
    requires days { IsEpochDay days }
    requires time { time < 2 ^ 20 }
    ensures { result ≡ days *ℤ pos 86400 +ℤ pos time }
{
    days as i64 * SECONDS_OF_A_DAY as i64 + time as i64
}

/// The seconds since 1970 of a date that the calendar has and of a time that a day has, or none of others.
pub fn seconds_of(civil: &Civil) -> Option<i64>
    ensures { (seconds : ℤ) → (result ≡ Some seconds) ↔ (IsReal civil.now × (seconds ≡ seconds_of civil.now)) }
{
    if civil.hour > 23 || civil.minute > 59 || civil.second > 59 {
        return None;
    }
    let days = day_number(civil.year, civil.month, civil.day)?;
    let time = civil.hour as u32 * 3600 + civil.minute as u32 * 60 + civil.second as u32;
    Some(seconds_after(days, time))
}
