//! The times between which a certificate is valid, in seconds since 1970.
ghost use Rattle.std.specs.Prelude.{◌≡◌, ◌*◌, pos, ◌+ℤ◌, ◌-ℤ◌};
ghost use Rattle.profile_lint.specs.Rules as spec;

const SECONDS_OF_A_DAY: i128 = 86_400;

pub fn a_time_is_bad(begins: Option<i64>, ends: Option<i64>) -> bool
    ensures { result ≡ spec.a_time_is_bad begins ends }
{
    begins.is_none() || ends.is_none()
}

pub fn ends_early(begins: Option<i64>, ends: Option<i64>) -> bool
    ensures { result ≡ spec.ends_early begins ends }
{
    match begins {
        None => false,
        Some(begins) => match ends {
            None => false,
            Some(ends) => ends < begins,
        },
    }
}

/// How many seconds lie between, both ends included.
fn seconds_of(begins: i64, ends: i64) -> i128
    ensures { result ≡ ends -ℤ begins +ℤ pos 1 }
{
    ends as i128 - begins as i128 + 1
}

fn seconds_of_days(days: u64) -> i128
    ensures { result ≡ pos (days * 86400) }
{
    days as i128 * SECONDS_OF_A_DAY
}

/// Whether the time is longer than so many days.
pub fn lasts_too_long(days: u64, begins: Option<i64>, ends: Option<i64>) -> bool
    ensures { result ≡ spec.lasts_too_long days begins ends }
{
    match begins {
        None => false,
        Some(begins) => match ends {
            None => false,
            Some(ends) => seconds_of_days(days) < seconds_of(begins, ends),
        },
    }
}
