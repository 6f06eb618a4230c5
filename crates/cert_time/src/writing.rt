ghost use Rattle.std.specs.Prelude.{◌≡◌, ◌<◌, ◌≤◌, [], ◌∷◌};
ghost use Rattle.cert_time.specs.Time as spec;
ghost use Rattle.cert_time.specs.Time.{two_digits};
ghost use Rattle.cert_time.specs.Calendar.{IsReal};

use crate::civil::{Civil, civil_of};
use crate::time::Time;
use gate_base::Moment;

/// A number as two decimal digits.
fn two_digits(number: u8) -> (u8, u8)
    requires { number < 100 }
    ensures { result.0 ∷ result.1 ∷ [] ≡ two_digits number }
{
    (b'0' + number / 10, b'0' + number % 10)
}

/// The Time of a date and a time of day.
#[tactic(auto, using(crate::proofs::Days::real_bounds))]
fn time_with(civil: &Civil) -> Time
    requires { IsReal civil.now }
    ensures { result ≡ spec.time_with civil.now }
{
    let c = two_digits((civil.year / 100) as u8);
    let y = two_digits((civil.year % 100) as u8);
    let m = two_digits(civil.month);
    let d = two_digits(civil.day);
    let h = two_digits(civil.hour);
    let n = two_digits(civil.minute);
    let s = two_digits(civil.second);
    if civil.year < 2050 {
        Time::Utc([
            y.0, y.1, m.0, m.1, d.0, d.1, h.0, h.1, n.0, n.1, s.0, s.1, b'Z',
        ])
    } else {
        Time::Generalized([
            c.0, c.1, y.0, y.1, m.0, m.1, d.0, d.1, h.0, h.1, n.0, n.1, s.0, s.1, b'Z',
        ])
    }
}

/// The Time of a moment through 9999-12-31T23:59:59Z.
pub fn time_of(moment: Moment) -> Time
    requires { moment.0 ≤ 253402300799 }
    ensures { result ≡ spec.time_of moment.0 }
{
    time_with(&civil_of(moment))
}
