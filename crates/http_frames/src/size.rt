//! The number of bytes that a field's value says.
ghost use Rattle.std.specs.Prelude.{◌≡◌, Some, None, if◌then◌else◌, IsTrue};
ghost use Rattle.std.specs.List.{list_all};
ghost use Rattle.std.specs.Char.{is_ascii_digit};
ghost use Rattle.std.specs.Str.Parse.{digits_value};
ghost use Rattle.http_frames.specs.Fields.{is_size_text};

use std::str;

/// The most digits of a size.
const DIGIT_LIMIT: usize = 19;

/// The number that 1 to 19 digits are.
pub fn read_size(text: &[u8]) -> Option<u64>
    ensures { result ≡ (if is_size_text text.now then Some (digits_value 10 text.now) else None) }
{
    if is_size_text(text) {
        Some(value_of(text))
    } else {
        None
    }
}

fn is_size_text(text: &[u8]) -> bool
    ensures { result ≡ is_size_text text.now }
{
    let digits = text.len();
    1 <= digits && digits <= DIGIT_LIMIT && are_digits(text)
}

fn are_digits(text: &[u8]) -> bool
    ensures { result ≡ list_all is_ascii_digit text.now }
{
    text.iter().all(|byte| byte.is_ascii_digit())
}

fn value_of(digits: &[u8]) -> u64
    requires { IsTrue (is_size_text digits.now) }
    ensures { result ≡ digits_value 10 digits.now }
{
    let Ok(text) = str::from_utf8(digits) else {
        unreachable!()
    };
    match text.parse::<u64>() {
        Ok(value) => value,
        Err(_) => unreachable!(),
    }
}
