//! Cutting bytes at fixed texts, at a byte and behind a number.
ghost use Rattle.std.specs.Prelude.{◌≡◌, ◌<◌, ◌∷◌, ◌++◌, length, true, None, option_map, IfOk, IfErr};
ghost use Rattle.std.specs.List.{list_all};
ghost use Rattle.std.specs.Fmt.{decimal};
ghost use Rattle.wire_front.specs.Message.{is_digit};
ghost use Rattle.wire_front.specs.Reading.{Reads, IsAbsent, StartsWith, StartsWithSize, IsSize, IsNumber, is_numeral, until_at, behind, before, field_at};

use std::str;

/// Why something doesn't stand at the front.
#[derive(Clone, Copy, Debug)]
pub enum Absent {
    /// Further bytes may make it stand there.
    SoFar,
    /// No further bytes can.
    ForGood,
}

/// The most bytes of a body, and the most digits of their number.
const BODY_LIMIT: u64 = 65_536;

const BODY_LIMIT_DIGITS: usize = 5;

/// What stands behind a text at the front.
pub fn strip_start<'a>(bytes: &'a [u8], text: &[u8]) -> Result<&'a [u8], Absent>
    ensures found { IfOk result (λ rest. bytes.now ≡ text.now ++ rest.now) }
    ensures absent { IfErr result (λ absent. IsAbsent (StartsWith text.now) bytes.now absent) }
{
    if bytes.len() < text.len() {
        return Err(short_of(bytes, text));
    }
    match bytes.strip_prefix(text) {
        Some(rest) => Ok(rest),
        None => Err(Absent::ForGood),
    }
}

/// Why a text isn't there where there are fewer bytes than it has.
fn short_of(bytes: &[u8], text: &[u8]) -> Absent
    requires { length bytes.now < length text.now }
    ensures { IsAbsent (StartsWith text.now) bytes.now result }
{
    if text.starts_with(bytes) {
        Absent::SoFar
    } else {
        Absent::ForGood
    }
}

/// What stands before the first such byte, and behind it.
pub fn until(bytes: &[u8], byte: u8) -> Option<(&[u8], &[u8])>
    ensures { option_map (λ parts. (parts.0.now, parts.1.now)) result ≡ until_at byte bytes.now }
{
    let mut at = 0;
    while at < bytes.len() {
        if bytes[at] == byte {
            return Some((&bytes[..at], &bytes[at + 1..]));
        }
        at += 1;
    }
    None
}

/// What stands between a text at the front and the first such byte, and behind that byte.
#[tactic(auto, unfolding(crate::specs::Reading::field_at))]
pub fn strip_field<'a>(bytes: &'a [u8], text: &[u8], end: u8) -> Option<(&'a [u8], &'a [u8])>
    ensures { option_map (λ parts. (parts.0.now, parts.1.now)) result ≡ field_at text.now end bytes.now }
{
    let rest = strip_text(bytes, text)?;
    until(rest, end)
}

/// What stands behind a text at the front, where it stands there whole.
pub fn strip_text<'a>(bytes: &'a [u8], text: &[u8]) -> Option<&'a [u8]>
    ensures { option_map (λ rest. rest.now) result ≡ behind text.now bytes.now }
{
    bytes.strip_prefix(text)
}

/// What stands before a text at the end.
pub fn strip_end<'a>(bytes: &'a [u8], text: &[u8]) -> Option<&'a [u8]>
    ensures { option_map (λ front. front.now) result ≡ before text.now bytes.now }
{
    bytes.strip_suffix(text)
}

/// A size in decimal with a carriage return behind it, and what stands behind that.
pub fn strip_size(bytes: &[u8]) -> Result<(usize, &[u8]), Absent>
    ensures fits { IfOk result (λ x. IsSize x.0) }
    ensures found { IfOk result (λ x. bytes.now ≡ decimal x.0 ++ 13 ∷ x.1.now) }
    ensures absent { IfErr result (λ absent. IsAbsent StartsWithSize bytes.now absent) }
{
    let Some((number, rest)) = until(bytes, b'\r') else {
        return Err(short_of_size(bytes));
    };
    match read_size(number) {
        Some(size) => Ok((size, rest)),
        None => Err(Absent::ForGood),
    }
}

/// Why a size isn't there where there is no carriage return.
fn short_of_size(bytes: &[u8]) -> Absent
    requires { until_at 13 bytes.now ≡ None }
    ensures { IsAbsent StartsWithSize bytes.now result }
{
    if bytes.len() <= BODY_LIMIT_DIGITS && are_digits(bytes) {
        Absent::SoFar
    } else {
        Absent::ForGood
    }
}

fn read_size(text: &[u8]) -> Option<usize>
    ensures { Reads decimal IsSize text.now result }
{
    match read_number(text) {
        Some(size) if size <= BODY_LIMIT => Some(size as usize),
        _ => None,
    }
}

/// The number from 1 on that a text is in decimal, without a leading zero.
pub fn read_number(text: &[u8]) -> Option<u64>
    ensures { Reads decimal IsNumber text.now result }
{
    if !is_numeral(text) {
        return None;
    }
    parse_numeral(text)
}

fn parse_numeral(text: &[u8]) -> Option<u64>
    requires { is_numeral text.now ≡ true }
    ensures { Reads decimal IsNumber text.now result }
{
    let Ok(digits) = str::from_utf8(text) else {
        return None;
    };
    match digits.parse::<u64>() {
        Ok(number) => Some(number),
        Err(_) => None,
    }
}

/// Whether there are digits alone, and no zero first.
fn is_numeral(text: &[u8]) -> bool
    ensures { result ≡ is_numeral text.now }
{
    match text {
        [] => false,
        [first, ..] => *first != b'0' && are_digits(text),
    }
}

pub fn are_digits(bytes: &[u8]) -> bool
    ensures { result ≡ list_all is_digit bytes.now }
{
    bytes.iter().all(|byte| is_digit(*byte))
}

fn is_digit(byte: u8) -> bool
    ensures { result ≡ is_digit byte }
{
    matches!(byte, b'0'..=b'9')
}
