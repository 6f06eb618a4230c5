//! The message that asks for an order to be finalized.
ghost use Rattle.std.specs.Prelude.{◌≡◌, None, IsTrue, IfOk, IfErr, IfSome, IfNone};
ghost use Rattle.std.specs.Str.Parse.{digits_value};
ghost use Rattle.wire_front.specs.Message.{is_order_number};
ghost use Rattle.wire_front.specs.Reading.{IsAbsent, StartsWithNumber, StartsWithFinalize, ReadsNumber, ReadsFinalize, until_at};

use crate::cutting::{Absent, are_digits, strip_start, until};
use std::str;

/// What stands before the order's number.
const START: &[u8] = b"POST /orders/";

/// What stands behind the slash behind it.
const END: &[u8] = b"finalize HTTP/1.1\r\nhost: gate\r\nx-gate-key: acme-token\r\n\r\n";

/// The most digits of an order's number, so that it is below 2^64.
const NUMBER_LIMIT: usize = 19;

/// The number of the order that the message at the front asks for, and what stands behind the message.
pub fn find_finalize(bytes: &[u8]) -> Result<(u64, &[u8]), Absent>
    ensures found { IfOk result (λ x. ReadsFinalize bytes.now x.0 x.1.now) }
    ensures absent { IfErr result (λ absent. IsAbsent StartsWithFinalize bytes.now absent) }
{
    let rest = strip_start(bytes, START)?;
    let (order, rest) = strip_number(rest)?;
    let rest = strip_start(rest, END)?;
    Ok((order, rest))
}

/// An order's number with a slash behind it, and what stands behind that.
fn strip_number(bytes: &[u8]) -> Result<(u64, &[u8]), Absent>
    ensures found { IfOk result (λ x. ReadsNumber bytes.now x.0 x.1.now) }
    ensures absent { IfErr result (λ absent. IsAbsent StartsWithNumber bytes.now absent) }
{
    let Some((digits, rest)) = until(bytes, b'/') else {
        return Err(short_of_number(bytes));
    };
    match read_order_number(digits) {
        Some(order) => Ok((order, rest)),
        None => Err(Absent::ForGood),
    }
}

/// Why a number isn't there where there is no slash.
fn short_of_number(bytes: &[u8]) -> Absent
    requires { until_at 47 bytes.now ≡ None }
    ensures { IsAbsent StartsWithNumber bytes.now result }
{
    if bytes.len() <= NUMBER_LIMIT && are_digits(bytes) {
        Absent::SoFar
    } else {
        Absent::ForGood
    }
}

fn read_order_number(text: &[u8]) -> Option<u64>
    ensures some { IfSome result (λ order. IsTrue (is_order_number text.now) × (order ≡ digits_value 10 text.now)) }
    ensures none { IfNone result (IsTrue (is_order_number text.now) → ⊥) }
{
    if is_order_number(text) {
        Some(value_of(text))
    } else {
        None
    }
}

fn is_order_number(text: &[u8]) -> bool
    ensures { result ≡ is_order_number text.now }
{
    let size = text.len();
    1 <= size && size <= NUMBER_LIMIT && are_digits(text)
}

fn value_of(digits: &[u8]) -> u64
    requires { IsTrue (is_order_number digits.now) }
    ensures { result ≡ digits_value 10 digits.now }
{
    let Ok(text) = str::from_utf8(digits) else {
        unreachable!()
    };
    match text.parse::<u64>() {
        Ok(value) => value,
        Err(_) => unreachable!(),
    }
}
