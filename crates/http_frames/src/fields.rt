//! What the header fields of a head say.
ghost use Rattle.std.specs.Prelude.{◌≡◌, length, map, option_map, All, codes};
ghost use Rattle.std.specs.Str.{bytes_eq, str_eq_ignore_ascii_case};
ghost use Rattle.httparse.specs.Spans.{IsHeaderWithin, header_bytes};
ghost use Rattle.http_frames.specs.Fields.{FitsDropped, first_value, has_field, has_name, differs, some_differs, agrees, some_agrees, body_size, is_encoded, framing_of};

use crate::size::read_size;
use httparse::spans::HeaderSpan;

/// The most header lines of a head.
const LINE_LIMIT: usize = 64;

/// The most bytes of a body that is read to its end.
const DROPPED_LIMIT: u64 = 1_048_576;

/// Whether the end of a message is known.
#[derive(Clone, Copy, Debug)]
pub enum Framing {
    /// It isn't, and this status is the answer.
    Refused(u16),
    /// So many bytes stand behind the head.
    Body(u64),
}

/// Whether the end of the message with these header fields is known.
#[tactic(auto, unfolding(crate::specs::Fields::framing_of))]
pub fn framing_of(head: &[u8], headers: &[HeaderSpan]) -> Framing
    requires { All (IsHeaderWithin (length head.now)) headers.now }
    ensures same { result ≡ framing_of (map (header_bytes head.now) headers.now) }
    ensures fits { FitsDropped result }
{
    if headers.len() > LINE_LIMIT {
        return Framing::Refused(400);
    }
    let Some(size) = body_size(head, headers) else {
        return Framing::Refused(400);
    };
    if is_encoded(head, headers) {
        return Framing::Refused(501);
    }
    if size > DROPPED_LIMIT {
        return Framing::Refused(413);
    }
    Framing::Body(size)
}

/// How long the body is; None where a length is no number or two differ.
fn body_size(head: &[u8], headers: &[HeaderSpan]) -> Option<u64>
    requires { All (IsHeaderWithin (length head.now)) headers.now }
    ensures { result ≡ body_size (map (header_bytes head.now) headers.now) }
{
    let Some(text) = first_value(head, headers, b"content-length") else {
        return Some(0);
    };
    let size = read_size(text)?;
    if some_differs(head, headers, b"content-length", text) {
        None
    } else {
        Some(size)
    }
}

fn is_encoded(head: &[u8], headers: &[HeaderSpan]) -> bool
    requires { All (IsHeaderWithin (length head.now)) headers.now }
    ensures { result ≡ is_encoded (map (header_bytes head.now) headers.now) }
{
    has_field(head, headers, b"transfer-encoding") || has_field(head, headers, b"content-encoding")
}

fn has_field(head: &[u8], headers: &[HeaderSpan], name: &[u8]) -> bool
    requires { All (IsHeaderWithin (length head.now)) headers.now }
    ensures { result ≡ has_field name.now (map (header_bytes head.now) headers.now) }
{
    first_value(head, headers, name).is_some()
}

/// The value of the first field of this name.
pub fn first_value<'a>(head: &'a [u8], headers: &[HeaderSpan], name: &[u8]) -> Option<&'a [u8]>
    requires { All (IsHeaderWithin (length head.now)) headers.now }
    ensures { option_map (λ value. value.now) result ≡ first_value name.now (map (header_bytes head.now) headers.now) }
{
    let mut rest = headers;
    while let Some((header, later)) = rest.split_first() {
        if has_name(head, header, name) {
            return Some(header.value.of(head));
        }
        rest = later;
    }
    None
}

/// Whether some field of this name has a value that differs from this one in a byte.
fn some_differs(head: &[u8], headers: &[HeaderSpan], name: &[u8], value: &[u8]) -> bool
    requires { All (IsHeaderWithin (length head.now)) headers.now }
    ensures { result ≡ some_differs name.now value.now (map (header_bytes head.now) headers.now) }
{
    let mut rest = headers;
    while let Some((header, later)) = rest.split_first() {
        if differs(head, header, name, value) {
            return true;
        }
        rest = later;
    }
    false
}

/// Whether some field of this name has this value, without regard to case.
pub fn some_agrees(head: &[u8], headers: &[HeaderSpan], name: &[u8], value: &[u8]) -> bool
    requires { All (IsHeaderWithin (length head.now)) headers.now }
    ensures { result ≡ some_agrees name.now value.now (map (header_bytes head.now) headers.now) }
{
    let mut rest = headers;
    while let Some((header, later)) = rest.split_first() {
        if agrees(head, header, name, value) {
            return true;
        }
        rest = later;
    }
    false
}

fn has_name(head: &[u8], header: &HeaderSpan, name: &[u8]) -> bool
    requires { IsHeaderWithin (length head.now) header.now }
    ensures { result ≡ has_name name.now (header_bytes head.now header.now) }
{
    is_same_text(name, header.name.of(head))
}

fn differs(head: &[u8], header: &HeaderSpan, name: &[u8], value: &[u8]) -> bool
    requires { IsHeaderWithin (length head.now) header.now }
    ensures { result ≡ differs name.now value.now (header_bytes head.now header.now) }
{
    has_name(head, header, name) && !are_same(value, header.value.of(head))
}

fn agrees(head: &[u8], header: &HeaderSpan, name: &[u8], value: &[u8]) -> bool
    requires { IsHeaderWithin (length head.now) header.now }
    ensures { result ≡ agrees name.now value.now (header_bytes head.now header.now) }
{
    has_name(head, header, name) && is_same_text(value, header.value.of(head))
}

/// Whether two texts are the same without regard to case.
fn is_same_text(left: &[u8], right: &[u8]) -> bool
    ensures { result ≡ str_eq_ignore_ascii_case left.now right.now }
{
    left.eq_ignore_ascii_case(right)
}

fn are_same(left: &[u8], right: &[u8]) -> bool
    ensures { result ≡ bytes_eq left.now right.now }
{
    left == right
}
