ghost use Rattle.std.specs.Prelude.{◌<◌, length, option_map, IfSome};
ghost use Rattle.der_text.specs.Part.{IsSplit, IsAt, IsPart, IsNamedPart};

use crate::content::has_constructed_bit;
use crate::front::read_front;
use crate::reading::LEVELS;

/// The element at the front, and the bytes after it.
fn split_element(bytes: &[u8]) -> Option<(&[u8], &[u8])>
    ensures split { IsSplit bytes.now (option_map (λ x. (x.0.now, x.1.now)) result) }
    ensures shorter { IfSome result (λ x. length x.1.now < length bytes.now) }
{
    match read_front(LEVELS, bytes) {
        Ok(front) => Some(bytes.split_at(bytes.len() - front.after.len())),
        Err(_) => None,
    }
}

/// The element at a place among those that the bytes spell.
fn element_at(bytes: &[u8], i: u64) -> Option<&[u8]>
    ensures { IsAt bytes.now i (option_map (λ s. s.now) result) }
{
    let mut rest = bytes;
    let mut left = i;
    loop {
        let (first, after) = split_element(rest)?;
        if left == 0 {
            return Some(first);
        }
        left -= 1;
        rest = after;
    }
}

/// The part at a place of the element that the bytes spell.
fn part_of_element(bytes: &[u8], i: u64) -> Option<&[u8]>
    ensures { IsPart bytes.now i (option_map (λ s. s.now) result) }
{
    match read_front(LEVELS, bytes) {
        Ok(front) if has_constructed_bit(front.tag) => element_at(front.content, i),
        _ => None,
    }
}

/// The part that a path leads to, as it stands in the bytes; each number names a part from 0.
pub fn part_at<'a>(bytes: &'a [u8], path: &[u64]) -> Option<&'a [u8]>
    ensures { IsNamedPart bytes.now path.now (option_map (λ s. s.now) result) }
{
    let mut part = bytes;
    for i in path {
        part = part_of_element(part, *i)?;
    }
    Some(part)
}
