ghost use Rattle.std.specs.Prelude.{◌≡◌, ◌≤◌, length, Ok, Err, IfOk, IfErr, MatchResult};
ghost use Rattle.der_text.specs.Front.{front};
ghost use Rattle.der_text.specs.Fault.{number_of, long_length, length_at, content_at, front_of, IsFront};

use crate::content::keeps_tag_rule;
use crate::fault::DerKind;

/// The element at the front of some bytes, and the bytes after it.
#[derive(Clone, Copy)]
pub struct Front<'a> {
    pub tag: u8,
    pub content: &'a [u8],
    pub after: &'a [u8],
}

/// The number of at most four bytes, the high byte first.
fn big_endian(bytes: &[u8]) -> usize
    requires { length bytes.now ≤ 4 }
    ensures { result ≡ number_of bytes.now }
{
    let mut number = 0;
    for b in bytes {
        number = 256 * number + *b as usize;
    }
    number
}

#[tactic(auto, unfolding(crate::specs::Fault::long_length))]
fn read_long_length(count: usize, bytes: &[u8]) -> Result<(usize, &[u8]), DerKind>
    requires { count ≤ 4 }
    ensures { MatchResult result
        (λ x. long_length count bytes.now ≡ Ok (x.0, x.1.now))
        (λ kind. long_length count bytes.now ≡ Err kind) }
{
    if bytes.len() < count {
        return Err(DerKind::Short);
    }
    let (front, rest) = bytes.split_at(count);
    let size = big_endian(front);
    if size < 128 || front.first() == Some(&0) {
        return Err(DerKind::NotShortest);
    }
    Ok((size, rest))
}

#[tactic(auto, unfolding(crate::specs::Fault::length_at))]
fn read_length(bytes: &[u8]) -> Result<(usize, &[u8]), DerKind>
    ensures { MatchResult result
        (λ x. length_at bytes.now ≡ Ok (x.0, x.1.now))
        (λ kind. length_at bytes.now ≡ Err kind) }
{
    match bytes {
        [] => Err(DerKind::Short),
        [first, rest @ ..] => match *first {
            0..128 => Ok((*first as usize, rest)),
            129..=132 => read_long_length(*first as usize - 128, rest),
            _ => Err(DerKind::LongForm),
        },
    }
}

#[tactic(auto, unfolding(crate::specs::Fault::content_at))]
fn read_content(levels: u32, tag: u8, size: usize, bytes: &[u8]) -> Result<Front<'_>, DerKind>
    ensures { MatchResult result
        (λ f. content_at levels tag size bytes.now ≡ Ok (front f))
        (λ kind. content_at levels tag size bytes.now ≡ Err kind) }
{
    if bytes.len() < size {
        return Err(DerKind::Short);
    }
    if levels == 0 {
        return Err(DerKind::TooDeep);
    }
    let (content, after) = bytes.split_at(size);
    if !keeps_tag_rule(tag, content) {
        return Err(DerKind::BadContent);
    }
    Ok(Front {
        tag,
        content,
        after,
    })
}

#[tactic(auto, unfolding(crate::specs::Fault::front_of))]
fn test_front(levels: u32, bytes: &[u8]) -> Result<Front<'_>, DerKind>
    ensures { MatchResult result
        (λ f. front_of levels bytes.now ≡ Ok (front f))
        (λ kind. front_of levels bytes.now ≡ Err kind) }
{
    match bytes {
        [] => Err(DerKind::Short),
        [tag, rest @ ..] => {
            if *tag % 32 == 31 {
                return Err(DerKind::LongForm);
            }
            let (size, rest) = read_length(rest)?;
            read_content(levels, *tag, size, rest)
        }
    }
}

/// The element at the front, where so many levels are left, or its first broken test.
pub fn read_front(levels: u32, bytes: &[u8]) -> Result<Front<'_>, DerKind>
    ensures found { IfOk result (λ f. front_of levels bytes.now ≡ Ok (front f)) }
    ensures fault { IfErr result (λ kind. front_of levels bytes.now ≡ Err kind) }
    ensures spelled { IfOk result (λ f. IsFront levels bytes.now (front f)) }
{
    let found = test_front(levels, bytes)?;
    Ok(found)
}
