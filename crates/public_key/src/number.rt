//! Numbers, by the content of an INTEGER (X.690, section 8.3).
ghost use Rattle.std.specs.Prelude.{◌≡◌, ◌*◌};
ghost use Rattle.der_text.specs.Content as content_spec;
ghost use Rattle.public_key.specs.Key as spec;

/// An RSA modulus has at least this many bytes.
const SHORTEST_MODULUS: usize = 256;

/// An RSA exponent has at most this many bytes.
const LONGEST_EXPONENT: usize = 32;

fn begins_from_128(content: &[u8]) -> bool
    ensures { result ≡ spec.begins_from_128 content.now }
{
    match content {
        [] => false,
        [first, ..] => *first >= 128,
    }
}

/// The bytes of a number, without a 00 in front.
pub fn magnitude(content: &[u8]) -> &[u8]
    ensures { result.now ≡ spec.magnitude content.now }
{
    match content {
        [] => content,
        [first, rest @ ..] => { if *first == 0 { rest } else { content } }
    }
}

/// Whether the content of an INTEGER is a number above 0.
pub fn is_positive(content: &[u8]) -> bool
    ensures { result ≡ spec.is_positive content.now }
{
    !begins_from_128(content) && magnitude(content).len() > 0
}

/// Whether the number may be the modulus of an RSA key (BR, section 6.1.5).
pub fn is_modulus(content: &[u8]) -> bool
    ensures { result ≡ spec.is_modulus content.now }
{
    let bytes = magnitude(content);
    is_positive(content) && begins_from_128(bytes) && bytes.len() >= SHORTEST_MODULUS
}

fn last_of(first: u8, rest: &[u8]) -> u8
    ensures { result ≡ content_spec.last_of first rest.now }
{
    let mut last = first;
    for byte in rest {
        last = *byte;
    }
    last
}

fn is_odd(content: &[u8]) -> bool
    ensures { result ≡ spec.is_odd content.now }
{
    match content {
        [] => false,
        [first, rest @ ..] => last_of(*first, rest) % 2 == 1,
    }
}

fn is_one(content: &[u8]) -> bool
    ensures { result ≡ spec.is_one content.now }
{
    match content {
        [] => false,
        [first] => *first == 1,
        [_, _, ..] => false,
    }
}

/// Whether the number may be the exponent of an RSA key (BR, section 6.1.6).
pub fn is_exponent(content: &[u8]) -> bool
    ensures { result ≡ spec.is_exponent content.now }
{
    is_positive(content)
        && is_odd(content)
        && !is_one(content)
        && magnitude(content).len() <= LONGEST_EXPONENT
}
