//! The key: whether its kind and its numbers may be certified.
ghost use Rattle.std.specs.Prelude.{◌≡◌, ◌<◌, IfSome, option_map};
ghost use Rattle.der_text.specs.View.{node};
ghost use Rattle.profile_lint.specs.Rules as spec;

use der_text::Tree;
use gate_base::KeyKind;
use public_key::{behind_zero, is_exponent, is_modulus, is_point, is_positive, numbers_of};

pub fn is_rsa(kind: Option<KeyKind>) -> bool
    ensures { result ≡ spec.is_rsa kind }
{
    match kind {
        Some(KeyKind::Rsa) => true,
        Some(KeyKind::P256) => false,
        Some(KeyKind::P384) => false,
        Some(KeyKind::P521) => false,
        None => false,
    }
}

pub fn key_algorithm_is_bad(kind: Option<KeyKind>) -> bool
    ensures { result ≡ spec.key_algorithm_is_bad kind }
{
    kind.is_none()
}

/// The modulus and the exponent of an RSA key.
fn rsa_numbers<'a>(key: Option<&Tree<'a>>) -> Option<(&'a [u8], &'a [u8])>
    ensures { option_map (λ x. (x.0.now, x.1.now)) result ≡ spec.rsa_numbers (option_map (λ k. node k.now) key.entry) }
{
    let tree = key?;
    numbers_of(tree)
}

fn modulus_is_good(key: Option<&Tree<'_>>) -> bool
    ensures { result ≡ spec.modulus_is_good (spec.rsa_numbers (option_map (λ k. node k.now) key.entry)) }
{
    match rsa_numbers(key) {
        None => false,
        Some((modulus, exponent)) => is_modulus(modulus) && is_positive(exponent),
    }
}

pub fn modulus_is_bad(kind: Option<KeyKind>, key: Option<&Tree<'_>>) -> bool
    ensures { result ≡ spec.modulus_is_bad kind (option_map (λ k. node k.now) key.entry) }
{
    is_rsa(kind) && !modulus_is_good(key)
}

fn exponent_is_good(key: Option<&Tree<'_>>) -> bool
    ensures { result ≡ spec.exponent_is_good (spec.rsa_numbers (option_map (λ k. node k.now) key.entry)) }
{
    match rsa_numbers(key) {
        None => true,
        Some((_, exponent)) => is_exponent(exponent),
    }
}

pub fn exponent_is_bad(kind: Option<KeyKind>, key: Option<&Tree<'_>>) -> bool
    ensures { result ≡ spec.exponent_is_bad kind (option_map (λ k. node k.now) key.entry) }
{
    is_rsa(kind) && !exponent_is_good(key)
}

/// How many bytes a coordinate on the kind's curve has.
fn coordinate_len(kind: Option<KeyKind>) -> Option<usize>
    ensures len { result ≡ spec.coordinate_len kind }
    ensures small { IfSome result (λ len. len < 128) }
{
    match kind {
        Some(KeyKind::P256) => Some(32),
        Some(KeyKind::P384) => Some(48),
        Some(KeyKind::P521) => Some(66),
        Some(KeyKind::Rsa) => None,
        None => None,
    }
}

fn is_point_of(len: usize, point: Option<&[u8]>) -> bool
    requires { len < 128 }
    ensures { result ≡ spec.is_point_of len (option_map (λ p. p.now) point.entry) }
{
    match point {
        None => false,
        Some(point) => is_point(len, point),
    }
}

pub fn point_is_bad(kind: Option<KeyKind>, bits: &[u8]) -> bool
    ensures { result ≡ spec.point_is_bad kind bits.now }
{
    match coordinate_len(kind) {
        None => false,
        Some(len) => !is_point_of(len, behind_zero(bits)),
    }
}
