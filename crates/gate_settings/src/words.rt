//! Words that a file may use.
ghost use Rattle.std.specs.Prelude.{◌≡◌};
ghost use Rattle.std.specs.Str.{bytes_eq};
ghost use Rattle.gate_settings.specs.Words as spec;

use gate_base::{Role, SigAlg};
use perspectives::Region;

fn is_word(text: &[u8], word: &str) -> bool
    ensures { result ≡ bytes_eq text.now word.now }
{
    text == word.as_bytes()
}

/// The role of this name.
pub fn role_of(text: &[u8]) -> Option<Role>
    ensures { result ≡ spec.role_of text.now }
{
    if is_word(text, "account") {
        Some(Role::Account)
    } else if is_word(text, "perspective") {
        Some(Role::Perspective)
    } else if is_word(text, "operator") {
        Some(Role::Operator)
    } else {
        None
    }
}

/// The region of this name.
pub fn region_of(text: &[u8]) -> Option<Region>
    ensures { result ≡ spec.region_of text.now }
{
    if is_word(text, "afrinic") {
        Some(Region::Afrinic)
    } else if is_word(text, "apnic") {
        Some(Region::Apnic)
    } else if is_word(text, "arin") {
        Some(Region::Arin)
    } else if is_word(text, "lacnic") {
        Some(Region::Lacnic)
    } else if is_word(text, "ripe") {
        Some(Region::Ripe)
    } else {
        None
    }
}

/// The algorithm of this name.
pub fn algorithm_of(text: &[u8]) -> Option<SigAlg>
    ensures { result ≡ spec.algorithm_of text.now }
{
    if is_word(text, "rsa-sha256") {
        Some(SigAlg::RsaSha256)
    } else if is_word(text, "ecdsa-sha256") {
        Some(SigAlg::EcdsaSha256)
    } else if is_word(text, "ecdsa-sha384") {
        Some(SigAlg::EcdsaSha384)
    } else {
        None
    }
}
