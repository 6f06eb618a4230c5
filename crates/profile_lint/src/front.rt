//! Version, serial number, algorithm and issuer.
ghost use Rattle.std.specs.Prelude.{◌≡◌, option_map};
ghost use Rattle.profile_lint.specs.Rules as spec;

use crate::identifiers::{is_same, signature_algorithm};
use gate_base::Profile;
use public_key::is_positive;

/// A serial number has at most so many octets.
const LONGEST_SERIAL: usize = 20;

pub fn version_is_bad(version: Option<&[u8]>) -> bool
    ensures { result ≡ spec.version_is_bad (option_map (λ v. v.now) version.entry) }
{
    match version {
        None => true,
        Some(content) => !is_same(content, &[2]),
    }
}

pub fn serial_is_bad(content: &[u8]) -> bool
    ensures { result ≡ spec.serial_is_bad content.now }
{
    !(is_positive(content) && content.len() <= LONGEST_SERIAL)
}

pub fn algorithm_is_bad(algorithm: &[u8], profile: &Profile) -> bool
    ensures { result ≡ spec.algorithm_is_bad algorithm.now profile.now }
{
    !is_same(algorithm, signature_algorithm(profile.alg))
}

pub fn issuer_is_bad(issuer: &[u8], profile: &Profile) -> bool
    ensures { result ≡ spec.issuer_is_bad issuer.now profile.now }
{
    !is_same(issuer, profile.issuer.as_slice())
}
