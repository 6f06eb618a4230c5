//! The profile of an authority.
ghost use Rattle.std.specs.Prelude.{◌≡◌, ◌↔◌, length, IsTrue, IfOk};
ghost use Rattle.cert_fields.specs.Profile.{IsSoundProfile, is_address};

use crate::address::is_address;
use crate::issuer_name::is_issuer_name;
use gate_base::{NoMemory, Profile};
use std::alloc::Global;

/// A key identifier has this many bytes.
const KEY_ID_LEN: usize = 20;

fn has_its_length(key_id: &[u8]) -> bool
    ensures { IsTrue result ↔ (length key_id.now ≡ 20) }
{
    key_id.len() == KEY_ID_LEN
}

fn has_good_addresses(profile: &Profile) -> bool
    ensures { IsTrue result ↔ (IsTrue (is_address profile.now.crl) × IsTrue (is_address profile.now.aia)) }
{
    is_address(profile.crl.as_slice()) && is_address(profile.aia.as_slice())
}

/// Whether certificates can be made by the profile: its issuer is a Name, its key identifier has 20 bytes, and its two
/// addresses are such as a certificate may name.
pub fn is_sound_profile(alloc: Global, profile: &Profile) -> Result<bool, NoMemory>
    ensures { IfOk result (λ sound. IsTrue sound ↔ IsSoundProfile profile.now) }
{
    let named = is_issuer_name(alloc, profile.issuer.as_slice())?;
    Ok(named && has_its_length(&profile.key_id.0) && has_good_addresses(profile))
}
