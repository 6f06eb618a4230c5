//! The profile of the example.
ghost use Rattle.std.specs.Prelude.{◌≡◌, IfOk};
ghost use Rattle.cert_fields.specs.Profile.{IsIssuerName, IsSoundProfile};

use gate_base::{Bytes, NoMemory, Profile, SigAlg, Sixteen4};
use std::alloc::Global;

/// The name with the commonName `Gate CA` alone.
const ISSUER: &[u8] = b"0\x121\x100\x0e\x06\x03U\x04\x03\x0c\x07Gate CA";

#[tactic(auto, using(crate::proofs::GateCa::gate_ca_is_issuer))]
fn issuer(alloc: Global) -> Result<Bytes, NoMemory>
    ensures { IfOk result (λ issuer. IsIssuerName issuer) }
{
    Bytes::from_slice(alloc, ISSUER)
}

/// The example's profile.
pub fn example_profile(alloc: Global) -> Result<Profile, NoMemory>
    ensures sound { IfOk result (λ profile. IsSoundProfile profile) }
{
    Ok(Profile {
        issuer: issuer(alloc)?,
        alg: SigAlg::EcdsaSha256,
        key_id: Sixteen4([0x22; 20]),
        crl: Bytes::from_slice(alloc, b"http://c.example/1.crl")?,
        aia: Bytes::from_slice(alloc, b"http://c.example/1.cer")?,
    })
}
