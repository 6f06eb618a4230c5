//! The algorithms of signatures, as DER. The lint has its own constants, on purpose: a mistake in one must not be hidden
//! by the other.
ghost use Rattle.std.specs.Prelude.{◌≡◌, ◌≤◌, length};
ghost use Rattle.tbs_build.specs.Certificate as spec;

use gate_base::SigAlg;

const RSA_SHA256: [u8; 15] = [
    0x30, 0x0d, 0x06, 0x09, 0x2a, 0x86, 0x48, 0x86, 0xf7, 0x0d, 0x01, 0x01, 0x0b, 0x05, 0x00,
];

const ECDSA_SHA256: [u8; 12] = [
    0x30, 0x0a, 0x06, 0x08, 0x2a, 0x86, 0x48, 0xce, 0x3d, 0x04, 0x03, 0x02,
];

const ECDSA_SHA384: [u8; 12] = [
    0x30, 0x0a, 0x06, 0x08, 0x2a, 0x86, 0x48, 0xce, 0x3d, 0x04, 0x03, 0x03,
];

/// The algorithm's bytes.
pub fn algorithm_bytes(alg: SigAlg) -> &'static [u8]
    ensures bytes { result.now ≡ spec.algorithm_bytes alg }
    ensures few { length result.now ≤ 15 }
{
    match alg {
        SigAlg::RsaSha256 => &RSA_SHA256,
        SigAlg::EcdsaSha256 => &ECDSA_SHA256,
        SigAlg::EcdsaSha384 => &ECDSA_SHA384,
    }
}
