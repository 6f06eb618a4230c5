//! The contents of OBJECT IDENTIFIERs, and the algorithms of signatures. The builder has its own constants, on purpose:
//! a mistake in one must not be hidden by the other.
ghost use Rattle.std.specs.Prelude.{◌≡◌};
ghost use Rattle.std.specs.Str.{bytes_eq};
ghost use Rattle.profile_lint.specs.Identifiers as spec;

use gate_base::SigAlg;

pub const COUNTRY_NAME: [u8; 3] = [0x55, 0x04, 0x06];

pub const COMMON_NAME: [u8; 3] = [0x55, 0x04, 0x03];

pub const AUTHORITY_KEY_IDENTIFIER: [u8; 3] = [0x55, 0x1d, 0x23];

pub const KEY_USAGE: [u8; 3] = [0x55, 0x1d, 0x0f];

pub const EXT_KEY_USAGE: [u8; 3] = [0x55, 0x1d, 0x25];

pub const SUBJECT_ALT_NAME: [u8; 3] = [0x55, 0x1d, 0x11];

pub const CERTIFICATE_POLICIES: [u8; 3] = [0x55, 0x1d, 0x20];

pub const CRL_DISTRIBUTION_POINTS: [u8; 3] = [0x55, 0x1d, 0x1f];

pub const AUTHORITY_INFO_ACCESS: [u8; 8] = [0x2b, 0x06, 0x01, 0x05, 0x05, 0x07, 0x01, 0x01];

pub const BASIC_CONSTRAINTS: [u8; 3] = [0x55, 0x1d, 0x13];

pub const NAME_CONSTRAINTS: [u8; 3] = [0x55, 0x1d, 0x1e];

pub const SERVER_AUTH: [u8; 8] = [0x2b, 0x06, 0x01, 0x05, 0x05, 0x07, 0x03, 0x01];

pub const CLIENT_AUTH: [u8; 8] = [0x2b, 0x06, 0x01, 0x05, 0x05, 0x07, 0x03, 0x02];

pub const DOMAIN_VALIDATED: [u8; 6] = [0x67, 0x81, 0x0c, 0x01, 0x02, 0x01];

pub const CA_ISSUERS: [u8; 8] = [0x2b, 0x06, 0x01, 0x05, 0x05, 0x07, 0x30, 0x02];

const RSA_SHA256: [u8; 15] = [
    0x30, 0x0d, 0x06, 0x09, 0x2a, 0x86, 0x48, 0x86, 0xf7, 0x0d, 0x01, 0x01, 0x0b, 0x05, 0x00,
];

const ECDSA_SHA256: [u8; 12] = [
    0x30, 0x0a, 0x06, 0x08, 0x2a, 0x86, 0x48, 0xce, 0x3d, 0x04, 0x03, 0x02,
];

const ECDSA_SHA384: [u8; 12] = [
    0x30, 0x0a, 0x06, 0x08, 0x2a, 0x86, 0x48, 0xce, 0x3d, 0x04, 0x03, 0x03,
];

/// The bytes of a signature's algorithm.
pub fn signature_algorithm(alg: SigAlg) -> &'static [u8]
    ensures { result.now ≡ spec.signature_algorithm alg }
{
    match alg {
        SigAlg::RsaSha256 => &RSA_SHA256,
        SigAlg::EcdsaSha256 => &ECDSA_SHA256,
        SigAlg::EcdsaSha384 => &ECDSA_SHA384,
    }
}

/// Whether two texts of bytes are the same.
pub fn is_same(bytes: &[u8], others: &[u8]) -> bool
    ensures { result ≡ bytes_eq bytes.now others.now }
{
    bytes == others
}
