//! Who may ask, which keys are certified, and with what the authority signs.

use crate::sequence::Bytes;
use crate::sixteen::Sixteen4;

/// What a caller may ask for.
#[derive(Clone, Copy, Debug, PartialEq, Eq, PartialOrd, Ord, Hash)]
pub enum Role {
    Account,
    Perspective,
    Operator,
}

/// The kinds of key that are certified.
#[derive(Clone, Copy, Debug, PartialEq, Eq, PartialOrd, Ord, Hash)]
pub enum KeyKind {
    Rsa,
    P256,
    P384,
    P521,
}

/// The algorithm of the authority's signature.
#[derive(Clone, Copy, Debug, PartialEq, Eq, PartialOrd, Ord, Hash)]
pub enum SigAlg {
    RsaSha256,
    EcdsaSha256,
    EcdsaSha384,
}

/// What every certificate of the authority has in common.
#[derive(Clone, Debug, PartialEq, Eq, Drop)]
pub struct Profile {
    /// The issuer's name, as DER.
    pub issuer: Bytes,
    pub alg: SigAlg,
    pub key_id: Sixteen4,
    /// The address of the revocation list.
    pub crl: Bytes,
    /// The address of the issuer's certificate.
    pub aia: Bytes,
}
