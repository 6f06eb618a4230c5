use gate_base::{KeyKind, Moment, Profile, Sixteen, Targets};

/// What a certificate is to say.
#[derive(Clone, Copy, Debug)]
pub struct Plan<'a> {
    pub serial: &'a Sixteen,
    /// The first second at which the certificate is valid.
    pub not_before: Moment,
    /// The last second at which it is valid.
    pub not_after: Moment,
    /// The key, as a SubjectPublicKeyInfo.
    pub spki: &'a [u8],
    /// The key's kind.
    pub kind: KeyKind,
    pub targets: &'a Targets,
    /// Whether the first target is the subject's commonName; else the subject is empty.
    pub common: bool,
    pub profile: &'a Profile,
}
