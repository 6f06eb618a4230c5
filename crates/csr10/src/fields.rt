//! What a request asks for.

use gate_base::{KeyKind, Targets};

/// The fields of a request, over its bytes.
#[derive(Debug, Drop)]
pub struct CsrFields<'a> {
    /// The key as it stands in the request.
    pub spki: &'a [u8],
    pub kind: KeyKind,
    /// The names of its subjectAltName, where it has one.
    pub san: Option<Targets>,
}
