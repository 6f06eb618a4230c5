use gate_base::{Bytes, Role};

/// Who calls with a token, and what it may ask for.
#[derive(Clone, Debug, PartialEq, Eq, Drop)]
pub struct CallerRow {
    pub token: Bytes,
    pub id: Bytes,
    pub role: Role,
    /// The thumbprint of an account's key (RFC 8555, section 8.1); empty where none is set.
    pub thumb: Bytes,
}
