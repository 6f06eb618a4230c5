//! What a file says, member by member.

use gate_base::{ByteLists, Bytes, Role, Sequence};
use perspectives::Region;

/// A settings file.
#[derive(Debug, Drop)]
pub struct Document {
    pub issuers: ByteLists,
    pub ca: CaTable,
    /// The text of the public suffix rules.
    pub rules: Bytes,
    pub callers: Sequence<CallerTable>,
    pub perspectives: Sequence<PerspectiveTable>,
}

/// The authority, in the words of the file.
#[derive(Debug, Drop)]
pub struct CaTable {
    pub issuer: Bytes,
    pub algorithm: Bytes,
    pub key_id: Bytes,
    pub crl: Bytes,
    pub aia: Bytes,
}

/// A caller. An unknown word names no role.
#[derive(Debug, Drop)]
pub struct CallerTable {
    pub id: Bytes,
    pub role: Option<Role>,
    pub token: Bytes,
    pub thumb: Option<Bytes>,
}

/// A network perspective. An unknown word names no region.
#[derive(Debug, Drop)]
pub struct PerspectiveTable {
    pub id: Bytes,
    pub primary: bool,
    pub region: Option<Region>,
    pub x: i64,
    pub y: i64,
    pub z: i64,
}
