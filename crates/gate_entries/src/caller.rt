use gate_base::{Bytes, Role};

/// Who asks.
#[derive(Debug, Drop)]
pub struct Caller {
    /// 1 to 64 bytes.
    pub id: Bytes,
    pub role: Role,
}
