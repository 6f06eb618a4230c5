use gate_base::Bytes;

/// A message, with its body whole.
#[derive(Debug, Drop)]
pub struct Message {
    pub method: Bytes,
    /// The request target as it was written.
    pub path: Bytes,
    /// What the first `x-gate-key` line says.
    pub token: Option<Bytes>,
    pub body: Bytes,
    /// Whether the sender closes behind it.
    pub last: bool,
}
