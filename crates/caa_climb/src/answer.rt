/// Whether CAA records permit issuance.
#[derive(Clone, Copy, Debug, PartialEq, Eq)]
pub enum Permission {
    Allowed,
    Denied,
    /// This row, counted from 0, is critical and isn't understood.
    Critical { row: u64 },
}
