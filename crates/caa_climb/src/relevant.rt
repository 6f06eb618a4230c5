use gate_base::CaaRows;

/// The relevant records for a name.
#[derive(Clone, Copy, Debug)]
pub enum Climb<'a> {
    /// They are those of the name without so many of its first labels.
    Found {
        drop: u64,
        ttl: u32,
        rows: &'a CaaRows,
    },
    /// There are none, which permits.
    Empty,
    /// The question for the name without so many of its first labels was not answered.
    Unknown {
        drop: u64,
    },
}
