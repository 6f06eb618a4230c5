/// Whether what was seen confirms a challenge.
#[derive(Clone, Copy, Debug, PartialEq, Eq)]
pub enum Verdict {
    Good,
    /// The first rule that is broken, by its number.
    Broken(u8),
}
