/// Whether the remote perspectives corroborate.
#[derive(Clone, Copy, Debug, PartialEq, Eq)]
pub enum Quorum {
    Met,
    /// Fewer remotes are good than are needed.
    TooFew { good: u64, needed: u64 },
    /// The good remotes lie in too few regions.
    OneRegion,
}
