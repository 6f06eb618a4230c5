/// What a method and a path name; a later command is one route more.
#[derive(Clone, Copy, Debug, PartialEq, Eq)]
pub enum Route {
    Orders,
    /// The order's number.
    Challenges { order: u64 },
    /// The order's number.
    Finalize { order: u64 },
    Observations,
    Caa,
    Blocks,
}
