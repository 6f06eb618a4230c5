use gate_base::{Bytes, Method, Moment, Sixteen, Target};

/// What an account is asked to show, to prove control of a target.
#[derive(Clone, Debug, PartialEq, Eq, Drop)]
pub struct Challenge {
    pub number: u64,
    pub order: u64,
    pub target: Target,
    pub method: Method,
    /// The random value.
    pub value: Sixteen,
    /// When the value was made.
    pub made: Moment,
    /// The thumbprint of the account's key (RFC 7638), or nothing.
    pub thumb: Bytes,
}
