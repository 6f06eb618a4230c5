//! What a certificate is for: names and addresses.

use crate::sequence::{Labels, Sequence};

/// A domain name: its labels in lower case, the leftmost first, without the `*.` of a wildcard.
#[derive(Clone, Debug, PartialEq, Eq, PartialOrd, Ord, Hash, Drop)]
pub struct Name {
    pub labels: Labels,
    pub wild: bool,
}

#[derive(Clone, Copy, Debug, PartialEq, Eq, PartialOrd, Ord, Hash)]
pub enum Address {
    V4([u8; 4]),
    V6([u8; 16]),
}

#[derive(Clone, Debug, PartialEq, Eq, PartialOrd, Ord, Hash, Drop)]
pub enum Target {
    Dns(Name),
    Ip(Address),
}

pub type Targets = Sequence<Target>;
