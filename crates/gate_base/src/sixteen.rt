/// Sixteen bytes: a serial number, a random value, an IPv6 address.
#[derive(Clone, Copy, Debug, PartialEq, Eq, PartialOrd, Ord, Hash)]
pub struct Sixteen(pub [u8; 16]);

/// The twenty bytes of a key identifier.
#[derive(Clone, Copy, Debug, PartialEq, Eq, PartialOrd, Ord, Hash)]
pub struct Sixteen4(pub [u8; 20]);
