//! What a perspective saw.

use crate::sequence::{ByteLists, Bytes, Sequence};

/// How control of a target is shown.
#[derive(Clone, Copy, Debug, PartialEq, Eq, PartialOrd, Ord, Hash)]
pub enum Method {
    DnsChange,
    WebChange,
    AcmeHttp,
}

#[derive(Clone, Debug, PartialEq, Eq, Drop)]
pub enum Seen {
    Dns(DnsSeen),
    Web(WebSeen),
}

#[derive(Clone, Debug, PartialEq, Eq, Drop)]
pub struct DnsSeen {
    /// Empty, or the label that stood before the challenge's name.
    pub prefix: Bytes,
    pub txts: ByteLists,
    pub cnames: ByteLists,
}

#[derive(Clone, Debug, PartialEq, Eq, Drop)]
pub struct WebSeen {
    /// The first address that was fetched.
    pub url: Bytes,
    pub hops: Hops,
    /// The final status.
    pub status: u16,
    pub body: Bytes,
}

/// A redirect.
#[derive(Clone, Debug, PartialEq, Eq, Drop)]
pub struct Hop {
    pub status: u16,
    /// An absolute address.
    pub location: Bytes,
}

pub type Hops = Sequence<Hop>;

/// The answers to the questions for CAA records; answer k, counted from 0, is that for the wanted name without its first k labels.
#[derive(Clone, Debug, PartialEq, Eq, Drop)]
pub struct CaaSeen {
    pub answers: CaaAnswers,
}

#[derive(Clone, Debug, PartialEq, Eq, Drop)]
pub enum CaaAnswer {
    /// The question was not answered.
    Failed,
    /// The records that were found; none: an empty answer.
    Set { ttl: u32, rows: CaaRows },
}

/// A CAA record (RFC 8659, section 4.1).
#[derive(Clone, Debug, PartialEq, Eq, Drop)]
pub struct CaaRow {
    pub flags: u8,
    pub tag: Bytes,
    pub value: Bytes,
}

pub type CaaAnswers = Sequence<CaaAnswer>;

pub type CaaRows = Sequence<CaaRow>;
