//! Plain values that every layer of the gate speaks of, and the dated tables.
#![tactic(auto)]

mod memory;
mod moment;
mod name;
mod observed;
mod plain;
mod profile;
mod seen;
mod sequence;
mod sixteen;
mod tables;

pub use memory::NoMemory;
pub use moment::Moment;
pub use name::{Address, Name, Target, Targets};
pub use plain::{Plain, are_same};
pub use profile::{KeyKind, Profile, Role, SigAlg};
pub use seen::{
    CaaAnswer, CaaAnswers, CaaRow, CaaRows, CaaSeen, DnsSeen, Hop, Hops, Method, Seen, WebSeen,
};
pub use sequence::{ByteLists, Bytes, Labels, Payloads, Rules, Sequence};
pub use sixteen::{Sixteen, Sixteen4};
pub use tables::{allowed_misses, need_regions, need_remotes, reuse_days, validity_days};
