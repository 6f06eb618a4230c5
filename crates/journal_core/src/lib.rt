//! The journal's file: a head, and then groups, each behind a gate that is opened once the group is durable.
#![tactic(auto)]

mod beginning;
mod fault;
mod group;
mod head;
mod journal;
mod law;
mod mounting;
mod reading;
mod writing;

pub use beginning::begin;
pub use fault::{AppendDisk, BeginFault, MountFault};
pub use group::{MAX_PAYLOAD, group_total};
pub use head::FIRST_GATE;
pub use journal::Journal;
pub use law::{no_journal_is_refused, one_break, one_group_more, one_reading};
