//! What callers ask, what the journal keeps of it, and what they are answered.
#![tactic(auto)]

mod blocked;
mod caa;
mod caa_answer;
mod caller;
mod challenge;
mod command;
mod entry;
mod fault;
mod field;
mod fits;
mod kind;
mod law;
mod length;
mod list;
mod naming;
mod numbered;
mod observation;
mod order;
mod plain;
mod reading;
mod reasons;
mod reply;
mod room;
mod seen;
mod target;
mod writing;

pub use caller::Caller;
pub use command::Command;
pub use entry::{Entry, What};
pub use fault::{EntryFault, EntryRead};
pub use gate_base::Role;
pub use law::one_spelling;
pub use length::entry_len;
pub use naming::read_name_text;
pub use reading::read_entry;
pub use reply::{Reply, Why, Whys};
pub use room::put_signed;
pub use writing::write_entry;
