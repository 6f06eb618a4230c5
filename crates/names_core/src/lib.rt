//! Names and addresses as text, the suffixes under which names are registered, and the addresses that are reserved.
#![tactic(auto)]

mod address;
mod cutting;
mod fault;
mod index;
mod label;
mod laws;
mod listing;
mod reading;
mod reserved;
mod rule;
mod suffix;
mod target;

pub use fault::{NameFault, NameRead};
pub use laws::names_are_read_again;
pub use reading::read_name;
pub use reserved::is_reserved;
pub use rule::{Rule, RuleKind, SuffixFault};
pub use suffix::Suffixes;
pub use target::{read_target, target_text};
