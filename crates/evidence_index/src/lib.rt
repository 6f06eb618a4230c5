//! What proves an account's control of a target, and what CAA permits, over the list of the journal's entries.
#![tactic(auto)]

mod evidence;
mod index;
mod laws;
mod lookups;
mod noting;
mod permitting;
mod proving;

pub use index::Index;
pub use laws::some_settings_are_in_force;
pub use lookups::{settings_bytes, settings_now};
