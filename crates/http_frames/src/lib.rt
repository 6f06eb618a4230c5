//! Messages over HTTP, cut from the bytes of a source.
#![tactic(auto)]

mod fields;
mod front;
mod head;
mod law;
mod message;
mod size;
mod wire;

pub use front::Front;
pub use law::{one_front, one_passing};
pub use message::Message;
pub use wire::{Got, Wire};
