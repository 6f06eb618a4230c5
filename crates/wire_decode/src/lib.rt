//! Messages as commands of callers, and the bytes of replies.
#![tactic(auto)]

mod answers;
mod decoding;
mod fault;
mod item;
mod judged;
mod member;
mod observations;
mod orders;
mod reading;
mod reasons;
mod refusing;
mod replying;
mod response;
mod route;
mod routing;
mod rule;
mod texts;
mod words;

pub use decoding::{Decoded, decode};
pub use fault::WireFault;
pub use refusing::fault_bytes;
pub use replying::reply_bytes;
