//! The bytes that come in and go out: messages are read from a source, and replies are written.
#![tactic(auto)]

mod cutting;
mod finalizing;
mod law;
mod message;
mod naming;
mod replying;
mod streaming;

pub use law::{one_message, one_passing};
pub use message::{Found, find_message};
pub use replying::reply_text;
pub use streaming::{Stream, Taken};

#[cfg(test)]
mod tests;
