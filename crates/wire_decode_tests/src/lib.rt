//! Tests of messages, from bytes to commands, and of the bytes of replies.
#![tactic(auto)]

#[cfg(test)]
mod tests;
