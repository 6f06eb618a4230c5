//! Tests of the outside, of the journal on it, and of messages over HTTP.
#![tactic(auto)]

#[cfg(test)]
mod journals;
#[cfg(test)]
mod messages;
#[cfg(test)]
mod plants;
