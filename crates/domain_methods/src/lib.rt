//! Validation methods: the text of a random value, what confirms a challenge, and which targets that covers.
#![tactic(auto)]

mod address;
mod challenge;
mod confirming;
mod covering;
mod records;
mod value;
mod verdict;
mod website;

pub use challenge::Challenge;
pub use confirming::confirms;
pub use covering::covers;
pub use value::value_text;
pub use verdict::Verdict;
