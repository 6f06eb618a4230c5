//! What the body of a sound plan says, and which rules of the profile it can break.
#![tactic(auto)]

mod laws;

pub use laws::{a_sound_body_says_its_plan, the_lint_of_a_sound_body, the_lint_of_good_targets};

#[cfg(test)]
mod tests;
