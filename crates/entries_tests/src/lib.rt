//! Tests of entries: how they are spelled and read, which commands fit, and what is made of fields.
#![tactic(auto)]

#[cfg(test)]
mod entries;
