//! Tests of an engine over a plant in memory: tables of commands, disks as a stop leaves them, and settings that come into force.
#![tactic(auto)]

#[cfg(test)]
mod blocked;
#[cfg(test)]
mod commands;
#[cfg(test)]
mod fields;
#[cfg(test)]
mod finalized;
#[cfg(test)]
mod full;
#[cfg(test)]
mod held;
#[cfg(test)]
mod listed;
#[cfg(test)]
mod requests;
#[cfg(test)]
mod settings;
#[cfg(test)]
mod stops;
