//! Tests of the formats: their outside vectors, their faults, and the printed text of each fault.
#![tactic(auto)]

#[cfg(test)]
mod bodies;
#[cfg(test)]
mod fields;
#[cfg(test)]
mod keys;
#[cfg(test)]
mod lint;
#[cfg(test)]
mod names;
#[cfg(test)]
mod requests;
#[cfg(test)]
mod shapes;
#[cfg(test)]
mod times;
#[cfg(test)]
mod trees;
