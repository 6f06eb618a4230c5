//! Tests of evidence, and of what it is judged by: validation methods, panels, CAA records and settings.
#![tactic(auto)]

#[cfg(test)]
mod caa;
#[cfg(test)]
mod methods;
#[cfg(test)]
mod panels;
#[cfg(test)]
mod settings;
