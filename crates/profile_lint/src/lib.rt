//! Which rules of the profile any bytes break, as the body of a certificate.
#![tactic(auto)]

mod access;
mod contents;
mod extension;
mod front;
mod identifiers;
mod key;
mod laws;
mod lint;
mod names;
mod subject;
mod twice;
mod usage;
mod validity;

pub use laws::{a_list_tells_each_rule, one_reading};
pub use lint::lint_body;
