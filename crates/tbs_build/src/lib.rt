//! What the authority signs, and the certificate that its signature makes of it.
#![tactic(auto)]

mod algorithm;
mod body;
mod element;
mod extension;
mod laws;
mod names;
mod plan;
mod signing;
mod small;

pub use body::build;
pub use laws::{a_body_is_read, a_body_of_few_targets_is_short};
pub use names::is_short;
pub use plan::Plan;
pub use signing::{certificate, certificate_len};
pub use small::small_body;
