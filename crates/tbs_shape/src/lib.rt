//! What any bytes say as the body of a certificate.
#![tactic(auto)]

mod body;
mod fault;
mod laws;
mod layout;
mod list;
mod parts;
mod reading;
mod value;

pub use body::Body;
pub use fault::BodyFault;
pub use laws::one_body;
pub use reading::read_body;
pub use value::{Attribute, Extension, Primitive};
