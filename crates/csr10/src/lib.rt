//! Certificate requests (PKCS #10), read exactly.
#![tactic(auto)]

mod extension;
mod fault;
mod fields;
mod laws;
mod name;
mod reading;
mod shape;

pub use fault::CsrFault;
pub use fields::CsrFields;
pub use gate_base::KeyKind;
pub use laws::{forms_are_read, one_reading};
pub use reading::read_request;
