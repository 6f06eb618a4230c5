//! Which public keys are certified: RSA keys and points of three curves, by the bytes of a SubjectPublicKeyInfo.
#![tactic(auto)]

mod bits;
mod key;
mod laws;
mod number;

pub use bits::{is_point, numbers_of};
pub use key::{behind_zero, kind_named, read_key_kind};
pub use laws::one_kind;
pub use number::{is_exponent, is_modulus, is_positive, magnitude};
