//! Fields that requests, bodies, the lint and the settings read alike: a GeneralName, an issuer's name, an `http://`
//! address, and the profile that is made of these.
#![tactic(auto)]

mod address;
mod general_name;
mod issuer_name;
mod profile;

pub use address::{are_visible, is_address, is_visible};
pub use general_name::target_of_general_name;
pub use issuer_name::is_issuer_name;
pub use profile::is_sound_profile;
