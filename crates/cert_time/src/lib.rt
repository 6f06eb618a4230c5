//! Times as certificates have them, written and read exactly.
#![tactic(auto)]

mod civil;
mod laws;
mod reading;
mod time;
mod writing;

pub use laws::times_are_read_again;
pub use reading::read_time;
pub use time::Time;
pub use writing::time_of;
