//! The commands, each with the rules on its fields, its answer, its row in a legal history and its reply; and the row of settings,
//! which no command asks for.
pub mod block;
pub mod finalize;
pub mod observe;
pub mod observe_caa;
pub mod order;
pub mod settings;
