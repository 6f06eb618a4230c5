//! One gate over one journal: it starts from what the disk holds, and answers one command after another.
#![tactic(auto)]

mod answered;
mod asking;
mod beginning;
mod engine;
mod fault;
mod held;
mod law;
mod renewing;
mod replaying;
mod sending;
mod starting;
mod writing;

pub use answered::Said;
pub use beginning::begin;
pub use engine::Engine;
pub use fault::StartFault;
pub use held::Held;
pub use law::{one_history, what_a_run_keeps};
