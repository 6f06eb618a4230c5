//! The panel of network perspectives, and when remote perspectives corroborate (Baseline Requirements, section 3.2.2.9).
#![tactic(auto)]

mod answer;
mod corroboration;
mod fault;
mod panel;
mod perspective;
mod rules;

pub use answer::Quorum;
pub use corroboration::quorum;
pub use fault::PanelFault;
pub use panel::Panel;
pub use perspective::{Perspective, Region};
