//! CAA records: which are relevant for a name, what they permit, and how long they may be used (RFC 8659).
#![tactic(auto)]

mod answer;
mod climbing;
mod issue_value;
mod permitting;
mod pieces;
mod relevant;

pub use answer::Permission;
pub use climbing::{climb, fresh_until};
pub use issue_value::{IssueValue, is_issuer_domain_name, one_reading, read_issue_value};
pub use permitting::permission;
pub use relevant::Climb;
