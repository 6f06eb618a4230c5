//! The settings of a gate, read from a TOML text: who may call, who corroborates, and what the authority signs with.
#![tactic(auto)]

mod addresses;
mod authority;
mod callers;
mod document;
mod fault;
mod issuers;
mod laws;
mod member;
mod panel;
mod part;
mod reading;
mod row;
mod rule;
mod settings;
mod tables;
mod words;

pub use callers::Callers;
pub use fault::SettingsFault;
pub use laws::{each_id_is_short, one_settings, readable_settings_are_short};
pub use row::CallerRow;
pub use settings::{Settings, read_settings};
