//! What every gate is held to: which histories are legal, how a command is answered over one, what one message moves, and what steps keep.
//! Beside the definitions stand the plain functions that compute them over a whole list.
#![tactic(auto)]

mod answer;
mod commands;
mod draft;
mod ending;
mod following;
mod law;
mod names;
mod place;
mod renewing;
mod request;
mod rules;
mod sending;
mod sight;

pub use answer::{Answer, answer_command, written_reply};
pub use commands::block::broken_by_block;
pub use commands::order::broken_by_order;
pub use commands::settings::are_in_force;
pub use following::follows;
pub use law::{
    a_body_has_a_serial_number, a_serial_number_has_one_order, a_signature_follows,
    an_order_has_one_body, fronts_are_legal, one_entry_more, settings_begin_a_history,
    settings_come_into_force, what_a_move_keeps, what_is_sent_is_recorded, what_steps_keep,
};
pub use place::last_moment;
pub use renewing::renewal;
pub use request::key_of;
pub use sending::{
    block_of, body_in, masked, own_order, send_with, sent_for, serial_in, signature_in, signed_for,
    to_sixteen,
};
pub use sight::find_kept;
