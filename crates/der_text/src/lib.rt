//! DER trees, read and written exactly.
#![tactic(auto)]

mod content;
mod element;
mod fault;
mod front;
mod laws;
mod part;
mod parts;
mod reading;
pub mod tag;
mod tree;
mod writing;

pub use element::{element_len, push_element, push_head};
pub use fault::{DerFault, DerKind, ReadFault};
pub use laws::{
    a_head_is_short, a_head_is_shorter, an_element_spells_one_content, elements_have_their_length,
    no_spelling_is_a_prefix, one_first_fault, parts_are_read_as_they_stand,
    what_is_spelled_is_read,
};
pub use part::part_at;
pub use parts::{
    are_none, constructed_parts, primitive_content, skip_first, take_constructed, take_primitive,
};
pub use reading::read_tree;
pub use tree::Tree;
pub use writing::write_tree;
