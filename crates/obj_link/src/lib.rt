//! What objects say, by the bytes of their files: one object, and several one behind another. The layer below makes one
//! input of it.
#![tactic(auto)]

pub use input::{joined_input, own_input};
pub use names::name_numbers;
pub use sections::{content, sort_of};
pub use slots::{is_table_use, slots_of};
pub use symbols::{is_kept_section, symbols_of};

mod input;
mod names;
mod resolution;
mod sections;
mod slots;
mod symbols;
mod tables;
