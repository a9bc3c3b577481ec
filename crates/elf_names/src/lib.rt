//! Names of string tables as numbers, where equal names have equal numbers. No byte of a table is read more than a few
//! times, however many names begin in it and however long they are: a name is told by the 64 bytes that it ends with, those
//! before them, and so on.
#![tactic(auto)]

pub use marks::push_numbers;
pub use texts::Texts;

mod marks;
mod texts;
