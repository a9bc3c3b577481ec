//! One unit of a hardened image, a word at a time: how far it is read, by a table of what is left of the units that
//! may begin so, and the entry that it comes to. No word is held.
#![tactic(auto)]

pub use entry::Entry;
pub use first::{First, first_word};
pub use plain::is_plain_word;
pub use reader::{Reader, Step, next};

mod entry;
mod first;
mod kept;
mod matching;
mod node;
mod plain;
mod reader;
