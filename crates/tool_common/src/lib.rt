//! What each command does alike: it reads the files that its words name, in their order, puts the line of a refusal or another,
//! writes files, and ends with a status.
#![tactic(auto)]

pub use lines::{line, refusal_line};
pub use read::{Stop, Unread, read_all};
pub use words::{file_word, steps, text_named};
pub use write::Output;

mod lines;
mod read;
pub mod status;
mod words;
mod write;
