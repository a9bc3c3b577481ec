//! Units as words. `emit` writes a unit's words, and `recognise` finds the unit that begins a list of words.
#![tactic(auto)]

pub use emission::{emit, fits, size};
pub use recogniser::recognise;
pub use words::WordList;

mod emission;
mod recogniser;
mod template;
mod words;
