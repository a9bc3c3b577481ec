//! The units of a code that comes in pieces, cut anywhere: each word is read once, when its last byte
//! has come, and of each unit one entry is kept. It asks nothing of a graph, and of the prologue it
//! keeps the words.
#![tactic(auto)]

pub use cfi_reader::Entry;
pub use feeder::Feeder;
pub use listing::Listing;
pub use steps::Steps;

mod carry;
mod feeder;
mod front;
mod kept;
mod listing;
mod packed;
mod splitter;
mod steps;
