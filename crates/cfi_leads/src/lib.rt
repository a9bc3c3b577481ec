//! What stands before the units of a program's places: which places are entries, which functions are leaves, and how many bytes the words
//! before the unit of a place have under each version of graphs.
#![tactic(auto)]

pub use entries::mark;
pub use leads::Leads;

mod entries;
mod kinds;
mod leads;
mod pieces;
