//! Classes of the targets of indirect transfers, the labels that classes are given, and tables of the classes by their targets.
#![tactic(auto)]

pub use class::classes;
pub use entry::Entry;
pub use label::labels;
pub use table::{blank, note, table_of};

mod class;
mod entry;
mod groups;
mod label;
pub mod laws;
mod passes;
mod repeats;
mod table;
mod targets;
