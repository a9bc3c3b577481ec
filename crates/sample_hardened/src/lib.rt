//! Small objects, and what they become in each form of hardening: the words of their units, their data, their graphs and their maps,
//! in one table for all forms. They stand here alone, since several crates of tests use them.
#![tactic(auto)]

pub use calls::listed_programs;
pub use forms::{Program, Units, code_in, data_in, data_size, graph_in, map, map_in, told_in};
pub use given::{Given, Source, changed, file, put};
pub use programs::hardened_programs;
pub use stores::storing_programs;

mod calls;
mod forms;
mod given;
mod programs;
mod stores;
