//! The flow of a program: its sites with the places that each may go to, by the program itself or by a policy, the
//! classes that chains of these make, the place where the program is entered, and the labels that it has for itself.
#![tactic(auto)]

pub use closing::close;
pub use graph::raw_graph;
pub use label::used_labels;
pub use named::entry_place;
pub use raw::{Raw, RawSite};
pub use wrong_line::WrongLine;

mod begin;
mod below;
mod closing;
mod draw;
mod found;
mod graph;
mod join;
mod kind;
mod label;
mod named;
mod points;
mod policy;
mod raw;
mod span;
mod wrong_line;
