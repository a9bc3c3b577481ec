//! Graphs of control flow as values and as texts, and the line of the numbers of system calls that graphs and
//! policies share. A graph is read from its one spelling, or refused at the first line that fails with the
//! first reason, and is written back to the same bytes.
#![tactic(auto)]

pub use calls::{judged_calls, line_after};
pub use class::Class;
pub use graph::{Graph, GraphLines};
pub use line::{GraphLine, Key, SiteKind, Sort};
pub use read::read_graph;
pub use write::write_graph;

mod calls;
mod class;
mod fixed;
mod forms;
mod graph;
mod graph_form;
mod line;
mod read;
mod rules;
mod write;
