//! Closed graphs as data: sides, each of the computed transfers of one sort with the classes of their targets, and what is
//! asked of them by place and by number. How a program's graph is closed stands above.
#![tactic(auto)]

pub use closed::Closed;
pub use side::{Side, Site};
pub use sort::{is_of, sorts_of};

mod closed;
mod side;
mod sort;
