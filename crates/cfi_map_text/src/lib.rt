//! Maps as texts, both ways: a map is read from its one spelling, or refused at the first line that fails with
//! the first reason, and is written back to the same bytes.
#![tactic(auto)]

pub use map::{Map, MapLine, MapLines};
pub use map_form::{read_map, write_map};

mod map;
mod map_form;
