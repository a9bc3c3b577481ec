//! The walk along a graph of control flow, one step at a time: where a hart has come to in a run of an
//! accepted image, the sites of its pending calls, and whether it may go on to an address.
#![tactic(auto)]

pub use following::{Followed, follow, follow_all};
pub use walk::Walk;

mod class;
mod following;
pub mod laws;
mod step;
mod walk;
