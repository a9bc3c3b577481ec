//! Searches for the first and the least: the first index at which a test holds, the least of the numbers that are
//! found, and the nearest of what is found at places. The layers above tell their first fault by them.
#![tactic(auto)]

pub use first::{first_below, first_below_u64};
pub use numbers::{least_below, least_below_u64, lesser};
pub use place::{Found, Place, nearer, nearest, nearest_below};

mod first;
pub mod laws;
mod numbers;
mod place;
