//! Where the units of a code start and of which kind each start is, by what a scan leaves, and look-ups of a graph's
//! lines, classes and leaves. What the rules ask of them stands a layer above.
#![tactic(auto)]

pub use entries::{gate_in, goes_on};
pub use lines::{is_among, is_beside, read_of};
pub use spot::Spot;
pub use starts::Starts;

mod entries;
mod kinds;
mod leaves;
mod lines;
mod place;
mod spot;
mod starts;
