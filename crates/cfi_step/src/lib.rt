//! Runs of an accepted image by one or several harts, while a meddler chooses which of them steps and changes data
//! between instructions: the hostile meddler, and the run with its report.
#![tactic(auto)]

pub use cfi_script::{Meddler, Script};
pub use hostile::Hostile;
pub use record::Record;
pub use report::{Handler, HartWalk, RunEnd, RunReport};
pub use runs::run;
pub use turns::Turns;
pub use walks::HartWalks;

mod hostile;
mod record;
mod report;
mod running;
mod runs;
mod starts;
mod stretch;
mod trail;
mod turns;
mod walks;
