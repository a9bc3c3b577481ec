//! The commands on an image and its graph, `verify` and `run`: for each its words, the files that it reads, what it comes to, and the
//! text and the status of that.
#![tactic(auto)]

pub use run::{RunOutcome, RunRequest, run_files};
pub use verify::{Verdict, verify_files};

mod refused;
mod run;
mod verify;
