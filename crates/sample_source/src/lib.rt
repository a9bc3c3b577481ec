//! How tests run objects as programs on the source machine: at a map, under a policy and with an input, to their ends or to the reason
//! against their next step, and what is wrong with a map. They stand here alone, since several crates of tests use them.
#![tactic(auto)]

pub use ended::{Asked, is_told};
pub use files::{Given, is_file, runs_as};
pub use sample_hardened::{Source, map};

mod ended;
mod files;
