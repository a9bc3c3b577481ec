//! Objects that are joined: some that are written from their texts, and some of compilers; and what several of them become as one
//! program in each form of hardening. They stand here alone, since several crates of tests may use them.
#![tactic(auto)]

pub use given::{Objects, files, files_of};
pub use object::file;
pub use samples::{SUMS, Sum, Sums};
pub use worked::{Run, WORKED, Worked};

mod given;
mod object;
mod samples;
mod worked;
