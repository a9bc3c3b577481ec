//! A run for C: an image with its graph, under a script of turns and changes, judged by the rules and then run, in one call.
//! `library/include/rvcfi_run.h` declares the export.
#![tactic(auto)]

pub use told::RvcfiRun;

mod exports;
mod told;
