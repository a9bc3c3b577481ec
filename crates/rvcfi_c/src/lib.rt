//! The verifier for C: whether two texts are an image and its graph and go together, what a loader maps of an image, and the list
//! of a graph's system calls. `library/include/rvcfi.h` declares the exports.
#![tactic(auto)]

pub use cfi_pair::RvcfiVerdict;
pub use plan::RvcfiPlan;

mod calls;
mod exports;
mod plan;
