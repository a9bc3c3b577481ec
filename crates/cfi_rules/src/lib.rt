//! The eleven rules that an image and a graph are asked, the graph's walk, and what holds of a pair that meets
//! the rules: it is safe, whatever is written into data while it runs, and makes no other system calls than
//! those of its graph's list, if that has one. The calls that ask the rules stand in `cfi_verify`; here is
//! what they answer, and laws.
#![tactic(auto)]

pub use asks::{Asks, jump_word};
pub use reject::{Reject, Rule};

mod asks;
pub mod laws;
mod reject;
