//! The commands on objects, `rewrite`, `harden` and `link`, `compare` and `compare-link`, and `demo`: for each its words, the files that it reads, what it comes
//! to, and the text and the status of that.
#![tactic(auto)]

pub use compare::{CompareOutcome, CompareRequest, compare_files};
pub use demo::{DemoOutcome, DemoRequest, demonstrate};
pub use rewrite::{RewriteOutcome, RewriteRequest, rewrite_files};

mod compare;
mod demo;
mod demonstration;
pub mod laws;
mod objects;
mod rewrite;
mod source;
