//! The report of a run: what it says of a pair that meets the rules, its text, and the status with which the program ends after it.
#![tactic(auto)]

pub use report::{end_status, report_text};

mod report;
