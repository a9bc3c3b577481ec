//! How tests verify, walk and run sample programs: their codes with words changed, verdicts, walks along a trail, and reports of
//! runs. They stand here alone, since several crates of tests use them.
#![tactic(auto)]

pub use codes::{SAME, code_with};
pub use reports::{Program, is_same_again, report, run_of};
pub use verdicts::{is_code_told, is_told};
pub use walks::{Step, walks_along, walks_so};

mod codes;
mod reports;
mod verdicts;
mod walks;
