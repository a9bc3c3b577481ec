//! The tool: the words of a command line, over files and an output that are handed in, to a status.
//! Its call is `rvcfi`; another is the same over files that never fail.
#![tactic(auto)]

pub use command::rvcfi;
pub use sure::rvcfi_over_sure_files;
pub use tool_common::status::NO_MEMORY;
pub use tool_images::Verdict;

mod command;
mod outcome;
mod request;
mod sure;
