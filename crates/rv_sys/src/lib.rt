//! The machine's system calls: write, read and exit over an input and an output that are lists of
//! bytes, and the record of all calls.
#![tactic(auto)]

pub use ending::SysEnd;
pub use rv_code::Event;
pub use system::System;

mod ending;
mod system;
