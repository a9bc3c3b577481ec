//! Safety told by executed instructions and the graph's lines: where each instruction of a run leads, what
//! it writes and how it ends. What meets the rules is confined so.
#![tactic(auto)]

pub mod laws;
