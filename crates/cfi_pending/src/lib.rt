//! The pending sites of code whose functions save the sites of their own calls: which of them stand on the shadow stack, and which in
//! x1 alone, at the start of each unit.
#![tactic(auto)]

pub mod laws;
