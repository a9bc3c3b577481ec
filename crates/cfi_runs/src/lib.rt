//! What hardened code does where nothing is disturbed, unit by unit: each is left as the instruction for
//! which it stands leaves the program.
#![tactic(auto)]

pub mod laws;
