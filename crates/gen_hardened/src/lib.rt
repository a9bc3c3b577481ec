//! Laws of the generated object: what it is as an input, that none of the faults of instructions and relocations stands of it, and that no
//! refusal of hardening does.
#![tactic(auto)]

pub mod laws;
