//! Tests of memory through its public calls: loads, stores and changes at the edges of regions and pages, and where code
//! ends. They stand beside the crates that they test, so that these are proved once.
#![tactic(auto)]

#[cfg(test)]
mod code_end;
#[cfg(test)]
mod memory;
