//! Tests of the machine through its public calls: system calls and steps, against values from outside. They stand beside
//! the crates that they test, so that these are proved once.
#![tactic(auto)]

#[cfg(test)]
mod machine;
#[cfg(test)]
mod processor;
#[cfg(test)]
mod steps;
#[cfg(test)]
mod system;
