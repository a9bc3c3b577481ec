//! Tests of the tool through its public calls: command lines and how they are read, the texts of help and of the version, verdicts,
//! runs, demos and what these generate. They stand beside the crates that they test, so that these are proved once.
#![tactic(auto)]

#[cfg(test)]
mod calls;
#[cfg(test)]
mod commands;
#[cfg(test)]
mod demos;
#[cfg(test)]
mod files;
#[cfg(test)]
mod graphs;
#[cfg(test)]
mod jumps;
#[cfg(test)]
mod lines;
#[cfg(test)]
mod longest;
#[cfg(test)]
mod runs;
#[cfg(test)]
mod sums;
