//! Tests of hardened code through the public calls: the words of units, stores behind one mask, system calls behind tests of
//! their numbers, the verifier, walks and runs. They stand beside the crates that they test, so that these are proved once.
#![tactic(auto)]

#[cfg(test)]
mod groups;
#[cfg(test)]
mod guarded;
#[cfg(test)]
mod lean;
#[cfg(test)]
mod run;
#[cfg(test)]
mod stores;
#[cfg(test)]
mod unit;
#[cfg(test)]
mod verifier;
#[cfg(test)]
mod walk;
