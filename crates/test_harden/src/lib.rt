//! Tests of the commands `rewrite`, `harden` and `compare` through the top call: what they put and write in each form, what they
//! refuse, and what comparing tells. They stand beside the crates that they test, so that these are proved once.
#![tactic(auto)]

#[cfg(test)]
mod compares;
#[cfg(test)]
mod forms;
#[cfg(test)]
mod hardens;
#[cfg(test)]
mod rewrites;
#[cfg(test)]
mod splits;
#[cfg(test)]
mod waiting;
