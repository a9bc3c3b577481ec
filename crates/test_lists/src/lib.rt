//! Tests of lists of several objects and of system calls through the top call: the commands `link` and `compare-link`, and what all
//! commands put of objects that are hardened under a list of system calls. They stand beside the crates that they test, so that
//! these are proved once.
#![tactic(auto)]

#[cfg(test)]
mod links;
#[cfg(test)]
mod lists;
