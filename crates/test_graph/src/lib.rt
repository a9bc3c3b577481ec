//! Tests of graphs of version 2, in which calls and jumps have classes of their own, and of graphs with a list of system calls,
//! under images of either version, through the public calls: verdicts, walks and runs. They stand beside the crates that they test, so
//! that these are proved once.
#![tactic(auto)]

#[cfg(test)]
mod answered;
#[cfg(test)]
mod calls;
#[cfg(test)]
mod ended;
#[cfg(test)]
mod pairs;
#[cfg(test)]
mod runs;
#[cfg(test)]
mod walks;
