//! Tests of texts of lines through their public calls: words and numbers, graphs, maps and policies. They stand beside
//! the crates that they test, so that these are proved once.
#![tactic(auto)]

#[cfg(test)]
mod graph;
#[cfg(test)]
mod leaf;
#[cfg(test)]
mod lines;
#[cfg(test)]
mod map;
#[cfg(test)]
mod policy;
