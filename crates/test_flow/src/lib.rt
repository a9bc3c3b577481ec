//! Tests of the flow of programs through public calls: objects are written from their parts, read back and made programs,
//! and their sites, targets, classes and entries are compared with those worked out by hand. They stand beside the crates
//! that they test, so that these are proved once.
#![tactic(auto)]

#[cfg(test)]
mod flow;
#[cfg(test)]
mod object;
#[cfg(test)]
mod row;
#[cfg(test)]
mod rows;
#[cfg(test)]
mod told;
