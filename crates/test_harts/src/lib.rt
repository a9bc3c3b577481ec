//! Tests of images for several harts through the public calls: verdicts, walks, runs under turns, and
//! command lines of these. They stand beside the crates
//! that they test, so that these are proved once.
#![tactic(auto)]

#[cfg(test)]
mod commands;
#[cfg(test)]
mod images;
#[cfg(test)]
mod runs;
