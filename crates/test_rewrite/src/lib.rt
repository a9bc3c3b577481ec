//! Tests of the call that hardens an object: its image, its graph and its map are compared with those worked out by hand,
//! its refusals with what is wrong with each object, and the runs of its images with what is counted by hand. They stand
//! beside the crates that they test, so that these are proved once.
#![tactic(auto)]

#[cfg(test)]
mod given;
#[cfg(test)]
mod hardened;
#[cfg(test)]
mod image;
#[cfg(test)]
mod lists;
#[cfg(test)]
mod refused;
#[cfg(test)]
mod runs;
