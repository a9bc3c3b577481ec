//! Tests of objects as programs through their public calls: objects by hand and of compilers, their places, functions,
//! names and data, and their instructions and data at a map. They stand beside the crates that they test, so that these are
//! proved once.
#![tactic(auto)]

#[cfg(test)]
mod at_map;
#[cfg(test)]
mod by_hand;
#[cfg(test)]
mod compiled;
#[cfg(test)]
mod compilers;
#[cfg(test)]
mod counts;
#[cfg(test)]
mod kinds;
#[cfg(test)]
mod linked;
#[cfg(test)]
mod names;
#[cfg(test)]
mod samples;
#[cfg(test)]
mod vectors;
