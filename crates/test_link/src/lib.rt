//! Tests of several objects as one program through public calls: what objects become that are joined is compared with what an
//! independent model or GNU ld makes of them, and with the rules. They stand beside the crates that they test, so that these are
//! proved once.
#![tactic(auto)]

#[cfg(test)]
mod counts;
#[cfg(test)]
mod images;
#[cfg(test)]
mod orders;
#[cfg(test)]
mod programs;
#[cfg(test)]
mod rows;
#[cfg(test)]
mod told;
