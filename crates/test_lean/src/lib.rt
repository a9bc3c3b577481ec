//! Tests of lean images, under graphs of version 3, through the tool's public calls: what is hardened, verified, rejected and run.
#![tactic(auto)]

#[cfg(test)]
mod hardens;
#[cfg(test)]
mod pairs;
#[cfg(test)]
mod runs;
#[cfg(test)]
mod samples;
#[cfg(test)]
mod walks;
