//! Tests of codes that come in pieces, and of branches to near targets, through the public calls. They stand beside the crates
//! that they test, so that these are proved once.
#![tactic(auto)]

#[cfg(test)]
mod apart;
#[cfg(test)]
mod cuts;
#[cfg(test)]
mod near;
#[cfg(test)]
mod pieces;
