//! The meaning of a program is kept by the image that is written for it: how its places run there, and that this is what the source
//! machine does.
#![tactic(auto)]

pub mod laws;
