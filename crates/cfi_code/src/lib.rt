//! The bytes of hardened code: the prologue of an image's version under a graph's, and one unit after the other. Nothing here knows of
//! which program the units are.
#![tactic(auto)]

pub use code::code_bytes;

mod code;
