//! Hardening whose meaning is kept: a program, or that of an object, becomes an image, its graph and its map, and the image runs as
//! the program does. Its main calls are `rewrite_as` and `rewrite_joined`.
#![tactic(auto)]

pub use cfi_writer::Hardened;
pub use rewriting::{rewrite, rewrite_as, rewrite_joined, rewrite_prepared};

mod rewriting;
