//! Hardened code of a program: it becomes an image, its graph and its map, which the verifier accepts, or the first thing that
//! stands against that is told. Its main call is `harden_program`; `program_of` gives the program of an object, and
//! `joined_program` that of several.
#![tactic(auto)]

pub use hardening::{harden_prepared, harden_program};
pub use joined::joined_program;
pub use prepared::{Prepared, prepare_program, program_of};
pub use room::has_data_room;

mod closing;
mod hardening;
mod joined;
pub mod laws;
mod prepared;
mod room;
mod word_range;
