//! The writer of relocatable objects: sections, symbols and relocations become the bytes of one ELF
//! file. Where the parts are right, a reader of objects finds no fault in it and each part again.
#![tactic(auto)]

pub use parts::{Parts, Relocations, Section, Symbol};
pub use write::write_object;

mod heading;
pub mod laws;
mod number;
mod parts;
mod tables;
mod write;
mod writer;
