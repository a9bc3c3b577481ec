//! The program of an object: first what the object's bytes say as an input (sections with the definitions of the symbols
//! that their relocations name, common blocks, names, functions), then, where nothing is wrong with its instructions and
//! relocations, its places with their words, patches and targets, its data and its names. Several objects are one program
//! as one is. The main call for one is `items`, and the main type for several is `Join`.
#![tactic(auto)]

pub use fault::fault_in;
pub use from_object::input_of;
pub use join::Join;
pub use program::{items, items_of};

mod bare;
mod fault;
mod finish;
mod from_object;
mod init;
mod join;
pub mod laws;
mod links;
mod outline;
mod program;
mod ranges;
mod relocs;
mod taken;
mod values;
