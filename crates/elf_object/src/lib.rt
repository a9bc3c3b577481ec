//! The reader of relocatable objects: it tests everything that a file may have wrong once, so that
//! the layers above ask for sections, symbols and relocations by their number and are never refused.
#![tactic(auto)]

pub use elf_tables::{Reloc, SectionHeader, SymbolEntry};
pub use fault::ObjectFault;
pub use object::{Object, Relocs, Section, Symbol};

mod cut;
mod fault;
mod header;
mod kinds;
pub mod laws;
mod object;
mod section;
mod strays;
mod symbols;
mod tables;
