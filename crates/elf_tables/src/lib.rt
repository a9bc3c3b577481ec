//! The tables of an object file: sections, symbols and relocations as numbers at offsets, each looked
//! up by its index in one step. Nothing is judged here; the layer above tests what the tables say.
#![tactic(auto)]

pub use entry::{Reloc, SymbolEntry};
pub use field::{half, long, word};
pub use header::SectionHeader;
pub use lookup::Lookup;
pub use sections::Sections;

pub mod constants;
mod entry;
mod field;
mod header;
mod lookup;
mod sections;
mod strings;
mod targets;
