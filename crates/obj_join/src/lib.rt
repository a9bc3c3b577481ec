//! Several objects as one input: what each says, without its bytes, is put one behind another, and symbols are resolved
//! by their names; common blocks are merged, and the table of addresses gets its slots. One object is the same, with
//! each symbol for itself.
#![tactic(auto)]

pub use common::{blocks, places};
pub use definers::Definers;
pub use definition::{definition_of, definitions};
pub use function::funcs;
pub use name::names;
pub use own::{own_names, own_numbers};
pub use rank::Rank;
pub use slots::{note_all, slot_of, slot_offset, table_section};
pub use standing::Standing;
pub use symbol::Symbol;
pub use table::{TableUse, table_symbols};

mod common;
mod definers;
mod definition;
mod function;
mod index;
pub mod laws;
mod name;
mod own;
mod rank;
mod slots;
mod standing;
mod symbol;
mod table;
