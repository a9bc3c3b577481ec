//! Programs: the instructions and data of an object in which places stand for addresses, with the names that its symbols
//! have. A map from places to addresses makes instructions and data of it again. Above it nobody sees the object's bytes.
#![tactic(auto)]

pub use initial_data::InitialData;
pub use item::{DataReloc, Item, Patch, Value};
pub use items::{Extent, Items};
pub use packed::PackedItem;
pub use packed_reloc::PackedReloc;
pub use place::place_in;

mod at_map;
mod data_at_map;
mod initial_data;
mod item;
mod items;
pub mod laws;
mod packed;
mod packed_reloc;
mod place;
mod range;
