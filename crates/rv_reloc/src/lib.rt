//! Values of relocations: which bits of an instruction's word, or which bytes of data, become what
//! when a linker knows a value. The values are whole numbers, and nothing here wraps unseen.
#![tactic(auto)]

pub use code::{high, low, patch};
pub use data::patch_data;
pub use kinds::{CodePatch, DataPatch, RelocRange};

mod code;
mod data;
mod kinds;
pub mod laws;
pub mod types;
