//! Where the parts of a hardened program's code stand: one after another from the address after the
//! prologue, with every branch long, or with each branch short that can be.
#![tactic(auto)]

pub use code_too_large::CodeTooLarge;
pub use placement::{Placement, place};
pub use short::{Short, are_shorts};
pub use shortening::shorten;
pub use starts::code_size;

mod code_too_large;
pub mod laws;
mod placement;
mod reach;
mod short;
mod shortening;
mod starts;
mod worklist;
