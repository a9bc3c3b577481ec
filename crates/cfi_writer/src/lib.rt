//! The writer of hardened programs: a program at a placement, with labels for the classes of its closed graph, becomes the code of its
//! units, with its data an image, its graph and its map, which meet every rule of the verifier. Its main call is `written`; nothing
//! here knows what a program was given as, or refuses one.
#![tactic(auto)]

pub use hardened::{Hardened, written};
pub use numbering::class_labels;

mod chosen;
mod groups;
mod hardened;
mod labels;
pub mod laws;
mod leads;
mod lines;
mod numbering;
mod places;
mod units;
