//! Images as the machine loads them: their bytes, the memory map, the versions of images and graphs with what they
//! differ in, the forms of hardening, and the lengths of units.
#![tactic(auto)]

pub use form::Form;
pub use image::Image;
pub use region::Region;
pub use version::{GraphVersion, ImageVersion, Versions};

mod form;
mod image;
pub mod memory_map;
pub mod profile;
mod region;
pub mod unit_words;
mod version;
