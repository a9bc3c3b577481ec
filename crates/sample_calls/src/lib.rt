//! How tests call the tool: command lines over files in memory, which have images of sample programs and sample objects.
//! They stand here alone, since several crates of tests use them.
#![tactic(auto)]

pub use calls::{answers, ends_with, first_wrong, holds, is_answered, rows};
pub use files::{add_image, add_image_of_harts, add_texts, image_as, image_of, image_of_harts};
pub use objects::{Given, add_object, bytes_of, decoded};
pub use sample_hardened::{Source, put};

mod calls;
mod files;
mod objects;
