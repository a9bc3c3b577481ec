//! The image: an ELF file with one spelling for each version, code and data, so a reader takes a file
//! exactly where a writer could have made it, and both say the same of each byte.
#![tactic(auto)]

pub use read::read_image;
pub use refusal::ImageRefusal;
pub use write::{write_image, write_image_as};

mod field;
mod header;
mod read;
mod refusal;
mod write;
