use crate::ended::{Asked, is_told};
use elf_object::Object;
use obj_items::items;
use sample_hardened::{Source, changed};
use std::alloc::Global;

/// An object with an offset in its file and the bytes, in hexadecimal, that are put there.
pub struct Given(pub Source, pub usize, pub &'static [u8]);

/// Whether an object runs as is asked.
fn is_object(alloc: Global, object: &Object, asked: &Asked<'_>) -> bool {
    match items(alloc, object) {
        Ok(items) => is_told(alloc, &items, asked),
        Err(_) => false,
    }
}

/// Whether a file is an object that runs as is asked.
pub fn is_file(alloc: Global, file: &[u8], asked: &Asked<'_>) -> bool {
    match Object::read(alloc, file) {
        Ok(object) => is_object(alloc, &object, asked),
        Err(_) => false,
    }
}

/// Whether an object with its change runs as is asked.
pub fn runs_as(alloc: Global, given: &Given, asked: &Asked<'_>) -> bool {
    match changed(alloc, given.0, given.1, given.2) {
        Some(file) => is_file(alloc, &file, asked),
        None => false,
    }
}
