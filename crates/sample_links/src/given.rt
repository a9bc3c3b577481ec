use crate::object::file;
use crate::samples;
use crate::worked::PAIR;
use std::alloc::Global;

/// Objects that are joined.
#[derive(Clone, Copy)]
pub enum Objects {
    /// One that calls a function of the other.
    Pair,
    /// One alone, which jumps through a slot of the table of addresses.
    Table,
    /// Three of gcc.
    Gcc,
    /// Three of clang.
    Clang,
}

/// The files of the objects with these texts, each two with a `/` between them.
pub fn files_of(alloc: Global, texts: &str) -> Option<Vec<Vec<u8>>> {
    let mut files = Vec::new(alloc);
    for text in texts.split('/') {
        files.push(file(alloc, text)?).ok()?;
    }
    Some(files)
}

/// The files with these digits.
fn decoded(alloc: Global, samples: &[&[u8]]) -> Option<Vec<Vec<u8>>> {
    let mut files = Vec::new(alloc);
    for digits in samples {
        let Ok(file) = hex::decode(alloc, *digits) else {
            return None;
        };
        files.push(file).ok()?;
    }
    Some(files)
}

/// The files of objects.
pub fn files(alloc: Global, objects: Objects) -> Option<Vec<Vec<u8>>> {
    match objects {
        Objects::Pair => files_of(alloc, PAIR),
        Objects::Table => decoded(alloc, &[sample_objects::T]),
        Objects::Gcc => decoded(alloc, &[samples::FIRST, samples::SECOND, samples::THIRD]),
        Objects::Clang => decoded(
            alloc,
            &[
                samples::FIRST_CLANG,
                samples::SECOND_CLANG,
                samples::THIRD_CLANG,
            ],
        ),
    }
}
