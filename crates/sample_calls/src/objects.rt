use rv_word::NoMemory;
use sample_hardened::{Source, changed};
use std::alloc::Global;
use tool_io::MemFiles;

/// An object, an offset in its file and the bytes, in hexadecimal, that are put there; of `Coded` its code.
pub struct Given(pub Source, pub usize, pub &'static [u8]);

/// The bytes that some digits spell; want of memory where they spell none.
pub fn decoded(alloc: Global, digits: &[u8]) -> Result<Vec<u8>, NoMemory> {
    match hex::decode(alloc, digits) {
        Ok(bytes) => Ok(bytes),
        Err(_) => Err(NoMemory),
    }
}

/// The bytes of an object.
pub fn bytes_of(alloc: Global, source: Source) -> Result<Vec<u8>, NoMemory> {
    changed(alloc, source, 0, b"").ok_or(NoMemory)
}

/// Adds an object with its change under a name.
pub fn add_object(
    alloc: Global,
    files: &mut MemFiles,
    name: &str,
    given: &Given,
) -> Result<(), NoMemory> {
    let bytes = changed(alloc, given.0, given.1, given.2).ok_or(NoMemory)?;
    Ok(files.insert(name, &bytes)?)
}
