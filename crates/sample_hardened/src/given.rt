use std::alloc::{AllocError, Global};

/// An object written by hand, or an empty file. `Coded` is the one that returns with other code, `Idle` with so many
/// instructions that do nothing for it, `Storing` with a word, so many equal stores and a return for it, `Padded` the one that
/// jumps through a pointer with so many more, and `Shared` with so many sections of data that are the same 56,000 bytes of the
/// file.
#[derive(Clone, Copy)]
pub enum Source {
    Empty,
    Returning,
    Calling,
    Writing,
    Recursive,
    Jumping,
    Apart,
    Sorts,
    Switching,
    Dividing,
    Led,
    Patched,
    Coded,
    Idle(u32),
    Storing(u32, u32),
    Padded(u32),
    Shared(u16),
}

/// What is hardened: an object, an offset in its file and the bytes, in hexadecimal, that are put there (of `Coded` its
/// code), the name of the entry, and a policy.
pub struct Given(
    pub Source,
    pub usize,
    pub &'static [u8],
    pub &'static str,
    pub Option<&'static [u8]>,
);

/// The digits of an object.
fn digits_of(source: Source) -> &'static [u8] {
    match source {
        Source::Empty => b"",
        Source::Returning
        | Source::Coded
        | Source::Idle(_)
        | Source::Storing(_, _)
        | Source::Shared(_) => sample_objects::B,
        Source::Calling => sample_objects::P,
        Source::Writing => sample_objects::H,
        Source::Recursive => sample_objects::R,
        Source::Jumping | Source::Padded(_) => sample_objects::Q,
        Source::Apart => sample_objects::APART,
        Source::Sorts => sample_objects::SORTS,
        Source::Switching => sample_objects::TABLE,
        Source::Dividing => sample_objects::M,
        Source::Led => sample_objects::LED,
        Source::Patched => sample_objects::PATCHED,
    }
}

/// Puts bytes in place of those at an offset. It is false where they do not lie there.
pub fn put(file: &mut [u8], at: usize, bytes: &[u8]) -> bool {
    match file.get_mut(at..at.saturating_add(bytes.len())) {
        Some(place) => {
            place.copy_from_slice(bytes);
            true
        }
        None => false,
    }
}

/// Where the header of the section of code tells its offset and then its size, in the object that returns.
const SECTION: usize = 216;

/// The same in the object that jumps through a pointer, and that code in its file.
const JUMPING: usize = 464;

const JUMPING_CODE: (usize, usize) = (64, 100);

/// Gives an object other code, which stands at the file's end, where its header tells of it at this offset. It is false where it
/// can't.
fn recode(file: &mut Vec<u8>, section: usize, code: &[u8]) -> bool {
    let (at, size) = (file.len() as u64, code.len() as u64);
    put(file, section, &at.to_le_bytes())
        && put(file, section.saturating_add(8), &size.to_le_bytes())
        && file.extend_from_slice(code).is_ok()
}

/// Some code, and a word so many times.
fn repeated(alloc: Global, first: &[u8], word: u32, count: u32) -> Result<Vec<u8>, AllocError> {
    let mut code = Vec::from_slice(alloc, first)?;
    for _ in 0..count {
        code.extend_from_slice(&word.to_le_bytes())?;
    }
    Ok(code)
}

/// The instruction that does nothing.
const NOTHING: u32 = 0x0000_0013;

/// A store of a byte where x2 points to.
const STORE: u32 = 0x0061_0023;

/// Gives the object that returns so many instructions that do nothing for its code.
fn idle_through(alloc: Global, file: &mut Vec<u8>, count: u32) -> bool {
    match repeated(alloc, b"", NOTHING, count) {
        Ok(code) => recode(file, SECTION, &code),
        Err(_) => false,
    }
}

/// A word, so many stores, and a return.
fn storing(alloc: Global, word: u32, count: u32) -> Result<Vec<u8>, AllocError> {
    let mut code = repeated(alloc, &word.to_le_bytes(), STORE, count)?;
    code.extend_from_slice(&[0x67, 0x80, 0, 0])?;
    Ok(code)
}

/// Gives the object that returns a word, so many stores and a return for its code.
fn store_through(alloc: Global, file: &mut Vec<u8>, word: u32, count: u32) -> bool {
    match storing(alloc, word, count) {
        Ok(code) => recode(file, SECTION, &code),
        Err(_) => false,
    }
}

/// Gives the object that jumps through a pointer so many instructions more, which do nothing. It is false where it can't.
fn pad(alloc: Global, file: &mut Vec<u8>, count: u32) -> bool {
    let code = file.get(JUMPING_CODE.0..JUMPING_CODE.1).unwrap_or(b"");
    match repeated(alloc, code, NOTHING, count) {
        Ok(code) => recode(file, JUMPING, &code),
        Err(_) => false,
    }
}

/// Where the object that returns has its section headers, to the file's end: four of 64 bytes.
const HEADERS: usize = 128;

/// Puts words of 64 bits behind a file. It is false where it can't.
fn put_words(file: &mut Vec<u8>, words: &[u64]) -> bool {
    for word in words {
        if file.extend_from_slice(&word.to_le_bytes()).is_err() {
            return false;
        }
    }
    true
}

/// Puts 56,000 bytes of data behind a file. It is false where it can't.
fn put_data(file: &mut Vec<u8>) -> bool {
    file.resize(file.len().saturating_add(56_000), 7).is_ok()
}

/// Puts the section headers of the object that returns behind it once more. It is false where it can't.
fn repeat_headers(file: &mut Vec<u8>) -> bool {
    for k in HEADERS..HEADERS + 256 {
        let Some(byte) = file.get(k).copied() else {
            return false;
        };
        if file.push(byte).is_err() {
            return false;
        }
    }
    true
}

/// Puts the headers of so many sections of data behind a file, which are the same bytes of it, from an offset on. It is
/// false where it can't.
fn put_headers(file: &mut Vec<u8>, at: u64, count: u16) -> bool {
    for _ in 0..count {
        if !put_words(file, &[1 << 32, 3, 0, at, 56_000, 0, 1, 0]) {
            return false;
        }
    }
    true
}

/// Gives the object that returns so many sections of data, which share their bytes. It is false where it can't.
fn share(file: &mut Vec<u8>, count: u16) -> bool {
    let at = file.len() as u64;
    if !put_data(file) {
        return false;
    }
    let table = file.len() as u64;
    repeat_headers(file)
        && put_headers(file, at, count)
        && put(file, 40, &table.to_le_bytes())
        && put(file, 60, &count.saturating_add(4).to_le_bytes())
}

/// Puts the bytes of a change into a file. It is false where it can't.
fn put_digits(alloc: Global, file: &mut Vec<u8>, source: Source, at: usize, digits: &[u8]) -> bool {
    match hex::decode(alloc, digits) {
        Ok(bytes) if matches!(source, Source::Coded) => recode(file, SECTION, &bytes),
        Ok(bytes) => put(file, at, &bytes),
        Err(_) => false,
    }
}

/// Makes the change of a file. It is false where it can't.
fn change(alloc: Global, file: &mut Vec<u8>, source: Source, at: usize, digits: &[u8]) -> bool {
    match source {
        Source::Idle(count) => idle_through(alloc, file, count),
        Source::Storing(word, count) => store_through(alloc, file, word, count),
        Source::Padded(count) => pad(alloc, file, count),
        Source::Shared(count) => share(file, count),
        _ => put_digits(alloc, file, source, at, digits),
    }
}

/// The file of an object with these bytes, in hexadecimal, at an offset.
pub fn changed(alloc: Global, source: Source, at: usize, digits: &[u8]) -> Option<Vec<u8>> {
    let Ok(mut bytes) = hex::decode(alloc, digits_of(source)) else {
        return None;
    };
    if change(alloc, &mut bytes, source, at, digits) {
        Some(bytes)
    } else {
        None
    }
}

/// The file of an object with its change.
pub fn file(alloc: Global, given: &Given) -> Option<Vec<u8>> {
    changed(alloc, given.0, given.1, given.2)
}
