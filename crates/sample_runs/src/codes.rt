//! Codes of a prologue and some units, with words changed.

use std::alloc::Global;

/// The first word of each prologue, which changes nothing where it is put first.
pub const SAME: u32 = 0x0010_0073;

/// Adds the bytes of words.
fn add(bytes: &mut Vec<u8>, words: &[u32]) -> Option<()> {
    for word in words {
        bytes.extend_from_slice(&word.to_le_bytes()).ok()?;
    }
    Some(())
}

/// Puts a word into a code at an offset; there is none where the code is shorter.
fn put(code: &mut [u8], at: usize, word: u32) -> Option<()> {
    let place = code.get_mut(at..at.saturating_add(4))?;
    place.copy_from_slice(&word.to_le_bytes());
    Some(())
}

/// The code of a prologue and some units, with words put at their offsets in it.
pub fn code_with(
    alloc: Global,
    prologue: &[u32],
    units: &[u32],
    changes: &[(usize, u32)],
) -> Option<Vec<u8>> {
    let mut bytes = Vec::new(alloc);
    add(&mut bytes, prologue)?;
    add(&mut bytes, units)?;
    for change in changes {
        put(&mut bytes, change.0, change.1)?;
    }
    Some(bytes)
}
