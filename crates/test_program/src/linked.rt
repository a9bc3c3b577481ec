use crate::at_map::word_at;
use elf_object::Object;
use obj_items::items;
use obj_program::Items;
use std::alloc::Global;
use std::fmt::Write;

/// Where GNU ld put code.
const CODE: u64 = 0x40000040;

/// The addresses of the places where the section of code stands as it is in the object.
fn gates_of(alloc: Global, items: &Items) -> Option<Vec<u64>> {
    let mut gates = Vec::new(alloc);
    for place in items.places() {
        if gates
            .push(CODE.saturating_add(place.item().offset))
            .is_err()
        {
            return None;
        }
    }
    Some(gates)
}

/// Adds the line of the instruction with this index, which stands at this offset.
fn add_word(text: &mut String, items: &Items, gates: &[u64], k: u64, offset: u64) -> bool {
    match word_at(items, gates, gates, k) {
        Some(word) => writeln!(text, "{offset} {word:x}").is_ok(),
        None => false,
    }
}

/// Adds the lines of the instructions whose immediate comes from a relocation.
fn add_words(text: &mut String, items: &Items, gates: &[u64]) -> bool {
    for k in 0..items.count() {
        if items.patched(k) && !add_word(text, items, gates, k, items.item(k).offset) {
            return false;
        }
    }
    true
}

/// Adds the line of data.
fn add_bytes(text: &mut String, bytes: &[u8]) -> bool {
    let mut is_added = text.push_str("data ").is_ok();
    for byte in bytes {
        is_added = is_added && write!(text, "{byte:02x}").is_ok();
    }
    is_added && text.push_str("\n").is_ok()
}

/// Adds the line of initialised data.
fn add_data(alloc: Global, text: &mut String, items: &Items, gates: &[u64]) -> bool {
    if gates.len() as u64 != items.count() {
        return false;
    }
    match items.data_at(alloc, gates) {
        Ok(bytes) => add_bytes(text, &bytes),
        Err(_) => false,
    }
}

/// Whether a program is described by these words.
fn is_described(alloc: Global, items: &Items, gates: &[u64], words: &[u8]) -> bool {
    let mut text = String::new(alloc);
    add_words(&mut text, items, gates)
        && add_data(alloc, &mut text, items, gates)
        && text.as_bytes() == words
}

/// Whether a program at the linker's addresses is described by these words.
fn is_linked(alloc: Global, items: &Items, words: &[u8]) -> bool {
    match gates_of(alloc, items) {
        Some(gates) => is_described(alloc, items, &gates, words),
        None => false,
    }
}

/// Whether an object's program is.
pub(crate) fn is_as(alloc: Global, object: &Object, words: &[u8]) -> bool {
    match items(alloc, object) {
        Ok(items) => is_linked(alloc, &items, words),
        Err(_) => false,
    }
}
