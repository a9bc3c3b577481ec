use crate::kinds::in_words;
use crate::vectors;
use elf_object::Object;
use obj_items::items;
use obj_program::{Item, Items};
use std::alloc::{AllocError, Global};
use std::fmt::Write;

/// An object in hexadecimal, and the program that it is.
fn vector(number: u32) -> (&'static [u8], &'static [u8]) {
    match number {
        0 => (sample_objects::B, vectors::B_TEXT),
        1 => (sample_objects::P, vectors::P_TEXT),
        2 => (sample_objects::H, vectors::H_TEXT),
        3 => (sample_objects::R, vectors::R_TEXT),
        _ => (sample_objects::T, vectors::T_TEXT),
    }
}

/// Adds where a direct transfer goes.
fn add_target(text: &mut String, target: Option<u64>) -> Result<(), AllocError> {
    match target {
        Some(target) => write!(text, " to {target}"),
        None => Ok(()),
    }
}

/// Adds the line of a place.
fn add_place(text: &mut String, item: Item, taken: bool) -> Result<(), AllocError> {
    let (section, offset, kind, word) = (item.section, item.offset, in_words(item.kind), item.word);
    write!(text, "{section} {offset} {kind} {word:x}")?;
    add_target(text, item.target)?;
    text.push_str(if taken { " taken\n" } else { "\n" })
}

/// Adds the lines of the places of a program.
fn add_places(text: &mut String, items: &Items) -> bool {
    for k in 0..items.count() {
        if add_place(text, items.item(k), items.pointed(k)).is_err() {
            return false;
        }
    }
    true
}

/// Adds the lines of the functions of a program.
fn add_functions(text: &mut String, items: &Items) -> bool {
    for j in 0..items.funcs() {
        let func = items.func(j);
        let (section, offset, size) = (func.section, func.offset, func.size);
        if writeln!(text, "function {section} {offset} {size}").is_err() {
            return false;
        }
    }
    true
}

/// Adds the line of how far data reach.
pub(crate) fn add_extent(text: &mut String, items: &Items) -> bool {
    let extent = items.data_extent();
    let (size, end) = (extent.init, extent.end);
    writeln!(text, "data {size} {end}").is_ok()
}

/// Whether a program is described by these words.
fn is_described(alloc: Global, items: &Items, words: &[u8]) -> bool {
    let mut text = String::new(alloc);
    add_places(&mut text, items)
        && add_functions(&mut text, items)
        && add_extent(&mut text, items)
        && text.as_bytes() == words
}

/// Whether each place is found by its section and offset, and none by the offset after it.
fn are_places_found(items: &Items) -> bool {
    for k in 0..items.count() {
        let item = items.item(k);
        let inside = items.place_of(item.section, item.offset ^ 1);
        if items.place_of(item.section, item.offset) != Some(k) || inside.is_some() {
            return false;
        }
    }
    items.place_of(0, 0).is_none() && items.place_of(2, 0).is_none()
}

/// Whether an object is the program that these words describe.
fn is_program(alloc: Global, object: &Object, words: &[u8]) -> bool {
    match items(alloc, object) {
        Ok(items) => is_described(alloc, &items, words) && are_places_found(&items),
        Err(_) => false,
    }
}

/// Whether a file is read as such an object.
fn is_read_as(alloc: Global, file: &[u8], words: &[u8]) -> bool {
    match Object::read(alloc, file) {
        Ok(object) => is_program(alloc, &object, words),
        Err(_) => false,
    }
}

/// Whether an object is read as the program that it is.
fn is_right(alloc: Global, number: u32) -> bool {
    let (digits, words) = vector(number);
    match hex::decode(alloc, digits) {
        Ok(file) => is_read_as(alloc, &file, words),
        Err(_) => false,
    }
}

#[test]
fn are_programs(rt: HostRuntime) {
    for number in 0..5 {
        assert!(rt; is_right(rt.alloc(), number), "object {number}");
    }
}
