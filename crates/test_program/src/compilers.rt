//! Objects of compilers, compared with what other tools say of them.

use crate::samples::*;
use crate::{compiled, counts, linked};
use elf_object::Object;
use std::alloc::Global;

/// Which tools say something of an object.
#[derive(Clone, Copy)]
enum Tool {
    /// `readelf`, of its sections and symbols.
    Readelf,
    /// binutils, of it as a program.
    Binutils,
    /// GNU ld or lld, of its instructions and data where it puts them.
    Linker,
}

/// An object in hexadecimal, and what is said of it.
struct Sample(Tool, &'static [u8], &'static [u8]);

fn sample_of(number: u32) -> Sample {
    match number {
        0 => Sample(Tool::Readelf, DIFFERENCES, DIFFERENCES_TEXT),
        1 => Sample(Tool::Readelf, SWITCH_MEDLOW, SWITCH_MEDLOW_TEXT),
        2 => Sample(Tool::Readelf, ADDRESSING_CLANG, ADDRESSING_CLANG_TEXT),
        3 => Sample(Tool::Readelf, SWITCH_CLANG, SWITCH_CLANG_TEXT),
        4 => Sample(Tool::Readelf, POINTERS_CLANG, POINTERS_CLANG_TEXT),
        5 => Sample(Tool::Readelf, STRINGS_CLANG, STRINGS_CLANG_TEXT),
        6 => Sample(Tool::Binutils, DIFFERENCES, DIFFERENCES_PROGRAM),
        7 => Sample(Tool::Binutils, SWITCH_MEDLOW, SWITCH_MEDLOW_PROGRAM),
        8 => Sample(Tool::Binutils, ADDRESSING_CLANG, ADDRESSING_CLANG_PROGRAM),
        9 => Sample(Tool::Binutils, SWITCH_CLANG, SWITCH_CLANG_PROGRAM),
        10 => Sample(Tool::Binutils, POINTERS_CLANG, POINTERS_CLANG_PROGRAM),
        11 => Sample(Tool::Binutils, STRINGS_CLANG, STRINGS_CLANG_PROGRAM),
        12 => Sample(Tool::Binutils, MENU, MENU_PROGRAM),
        13 => Sample(Tool::Binutils, TREE, TREE_PROGRAM),
        14 => Sample(Tool::Binutils, SPANS, SPANS_PROGRAM),
        15 => Sample(Tool::Binutils, SHARED, SHARED_PROGRAM),
        16 => Sample(Tool::Linker, SWITCH_MEDLOW, SWITCH_MEDLOW_LINKED),
        17 => Sample(Tool::Linker, SWITCH_CLANG, SWITCH_CLANG_LINKED),
        18 => Sample(Tool::Linker, POINTERS_CLANG, POINTERS_CLANG_LINKED),
        19 => Sample(Tool::Linker, MENU, MENU_LINKED),
        20 => Sample(Tool::Linker, TREE, TREE_LINKED),
        21 => Sample(Tool::Linker, SPANS, SPANS_LINKED),
        22 => Sample(Tool::Linker, SHARED, SHARED_LINKED),
        23 => Sample(Tool::Binutils, SLOTS, SLOTS_PROGRAM),
        24 => Sample(Tool::Binutils, ENTRIES, ENTRIES_PROGRAM),
        25 => Sample(Tool::Binutils, ORDER, ORDER_PROGRAM),
        26 => Sample(Tool::Linker, SLOTS, SLOTS_LINKED),
        27 => Sample(Tool::Linker, ENTRIES, ENTRIES_LINKED),
        _ => Sample(Tool::Linker, ORDER, ORDER_LINKED),
    }
}

/// Whether an object is as a tool says in these words.
fn is_as(alloc: Global, object: &Object, tool: Tool, words: &[u8]) -> bool {
    match tool {
        Tool::Readelf => compiled::is_described(alloc, object, words),
        Tool::Binutils => counts::is_as(alloc, object, words),
        Tool::Linker => linked::is_as(alloc, object, words),
    }
}

/// Whether a file is read as such an object.
fn is_read_as(alloc: Global, file: &[u8], tool: Tool, words: &[u8]) -> bool {
    match Object::read(alloc, file) {
        Ok(object) => is_as(alloc, &object, tool, words),
        Err(_) => false,
    }
}

/// Whether a sample is read as what is said of it.
fn is_right(alloc: Global, number: u32) -> bool {
    let Sample(tool, digits, words) = sample_of(number);
    match hex::decode(alloc, digits) {
        Ok(file) => is_read_as(alloc, &file, tool, words),
        Err(_) => false,
    }
}

#[test]
fn agrees_with_other_tools(rt: HostRuntime) {
    for number in 0..29 {
        assert!(rt; is_right(rt.alloc(), number), "sample {number}");
    }
}
