use crate::by_hand::add_extent;
use crate::kinds::KINDS;
use elf_object::{Object, Relocs};
use obj_check::ItemFault;
use obj_input::ItemKind;
use obj_items::items;
use obj_program::Items;
use rv_word::End;
use std::alloc::Global;
use std::fmt::Write;

/// Adds a word and a number, unless that is 0.
fn add_some(text: &mut String, words: &str, count: u64) -> bool {
    count == 0 || writeln!(text, "{words} {count}").is_ok()
}

/// How many places are of this kind.
fn count_of(items: &Items, kind: ItemKind) -> u64 {
    let mut count: u64 = 0;
    for place in items.places() {
        if place.kind() == kind {
            count = count.saturating_add(1);
        }
    }
    count
}

/// Adds how many places are of each kind.
fn add_kinds(text: &mut String, items: &Items) -> bool {
    for (kind, words) in &KINDS {
        if !add_some(text, *words, count_of(items, *kind)) {
            return false;
        }
    }
    true
}

/// How many instructions have their immediate from a relocation, and of how many one takes the address.
fn marks(items: &Items) -> (u64, u64) {
    let mut patched: u64 = 0;
    let mut taken: u64 = 0;
    for k in 0..items.count() {
        patched = patched.saturating_add(u64::from(items.patched(k)));
        taken = taken.saturating_add(u64::from(items.pointed(k)));
    }
    (patched, taken)
}

/// Adds how many marks and functions there are.
fn add_marks(text: &mut String, items: &Items) -> bool {
    let (patched, taken) = marks(items);
    let functions = items.funcs();
    writeln!(
        text,
        "patched {patched}\ntaken {taken}\nfunctions {functions}"
    )
    .is_ok()
}

/// How many of some relocations are of this type.
fn count_in(relocs: &Relocs, number: u32) -> u64 {
    let mut count: u64 = 0;
    for j in 0..relocs.count() {
        if relocs.get(j).kind == number {
            count = count.saturating_add(1);
        }
    }
    count
}

/// How many relocations of data are of this type.
fn data_count(object: &Object, number: u32) -> u64 {
    let mut count: u64 = 0;
    for k in 0..object.sections() {
        if !object.is_code(k) {
            count = count.saturating_add(count_in(&object.relocs(k), number));
        }
    }
    count
}

/// Adds how many relocations of data there are of each type.
fn add_relocations(text: &mut String, object: &Object) -> bool {
    for number in 0..64 {
        let count = data_count(object, number);
        if count != 0 && writeln!(text, "relocation {number} {count}").is_err() {
            return false;
        }
    }
    true
}

/// Whether an object with this program is described by these words.
fn is_described(alloc: Global, object: &Object, items: &Items, words: &[u8]) -> bool {
    let mut text = String::new(alloc);
    add_some(&mut text, "places", items.count())
        && add_kinds(&mut text, items)
        && add_marks(&mut text, items)
        && add_relocations(&mut text, object)
        && add_extent(&mut text, items)
        && text.as_bytes() == words
}

/// Whether these words tell why there is no program.
fn is_told(alloc: Global, end: &End<ItemFault>, words: &[u8]) -> bool {
    let mut text = String::new(alloc);
    writeln!(text, "refused {end}").is_ok() && text.as_bytes() == words
}

/// Whether an object is as these words say.
pub(crate) fn is_as(alloc: Global, object: &Object, words: &[u8]) -> bool {
    match items(alloc, object) {
        Ok(items) => is_described(alloc, object, &items, words),
        Err(end) => is_told(alloc, &end, words),
    }
}
