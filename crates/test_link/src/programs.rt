//! Objects as one program, and which of their symbols defines a name.

use crate::orders::{ORDERS, READER, SORTS};
use crate::rows;
use crate::told::told;
use sample_links::files_of;
use std::alloc::Global;

/// A table of objects, and how many rows it has.
fn table(number: u32) -> (&'static [u8], usize) {
    match number {
        0 => (rows::NAMES, 22),
        1 => (rows::COMMONS, 4),
        2 => (rows::REFUSED, 26),
        3 => (rows::ENTRIES, 23),
        4 => (rows::SLOTS, 19),
        _ => (rows::KINDS, 7),
    }
}

/// Whether objects are told in these words when this is asked.
fn are_told(alloc: Global, texts: &str, asked: &str, words: &str) -> bool {
    let Some(files) = files_of(alloc, texts) else {
        return false;
    };
    match told(alloc, &files, asked) {
        Some(text) => text.as_str() == words,
        None => false,
    }
}

/// Whether the objects of a row are told as it says.
fn is_right(alloc: Global, row: &str) -> Option<bool> {
    let mut fields = row.split('|');
    let _name = fields.next()?;
    let (texts, asked, words) = (fields.next()?, fields.next()?, fields.next()?);
    Some(are_told(alloc, texts, asked, words))
}

/// The first row of a table that is not right, or an empty text.
fn first_wrong(alloc: Global, number: u32) -> &'static str {
    let (table, count) = table(number);
    for row in sample_programs::rows(table, count).lines() {
        if is_right(alloc, row) != Some(true) {
            return row;
        }
    }
    ""
}

#[test]
fn tells_programs(rt: HostRuntime) {
    for number in 0..6 {
        assert_eq!(rt; first_wrong(rt.alloc(), number), "");
    }
}

/// The text of the object of a sort.
fn object_of(sort: &str) -> Option<&'static str> {
    for line in sample_programs::rows(SORTS, 9).lines() {
        match line.split_once('|') {
            Some((name, text)) if name == sort => return Some(text),
            _ => {}
        }
    }
    None
}

/// The texts of the object with the pointer and those of sorts.
fn texts_of(alloc: Global, sorts: &str) -> Option<String> {
    let mut texts = String::from_str(alloc, READER).ok()?;
    for sort in sorts.split(' ') {
        texts.push_str("/").ok()?;
        texts.push_str(object_of(sort)?).ok()?;
    }
    Some(texts)
}

/// Whether objects have these data, or are refused in these words.
fn have_data(alloc: Global, texts: &str, words: &str) -> bool {
    let Some(files) = files_of(alloc, texts) else {
        return false;
    };
    match told(alloc, &files, "main") {
        Some(text) => {
            let text = text.as_str();
            text.strip_prefix("enter 40000040, ").unwrap_or(text) == words
        }
        None => false,
    }
}

/// Whether objects in a row's order have the data that it tells.
fn is_linked(alloc: Global, row: &str) -> Option<bool> {
    let (sorts, words) = row.split_once('|')?;
    let texts = texts_of(alloc, sorts)?;
    Some(have_data(alloc, texts.as_str(), words))
}

/// Each name is defined by the symbol that a linker takes.
#[test]
fn takes_what_a_linker_takes(rt: HostRuntime) {
    for row in sample_programs::rows(ORDERS, 81).lines() {
        assert_eq!(rt; is_linked(rt.alloc(), row), Some(true), "{row}");
    }
}
