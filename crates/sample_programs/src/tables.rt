use std::alloc::Global;
use std::fmt::Display;

/// Whether a value is printed as these words.
pub fn is_told_as<T: Display>(alloc: Global, value: &T, words: &str) -> bool {
    match value.to_string(alloc) {
        Ok(text) => text.as_str() == words,
        Err(_) => false,
    }
}

/// The rows of a table that has so many, and otherwise one row that is right in no table.
pub fn rows(table: &'static [u8], count: usize) -> &'static str {
    let rows = str::from_utf8(table).unwrap_or("");
    if rows.lines().count() == count {
        rows
    } else {
        "a table with too few or too many rows"
    }
}
