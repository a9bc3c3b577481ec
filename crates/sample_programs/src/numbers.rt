//! Rows of tables of tests: a line each, of a name and hexadecimal numbers.

use std::str::Lines;

/// The lines of a table.
pub fn rows(table: &[u8]) -> Lines<'_> {
    str::from_utf8(table).unwrap_or("").lines()
}

/// The name that a row begins with.
pub fn name(row: &str) -> &str {
    row.split(' ').next().unwrap_or("")
}

/// The number at a place of a row, its name at 0; none where no number stands there.
pub fn number(row: &str, at: usize) -> Option<u64> {
    let word = row.split(' ').nth(at)?;
    u64::from_str_radix(word, 16).ok()
}

/// The same, where it is below 2 to the 32.
pub fn word(row: &str, at: usize) -> Option<u32> {
    u32::try_from(number(row, at)?).ok()
}
