use cfi_tool::rvcfi;
use std::alloc::Global;
use std::str::Split;
use tool_io::{Files, MemFiles, MemSink, Sink};

/// The words of a command line, which has a comma between each two; none where there is no memory.
fn words(alloc: Global, line: &str) -> Option<Vec<String>> {
    let mut words = Vec::new(alloc);
    for word in line.split(',') {
        let Ok(word) = String::from_str(alloc, word) else {
            return None;
        };
        let Ok(()) = words.push(word) else {
            return None;
        };
    }
    Some(words)
}

/// The status of the tool on some words.
fn status_of<F: Files, K: Sink>(alloc: Global, words: &[String], files: &mut F, out: &mut K) -> u8 {
    rvcfi(alloc, words, files, out)
}

/// Whether the tool ends with a status on a command line, which has a comma between each two words.
pub fn ends_with<F: Files, K: Sink>(
    alloc: Global,
    line: &str,
    files: &mut F,
    out: &mut K,
    status: u8,
) -> bool {
    let Some(words) = words(alloc, line) else {
        return false;
    };
    status_of(alloc, &words, files, out) == status
}

/// Whether two texts are what was put, one after the other.
pub fn holds(out: &MemSink, text: &str, more: &str) -> bool {
    out.bytes().strip_prefix(text.as_bytes()) == Some(more.as_bytes())
}

/// Whether the tool ends with a status on a command line, and puts a text.
pub fn answers(alloc: Global, line: &str, files: &mut MemFiles, status: u8, text: &str) -> bool {
    let mut out = MemSink::new(alloc, Vec::new(alloc));
    ends_with(alloc, line, files, &mut out, status) && holds(&out, text, "")
}

/// The rows of a table, which has a `;` between each two.
pub fn rows(table: &[u8]) -> Split<'_, char> {
    str::from_utf8(table).unwrap_or("").split(';')
}

/// Whether a row is a command line with its status and text, as `rvcfi = 2: usage ..`.
pub fn is_answered(alloc: Global, row: &str, files: &mut MemFiles) -> bool {
    let (line, told) = row.split_once(" = ").unwrap_or((row, ""));
    let (status, text) = told.split_once(": ").unwrap_or((told, ""));
    let status = status.parse().unwrap_or(u8::MAX);
    answers(alloc, line, files, status, text)
}

/// The first row of a table that is not answered over these files, or a text that is none where the table has not so many rows.
pub fn first_wrong<'t>(
    alloc: Global,
    files: &mut MemFiles,
    table: &'t [u8],
    count: usize,
) -> Option<&'t str> {
    if rows(table).count() != count {
        return Some("a table with too few or too many rows");
    }
    for row in rows(table) {
        if !is_answered(alloc, row, files) {
            return Some(row);
        }
    }
    None
}
