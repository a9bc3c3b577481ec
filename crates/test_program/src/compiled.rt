use elf_object::{Object, Section, SymbolEntry};
use std::alloc::{AllocError, Global};
use std::fmt::Write;

/// A name, a dash for an empty one.
fn in_words(name: &[u8]) -> &str {
    if name.is_empty() {
        "-"
    } else {
        str::from_utf8(name).unwrap_or("no text")
    }
}

/// The flags of a section, a dash for none.
fn flags_in_words(section: &Section<'_>) -> &'static str {
    match (
        section.is_writable(),
        section.is_allocated(),
        section.is_executable(),
    ) {
        (false, false, false) => "-",
        (false, true, false) => "A",
        (false, true, true) => "AX",
        (true, true, false) => "WA",
        _ => "other flags",
    }
}

/// Adds the line of a section with so many relocations.
fn add_section(text: &mut String, section: &Section<'_>, count: u64) -> Result<(), AllocError> {
    let (kind, size, name) = (section.kind, section.size, in_words(section.name));
    let flags = flags_in_words(section);
    writeln!(text, "section {kind} {size} {flags} {name} {count}")
}

/// Adds the line of a symbol with this name.
fn add_symbol(text: &mut String, symbol: &SymbolEntry, name: &[u8]) -> Result<(), AllocError> {
    let (kind, binding, name) = (symbol.kind(), symbol.binding(), in_words(name));
    let (section, value) = (symbol.section, symbol.value);
    writeln!(text, "symbol {kind} {binding} {section} {value} {name}")
}

/// Adds the lines of the sections of an object.
fn add_sections(text: &mut String, object: &Object) -> bool {
    for k in 0..object.sections() {
        if add_section(text, &object.section(k), object.relocs(k).count()).is_err() {
            return false;
        }
    }
    true
}

/// Adds the lines of the symbols of an object.
fn add_symbols(text: &mut String, object: &Object) -> bool {
    for k in 0..object.symbols() {
        if add_symbol(text, &object.symbol_entry(k), object.symbol(k).name).is_err() {
            return false;
        }
    }
    true
}

/// Whether an object is described by these words.
pub(crate) fn is_described(alloc: Global, object: &Object, words: &[u8]) -> bool {
    let mut text = String::new(alloc);
    add_sections(&mut text, object) && add_symbols(&mut text, object) && text.as_bytes() == words
}
