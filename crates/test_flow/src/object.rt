//! The file of a row's object: section 1 with code, section 2 with 32 bytes of data, and section 3 with more code, if
//! the row has some.

use crate::row::{Row, field, number};
use elf_tables::Reloc;
use elf_tables::constants::{
    SHF_ALLOC, SHF_EXECINSTR, SHF_WRITE, SHT_PROGBITS, STB_GLOBAL, STT_FILE, STT_FUNC, STT_NOTYPE,
    STT_OBJECT,
};
use elf_writer::{Parts, Relocations, Section, Symbol, write_object};
use rv_word::Bytes;
use std::alloc::Global;

/// The words of the data.
const DATA: &str = "0 0 0 0 0 0 0 0";

/// A section's bytes and its relocations.
#[derive(Drop)]
struct Content {
    bytes: Vec<u8>,
    relocations: Vec<Reloc>,
}

/// The type of a symbol by its name.
fn symbol_type(name: &str) -> Option<u8> {
    match name {
        "NOTYPE" => Some(STT_NOTYPE),
        "OBJECT" => Some(STT_OBJECT),
        "FUNC" => Some(STT_FUNC),
        "FILE" => Some(STT_FILE),
        _ => None,
    }
}

/// The symbol of these words.
fn symbol_of(alloc: Global, text: &str) -> Option<Symbol> {
    let info = (STB_GLOBAL << 4) | symbol_type(field(text, 1)?)?;
    Some(Symbol {
        name: Bytes::of(Vec::from_slice(alloc, field(text, 0)?.as_bytes()).ok()?),
        info,
        section: u16::try_from(number(text, 2)?).ok()?,
        value: number(text, 3)?,
        size: number(text, 4)?,
    })
}

/// The symbols of a row.
fn symbols_of(alloc: Global, texts: &str) -> Option<Vec<Symbol>> {
    let mut symbols = Vec::new(alloc);
    for text in texts.split(' ') {
        symbols.push(symbol_of(alloc, text)?).ok()?;
    }
    Some(symbols)
}

/// The type of a relocation by its name (RISC-V ELF psABI, "Relocations").
fn relocation_type(name: &str) -> Option<u32> {
    match name {
        "NONE" => Some(0),
        "32" => Some(1),
        "64" => Some(2),
        "BRANCH" => Some(16),
        "JAL" => Some(17),
        "CALL" => Some(18),
        "CALL_PLT" => Some(19),
        "PCREL_HI20" => Some(23),
        "PCREL_LO12_I" => Some(24),
        "HI20" => Some(26),
        "LO12_I" => Some(27),
        "LO12_S" => Some(28),
        "ADD8" => Some(33),
        "ADD16" => Some(34),
        "ADD32" => Some(35),
        "ADD64" => Some(36),
        "SUB8" => Some(37),
        "SUB16" => Some(38),
        "SUB32" => Some(39),
        "SUB64" => Some(40),
        "RELAX" => Some(51),
        _ => None,
    }
}

/// The number of the first symbol with a name.
fn symbol_number(symbols: &[Symbol], name: &str) -> Option<u32> {
    let k = symbols
        .iter()
        .position(|symbol| symbol.name.as_slice() == name.as_bytes())?;
    u32::try_from(k + 1).ok()
}

/// The relocation of these words.
fn relocation_of(symbols: &[Symbol], text: &str) -> Option<Reloc> {
    Some(Reloc {
        offset: number(text, 1)?,
        symbol: symbol_number(symbols, field(text, 3)?)?,
        kind: relocation_type(field(text, 2)?)?,
        addend: field(text, 4)?.parse().ok()?,
    })
}

/// Those relocations of a row that are of a section.
fn relocations_of(
    alloc: Global,
    symbols: &[Symbol],
    texts: &str,
    section: u64,
) -> Option<Vec<Reloc>> {
    let mut relocations = Vec::new(alloc);
    for text in texts.split(' ') {
        if number(text, 0) == Some(section) {
            relocations.push(relocation_of(symbols, text)?).ok()?;
        }
    }
    Some(relocations)
}

/// The bytes of some words.
fn bytes_of(alloc: Global, words: &str) -> Option<Vec<u8>> {
    let mut bytes = Vec::new(alloc);
    for word in words.split(' ') {
        if !word.is_empty() {
            let word = u32::from_str_radix(word, 16).ok()?;
            bytes.extend_from_slice(&word.to_le_bytes()).ok()?;
        }
    }
    Some(bytes)
}

/// What a section of a row holds that has these words.
fn content_of(
    alloc: Global,
    row: &Row,
    symbols: &[Symbol],
    section: u64,
    words: &str,
) -> Option<Content> {
    Some(Content {
        bytes: bytes_of(alloc, words)?,
        relocations: relocations_of(alloc, symbols, row.relocations, section)?,
    })
}

/// A section with these flags beside that it is in memory.
fn section<'a>(name: &'a [u8], flags: u64, content: &'a Content) -> Section<'a> {
    Section {
        name,
        kind: SHT_PROGBITS,
        flags: SHF_ALLOC | flags,
        size: content.bytes.len() as u64,
        align: 4,
        content: &content.bytes,
    }
}

/// The relocations of the section with an index.
fn relocations<'a>(name: &'a [u8], target: u32, content: &'a Content) -> Relocations<'a> {
    Relocations {
        name,
        target,
        entries: &content.relocations,
    }
}

/// The file of an object with one section of code.
fn with_one(alloc: Global, symbols: &[Symbol], code: &Content, data: &Content) -> Option<Vec<u8>> {
    let parts = Parts {
        flags: 0,
        sections: &[
            section(b".text", SHF_EXECINSTR, code),
            section(b".data", SHF_WRITE, data),
        ],
        relocations: &[
            relocations(b".rela.text", 1, code),
            relocations(b".rela.data", 2, data),
        ],
        symbols,
    };
    write_object(alloc, &parts).ok()
}

/// The file of an object with two sections of code.
fn with_two(
    alloc: Global,
    symbols: &[Symbol],
    code: &Content,
    data: &Content,
    more: &Content,
) -> Option<Vec<u8>> {
    let parts = Parts {
        flags: 0,
        sections: &[
            section(b".text", SHF_EXECINSTR, code),
            section(b".data", SHF_WRITE, data),
            section(b".text.more", SHF_EXECINSTR, more),
        ],
        relocations: &[
            relocations(b".rela.text", 1, code),
            relocations(b".rela.data", 2, data),
            relocations(b".rela.text.more", 3, more),
        ],
        symbols,
    };
    write_object(alloc, &parts).ok()
}

/// The file of a row's object.
pub(crate) fn file(alloc: Global, row: &Row) -> Option<Vec<u8>> {
    let symbols = symbols_of(alloc, row.symbols)?;
    let data = content_of(alloc, row, &symbols, 2, DATA)?;
    match row.code.split_once('/') {
        Some((words, more)) => {
            let code = content_of(alloc, row, &symbols, 1, words)?;
            let more = content_of(alloc, row, &symbols, 3, more)?;
            with_two(alloc, &symbols, &code, &data, &more)
        }
        None => {
            let code = content_of(alloc, row, &symbols, 1, row.code)?;
            with_one(alloc, &symbols, &code, &data)
        }
    }
}
