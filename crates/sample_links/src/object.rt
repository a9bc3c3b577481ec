//! The file of an object by its text: its sections, its symbols, its relocations and changes of its bytes, with `;` between the
//! four, of which the last may be left out. Their elements have a space between them, and the fields of an element a comma:
//! `SORT,ALIGNMENT,WORDS` a section, from 1 on, its words in hexadecimal with points between them, or for zeros a size;
//! `NAME,BINDING,TYPE,SECTION,VALUE,SIZE` a symbol, from 1 on, where `-` is no name; `SECTION,OFFSET,TYPE,SYMBOL,ADDEND` a
//! relocation, whose symbol is the first of a name or `#NUMBER`; `OFFSET,DIGITS` bytes that are put in place of those there.

use elf_tables::Reloc;
use elf_tables::constants::{
    SHF_ALLOC, SHF_EXECINSTR, SHF_WRITE, SHN_ABS, SHN_COMMON, SHT_NOBITS, SHT_NOTE, SHT_PROGBITS,
    STB_GLOBAL, STB_LOCAL, STB_WEAK, STT_FUNC, STT_NOTYPE, STT_OBJECT,
};
use elf_writer::{Parts, Relocations, Section, Symbol, write_object};
use rv_word::Bytes;
use sample_hardened::put;
use std::alloc::Global;

/// More sections than any object has that is written here.
const MOST: usize = 100;

/// What all sections of a sort have.
#[derive(Clone, Copy)]
struct Sort {
    name: &'static [u8],
    kind: u32,
    flags: u64,
}

/// A section: how many bytes it has, those that stand in the file, and its relocations.
#[derive(Drop)]
struct Content {
    sort: Sort,
    align: u64,
    size: u64,
    bytes: Vec<u8>,
    relocations: Vec<Reloc>,
}

/// The field at a place of an element, from 0.
fn field(text: &str, at: usize) -> Option<&str> {
    text.split(',').nth(at)
}

/// The number at a place of an element.
fn number(text: &str, at: usize) -> Option<u64> {
    field(text, at)?.parse().ok()
}

/// The sort of a name.
fn sort_of(word: &str) -> Option<Sort> {
    let (name, kind, flags): (&'static [u8], u32, u64) = match word {
        "code" => (b".text", SHT_PROGBITS, SHF_ALLOC | SHF_EXECINSTR),
        "data" => (b".data", SHT_PROGBITS, SHF_ALLOC | SHF_WRITE),
        "zeros" => (b".bss", SHT_NOBITS, SHF_ALLOC | SHF_WRITE),
        "text" => (b".comment", SHT_PROGBITS, 0),
        "note" => (b".note", SHT_NOTE, SHF_ALLOC),
        "frames" => (b".eh_frame", SHT_PROGBITS, SHF_ALLOC),
        _ => return None,
    };
    Some(Sort { name, kind, flags })
}

/// A binding by its name or its number.
fn binding_of(word: &str) -> Option<u8> {
    match word {
        "LOCAL" => Some(STB_LOCAL),
        "GLOBAL" => Some(STB_GLOBAL),
        "WEAK" => Some(STB_WEAK),
        _ => word.parse().ok(),
    }
}

/// The type of a symbol by its name.
fn symbol_type(word: &str) -> Option<u8> {
    match word {
        "NOTYPE" => Some(STT_NOTYPE),
        "OBJECT" => Some(STT_OBJECT),
        "FUNC" => Some(STT_FUNC),
        _ => None,
    }
}

/// Where a symbol stands, by a name or the index of a section.
fn place_of(word: &str) -> Option<u16> {
    match word {
        "ABS" => Some(SHN_ABS),
        "COMMON" => Some(SHN_COMMON),
        _ => word.parse().ok(),
    }
}

/// The bytes of a name.
fn name_of(word: &str) -> &[u8] {
    if word == "-" { b"" } else { word.as_bytes() }
}

/// The symbol of an element.
fn symbol_of(alloc: Global, text: &str) -> Option<Symbol> {
    let binding = binding_of(field(text, 1)?)?;
    Some(Symbol {
        name: Bytes::of(Vec::from_slice(alloc, name_of(field(text, 0)?)).ok()?),
        info: (binding << 4) | symbol_type(field(text, 2)?)?,
        section: place_of(field(text, 3)?)?,
        value: number(text, 4)?,
        size: number(text, 5)?,
    })
}

/// The symbols of an object.
fn symbols_of(alloc: Global, texts: &str) -> Option<Vec<Symbol>> {
    let mut symbols = Vec::new(alloc);
    for text in texts.split(' ') {
        if !text.is_empty() {
            symbols.push(symbol_of(alloc, text)?).ok()?;
        }
    }
    Some(symbols)
}

/// The type of a relocation by its name (RISC-V ELF psABI, "Relocations").
fn relocation_type(word: &str) -> Option<u32> {
    match word {
        "NONE" => Some(0),
        "32" => Some(1),
        "64" => Some(2),
        "BRANCH" => Some(16),
        "JAL" => Some(17),
        "CALL" => Some(18),
        "CALL_PLT" => Some(19),
        "GOT_HI20" => Some(20),
        "PCREL_HI20" => Some(23),
        "PCREL_LO12_I" => Some(24),
        "PCREL_LO12_S" => Some(25),
        "HI20" => Some(26),
        "LO12_I" => Some(27),
        "LO12_S" => Some(28),
        "ADD32" => Some(35),
        "SUB32" => Some(39),
        _ => None,
    }
}

/// The number of a symbol, by the word for it.
fn symbol_number(symbols: &[Symbol], word: &str) -> Option<u32> {
    if let Some(number) = word.strip_prefix('#') {
        return number.parse().ok();
    }
    let k = symbols
        .iter()
        .position(|symbol| symbol.name.as_slice() == word.as_bytes())?;
    u32::try_from(k).ok()?.checked_add(1)
}

/// The relocation of an element.
fn relocation_of(symbols: &[Symbol], text: &str) -> Option<Reloc> {
    Some(Reloc {
        offset: number(text, 1)?,
        symbol: symbol_number(symbols, field(text, 3)?)?,
        kind: relocation_type(field(text, 2)?)?,
        addend: field(text, 4)?.parse().ok()?,
    })
}

/// The relocations of the section with an index.
fn relocations_of(
    alloc: Global,
    symbols: &[Symbol],
    texts: &str,
    section: u64,
) -> Option<Vec<Reloc>> {
    let mut relocations = Vec::new(alloc);
    for text in texts.split(' ') {
        if number(text, 0) == Some(section) {
            relocations.push(relocation_of(symbols, text)?).ok()?;
        }
    }
    Some(relocations)
}

/// The bytes of words.
fn bytes_of(alloc: Global, words: &str) -> Option<Vec<u8>> {
    let mut bytes = Vec::new(alloc);
    for word in words.split('.') {
        let word = u32::from_str_radix(word, 16).ok()?;
        bytes.extend_from_slice(&word.to_le_bytes()).ok()?;
    }
    Some(bytes)
}

/// The bytes that a section of a sort has in the file, and its size.
fn sized(alloc: Global, sort: Sort, words: &str) -> Option<(Vec<u8>, u64)> {
    if sort.kind == SHT_NOBITS {
        return Some((Vec::new(alloc), words.parse().ok()?));
    }
    let bytes = bytes_of(alloc, words)?;
    let size = bytes.len() as u64;
    Some((bytes, size))
}

/// The section of an element, with its relocations.
fn content_of(alloc: Global, text: &str, relocations: Vec<Reloc>) -> Option<Content> {
    let sort = sort_of(field(text, 0)?)?;
    let (bytes, size) = sized(alloc, sort, field(text, 2)?)?;
    Some(Content {
        sort,
        align: number(text, 1)?,
        size,
        bytes,
        relocations,
    })
}

/// The sections of an object.
fn contents_of(
    alloc: Global,
    symbols: &[Symbol],
    sections: &str,
    relocations: &str,
) -> Option<Vec<Content>> {
    let mut contents = Vec::new(alloc);
    let mut index: u64 = 1;
    for text in sections.split(' ') {
        if !text.is_empty() {
            let own = relocations_of(alloc, symbols, relocations, index)?;
            contents.push(content_of(alloc, text, own)?).ok()?;
            index = index.saturating_add(1);
        }
    }
    Some(contents)
}

/// The sections as the writer takes them.
fn sections_of<'a>(alloc: Global, contents: &'a [Content]) -> Option<Vec<Section<'a>>> {
    let mut sections = Vec::new(alloc);
    for content in contents {
        let section = Section {
            name: content.sort.name,
            kind: content.sort.kind,
            flags: content.sort.flags,
            size: content.size,
            align: content.align,
            content: &content.bytes,
        };
        sections.push(section).ok()?;
    }
    Some(sections)
}

/// The tables of relocations, of each section that has some.
fn tables_of<'a>(alloc: Global, contents: &'a [Content]) -> Option<Vec<Relocations<'a>>> {
    let mut tables = Vec::new(alloc);
    let mut target: u32 = 1;
    for content in contents {
        if !content.relocations.is_empty() {
            let table = Relocations {
                name: b".rela",
                target,
                entries: &content.relocations,
            };
            tables.push(table).ok()?;
        }
        target = target.saturating_add(1);
    }
    Some(tables)
}

/// The file of an object with these symbols and sections.
fn written(alloc: Global, symbols: &[Symbol], contents: &[Content]) -> Option<Vec<u8>> {
    let sections = sections_of(alloc, contents)?;
    let relocations = tables_of(alloc, contents)?;
    if sections.len() > MOST || relocations.len() > MOST {
        return None;
    }
    let parts = Parts {
        flags: 0,
        sections: &sections,
        relocations: &relocations,
        symbols,
    };
    write_object(alloc, &parts).ok()
}

/// Puts the bytes of a change into a file; none where they do not lie there.
fn change(alloc: Global, file: &mut [u8], text: &str) -> Option<()> {
    let at = usize::try_from(number(text, 0)?).ok()?;
    let Ok(bytes) = hex::decode(alloc, field(text, 1)?.as_bytes()) else {
        return None;
    };
    if put(file, at, &bytes) {
        Some(())
    } else {
        None
    }
}

/// Makes the changes of a file.
fn change_all(alloc: Global, file: &mut [u8], texts: &str) -> Option<()> {
    for text in texts.split(' ') {
        if !text.is_empty() {
            change(alloc, file, text)?;
        }
    }
    Some(())
}

/// The file of the object with a text.
pub fn file(alloc: Global, text: &str) -> Option<Vec<u8>> {
    let mut parts = text.split(';');
    let (sections, symbols, relocations) = (parts.next()?, parts.next()?, parts.next()?);
    let symbols = symbols_of(alloc, symbols)?;
    let contents = contents_of(alloc, &symbols, sections, relocations)?;
    let mut file = written(alloc, &symbols, &contents)?;
    change_all(alloc, &mut file, parts.next().unwrap_or(""))?;
    Some(file)
}
