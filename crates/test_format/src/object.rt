use crate::common::put;
use elf_object::{Object, Reloc, Relocs, Section, Symbol};
use elf_tables::constants::{SHT_NOBITS, STB_GLOBAL, STT_OBJECT};
use sample_programs::{is_told_as, rows};
use std::alloc::{AllocError, Global};

/// The sizes of the fields of a header, of a section's header, of a symbol and of a relocation.
const HEADER: &[usize] = &[4, 4, 8, 2, 2, 4, 8, 8, 8, 4, 2, 2, 2, 2, 2, 2];

const SECTION: &[usize] = &[4, 4, 8, 8, 8, 8, 4, 4, 8, 8];

const SYMBOL: &[usize] = &[4, 1, 1, 2, 8, 8];

const RELOCATION: &[usize] = &[8, 4, 4, 8];

/// The fields of the object that the tests change: where they begin, their values and their sizes.
/// A symbol has a name, info, other, section, value and size; a section's header a name, type, flags,
/// address, offset, size, link, info, alignment and entry size.
#[rattlefmt::skip]
static FIELDS: [(usize, &[u64], &[usize]); 25] = [
    (0, &[0x464c457f, 0x010102, 0, 1, 243, 1, 0, 0, 512, 0, 64, 0, 0, 64, 10, 9], HEADER),
    (72, &[4, 51, 1, u64::MAX - 1], RELOCATION),
    (112, &[0, 57, 1, 0], RELOCATION),
    (136, &[0, 0, 0, 0, 0, 0], SYMBOL),
    (160, &[1, 0x12, 0, 1, 0, 8], SYMBOL), // main, a function
    (184, &[0, 3, 0, 1, 0, 0], SYMBOL),
    (208, &[0, 0x10, 0, 0xfff1, u64::MAX, 0], SYMBOL), // absolute
    (232, &[1, 0x11, 0, 0xfff2, 8, 4], SYMBOL), // common
    (256, &[3, 0x10, 0, 0, 9, 0], SYMBOL), // undefined
    (280, &[5, 0x11, 0, 3, 8, 0], SYMBOL),
    (304, &[0, 0x11, 0, 4, 16, 0], SYMBOL),
    (328, &[0, 0x10, 0, 5, 1000, 0], SYMBOL), // in a section that is not kept
    (352, &[0, 0, 0, 2, 1000, 0], SYMBOL),
    (376, &[0, 4, 0, 0xfff1, 0, 0], SYMBOL), // a file
    (400, &[0, 0, 0, 1, 4, 0], SYMBOL),
    (512, &[0, 0, 0, 0, 0, 0, 0, 0, 0, 0], SECTION),
    (576, &[1, 1, 6, 0, 64, 8, 0, 0, 4, 0], SECTION), // .text
    (640, &[7, 4, 0x40, 0, 72, 24, 7, 1, 8, 24], SECTION), // .rela.text
    (704, &[18, 1, 3, 0, 96, 8, 0, 0, 8, 0], SECTION), // .data
    (768, &[24, 8, 3, 0, 104, 16, 0, 0, 8, 0], SECTION), // .bss
    (832, &[29, 1, 2, 0, 104, 8, 0, 0, 8, 0], SECTION), // .eh_frame
    (896, &[39, 4, 0x40, 0, 112, 24, 7, 5, 8, 24], SECTION), // .rela.eh_frame
    (960, &[54, 2, 0, 0, 136, 288, 8, 12, 8, 24], SECTION), // .symtab
    (1024, &[62, 3, 0, 0, 424, 6, 0, 0, 1, 0], SECTION), // .strtab
    (1088, &[70, 3, 0, 0, 432, 80, 0, 0, 1, 0], SECTION), // .shstrtab
];

/// The names of its sections.
const NAMES: &[u8] =
    b"\x00.text\x00.rela.text\x00.data\x00.bss\x00.eh_frame\x00.rela.eh_frame\x00.symtab\x00.strtab\x00.shstrtab\x00";

/// What is changed, the bytes from an offset on in hexadecimal, and what is wrong then, with `|` between.
static CHANGES: &[u8] = b"\
    32-bit class|4=01|NotElf\n\
    high byte first|5=02|NotElf\n\
    no version|6=00|NotElf\n\
    another system|7=03|none\n\
    executable|16=02|NotRelocatable 2\n\
    executable of another machine|16=02 18=3e|NotRelocatable 2\n\
    another machine and flags|18=3e 48=01|NotRiscv 62\n\
    compressed instructions|48=01|Flags 1\n\
    double floats|48=04|Flags 4\n\
    total store order|48=10|none\n\
    total store order and compressed|48=11|Flags 17\n\
    headers past the end|40=01|Truncated 513\n\
    headers whose end wraps to 0|40=80fdffffffffffff|Truncated 18446744073709550976\n\
    one header more|60=0b|Truncated 512\n\
    end of a section wraps to 0|728=08 736=f8ffffffffffffff|Truncated 8\n\
    a section longer than the file|736=2104|Truncated 96\n\
    a section to the end of the file|736=2004|none\n\
    the first section that leaves the file|728=7e04 856=7d04|Truncated 1150\n\
    no bytes of a section without bytes|800=000000000001|none\n\
    no bytes of section 0|536=0000000000000080 544=0000000000000080|none\n\
    truncated before its tables|58=3f 856=d007|Truncated 2000\n\
    size of section headers|58=3f|BadTable 0\n\
    headers but no sections|60=00|BadTable 0\n\
    no sections|40=0000 60=00|none\n\
    names in no string table|62=01|BadTable 0\n\
    names in no section|62=0a|BadTable 0\n\
    a name past the names|704=50|BadTable 3\n\
    a name at the last byte|704=4f|none\n\
    names without a last NUL|511=78|BadTable 9\n\
    names of another table|62=08|BadTable 2\n\
    other symbols|708=02 712=00 744=08 760=18 736=2001|BadTable 2\n\
    more symbols|708=02 712=00 744=08 760=18 736=2001 680=03|BadTable 7\n\
    symbols of another size|1016=19|BadTable 7\n\
    a part of a symbol|992=1f|BadTable 7\n\
    symbols without names|1000=01|BadTable 7\n\
    symbols with names in no section|1000=0a|BadTable 7\n\
    relocations of another size|696=17|BadTable 2\n\
    a part of a relocation|672=17|BadTable 2\n\
    relocations without symbols|680=08|BadTable 2\n\
    relocations twice of one section|940=01|BadTable 6\n\
    relocations without addends|900=09 940=01|BadTable 6\n\
    relocations without addends of a dropped section|900=09|none\n\
    relocations of no section|940=0a|BadTable 6\n\
    relocations without addends of no section|900=09 940=0a|BadTable 6\n\
    any relocations of a dropped section|928=17 952=01 936=00|none\n\
    a wrong table before a wrong kind|584=07 1016=19|BadTable 7\n\
    writable code|584=07|SectionKind 1\n\
    alignment 3|624=03|SectionKind 1\n\
    a group of sections|580=11|SectionKind 1\n\
    a group that is not kept|900=11|SectionKind 6\n\
    code without bytes|580=08|SectionKind 1\n\
    a part of an instruction|608=06|SectionKind 1\n\
    code aligned at 2 to the 63|624=0000000000000080|none\n\
    code aligned at more|624=0100000000000080|SectionKind 1\n\
    initialisers|708=0e|SectionKind 3\n\
    thread-local data|712=0304|SectionKind 3\n\
    data aligned at 4096|752=0010|none\n\
    data aligned at 8192|752=0020|SectionKind 3\n\
    a note|708=07 712=07|none\n\
    unwinding with other flags|840=07|none\n\
    the same with a shorter name|840=07 832=1e|SectionKind 5\n\
    the same with a longer name|840=07 832=27|SectionKind 5\n\
    not in memory|712=0104 708=0e|none\n\
    a wrong kind before a wrong symbol|624=03 164=1a|SectionKind 1\n\
    a function found at run time|164=1a|BadSymbol 1\n\
    a thread-local symbol|164=16|BadSymbol 1\n\
    a symbol nowhere|166=f3ff|BadSymbol 1\n\
    a symbol in no section|166=0a|BadSymbol 1\n\
    a symbol past its section|168=09|BadSymbol 1\n\
    a symbol at its section's end|168=08|none\n\
    a symbol past zeros|312=11|BadSymbol 7\n\
    a symbol's name past the names|160=06|BadSymbol 1\n\
    symbols' names without a last NUL|429=78|BadSymbol 1\n\
    a common aligned at 3|240=03|BadSymbol 4\n\
    a common aligned at 4096|240=0010|none\n\
    a common aligned at 8192|240=0020|BadSymbol 4\n\
    a common aligned at 0|240=00|none\n\
    any symbol of number 0|136=ffffffffffffffffffffffffffffffffffffffffffffffff|none\n\
    a relocation names no symbol|84=0c|BadSymbol 12\n\
    a relocation names the last number|84=ffffffff|BadSymbol 4294967295\n\
    a dropped relocation names no symbol|124=0c|none\n\
    two relocations name no symbol|84=14 940=03 124=0d|BadSymbol 13\n\
    a wrong symbol before one that is not there|84=0c 332=06|BadSymbol 8\n\
    no symbols, and number 1 named|992=0000|BadSymbol 1\n\
    no symbols, and number 0 named|992=0000 84=00|BadSymbol 0\n\
";

/// How many sections the object says that it has, how long it is made, with zeros past its own end,
/// and what is wrong then.
static LENGTHS: [(u16, usize, &str); 8] = [
    (10, 0, "NotElf"),
    (10, 63, "NotElf"),
    (10, 64, "Truncated 512"),
    (10, 384, "Truncated 512"),
    (10, 1151, "Truncated 512"),
    (10, 1152, "none"),
    (0xfeff, 512 + 64 * 0xfeff, "none"),
    (0xff00, 512 + 64 * 0xff00, "BadTable 0"),
];

/// Puts fields of these sizes, one after the other, the lowest byte of each first.
fn put_fields(file: &mut [u8], at: usize, values: &[u64], sizes: &[usize]) {
    let mut at = at;
    for k in 0..values.len().min(sizes.len()) {
        let size = sizes[k].min(8);
        put(file, at, &values[k].to_le_bytes()[..size]);
        at = at.saturating_add(size);
    }
}

/// Puts the fields of the object.
fn put_all_fields(file: &mut [u8]) {
    for (at, values, sizes) in &FIELDS {
        put_fields(file, *at, values, sizes);
    }
}

/// The object: its fields, its code, the names of its symbols and of its sections, and else zeros.
pub(crate) fn object() -> [u8; 1152] {
    let mut file = [0; 1152];
    put_all_fields(&mut file);
    put(&mut file, 64, b"\x13\x05\x70\x00\x67\x80\x00\x00");
    put(&mut file, 424, b"\x00main");
    put(&mut file, 432, NAMES);
    file
}

/// Makes one change, as `16=02` puts a 2 at offset 16. It is false where the text is not understood, or
/// the change is none.
fn change(alloc: Global, file: &mut [u8], text: &str) -> bool {
    let Some((offset, digits)) = text.split_once('=') else {
        return false;
    };
    match (offset.parse::<usize>(), hex::decode(alloc, digits)) {
        (Ok(at), Ok(bytes)) => put(file, at, &bytes),
        _ => false,
    }
}

/// Makes the changes of a row. It is false where one of them is none.
fn change_all(alloc: Global, file: &mut [u8], changes: &str) -> bool {
    for text in changes.split(' ') {
        if !change(alloc, file, text) {
            return false;
        }
    }
    true
}

/// Whether a file has this fault, in words.
fn has_fault(alloc: Global, file: &[u8], expected: &str) -> bool {
    match Object::read(alloc, file) {
        Ok(_) => expected == "none",
        Err(end) => is_told_as(alloc, &end, expected),
    }
}

/// Whether the object with these changes has this fault.
fn is_faulty(alloc: Global, changes: &str, expected: &str) -> bool {
    let mut file = object();
    change_all(alloc, &mut file, changes) && has_fault(alloc, &file, expected)
}

/// Whether a row says what is wrong with the object that it changes.
fn is_right(alloc: Global, row: &str) -> bool {
    let Some((_, rest)) = row.split_once('|') else {
        return false;
    };
    match rest.split_once('|') {
        Some((changes, expected)) => is_faulty(alloc, changes, expected),
        None => false,
    }
}

#[test]
fn has_the_first_fault(rt: HostRuntime) {
    for row in rows(CHANGES, 85).lines() {
        assert!(rt; is_right(rt.alloc(), row), "{row}");
    }
}

/// The object with so many sections, of this length.
fn resized(alloc: Global, sections: u16, len: usize) -> Result<Vec<u8>, AllocError> {
    let mut object = object();
    put(&mut object, 60, &sections.to_le_bytes());
    let mut file = Vec::from_slice(alloc, &object)?;
    file.resize(len, 0)?;
    Ok(file)
}

/// Whether a row says what is wrong with the object of its length.
fn ends_so(alloc: Global, row: &(u16, usize, &str)) -> bool {
    match resized(alloc, row.0, row.1) {
        Ok(file) => has_fault(alloc, &file, row.2),
        Err(_) => false,
    }
}

#[test]
fn ends_where_it_says(rt: HostRuntime) {
    for row in &LENGTHS {
        assert!(rt; ends_so(rt.alloc(), row), "{} bytes", row.1);
    }
}

/// The section of code.
static TEXT: Section<'static> = Section {
    name: b".text",
    kind: 1,
    flags: 6,
    size: 8,
    align: 4,
    bytes: b"\x13\x05\x70\x00\x67\x80\x00\x00",
};

/// The common symbol, number 4.
static COMMON: Symbol<'static> = Symbol {
    name: b"main",
    info: 0x11,
    shndx: 0xfff2,
    value: 8,
    size: 4,
};

/// Names that symbols may have. The table of names has `main`, of which one symbol has the end, and one the empty end.
static NAMED: [&[u8]; 8] = [
    b"main",
    b"mai",
    b"mainx",
    b"main\x00",
    b"",
    b"in",
    b"i",
    b"in\x00main",
];

/// The relocation of `main`.
static RELAX: Reloc = Reloc {
    offset: 4,
    symbol: 1,
    kind: 51,
    addend: -2,
};

/// Whether the object has its sections: the bytes of code, none of `.bss`, those that are kept, and those of code.
fn has_sections(object: &Object) -> bool {
    object.sections() == 10
        && object.section(1) == TEXT
        && object.section(4).bytes.is_empty()
        && object.is_kept(1)
        && !object.is_kept(5)
        && object.is_code(1)
        && !object.is_code(3)
}

/// Whether the object says of its sections without their names what it says with them.
fn has_headers(object: &Object) -> bool {
    object.sections() == 10
        && object.header(1).size == 8
        && object.header(4).kind == SHT_NOBITS
        && object.content(1) == TEXT.bytes
        && object.content(4).is_empty()
}

/// Whether the object has its symbols.
fn has_symbols(object: &Object) -> bool {
    object.symbols() == 12
        && object.symbol(4) == COMMON
        && object.symbol_entry(4).value == 8
        && COMMON.kind() == STT_OBJECT
        && COMMON.binding() == STB_GLOBAL
}

/// Whether the symbol has just this one of the names.
fn has_only_name(object: &Object, number: u64, name: &[u8]) -> bool {
    for other in &NAMED {
        if number < object.symbols() && object.symbol_has_name(number, other) != (*other == name) {
            return false;
        }
    }
    true
}

/// Whether symbols of the object have their names, and no others.
fn has_names(object: &Object) -> bool {
    object.symbols() == 12
        && has_only_name(object, 1, b"main")
        && has_only_name(object, 5, b"in")
        && has_only_name(object, 6, b"")
}

/// Whether a section has just one relocation, the one of `main`.
fn is_relaxed(relocs: &Relocs) -> bool {
    relocs.count() == 1 && relocs.get(0) == RELAX
}

/// Whether the object has its relocations: one of code, and none of a section that is dropped.
fn has_relocations(object: &Object) -> bool {
    object.sections() == 10 && is_relaxed(&object.relocs(1)) && object.relocs(5).count() == 0
}

/// Whether the object has its sections, its symbols with their names, and its relocations.
fn has_parts(object: &Object) -> bool {
    has_sections(object)
        && has_headers(object)
        && has_symbols(object)
        && has_names(object)
        && has_relocations(object)
}

/// Whether the object is read with its parts.
fn is_read_with_parts(alloc: Global) -> bool {
    match Object::read(alloc, &object()) {
        Ok(object) => has_parts(&object),
        Err(_) => false,
    }
}

#[test]
fn has_its_parts(rt: HostRuntime) {
    assert!(rt; is_read_with_parts(rt.alloc()));
}
