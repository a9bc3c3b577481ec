use elf_tables::Reloc;
use rv_word::Bytes;

/// A section of an object: its name without a NUL, its `sh_type`, `sh_flags`, `sh_size` and
/// `sh_addralign` (System V gABI, "Sections"), and its bytes in the file. A section of type
/// `SHT_NOBITS` has a size and no bytes.
#[derive(Clone, Copy)]
pub struct Section<'a> {
    pub name: &'a [u8],
    pub kind: u32,
    pub flags: u64,
    pub size: u64,
    pub align: u64,
    pub content: &'a [u8],
}

/// The relocations of one section: the name of the table without a NUL, the index of the section, from
/// 1 on, and its entries. A relocation names a symbol by its number, from 1 on.
#[derive(Clone, Copy)]
pub struct Relocations<'a> {
    pub name: &'a [u8],
    pub target: u32,
    pub entries: &'a [Reloc],
}

/// A symbol: its name without a NUL, and its `st_info`, `st_shndx`, `st_value` and `st_size` (System V
/// gABI, "Symbol Table").
#[derive(Drop)]
pub struct Symbol {
    pub name: Bytes,
    pub info: u8,
    pub section: u16,
    pub value: u64,
    pub size: u64,
}

/// What an object is made of: its `e_flags`, its sections, which have the indexes from 1 on, the tables
/// of relocations, which have the indexes after them, and its symbols, the local ones first, which have the
/// numbers from 1 on.
#[derive(Clone, Copy)]
pub struct Parts<'a> {
    pub flags: u32,
    pub sections: &'a [Section<'a>],
    pub relocations: &'a [Relocations<'a>],
    pub symbols: &'a [Symbol],
}
