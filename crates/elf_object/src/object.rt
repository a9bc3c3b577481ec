ghost use Rattle.std.specs.Prelude.{◌≡◌, ◌≢◌, ◌<◌, ◌/◌, None, Some, IsSome, [], unwrap_or, length, drop, true};
ghost use Rattle.elf_bytes.specs.Fields.{string_of};
ghost use Rattle.elf_tables.specs.Header.{e_shnum};
ghost use Rattle.elf_tables.specs.Section.{content, is_in_file, section_header, section_name};
ghost use Rattle.elf_tables.specs.Kept.{has_flag, is_code, is_kept, is_named};
ghost use Rattle.elf_tables.specs.Symbol.{symbol, symbol_binding, symbol_count, symbol_name, symbol_names, symbol_type};
ghost use Rattle.elf_tables.specs.Relocation.{relocation_bytes, relocation_count, relocation_in};
ghost use Rattle.elf_object.specs.Fault.{Answers, fault_of};

use crate::cut::whole_sections;
use crate::fault::ObjectFault;
use crate::header::header_fault;
use crate::section::section_fault;
use elf_bytes::places::ENTRY_SIZE;
use elf_tables::constants::{SHF_ALLOC, SHF_EXECINSTR, SHF_WRITE};
use elf_tables::{Lookup, Reloc, SectionHeader, SymbolEntry};
use rv_word::End;
use std::alloc::Global;
use std::marker::Model;

/// A section: its name, `sh_type`, `sh_flags`, `sh_size`, `sh_addralign`, and its bytes in the file,
/// none of `SHT_NULL` and `SHT_NOBITS` (System V gABI, "Section Header").
#[derive(Clone, Copy, PartialEq, Eq)]
pub struct Section<'a> {
    pub name: &'a [u8],
    pub kind: u32,
    pub flags: u64,
    pub size: u64,
    pub align: u64,
    pub bytes: &'a [u8],
}

impl<'a> Section<'a> {
    /// `SHF_WRITE`.
    pub fn is_writable(&self) -> bool
        ensures { result ≡ has_flag self.now.flags 1 }
    {
        self.flags & SHF_WRITE != 0
    }

    /// `SHF_ALLOC`.
    pub fn is_allocated(&self) -> bool
        ensures { result ≡ has_flag self.now.flags 2 }
    {
        self.flags & SHF_ALLOC != 0
    }

    /// `SHF_EXECINSTR`.
    pub fn is_executable(&self) -> bool
        ensures { result ≡ has_flag self.now.flags 4 }
    {
        self.flags & SHF_EXECINSTR != 0
    }
}

/// A symbol: its name, `st_info`, `st_shndx`, `st_value` and `st_size` (System V gABI, "Symbol Table").
#[derive(Clone, Copy, PartialEq, Eq)]
pub struct Symbol<'a> {
    pub name: &'a [u8],
    pub info: u8,
    pub shndx: u16,
    pub value: u64,
    pub size: u64,
}

impl<'a> Symbol<'a> {
    /// The type of the symbol, one of `STT_NOTYPE` and so on.
    pub fn kind(&self) -> u8
        ensures { result ≡ symbol_type self.now.info }
    {
        self.info & 0xf
    }

    /// The binding of the symbol, one of `STB_LOCAL` and so on.
    pub fn binding(&self) -> u8
        ensures { result ≡ symbol_binding self.now.info }
    {
        self.info >> 4
    }
}

/// The relocations of a section, in the order of their table.
#[derive(Drop)]
pub struct Relocs<'a> {
    table: &'a [u8],
}

impl<'a> Model for Relocs<'a> {
    ghost use Rattle.std.specs.Prelude.{List, ℕ};

    ghost Value = { List ℕ };

    ghost view = { λ r. r.table.now };
}

impl<'a> Relocs<'a> {
    /// How many relocations there are.
    pub fn count(&self) -> u64
        ensures { result ≡ relocation_count self.now }
    {
        self.table.len() as u64 / ENTRY_SIZE
    }

    /// The relocation with the index `k`, from 0.
    pub fn get(&self, k: u64) -> Reloc
        requires { k < relocation_count self.now }
        ensures { result ≡ relocation_in self.now k }
    {
        Reloc::read(self.table, k)
    }
}

/// A relocatable object without a fault. It borrows the bytes of its file, and is them.
#[derive(Drop)]
pub struct Object<'a> {
    lookup: Lookup<'a>,
}

impl<'a> Model for Object<'a> {
    ghost use Rattle.std.specs.Prelude.{◌≡◌, List, ℕ, None};
    ghost use Rattle.elf_object.specs.Fault.{fault_of};

    ghost Value = { List ℕ };

    ghost view = { λ o. o.lookup };

    ghost invariant = { λ o. fault_of o.lookup ≡ None };
}

impl<'a> Object<'a> {
    /// The object that a file is, or the first fault of the file at its least index.
    pub fn read(alloc: Global, bytes: &'a [u8]) -> Result<Object<'a>, End<ObjectFault>>
        ensures { Answers bytes.now result }
    {
        if let Some(fault) = header_fault(bytes) {
            return Err(End::Fault(fault));
        }
        let sections = whole_sections(bytes)?;
        let lookup = Lookup::of(alloc, sections)?;
        if let Some(fault) = section_fault(&lookup) {
            return Err(End::Fault(fault));
        }
        Ok(Object { lookup })
    }

    /// How many sections there are, number 0 among them.
    pub fn sections(&self) -> u32
        ensures value { result ≡ e_shnum self.now }
        ensures sound { fault_of self.now ≡ None }
    {
        self.lookup.count()
    }

    /// The header of the section with the index `k`. No name is looked for.
    pub fn header(&self, k: u32) -> SectionHeader
        requires { k < e_shnum self.now }
        ensures { result ≡ section_header self.now k }
    {
        self.lookup.header(k)
    }

    /// The bytes in the file of the section with the index `k`, none of `SHT_NULL` and `SHT_NOBITS`.
    pub fn content(&self, k: u32) -> &'a [u8]
        requires { k < e_shnum self.now }
        ensures { result.now ≡ content self.now (section_header self.now k) }
    {
        self.lookup.sections().content(&self.lookup.header(k))
    }

    /// The section with the index `k`. Its name costs a search for the name's end.
    pub fn section(&self, k: u32) -> Section<'a>
        requires { k < e_shnum self.now }
        ensures name { section_name self.now k ≡ Some result.name.now }
        ensures kind { result.kind ≡ (section_header self.now k).kind }
        ensures flags { result.flags ≡ (section_header self.now k).flags }
        ensures size { result.size ≡ (section_header self.now k).size }
        ensures align { result.align ≡ (section_header self.now k).align }
        ensures bytes { result.bytes.now ≡ content self.now (section_header self.now k) }
        ensures whole { is_in_file (section_header self.now k) ≡ true → length result.bytes.now ≡ result.size }
    {
        let header = self.lookup.header(k);
        Section {
            name: self.lookup.name(&header),
            kind: header.kind,
            flags: header.flags,
            size: header.size,
            align: header.align,
            bytes: self.lookup.sections().content(&header),
        }
    }

    /// Whether the section with the index `k` is kept: it is allocated, no note, and not `.eh_frame`.
    pub fn is_kept(&self, k: u32) -> bool
        requires { k < e_shnum self.now }
        ensures { result ≡ is_kept self.now k }
    {
        self.lookup.is_kept(k)
    }

    /// Whether the section with the index `k` is kept and has instructions.
    pub fn is_code(&self, k: u32) -> bool
        requires { k < e_shnum self.now }
        ensures { result ≡ is_code self.now k }
    {
        self.lookup.is_kept(k) && self.lookup.header(k).is_executable()
    }

    /// How many symbols there are, number 0 among them.
    pub fn symbols(&self) -> u64
        ensures { result ≡ symbol_count self.now }
    {
        self.lookup.symbol_count()
    }

    /// What the symbol with the number `k` says of itself. No name is looked for.
    pub fn symbol_entry(&self, k: u64) -> SymbolEntry
        requires { k < symbol_count self.now }
        ensures { result ≡ symbol self.now k }
    {
        self.lookup.symbol(k)
    }

    /// The table of the symbols' names.
    pub fn symbol_names(&self) -> &'a [u8]
        ensures { result.now ≡ symbol_names self.now }
    {
        self.lookup.symbol_names()
    }

    /// The table of the symbols' names from the name of the symbol with the number `k` on, to the table's end. The name
    /// is what stands there before the first NUL. It costs no search for that NUL, which is there unless `k` is 0.
    pub fn symbol_name_rest(&self, k: u64) -> &'a [u8]
        requires { k < symbol_count self.now }
        ensures rest { result.now ≡ drop (symbol self.now k).name (symbol_names self.now) }
        ensures name { string_of result.now ≡ symbol_name self.now k }
        ensures ended { k ≢ 0 → IsSome (string_of result.now) }
    {
        self.lookup.symbol_name_rest(&self.lookup.symbol(k))
    }

    /// Whether the symbol with the number `k` has a name, and has this one. It looks at one byte of the table of
    /// names more than this one has.
    pub fn symbol_has_name(&self, k: u64, name: &[u8]) -> bool
        requires { k < symbol_count self.now }
        ensures { result ≡ is_named name.now (symbol_name self.now k) }
    {
        self.lookup.symbol_has_name(&self.lookup.symbol(k), name)
    }

    /// The symbol with the number `k`. Number 0, which stands for none, may have no name; it is empty then. The name
    /// costs a search for its end.
    pub fn symbol(&self, k: u64) -> Symbol<'a>
        requires { k < symbol_count self.now }
        ensures name { result.name.now ≡ unwrap_or (symbol_name self.now k) [] }
        ensures info { result.info ≡ (symbol self.now k).info }
        ensures shndx { result.shndx ≡ (symbol self.now k).section }
        ensures value { result.value ≡ (symbol self.now k).value }
        ensures size { result.size ≡ (symbol self.now k).size }
    {
        let entry = self.lookup.symbol(k);
        Symbol {
            name: self.lookup.symbol_name(&entry),
            info: entry.info,
            shndx: entry.section,
            value: entry.value,
            size: entry.size,
        }
    }

    /// The relocations of the section with the index `k`, none where it has none or is not kept.
    pub fn relocs(&self, k: u32) -> Relocs<'a>
        requires { k < e_shnum self.now }
        ensures { result ≡ relocation_bytes self.now k }
    {
        Relocs {
            table: self.lookup.relocation_bytes(k),
        }
    }
}
