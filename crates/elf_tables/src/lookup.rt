ghost use Rattle.std.specs.Prelude.{◌≡◌, ◌<◌, ◌/◌, unwrap_or, is_some, IfOk, Some, [], drop};
ghost use Rattle.elf_bytes.specs.Fields.{string_at};
ghost use Rattle.elf_tables.specs.Header.{e_shnum};
ghost use Rattle.elf_tables.specs.Section.{section_header, section_names};
ghost use Rattle.elf_tables.specs.Kept.{is_kept, is_named};
ghost use Rattle.elf_tables.specs.Table.{is_symbol_table, symbol_table};
ghost use Rattle.elf_tables.specs.Symbol.{bytes_of, linked_bytes, symbol, symbol_count, symbol_names};
ghost use Rattle.elf_tables.specs.Relocation.{relocation_bytes, relocations_of};

use crate::constants::{SHT_NOTE, SHT_SYMTAB};
use crate::entry::SymbolEntry;
use crate::header::SectionHeader;
use crate::sections::Sections;
use crate::strings::Strings;
use crate::targets::first_of_each;
use elf_bytes::places::ENTRY_SIZE;
use least::first_below;
use rv_word::NoMemory;
use std::alloc::Global;
use std::marker::Model;

/// The sections of a file with what is looked up often, so that each look-up takes one step.
#[derive(Drop)]
pub struct Lookup<'a> {
    sections: Sections<'a>,
    names: Strings<'a>,
    symbol_table: Option<u32>,
    symbols: &'a [u8],
    symbol_names: Strings<'a>,
    relocations: Vec<Option<u32>>,
}

impl<'a> Model for Lookup<'a> {
    ghost use Rattle.std.specs.Prelude.{List, ℕ};
    ghost use Rattle.elf_tables.specs.Lookup.{IsLookup};

    ghost Value = { List ℕ };

    ghost view = { λ l. l.sections };

    ghost invariant = { λ l. IsLookup l.sections l.names l.symbol_table l.symbols.now l.symbol_names l.relocations.items };
}

impl<'a> Lookup<'a> {
    /// Looks up the tables of a file once.
    pub fn of(alloc: Global, sections: Sections<'a>) -> Result<Lookup<'a>, NoMemory>
        ensures { IfOk result (λ l. l ≡ sections.entry) }
    {
        let relocations = first_of_each(alloc, &sections)?;
        let symbol_table = symbol_table(&sections);
        let names = Strings::of(sections.bytes_of(sections.names_index()));
        let symbols = bytes_of(&sections, symbol_table);
        let symbol_names = Strings::of(linked_bytes(&sections, symbol_table));
        Ok(Lookup {
            sections,
            names,
            symbol_table,
            symbols,
            symbol_names,
            relocations,
        })
    }

    /// The sections.
    pub fn sections(&self) -> &Sections<'a>
        ensures { result.now ≡ self.now }
    {
        &self.sections
    }

    /// How many sections there are.
    pub fn count(&self) -> u32
        ensures { result ≡ e_shnum self.now }
    {
        self.sections.count()
    }

    /// The header of the section with this index.
    pub fn header(&self, index: u32) -> SectionHeader
        requires { index < e_shnum self.now }
        ensures { result ≡ section_header self.now index }
    {
        self.sections.header(index)
    }

    /// Whether a section with this header has a name.
    pub fn has_name(&self, header: &SectionHeader) -> bool
        ensures { result ≡ is_some (string_at (section_names self.now) header.now.name) }
    {
        self.names.has(header.name)
    }

    /// The name of a section with this header, empty where it has none.
    pub fn name(&self, header: &SectionHeader) -> &'a [u8]
        ensures { result.now ≡ unwrap_or (string_at (section_names self.now) header.now.name) [] }
    {
        self.names.get(header.name)
    }

    /// Whether the section with this index is kept.
    #[tactic(auto, unfolding(crate::specs::Kept::is_kept))]
    pub fn is_kept(&self, index: u32) -> bool
        requires { index < e_shnum self.now }
        ensures { result ≡ is_kept self.now index }
    {
        let header = self.sections.header(index);
        header.is_allocated()
            && header.kind != SHT_NOTE
            && !self.names.is(header.name, b".eh_frame")
    }

    /// The index of the symbol table.
    pub fn symbol_table(&self) -> Option<u32>
        ensures { result ≡ symbol_table self.now }
    {
        self.symbol_table
    }

    /// How many symbols there are.
    pub fn symbol_count(&self) -> u64
        ensures { result ≡ symbol_count self.now }
    {
        self.symbols.len() as u64 / ENTRY_SIZE
    }

    /// The symbol with this number.
    pub fn symbol(&self, number: u64) -> SymbolEntry
        requires { number < symbol_count self.now }
        ensures { result ≡ symbol self.now number }
    {
        SymbolEntry::read(self.symbols, number)
    }

    /// Whether a symbol has a name.
    pub fn has_symbol_name(&self, entry: &SymbolEntry) -> bool
        ensures { result ≡ is_some (string_at (symbol_names self.now) entry.now.name) }
    {
        self.symbol_names.has(entry.name)
    }

    /// The name of a symbol, empty where it has none.
    pub fn symbol_name(&self, entry: &SymbolEntry) -> &'a [u8]
        ensures { result.now ≡ unwrap_or (string_at (symbol_names self.now) entry.now.name) [] }
    {
        self.symbol_names.get(entry.name)
    }

    /// The table of the symbols' names.
    pub fn symbol_names(&self) -> &'a [u8]
        ensures { result.now ≡ symbol_names self.now }
    {
        self.symbol_names.bytes()
    }

    /// The table of the symbols' names from this symbol's name on, to its end. No name's end is looked for.
    pub fn symbol_name_rest(&self, entry: &SymbolEntry) -> &'a [u8]
        ensures { result.now ≡ drop entry.now.name (symbol_names self.now) }
    {
        self.symbol_names.rest(entry.name)
    }

    /// Whether a symbol has this name. It looks at one byte of the names more than this one has.
    pub fn symbol_has_name(&self, entry: &SymbolEntry, name: &[u8]) -> bool
        ensures { result ≡ is_named name.now (string_at (symbol_names self.now) entry.now.name) }
    {
        self.symbol_names.is(entry.name, name)
    }

    /// The first section with relocations of the section with this index.
    #[tactic(auto, unfolding(crate::specs::Relocation::relocations_of))]
    pub fn relocations_of(&self, target: u32) -> Option<u32>
        requires { target < e_shnum self.now }
        ensures { result ≡ relocations_of self.now target }
    {
        self.relocations[target as usize]
    }

    /// The bytes of the relocations of the section with this index, none where it is not kept.
    pub fn relocation_bytes(&self, target: u32) -> &'a [u8]
        requires { target < e_shnum self.now }
        ensures { result.now ≡ relocation_bytes self.now target }
    {
        if self.is_kept(target) {
            return bytes_of(&self.sections, self.relocations_of(target));
        }
        &[]
    }
}

/// The first section that is a symbol table.
#[tactic(auto, unfolding(crate::specs::Table::symbol_table))]
fn symbol_table(sections: &Sections) -> Option<u32>
    ensures { result ≡ symbol_table sections.now }
{
    first_below(sections.count(), |index| is_symbol_table(sections, index))
}

/// Whether the section with this index is a symbol table.
fn is_symbol_table(sections: &Sections, index: u32) -> bool
    requires { index < e_shnum sections.now }
    ensures { result ≡ is_symbol_table sections.now index }
{
    sections.header(index).kind == SHT_SYMTAB
}

/// The bytes of a section, if there is one.
fn bytes_of<'a>(sections: &Sections<'a>, index: Option<u32>) -> &'a [u8]
    ensures { result.now ≡ bytes_of sections.now index }
{
    match index {
        Some(index) => sections.bytes_of(index),
        None => &[],
    }
}

/// The bytes of the section that another one names by `sh_link`, if there is one.
fn linked_bytes<'a>(sections: &Sections<'a>, index: Option<u32>) -> &'a [u8]
    requires { index ≡ symbol_table sections.now }
    ensures { result.now ≡ linked_bytes sections.now index }
{
    match index {
        Some(index) => sections.bytes_of(sections.header(index).link),
        None => &[],
    }
}
