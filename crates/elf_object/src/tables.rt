ghost use Rattle.std.specs.Prelude.{◌≡◌, ◌<◌, true, is_some};
ghost use Rattle.elf_tables.specs.Header.{e_shnum};
ghost use Rattle.least.specs.First.{first_below};
ghost use Rattle.elf_tables.specs.Section.{section_header};
ghost use Rattle.elf_tables.specs.Table.{is_symbol_table, relocates, symbol_table};
ghost use Rattle.elf_object.specs.Table.{has_wrong_header, is_number, is_string_table, is_wrong_rel, is_wrong_rela, is_wrong_rela_of_kept, is_wrong_start, is_wrong_symbol_table, is_wrong_table, is_wrong_table_of};
ghost use Rattle.elf_tables.specs.Relocation.{relocations_of};

use elf_bytes::places::SECTION_HEADER_SIZE;
use elf_tables::constants::{SHN_LORESERVE, SHT_REL, SHT_RELA, SHT_STRTAB, SHT_SYMTAB};
use elf_tables::{Lookup, SectionHeader, Sections};
use least::first_below;

/// Whether the section with this index is a string table.
fn is_string_table(sections: &Sections, index: u32) -> bool
    ensures { result ≡ is_string_table sections.now index }
{
    index < sections.count() && sections.header(index).kind == SHT_STRTAB
}

/// Whether the ELF header names other tables than those of an object with sections.
fn has_wrong_header(sections: &Sections) -> bool
    ensures { result ≡ has_wrong_header sections.now }
{
    u64::from(sections.header_size()) != SECTION_HEADER_SIZE
        || sections.count() >= u32::from(SHN_LORESERVE)
        || !is_string_table(sections, sections.names_index())
}

/// Whether what the ELF header says of the tables is wrong.
pub(crate) fn is_wrong_start(sections: &Sections) -> bool
    ensures { result ≡ is_wrong_start sections.now }
{
    sections.count() == 0 && sections.offset() != 0
        || sections.count() != 0 && has_wrong_header(sections)
}

/// Whether a number is there, and is this one.
fn is_number(found: Option<u32>, number: u32) -> bool
    ensures { result ≡ is_number found number }
{
    found == Some(number)
}

/// Whether a symbol table stands before this one.
#[tactic(auto, unfolding(elf_tables::specs::Table::symbol_table), using(crate::proofs::Earlier::first_earlier))]
fn is_second_symbol_table(lookup: &Lookup, index: u32) -> bool
    requires below { index < e_shnum lookup.now }
    requires table { (section_header lookup.now index).kind ≡ 2 }
    ensures { result ≡ is_some (first_below (is_symbol_table lookup.now) index) }
{
    !is_number(lookup.symbol_table(), index)
}

/// Whether a symbol table is a second one, or has no whole entries or no names.
fn is_wrong_symbol_table(lookup: &Lookup, index: u32, header: &SectionHeader) -> bool
    requires below { index < e_shnum lookup.now }
    requires header { header.now ≡ section_header lookup.now index }
    requires table { header.now.kind ≡ 2 }
    ensures { result ≡ is_wrong_symbol_table lookup.now index header.now }
{
    is_second_symbol_table(lookup, index)
        || !header.has_entries()
        || !is_string_table(lookup.sections(), header.link)
}

/// Whether relocations of the same section stand before this section.
#[tactic(auto, unfolding(elf_tables::specs::Relocation::relocations_of), using(crate::proofs::Earlier::first_earlier))]
fn is_second_of_target(lookup: &Lookup, index: u32, target: u32) -> bool
    requires below { index < e_shnum lookup.now }
    requires inside { target < e_shnum lookup.now }
    requires relocates { relocates lookup.now target index ≡ true }
    ensures { result ≡ is_some (first_below (relocates lookup.now target) index) }
{
    !is_number(lookup.relocations_of(target), index)
}

/// Whether relocations of a kept section have no whole entries or not the symbols, or stand after others of it.
fn is_wrong_rela_of_kept(lookup: &Lookup, index: u32, header: &SectionHeader) -> bool
    requires below { index < e_shnum lookup.now }
    requires inside { header.now.info < e_shnum lookup.now }
    requires relocates { relocates lookup.now header.now.info index ≡ true }
    ensures { result ≡ is_wrong_rela_of_kept lookup.now index header.now }
{
    !header.has_entries()
        || !is_number(lookup.symbol_table(), header.link)
        || is_second_of_target(lookup, index, header.info)
}

/// Whether relocations with addends are of no section, or are wrong ones of a kept one.
fn is_wrong_rela(lookup: &Lookup, index: u32, header: &SectionHeader) -> bool
    requires below { index < e_shnum lookup.now }
    requires header { header.now ≡ section_header lookup.now index }
    requires rela { header.now.kind ≡ 4 }
    ensures { result ≡ is_wrong_rela lookup.now index header.now }
{
    header.info >= lookup.count()
        || lookup.is_kept(header.info) && is_wrong_rela_of_kept(lookup, index, header)
}

/// Whether relocations without addends are of no section, or of a kept one.
fn is_wrong_rel(lookup: &Lookup, header: &SectionHeader) -> bool
    ensures { result ≡ is_wrong_rel lookup.now header.now }
{
    header.info >= lookup.count() || lookup.is_kept(header.info)
}

/// Whether a section is a wrong table.
fn is_wrong_table_of(lookup: &Lookup, index: u32, header: &SectionHeader) -> bool
    requires below { index < e_shnum lookup.now }
    requires header { header.now ≡ section_header lookup.now index }
    ensures { result ≡ is_wrong_table_of lookup.now index header.now }
{
    match header.kind {
        SHT_SYMTAB => is_wrong_symbol_table(lookup, index, header),
        SHT_RELA => is_wrong_rela(lookup, index, header),
        SHT_REL => is_wrong_rel(lookup, header),
        _ => false,
    }
}

/// Whether the section with this index has no name, or is a wrong table.
fn is_wrong_table(lookup: &Lookup, index: u32) -> bool
    requires { index < e_shnum lookup.now }
    ensures { result ≡ is_wrong_table lookup.now index }
{
    let header = lookup.header(index);
    !lookup.has_name(&header) || is_wrong_table_of(lookup, index, &header)
}

/// The first section without a name, or with a wrong table.
pub(crate) fn first_wrong_table(lookup: &Lookup) -> Option<u32>
    ensures { result ≡ first_below (is_wrong_table lookup.now) (e_shnum lookup.now) }
{
    first_below(lookup.count(), |index| is_wrong_table(lookup, index))
}
