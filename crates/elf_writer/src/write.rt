ghost use Rattle.std.specs.Prelude.{◌≡◌, ◌<◌, IfOk, OnOk, map, length};
ghost use Rattle.elf_writer.specs.Parts.{parts_of, relocations_of, section_of, symbol_of};
ghost use Rattle.elf_writer.specs.Object.{first_global, object_bytes, relocations_entry, section_count, section_entry, symbol_index, symbols_entry, symbol_names_entry};
ghost use Rattle.elf_writer.specs.Right.{AreObjectParts};
ghost use Rattle.elf_writer.specs.Holds.{Holds};
ghost use Rattle.elf_writer.specs.Writing.{added, view_of, written};

use crate::heading::{Heading, names_heading};
use crate::parts::{Parts, Relocations, Section, Symbol};
use crate::tables::{relocations_bytes, symbol_tables};
use crate::writer::Writer;
use elf_bytes::places::ENTRY_SIZE;
use elf_tables::constants::{SHT_RELA, SHT_SYMTAB, STB_LOCAL};
use rv_word::NoMemory;
use std::alloc::{AllocError, Global};

/// The bytes of a relocatable object with these parts: the ELF header, the contents, each at the next
/// multiple of 8, and the section headers (System V gABI, "Object Files"). There are four sections more
/// than the parts have: section 0, the symbol table and two tables of names. Of right parts, which
/// `AreObjectParts` says, the file has no fault, and each section, relocation and symbol is found in it by
/// its number. The only refusal is want of memory.
pub fn write_object(alloc: Global, parts: &Parts) -> Result<Vec<u8>, NoMemory>
    requires { section_count (parts_of parts.now) < 0xff00 }
    ensures bytes { IfOk result (λ file. file.items ≡ object_bytes (parts_of parts.now)) }
    ensures holds { IfOk result (λ file. AreObjectParts (parts_of parts.now) → Holds (parts_of parts.now) file.items) }
{
    let file = object_bytes(alloc, parts)?;
    Ok(file)
}

/// The bytes of an object with these parts.
fn object_bytes(alloc: Global, parts: &Parts) -> Result<Vec<u8>, AllocError>
    requires { section_count (parts_of parts.now) < 0xff00 }
    ensures { IfOk result (λ file. file.items ≡ object_bytes (parts_of parts.now)) }
{
    let symbol_index = parts.sections.len() + parts.relocations.len() + 1;
    let mut writer = Writer::new(alloc)?;
    add_sections(&mut writer, parts.sections)?;
    add_relocations(alloc, &mut writer, parts.relocations, symbol_index as u32)?;
    add_symbols(alloc, &mut writer, parts.symbols, symbol_index as u32)?;
    writer.add_names()?;
    let file = writer.finish(alloc, parts.flags, symbol_index as u64 + 2)?;
    Ok(file)
}

/// Adds these sections.
fn add_sections(writer: &mut Writer, sections: &[Section]) -> Result<(), AllocError>
    ensures { OnOk result (view_of writer.new ≡ written (view_of writer.old) (map section_entry (map section_of sections.now))) }
{
    for section in sections {
        add_section(writer, section)?;
    }
    Ok(())
}

/// Adds a section.
fn add_section(writer: &mut Writer, section: &Section) -> Result<(), AllocError>
    ensures { OnOk result (view_of writer.new ≡ added (view_of writer.old) (section_entry (section_of section.now))) }
{
    let heading = Heading {
        kind: section.kind,
        flags: section.flags,
        size: section.size,
        link: 0,
        info: 0,
        align: section.align,
        entry_size: 0,
    };
    writer.add(section.name, &heading, section.content)
}

/// Adds the sections of these relocations, of the symbols of the section `symbols`.
fn add_relocations(
    alloc: Global,
    writer: &mut Writer,
    relocations: &[Relocations],
    symbols: u32,
) -> Result<(), AllocError>
    ensures { OnOk result (view_of writer.new ≡ written (view_of writer.old) (map (relocations_entry symbols) (map relocations_of relocations.now))) }
{
    for table in relocations {
        add_table(alloc, writer, table, symbols)?;
    }
    Ok(())
}

/// Adds the section of these relocations.
fn add_table(
    alloc: Global,
    writer: &mut Writer,
    table: &Relocations,
    symbols: u32,
) -> Result<(), AllocError>
    ensures { OnOk result (view_of writer.new ≡ added (view_of writer.old) (relocations_entry symbols (relocations_of table.now))) }
{
    let content = relocations_bytes(alloc, table.entries)?;
    let heading = Heading {
        kind: SHT_RELA,
        flags: 0,
        size: content.len() as u64,
        link: symbols,
        info: u64::from(table.target),
        align: 8,
        entry_size: ENTRY_SIZE,
    };
    writer.add(table.name, &heading, &content)
}

/// The number of the first symbol that is not local, where the local ones stand first.
fn first_global(symbols: &[Symbol]) -> u64
    ensures { result ≡ first_global (map symbol_of symbols.now) }
{
    let locals = symbols
        .iter()
        .filter(|symbol| symbol.info >> 4 == STB_LOCAL)
        .count();
    locals as u64 + 1
}

/// Adds the symbol table, the section with the index `symbols`, and the names of the symbols.
fn add_symbols(
    alloc: Global,
    writer: &mut Writer,
    symbols: &[Symbol],
    index: u32,
) -> Result<(), AllocError>
    requires { index < 0xffff }
    ensures { OnOk result (view_of writer.new ≡ added (added (view_of writer.old) (symbols_entry index (map symbol_of symbols.now))) (symbol_names_entry (map symbol_of symbols.now))) }
{
    let tables = symbol_tables(alloc, symbols)?;
    let heading = Heading {
        kind: SHT_SYMTAB,
        flags: 0,
        size: tables.entries.len() as u64,
        link: index + 1,
        info: first_global(symbols),
        align: 8,
        entry_size: ENTRY_SIZE,
    };
    writer.add(b".symtab", &heading, &tables.entries)?;
    writer.add(
        b".strtab",
        &names_heading(tables.names.len()),
        &tables.names,
    )
}
