ghost use Rattle.std.specs.Prelude.{◌≡◌, ◌++◌, ◌∷◌, [], IfOk, OnOk, IsTrue, map, length};
ghost use Rattle.std.specs.List.{flat_map, list_all};
ghost use Rattle.elf_writer.specs.Numbers.{is_number};
ghost use Rattle.elf_writer.specs.Names.{ended, string_table};
ghost use Rattle.elf_writer.specs.Parts.{symbol_of, symbol_names};
ghost use Rattle.elf_writer.specs.Tables.{null_symbol, relocation_numbers, relocations_bytes, symbol_bytes, symbol_numbers, symbols_bytes};

use crate::number::{Number, byte, half, long, put_numbers, word, zeros};
use crate::parts::Symbol;
use elf_bytes::places::ENTRY_SIZE;
use elf_tables::Reloc;
use std::alloc::{AllocError, Global};

/// The bytes of the symbol table and of the table of its names.
#[derive(Drop)]
pub(crate) struct SymbolTables {
    pub(crate) entries: Vec<u8>,
    pub(crate) names: Vec<u8>,
}

/// A table of names without a name (System V gABI, "String Table").
pub(crate) fn no_names(alloc: Global) -> Result<Vec<u8>, AllocError>
    ensures { IfOk result (λ names. names.items ≡ 0 ∷ []) }
{
    let mut names = Vec::new(alloc);
    names.push(0)?;
    Ok(names)
}

/// Appends a name and its NUL.
pub(crate) fn put_name(names: &mut Vec<u8>, name: &[u8]) -> Result<(), AllocError>
    ensures { OnOk result (names.new.items ≡ names.old.items ++ ended name.now) }
{
    names.extend_from_slice(name)?;
    names.push(0)?;
    Ok(())
}

/// The fields of a symbol whose name stands at `name`.
#[tactic(auto, unfolding(crate::specs::Tables::symbol_numbers))]
fn symbol_numbers(name: u64, symbol: &Symbol) -> [Number; 6]
    ensures value { result ≡ symbol_numbers name (symbol_of symbol.now) }
    ensures sizes { IsTrue (list_all is_number result) }
{
    [
        word(name), // st_name
        byte(u64::from(symbol.info)), // st_info
        byte(0), // st_other
        half(u64::from(symbol.section)), // st_shndx
        long(symbol.value), // st_value
        long(symbol.size), // st_size
    ]
}

/// Appends a symbol whose name stands at `name`.
fn put_symbol(entries: &mut Vec<u8>, name: u64, symbol: &Symbol) -> Result<(), AllocError>
    ensures { OnOk result (entries.new.items ≡ entries.old.items ++ symbol_bytes name (symbol_of symbol.now)) }
{
    put_numbers(entries, &symbol_numbers(name, symbol))
}

/// The bytes of symbol 0.
#[tactic(auto, using(crate::proofs::Bytes::null_symbol_is))]
fn null_symbol(alloc: Global) -> Result<Vec<u8>, AllocError>
    ensures { IfOk result (λ entries. entries.items ≡ symbol_bytes 0 null_symbol) }
{
    zeros(alloc, ENTRY_SIZE as usize)
}

/// A symbol table with symbol 0 alone.
fn no_symbols(alloc: Global) -> Result<SymbolTables, AllocError>
    ensures entries { IfOk result (λ t. t.entries.items ≡ symbol_bytes 0 null_symbol) }
    ensures names { IfOk result (λ t. t.names.items ≡ 0 ∷ []) }
{
    Ok(SymbolTables {
        entries: null_symbol(alloc)?,
        names: no_names(alloc)?,
    })
}

/// The tables of these symbols.
pub(crate) fn symbol_tables(alloc: Global, symbols: &[Symbol]) -> Result<SymbolTables, AllocError>
    ensures entries { IfOk result (λ t. t.entries.items ≡ symbols_bytes (map symbol_of symbols.now)) }
    ensures names { IfOk result (λ t. t.names.items ≡ string_table (symbol_names (map symbol_of symbols.now))) }
{
    let mut tables = no_symbols(alloc)?;
    for symbol in symbols {
        put_symbol(&mut tables.entries, tables.names.len() as u64, symbol)?;
        put_name(&mut tables.names, symbol.name.as_slice())?;
    }
    Ok(tables)
}

/// The fields of a relocation.
#[tactic(auto, unfolding(crate::specs::Tables::relocation_numbers))]
fn relocation_numbers(reloc: Reloc) -> [Number; 3]
    ensures value { result ≡ relocation_numbers reloc }
    ensures sizes { IsTrue (list_all is_number result) }
{
    [
        long(reloc.offset), // r_offset
        long((u64::from(reloc.symbol) << 32) + u64::from(reloc.kind)), // r_info
        long(reloc.addend.cast_unsigned()), // r_addend
    ]
}

/// The bytes of a section of relocations.
#[tactic(auto, unfolding(crate::specs::Tables::relocations_bytes))]
pub(crate) fn relocations_bytes(alloc: Global, entries: &[Reloc]) -> Result<Vec<u8>, AllocError>
    ensures { IfOk result (λ t. t.items ≡ relocations_bytes entries.now) }
{
    let mut table = Vec::new(alloc);
    for reloc in entries {
        put_numbers(&mut table, &relocation_numbers(*reloc))?;
    }
    Ok(table)
}
