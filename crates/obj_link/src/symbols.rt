//! The symbols of objects.

ghost use Rattle.std.specs.Prelude.{◌≡◌, ◌≤◌, ◌<◌, ◌^◌, ◌++◌, IfOk, OnOk, length, map};
ghost use Rattle.std.specs.List.{sum_by};
ghost use Rattle.elf_tables.specs.Header.{e_shnum};
ghost use Rattle.elf_tables.specs.Symbol.{symbol_count};
ghost use Rattle.obj_join.specs.Said.{standing_behind, symbol_behind};
ghost use Rattle.obj_link.specs.Symbols.{is_function, is_kept_section, standing_of, symbol_said_in, symbols_said};
ghost use Rattle.obj_link.specs.SaidOf.{said_by};

use elf_object::{Object, SymbolEntry};
use elf_tables::constants::{SHN_ABS, SHN_COMMON, SHN_UNDEF, STT_FUNC};
use obj_join::{Standing, Symbol};
use rv_word::NoMemory;
use std::alloc::Global;

/// Whether this index is that of a section that is kept.
pub fn is_kept_section(object: &Object, index: u16) -> bool
    ensures { result ≡ is_kept_section object.now index }
{
    let section = u32::from(index);
    index != SHN_UNDEF && section < object.sections() && object.is_kept(section)
}

/// Where a symbol of this index of a section stands, behind so many sections.
fn standing(object: &Object, index: u16, sections: u32) -> Standing
    requires { sections ≤ 2 ^ 16 }
    ensures { result ≡ standing_behind sections (standing_of object.now index) }
{
    if index == SHN_ABS {
        return Standing::AsNumber;
    }
    if index == SHN_COMMON {
        return Standing::AsCommon;
    }
    if is_kept_section(object, index) {
        return Standing::InSection(sections + u32::from(index));
    }
    Standing::Nowhere
}

/// Whether the symbol of this entry is a function in code.
fn is_function(object: &Object, entry: &SymbolEntry) -> bool
    ensures { result ≡ is_function object.now entry.now }
{
    entry.kind() == STT_FUNC
        && is_kept_section(object, entry.section)
        && object.header(u32::from(entry.section)).is_executable()
}

/// The symbol with this number, behind so many sections.
fn symbol<'a>(object: &Object<'a>, number: u64, sections: u32) -> Symbol<'a>
    requires below { number < symbol_count object.now }
    requires few { sections ≤ 2 ^ 16 }
    ensures { result ≡ symbol_behind sections (symbol_said_in object.now number) }
{
    if number == 0 {
        return Symbol::none();
    }
    let entry = object.symbol_entry(number);
    Symbol::of(
        object.symbol_name_rest(number),
        entry.binding(),
        standing(object, entry.section, sections),
        entry.value,
        entry.size,
        is_function(object, &entry),
    )
}

/// Puts the symbols of an object behind others, where so many sections are before its own.
fn push_symbols<'a>(
    symbols: &mut Vec<Symbol<'a>>,
    object: &Object<'a>,
    sections: u32,
) -> Result<(), NoMemory>
    requires { sections ≤ 2 ^ 16 }
    ensures { OnOk result (symbols.new.items ≡ symbols.old.items ++ map (symbol_behind sections) (symbols_said object.now)) }
{
    for number in 0..object.symbols() {
        symbols.push(symbol(object, number, sections))?;
    }
    Ok(())
}

/// The symbols of several objects, which have at most 2^16 sections in all.
pub fn symbols_of<'a>(alloc: Global, objects: &[Object<'a>]) -> Result<Vec<Symbol<'a>>, NoMemory>
    requires { sum_by e_shnum objects.now ≤ 2 ^ 16 }
    ensures { IfOk result (λ v. v.items ≡ (said_by objects.now).symbols) }
{
    let mut sections = 0;
    let mut symbols = Vec::new(alloc);
    for object in objects {
        push_symbols(&mut symbols, object, sections)?;
        sections += object.sections();
    }
    Ok(symbols)
}
