//! The slots of the table of addresses in objects, where a list of numbers says which symbol each one is.

ghost use Rattle.std.specs.Prelude.{◌≡◌, ◌+◌, ◌≤◌, ◌<◌, ◌++◌, ◌∷◌, [], true, IfOk, OnOk, flat_map, fold, length, map};
ghost use Rattle.elf_tables.specs.Header.{e_shnum};
ghost use Rattle.elf_tables.specs.Symbol.{symbol_count};
ghost use Rattle.obj_input.specs.Input.{is_code_sort};
ghost use Rattle.obj_join.specs.Said.{section_behind, use_behind};
ghost use Rattle.obj_join.specs.Table.{is_table_use, slots, table_symbols_of, with_symbol};
ghost use Rattle.obj_join.specs.Numbers.{by};
ghost use Rattle.obj_join.specs.Uses.{table_use, table_uses};
ghost use Rattle.obj_link.specs.Sections.{section_said_in, sections_said, sort_of, use_said, uses_said};
ghost use Rattle.obj_link.specs.SaidOf.{said_by};

use crate::sections::sort_of;
use elf_object::{Object, Reloc};
use indexmap::IndexSet;
use obj_input::{RelocKind, Sort};
use obj_join::{TableUse, note_all, table_symbols};
use rv_word::NoMemory;
use std::alloc::Global;

/// Whether a relocation is a use of the table.
pub fn is_table_use(reloc: &Reloc) -> bool
    ensures { result ≡ is_table_use (use_said reloc.now) }
{
    RelocKind::of(reloc.kind).is_table_high()
}

/// Which symbol the symbol of a relocation is, behind so many symbols.
pub(crate) fn symbol_of(numbers: &[u64], symbols: u64, reloc: &Reloc) -> u64
    requires { symbols ≤ length numbers.now }
    ensures { result ≡ by numbers.now (symbols + reloc.now.symbol) }
{
    let number = symbols + u64::from(reloc.symbol);
    numbers.get(number as usize).copied().unwrap_or(0)
}

/// A use of the table by itself, behind so many symbols.
fn as_use(numbers: &[u64], symbols: u64, reloc: &Reloc) -> TableUse
    requires { symbols ≤ length numbers.now }
    ensures { result ≡ table_use (by numbers.now) (use_behind symbols (use_said reloc.now)) }
{
    TableUse {
        offset: reloc.offset,
        symbol: symbol_of(numbers, symbols, reloc),
    }
}

/// Puts a relocation behind uses of the table, if it is one.
fn push_use(
    uses: &mut Vec<TableUse>,
    numbers: &[u64],
    symbols: u64,
    reloc: &Reloc,
) -> Result<(), NoMemory>
    requires { symbols ≤ length numbers.now }
    ensures { OnOk result (uses.new.items ≡ uses.old.items ++ table_uses (by numbers.now) (use_behind symbols (use_said reloc.now) ∷ [])) }
{
    if is_table_use(reloc) {
        uses.push(as_use(numbers, symbols, reloc))?;
    }
    Ok(())
}

/// The uses of the table in the section with this index, behind so many symbols, in the order of its relocations.
fn table_uses(
    alloc: Global,
    object: &Object,
    numbers: &[u64],
    symbols: u64,
    k: u32,
) -> Result<Vec<TableUse>, NoMemory>
    requires there { k < e_shnum object.now }
    requires symbols { symbols ≤ length numbers.now }
    ensures { IfOk result (λ v. v.items ≡ table_uses (by numbers.now) (map (use_behind symbols) (uses_said object.now k))) }
{
    let relocs = object.relocs(k);
    let mut uses = Vec::new(alloc);
    for j in 0..relocs.count() {
        let reloc = relocs.get(j);
        push_use(&mut uses, numbers, symbols, &reloc)?;
    }
    Ok(uses)
}

/// The symbols that the section with this index, which is code, has addresses of from the table.
fn used_symbols(
    alloc: Global,
    object: &Object,
    numbers: &[u64],
    symbols: u64,
    k: u32,
) -> Result<Vec<u64>, NoMemory>
    requires there { k < e_shnum object.now }
    requires code { is_code_sort (sort_of object.now k) ≡ true }
    requires symbols { symbols ≤ length numbers.now }
    ensures { IfOk result (λ v. v.items ≡ table_symbols_of (by numbers.now) (section_behind symbols (section_said_in object.now k))) }
{
    let uses = table_uses(alloc, object, numbers, symbols, k)?;
    let words = object.header(k).size / 4;
    let used = table_symbols(alloc, &uses, words)?;
    Ok(used)
}

/// Whether the section with this index is code.
fn is_code(object: &Object, k: u32) -> bool
    requires { k < e_shnum object.now }
    ensures { result ≡ is_code_sort (sort_of object.now k) }
{
    sort_of(object, k) == Sort::Code
}

/// The symbols that the section with this index has addresses of from the table. Only code has such.
fn symbols_in(
    alloc: Global,
    object: &Object,
    numbers: &[u64],
    symbols: u64,
    k: u32,
) -> Result<Vec<u64>, NoMemory>
    requires there { k < e_shnum object.now }
    requires symbols { symbols ≤ length numbers.now }
    ensures { IfOk result (λ v. v.items ≡ table_symbols_of (by numbers.now) (section_behind symbols (section_said_in object.now k))) }
{
    if is_code(object, k) {
        let used = used_symbols(alloc, object, numbers, symbols, k)?;
        Ok(used)
    } else {
        Ok(Vec::new(alloc))
    }
}

/// Gives the symbols slots that an object, behind so many symbols, has addresses of from the table.
fn push_slots(
    alloc: Global,
    slots: &mut IndexSet<u64>,
    object: &Object,
    numbers: &[u64],
    symbols: u64,
) -> Result<(), NoMemory>
    requires { symbols ≤ length numbers.now }
    ensures { OnOk result (slots.new.keys ≡ fold with_symbol slots.old.keys (flat_map (table_symbols_of (by numbers.now)) (map (section_behind symbols) (sections_said object.now)))) }
{
    for k in 0..object.sections() {
        let used = symbols_in(alloc, object, numbers, symbols, k)?;
        note_all(slots, &used)?;
    }
    Ok(())
}

/// No slots.
fn no_slots(alloc: Global) -> IndexSet<u64>
    ensures { result.keys ≡ [] }
{
    IndexSet::new(alloc)
}

/// The symbols that have slots, in the order of the table, where `numbers` says which symbol each one is.
pub fn slots_of(
    alloc: Global,
    objects: &[Object],
    numbers: &[u64],
) -> Result<IndexSet<u64>, NoMemory>
    requires { length numbers.now ≡ length (said_by objects.now).symbols }
    ensures { IfOk result (λ s. s.keys ≡ slots (by numbers.now) (said_by objects.now).sections) }
{
    let mut symbols = 0;
    let mut slots = no_slots(alloc);
    for object in objects {
        push_slots(alloc, &mut slots, object, numbers, symbols)?;
        symbols += object.symbols();
    }
    Ok(slots)
}
