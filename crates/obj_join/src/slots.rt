//! The slots of the table of addresses: symbols in the order in which they are first used.

ghost use Rattle.std.specs.Prelude.{◌≡◌, ◌==◌, ◌*◌, ℕ, pos, List, IfOk, OnOk, fold, length, option_to_list, position};
ghost use Rattle.obj_input.specs.Listed.{listed};
ghost use Rattle.obj_join.specs.Said.{SectionSaid};
ghost use Rattle.obj_join.specs.Table.{slots, table_of, with_symbol};
ghost use Rattle.obj_join.specs.Numbers.{before, filling_of};

use crate::definition::definition_of;
use crate::symbol::Symbol;
use indexmap::IndexSet;
use obj_input::{Definition, Relocation, Section};
use rv_word::NoMemory;
use std::alloc::Global;

/// The type of the relocations that fill slots (RISC-V ELF psABI, "Relocations").
const R_RISCV_64: u32 = 2;

/// Gives each of these symbols a slot that has none, in their order.
pub fn note_all(slots: &mut IndexSet<u64>, symbols: &[u64]) -> Result<(), NoMemory>
    ensures { OnOk result (slots.new.keys ≡ fold with_symbol slots.old.keys symbols.now) }
{
    for symbol in symbols {
        slots.insert(*symbol)?;
    }
    Ok(())
}

/// The index of the slot of a symbol.
pub fn slot_of(slots: &IndexSet<u64>, symbol: u64) -> Option<usize>
    ensures { result ≡ position (λ m. m == symbol) slots.now.keys }
{
    slots.get_index_of(&symbol)
}

/// How many bytes a slot has.
const SLOT: u64 = 8;

/// Where the slot with this index stands in the table. What needs more bytes than there are addresses wants memory.
pub fn slot_offset(slot: usize) -> Result<u64, NoMemory>
    ensures { IfOk result (λ offset. offset ≡ 8 * slot) }
{
    let offset = (slot as u64).checked_mul(SLOT).ok_or(NoMemory)?;
    Ok(offset)
}

/// What fills the slot with this index, whose symbol stands for this.
fn filling(slot: usize, definition: Definition) -> Result<Relocation, NoMemory>
    ensures { IfOk result (λ u. u ≡ record { offset = 8 * slot; number = 2; addend = pos 0; definition = definition }) }
{
    let offset = slot_offset(slot)?;
    Ok(Relocation {
        offset,
        number: R_RISCV_64,
        addend: 0,
        definition,
    })
}

/// What fills the slots of these symbols, where `places` says how many blocks are before that of each symbol.
fn fillings(
    alloc: Global,
    symbols: &[Symbol],
    places: &[u64],
    slots: &[u64],
) -> Result<Vec<Relocation>, NoMemory>
    requires { length places.now ≡ length symbols.now }
    ensures { (resolve : ℕ → ℕ) → places.now ≡ listed (before resolve symbols.now) (length symbols.now)
        → IfOk result (λ v. v.items ≡ listed (filling_of resolve symbols.now slots.now) (length slots.now)) }
{
    let mut uses = Vec::new(alloc);
    for slot in 0..slots.len() {
        let definition = definition_of(symbols, places, slots[slot]);
        uses.push(filling(slot, definition)?)?;
    }
    Ok(uses)
}

/// The section that the table is, with slots for these symbols; none where no symbol has a slot.
pub fn table_section<'a>(
    alloc: Global,
    symbols: &[Symbol],
    places: &[u64],
    slotted: &[u64],
) -> Result<Option<Section<'a>>, NoMemory>
    requires { length places.now ≡ length symbols.now }
    ensures { (resolve : ℕ → ℕ) (sections : List SectionSaid) → places.now ≡ listed (before resolve symbols.now) (length symbols.now)
        → slotted.now ≡ slots resolve sections
        → IfOk result (λ t. option_to_list t ≡ table_of resolve (record { sections = sections; symbols = symbols.now }) (length slotted.now)) }
{
    if slotted.is_empty() {
        return Ok(None);
    }
    let size = slot_offset(slotted.len())?;
    let uses = fillings(alloc, symbols, places, slotted)?;
    let table = Section::of_zeros(alloc, size, SLOT, uses)?;
    Ok(Some(table))
}
