//! Tables by place.

ghost use Rattle.std.specs.Prelude.{◌≡◌, ◌==◌, ◌<◌, ℕ, IfOk, OnOk, length, None};
ghost use Rattle.std.specs.List.{All};
ghost use Rattle.cfi_class.specs.Classes.{class_with, has};
ghost use Rattle.cfi_class.specs.Tables.{IsTable, entry, noted};

use crate::entry::Entry;
use rv_word::{NoMemory, Places};
use std::alloc::Global;

/// A table of this many places at which nothing is noted.
pub fn blank(alloc: Global, places: u64) -> Result<Vec<Entry>, NoMemory>
    ensures { IfOk result (λ v. IsTable (λ k. None) places v.items) }
{
    let mut table = Vec::with_capacity(alloc, places as usize)?;
    for _k in 0..places {
        table.push(Entry::none())?;
    }
    Ok(table)
}

/// Notes a number for a place, if none is noted there.
pub fn note(table: &mut Vec<Entry>, place: u64, n: u64) -> Result<(), NoMemory>
    requires { place < length table.old.items }
    ensures size { OnOk result (length table.new.items ≡ length table.old.items) }
    ensures each { OnOk result ((k : ℕ) → entry table.new.items k ≡ noted (entry table.old.items k) (place == k) n) }
{
    if table[place as usize].number().is_none() {
        table[place as usize] = Entry::of(n)?;
    }
    Ok(())
}

/// Notes a number for each of these places at which none is noted.
fn note_all(table: &mut Vec<Entry>, places: &[u64], n: u64) -> Result<(), NoMemory>
    requires { All (λ t. t < length table.old.items) places.now }
    ensures size { OnOk result (length table.new.items ≡ length table.old.items) }
    ensures each { OnOk result ((k : ℕ) → entry table.new.items k ≡ noted (entry table.old.items k) (has k places.now) n) }
{
    for place in places {
        note(table, *place, n)?;
    }
    Ok(())
}

/// The table of the classes that have the places.
pub fn table_of(alloc: Global, places: u64, classes: &[Places]) -> Result<Vec<Entry>, NoMemory>
    requires { All (All (λ t. t < places)) classes.now }
    ensures { IfOk result (λ v. IsTable (class_with classes.now) places v.items) }
{
    let mut table = blank(alloc, places)?;
    for i in 0..classes.len() {
        note_all(&mut table, classes[i].as_slice(), i as u64)?;
    }
    Ok(table)
}
