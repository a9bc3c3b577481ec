//! Places whose address is taken.

ghost use Rattle.std.specs.Prelude.{◌≡◌, ℕ, ◌<◌, ◌||◌, true, false, IfOk, length, replicate, slice_index_or};
ghost use Rattle.std.specs.List.{list_any};
ghost use Rattle.obj_input.specs.Input.{section_count, section_of};
ghost use Rattle.obj_program.specs.Program.{AreInOrder, no_item};
ghost use Rattle.obj_items.specs.Links.{is_taken, is_the, pointed, some_takes, spot_of, takes};

use obj_input::{Definition, Input, Relocation, natural};
use obj_program::{PackedItem, place_in};
use rv_word::NoMemory;
use std::alloc::Global;

/// The section and the offset of an address in a section.
fn spot_of(definition: Definition, addend: i64) -> Option<(u32, u64)>
    ensures { result ≡ spot_of definition addend }
{
    match definition {
        Definition::Within(section, value) => {
            Some((section, natural(i128::from(value) + i128::from(addend))?))
        }
        _ => None,
    }
}

/// The section and the offset of the address that a relocation takes.
fn pointed(u: &Relocation) -> Option<(u32, u64)>
    ensures { result ≡ pointed u.now }
{
    if u.kind().takes_address() {
        spot_of(u.definition, u.addend)
    } else {
        None
    }
}

/// Marks the place at a spot, if there is one.
fn mark(marks: &mut Vec<bool>, places: &[PackedItem], spot: Option<(u32, u64)>)
    requires order { AreInOrder places.now }
    requires count { length marks.old.items ≡ length places.now }
    ensures count { length marks.new.items ≡ length places.now }
    ensures marks { (i : ℕ) → i < length places.now → slice_index_or marks.new.items i false
        ≡ (slice_index_or marks.old.items i false || is_the (slice_index_or places.now i no_item).section (slice_index_or places.now i no_item).offset spot) }
{
    let Some((section, offset)) = spot else {
        return;
    };
    if let Some(k) = place_in(places, section, offset) {
        marks[k as usize] = true;
    }
}

/// Marks the places whose address a relocation of the section with the index `j` takes.
fn mark_section(marks: &mut Vec<bool>, input: &Input, places: &[PackedItem], j: u32)
    requires order { AreInOrder places.now }
    requires count { length marks.old.items ≡ length places.now }
    requires below { j < section_count input.now }
    ensures count { length marks.new.items ≡ length places.now }
    ensures marks { (i : ℕ) → i < length places.now → slice_index_or marks.new.items i false
        ≡ (slice_index_or marks.old.items i false || some_takes input.now (slice_index_or places.now i no_item).section (slice_index_or places.now i no_item).offset j) }
{
    let uses = input.section(j).uses();
    for u in uses {
        mark(marks, places, pointed(u));
    }
}

/// So many marks, none of them set.
fn unset(alloc: Global, count: usize) -> Result<Vec<bool>, NoMemory>
    ensures { IfOk result (λ v. v.items ≡ replicate count false) }
{
    let mut marks = Vec::new(alloc);
    marks.resize(count, false)?;
    Ok(marks)
}

/// Of each place whether a relocation takes its address.
pub(crate) fn taken(
    alloc: Global,
    input: &Input,
    places: &[PackedItem],
) -> Result<Vec<bool>, NoMemory>
    requires { AreInOrder places.now }
    ensures count { IfOk result (λ v. length v.items ≡ length places.now) }
    ensures marks { IfOk result (λ v. (i : ℕ) → i < length places.now → slice_index_or v.items i false
        ≡ is_taken input.now (slice_index_or places.now i no_item).section (slice_index_or places.now i no_item).offset) }
{
    let mut marks = unset(alloc, places.len())?;
    for j in 0..input.section_count() {
        mark_section(&mut marks, input, places, j);
    }
    Ok(marks)
}
