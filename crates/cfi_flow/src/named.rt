//! The places that a policy's lines name.

ghost use Rattle.std.specs.Prelude.{◌≡◌, ℕ, ◌+◌, ◌<◌, ◌≤◌, true, false, IfSome, length, option_and_then, slice_index_or};
ghost use Rattle.obj_program.specs.Program.{AreInOrder, count, is_before, no_item, place_of};
ghost use Rattle.cfi_flow.specs.Entry.{entry_place};
ghost use Rattle.cfi_flow.specs.Policy.{if_instruction, instruction_at, place_named};

use cfi_policy::PlaceName;
use obj_input::ItemKind;
use obj_program::{Items, PackedItem};

/// How many places are before this section and offset.
pub(crate) fn count_before(places: &[PackedItem], section: u32, offset: u128) -> usize
    requires { AreInOrder places.now }
    ensures bound { result ≤ length places.now }
    ensures before { (k : ℕ) → k < result → is_before (slice_index_or places.now k no_item) section offset ≡ true }
    ensures from { (k : ℕ) → result ≤ k → k < length places.now → is_before (slice_index_or places.now k no_item) section offset ≡ false }
{
    places.partition_point(|place| place.is_before(section, offset))
}

/// The index of the place at an offset, in bytes, that 64 bits may not hold.
fn place_at(places: &[PackedItem], section: u32, offset: u128) -> Option<u64>
    requires { AreInOrder places.now }
    ensures { result ≡ place_of places.now section offset }
{
    let k = count_before(places, section, offset);
    if k < places.len() && places[k].is_at(section, offset) {
        Some(k as u64)
    } else {
        None
    }
}

/// The place, if it is an instruction's start.
fn if_instruction(items: &Items, place: Option<u64>) -> Option<u64>
    requires { IfSome place (λ k. k < count items.now) }
    ensures { result ≡ option_and_then (if_instruction items.now) place }
{
    match place {
        Some(k) if items.item(k).kind != ItemKind::End => Some(k),
        _ => None,
    }
}

/// The instruction that stands so far from an offset, in bytes.
fn instruction_from(items: &Items, section: u32, base: u64, distance: u32) -> Option<u64>
    ensures { result ≡ instruction_at items.now (section, base + distance) }
{
    let offset = u128::from(base) + u128::from(distance);
    if_instruction(items, place_at(items.places(), section, offset))
}

/// The instruction that stands at an offset, in bytes.
fn instruction_at(items: &Items, section: u32, offset: u64) -> Option<u64>
    ensures { result ≡ instruction_at items.now (section, offset) }
{
    if_instruction(items, items.place_of(section, offset))
}

/// The instruction that a policy names by a symbol and an offset from it.
#[tactic(auto, unfolding(crate::specs::Policy::place_named))]
pub(crate) fn place_named(items: &Items, name: &PlaceName) -> Option<u64>
    ensures { result ≡ place_named items.now name.now }
{
    let (section, value) = items.find(name.symbol.as_slice())?;
    instruction_from(items, section, value, name.offset)
}

/// The place where a program is entered: the first symbol of the name stands at an instruction's start.
pub fn entry_place(items: &Items, name: &[u8]) -> Option<u64>
    ensures { result ≡ entry_place items.now name.now }
{
    let (section, value) = items.find(name)?;
    instruction_at(items, section, value)
}
