//! What relocations make of places: patches, targets and taken addresses.

ghost use Rattle.std.specs.Prelude.{◌≡◌, ◌+◌, ◌/◌, ◌<◌, ℕ, false, true, length, map, slice_index_or};
ghost use Rattle.obj_input.specs.Input.{acting_at, is_code, section_count, section_of};
ghost use Rattle.obj_input.specs.Code.{word_count};
ghost use Rattle.obj_input.specs.Kinds.{kind_of};
ghost use Rattle.obj_input.specs.DataLayout.{data_layout_of};
ghost use Rattle.obj_program.specs.Program.{AreInOrder, is_end, no_item, place_of};
ghost use Rattle.obj_program.specs.Sound.{IsSound};
ghost use Rattle.obj_items.specs.Links.{aimed_place, is_taken, item_with, linked, named_place, patch_by, patch_from, target_of};
ghost use Rattle.obj_items.specs.Linking.{AreLinkedTo};
ghost use Rattle.obj_items.specs.Outline.{outline};
ghost use Rattle.obj_items.specs.ProgramOf.{program_of};
ghost use Rattle.obj_items.specs.Standing.{IsInstruction};

use crate::values::{place_at, use_value};
use obj_check::{Aim, aim_at, direct_at};
use obj_input::{DataLayout, Definition, Input, ItemKind, RelocKind, Relocation};
use obj_program::{Item, PackedItem, Patch, place_in};

/// The place of the AUIPC that a low part names.
fn named_place(places: &[PackedItem], definition: Definition) -> u64
    requires { AreInOrder places.now }
    ensures { result ≡ named_place places.now definition }
{
    match definition {
        Definition::Within(section, value) => place_in(places, section, value).unwrap_or(0),
        _ => 0,
    }
}

/// What a relocation does to the immediate of its instruction.
fn patch_by(input: &Input, layout: &DataLayout, places: &[PackedItem], u: &Relocation) -> Patch
    requires order { AreInOrder places.now }
    requires layout { layout.now ≡ data_layout_of input.now }
    ensures { result ≡ patch_by input.now places.now u.now (kind_of u.now.number) }
{
    match u.kind() {
        RelocKind::High => Patch::High(use_value(input, layout, places, u)),
        RelocKind::LowI | RelocKind::LowS => Patch::Low(use_value(input, layout, places, u)),
        RelocKind::RelativeHigh | RelocKind::TableHigh => {
            Patch::RelativeHigh(use_value(input, layout, places, u))
        }
        RelocKind::RelativeLowI | RelocKind::RelativeLowS => {
            Patch::RelativeLow(named_place(places, u.definition))
        }
        _ => Patch::Own,
    }
}

/// What the first of these relocations does to the immediate of their instruction.
fn patch_from(
    input: &Input,
    layout: &DataLayout,
    places: &[PackedItem],
    uses: &[Relocation],
) -> Patch
    requires order { AreInOrder places.now }
    requires layout { layout.now ≡ data_layout_of input.now }
    ensures { result ≡ patch_from input.now places.now uses.now }
{
    match uses {
        [u, ..] => patch_by(input, layout, places, u),
        [] => Patch::Own,
    }
}

/// The place where a direct transfer goes.
fn aimed_place(places: &[PackedItem], aim: Aim) -> Option<u64>
    requires { AreInOrder places.now }
    ensures { result ≡ aimed_place places.now aim }
{
    match aim {
        Aim::At(section, at) => place_at(places, section, at),
        _ => None,
    }
}

/// The place where the direct transfer goes that starts at this word of code of the section `k`; `None` of other
/// instructions.
fn target_of(input: &Input, places: &[PackedItem], k: u32, index: u64) -> Option<u64>
    requires order { AreInOrder places.now }
    requires there { k < section_count input.now }
    requires code { is_code (section_of input.now k) ≡ true }
    requires below { index < word_count (section_of input.now k) }
    ensures { result ≡ target_of input.now places.now k index }
{
    let direct = direct_at(input.section(k), index)?;
    aimed_place(places, aim_at(input, k, index, direct))
}

/// An instruction with its patch, its target and this mark, which says whether its address is taken.
fn linked(
    input: &Input,
    layout: &DataLayout,
    places: &[PackedItem],
    item: &Item,
    taken: bool,
) -> Item
    requires order { AreInOrder places.now }
    requires layout { layout.now ≡ data_layout_of input.now }
    requires instruction { IsInstruction input.now item.now }
    requires taken { taken ≡ is_taken input.now item.now.section item.now.offset }
    ensures { result ≡ linked input.now places.now item.now }
{
    let uses = input.section(item.section).acting_at(item.offset);
    Item {
        patch: patch_from(input, layout, places, uses),
        target: target_of(input, places, item.section, item.offset / 4),
        taken,
        ..*item
    }
}

/// A place with its links; an end has none.
fn item_with(
    input: &Input,
    layout: &DataLayout,
    places: &[PackedItem],
    item: &Item,
    taken: bool,
) -> Item
    requires order { AreInOrder places.now }
    requires layout { layout.now ≡ data_layout_of input.now }
    requires instruction { is_end item.now.kind ≡ false → IsInstruction input.now item.now }
    requires taken { taken ≡ is_taken input.now item.now.section item.now.offset }
    ensures { result ≡ item_with input.now places.now item.now }
{
    if item.kind == ItemKind::End {
        *item
    } else {
        linked(input, layout, places, item, taken)
    }
}

/// Gives the place with this index its links, where those before it have theirs.
fn link_at(input: &Input, layout: &DataLayout, places: &mut Vec<PackedItem>, j: usize, taken: bool)
    requires layout { layout.now ≡ data_layout_of input.now }
    requires sound { IsSound (program_of input.now) }
    requires linked { AreLinkedTo input.now (outline input.now) places.old.items j }
    requires below { j < length places.old.items }
    requires taken { taken ≡ is_taken input.now (slice_index_or (outline input.now) j no_item).section (slice_index_or (outline input.now) j no_item).offset }
    ensures { AreLinkedTo input.now (outline input.now) places.new.items (j + 1) }
{
    let item = places[j].item();
    let linked = item_with(input, layout, places, &item, taken);
    places[j] = PackedItem::of(linked);
}

/// The places of an input, which are these, with what relocations make of them; `taken` has a mark for each place. They are
/// changed where they stand.
pub(crate) fn linked_places(
    input: &Input,
    layout: &DataLayout,
    mut places: Vec<PackedItem>,
    taken: &[bool],
) -> Vec<PackedItem>
    requires layout { layout.now ≡ data_layout_of input.now }
    requires sound { IsSound (program_of input.now) }
    requires places { places.items ≡ outline input.now }
    requires count { length taken.now ≡ length places.items }
    requires taken { (j : ℕ) → j < length places.items → slice_index_or taken.now j false ≡ is_taken input.now (slice_index_or places.items j no_item).section (slice_index_or places.items j no_item).offset }
    ensures value { result.items ≡ map (item_with input.now (outline input.now)) (outline input.now) }
    ensures found { (section offset : ℕ) → place_of result.items section offset ≡ place_of (outline input.now) section offset }
    ensures order { AreInOrder result.items }
{
    for j in 0..taken.len() {
        link_at(input, layout, &mut places, j, taken[j]);
    }
    places
}
