//! The places of an input, each with its own word.

ghost use Rattle.std.specs.Prelude.{◌≡◌, ◌<◌, ◌++◌, ◌∷◌, [], IfOk, true};
ghost use Rattle.least.specs.Nearest.{joined};
ghost use Rattle.obj_input.specs.Input.{is_code, section_count, section_of};
ghost use Rattle.obj_input.specs.Code.{word_count};
ghost use Rattle.obj_program.specs.Program.{AreInOrder};
ghost use Rattle.obj_items.specs.Outline.{end_at, outline, own_word, section_items, start_at, start_item};

use obj_check::kind_at;
use obj_input::{Input, ItemKind, Section};
use obj_program::{Item, PackedItem, Patch};
use rv_word::NoMemory;
use std::alloc::Global;

/// The word of the instruction that starts at this word of code: of a pair that of its JALR.
fn own_word(section: &Section, index: u64) -> u32
    requires code { is_code section.now ≡ true }
    requires below { index < word_count section.now }
    ensures { result ≡ own_word section.now index }
{
    let _count = section.word_count();
    if section.is_pair(index) {
        section.word(index + 1)
    } else {
        section.word(index)
    }
}

/// The instruction that starts at this word of code of the section `k`, without what its relocation does.
fn start_at(section: &Section, k: u32, index: u64) -> Item
    requires code { is_code section.now ≡ true }
    requires below { index < word_count section.now }
    ensures { result ≡ start_at section.now k index }
{
    Item {
        section: k,
        offset: section.offset_of(index),
        kind: kind_at(section, index).unwrap_or(ItemKind::Plain),
        word: own_word(section, index),
        patch: Patch::Own,
        target: None,
        taken: false,
    }
}

/// The end of the section `k`.
fn end_at(section: &Section, k: u32) -> Item
    ensures { result ≡ end_at section.now k }
{
    Item {
        section: k,
        offset: section.size(),
        kind: ItemKind::End,
        word: 0,
        patch: Patch::Own,
        target: None,
        taken: false,
    }
}

/// These places, with what starts at this word of code of the section `k` behind them.
fn with_start(
    mut items: Vec<PackedItem>,
    section: &Section,
    k: u32,
    index: u64,
) -> Result<Vec<PackedItem>, NoMemory>
    requires code { is_code section.now ≡ true }
    requires below { index < word_count section.now }
    ensures { IfOk result (λ v. v.items ≡ items.items ++ start_item section.now k index) }
{
    if section.starts_at(index) {
        items.push(PackedItem::of(start_at(section, k, index)))?;
    }
    Ok(items)
}

/// These places, with the instructions of the section `k`, which is code, behind them.
fn with_starts(
    mut items: Vec<PackedItem>,
    section: &Section,
    k: u32,
) -> Result<Vec<PackedItem>, NoMemory>
    requires { is_code section.now ≡ true }
    ensures { IfOk result (λ v. v.items ≡ items.items ++ joined (start_item section.now k) (word_count section.now)) }
{
    for index in 0..section.word_count() {
        items = with_start(items, section, k, index)?;
    }
    Ok(items)
}

/// These places, with those of the section `k` behind them.
fn with_section(items: Vec<PackedItem>, input: &Input, k: u32) -> Result<Vec<PackedItem>, NoMemory>
    requires { k < section_count input.now }
    ensures { IfOk result (λ v. v.items ≡ items.items ++ section_items input.now k) }
{
    let section = input.section(k);
    if !section.is_code() {
        return Ok(items);
    }
    let mut items = with_starts(items, section, k)?;
    items.push(PackedItem::of(end_at(section, k)))?;
    Ok(items)
}

/// How many places a section has at most.
fn most_places(section: &Section) -> u64 {
    if section.is_code() {
        section.size() / 4 + 1
    } else {
        0
    }
}

/// Room for all places of an input, and none of them.
pub(crate) fn room(alloc: Global, input: &Input) -> Result<Vec<PackedItem>, NoMemory>
    ensures { IfOk result (λ v. v.items ≡ []) }
{
    let mut most: u64 = 0;
    for k in 0..input.section_count() {
        most = most.saturating_add(most_places(input.section(k)));
    }
    Ok(Vec::with_capacity(alloc, most as usize)?)
}

/// The places of an input in their order, put where there are none.
#[tactic(auto, unfolding(crate::specs::Outline::outline))]
fn outline_of(mut items: Vec<PackedItem>, input: &Input) -> Result<Vec<PackedItem>, NoMemory>
    requires { items.items ≡ [] }
    ensures { IfOk result (λ v. v.items ≡ outline input.now) }
{
    for k in 0..input.section_count() {
        items = with_section(items, input, k)?;
    }
    Ok(items)
}

/// The places of an input in their order: of each section of code its instructions and its end. They are put where there
/// are none.
pub(crate) fn outline(room: Vec<PackedItem>, input: &Input) -> Result<Vec<PackedItem>, NoMemory>
    requires { room.items ≡ [] }
    ensures value { IfOk result (λ v. v.items ≡ outline input.now) }
    ensures order { IfOk result (λ v. AreInOrder v.items) }
{
    let items = outline_of(room, input)?;
    Ok(items)
}
