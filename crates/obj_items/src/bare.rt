//! An input without its relocations.

ghost use Rattle.std.specs.Prelude.{◌≡◌, ◌<◌, ◌^◌, IfOk, length, map};
ghost use Rattle.obj_items.specs.Bare.{bare, bare_section};

use obj_input::{Block, Input, Names, Section};
use rv_word::NoMemory;
use std::alloc::Global;

/// A section without its relocations.
fn bare_section<'a>(alloc: Global, section: &Section<'a>) -> Result<Section<'a>, NoMemory>
    ensures { IfOk result (λ s. s ≡ bare_section section.now) }
{
    let bare = section.without_uses(alloc)?;
    Ok(bare)
}

/// The sections of an input without their relocations.
fn bare_sections<'a>(alloc: Global, input: &Input<'a>) -> Result<Vec<Section<'a>>, NoMemory>
    ensures value { IfOk result (λ v. v.items ≡ map bare_section input.now.sections) }
    ensures few { IfOk result (λ v. length v.items < 2 ^ 32) }
{
    let mut sections = Vec::new(alloc);
    for k in 0..input.section_count() {
        sections.push(bare_section(alloc, input.section(k))?)?;
    }
    Ok(sections)
}

/// The same blocks once more.
fn copied(alloc: Global, input: &Input) -> Result<Vec<Block>, NoMemory>
    ensures value { IfOk result (λ v. v.items ≡ input.now.blocks) }
    ensures few { IfOk result (λ v. length v.items < 2 ^ 60) }
{
    let blocks = Vec::from_slice(alloc, input.blocks())?;
    Ok(blocks)
}

/// An input without its relocations, names and functions.
#[tactic(auto, unfolding(crate::specs::Bare::bare))]
pub(crate) fn bare<'a>(alloc: Global, input: &Input<'a>) -> Result<Input<'a>, NoMemory>
    ensures { IfOk result (λ i. i ≡ bare input.now) }
{
    let sections = bare_sections(alloc, input)?;
    let blocks = copied(alloc, input)?;
    let names = Names::of(alloc, Vec::new(alloc), &[])?;
    Ok(Input::of(sections, blocks, names, Vec::new(alloc)))
}
