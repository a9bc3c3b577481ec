//! That numbers of relocations have 64 bits, as the prover needs it.

ghost use Rattle.std.specs.Prelude.{◌≡◌, ◌<◌, ◌^◌, All, None, length};
ghost use Rattle.obj_check.specs.Fault.{fault_of};
ghost use Rattle.obj_program.specs.MapFit.{FitsMaps};
ghost use Rattle.obj_program.specs.Sound.{IsSound};
ghost use Rattle.obj_items.specs.FitCode.{HasFitCode};
ghost use Rattle.obj_items.specs.Outline.{outline};
ghost use Rattle.obj_items.specs.ProgramOf.{program_of};
ghost use Rattle.obj_items.specs.Ranges.{AreSections, HasSmall, IsBlock, IsInput, IsSection, IsSmallUse};

use obj_input::{Block, Definition, Input, Relocation, Section};
use obj_program::PackedItem;

/// The numbers of a definition have 64 bits.
fn definition_fits(definition: Definition)
    ensures { HasSmall definition }
{
    match definition {
        Definition::Absolute(_) => {}
        Definition::Within(_, _) => {}
        _ => {}
    }
}

/// The numbers of a relocation have 64 bits.
fn use_fits(u: &Relocation)
    ensures { IsSmallUse u.now }
{
    let _addend = u.addend;
    definition_fits(u.definition);
}

/// The same of all of these.
fn uses_fit(uses: &[Relocation])
    ensures { All IsSmallUse uses.now }
{
    for u in uses {
        use_fits(u);
    }
}

/// The numbers of a section have 64 bits, and code and data have all their bytes.
fn section_fits(section: &Section)
    ensures { IsSection section.now }
{
    let _size = section.size();
    let _align = section.align();
    let _bytes = section.bytes();
    uses_fit(section.uses());
}

/// The same of all sections.
fn sections_fit(input: &Input)
    ensures { AreSections input.now }
{
    for k in 0..input.section_count() {
        section_fits(input.section(k));
    }
}

/// The numbers of a block have 64 bits.
fn block_fits(block: &Block)
    ensures { IsBlock block.now }
{
    let _size = block.size;
    let _align = block.align;
}

/// The same of all blocks.
fn blocks_fit(blocks: &[Block])
    ensures { All IsBlock blocks.now }
{
    for block in blocks {
        block_fits(block);
    }
}

/// The numbers of an input are as their types say.
fn input_fits(input: &Input)
    ensures { IsInput input.now }
{
    let _sections = input.section_count();
    sections_fit(input);
    blocks_fit(input.blocks());
}

/// Places are few, since each takes bytes.
fn are_few(places: &[PackedItem])
    ensures { length places.now < 2 ^ 62 }
{}

/// The program of an input without a fault, whose places these are and whose code is fit, is sound and fits maps.
pub(crate) fn program_is_sound(input: &Input, places: &[PackedItem])
    requires places { places.now ≡ outline input.now }
    requires right { fault_of input.now ≡ None }
    requires fit { HasFitCode input.now }
    ensures sound { IsSound (program_of input.now) }
    ensures fits { FitsMaps (program_of input.now) }
{
    input_fits(input);
    are_few(places);
}
