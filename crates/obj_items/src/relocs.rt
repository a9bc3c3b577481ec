//! The relocations of initialised data.

ghost use Rattle.std.specs.Prelude.{◌≡◌, ◌++◌, ◌+◌, ◌-◌, ◌<◌, ◌^◌, ℕ, IfOk, OnOk, length};
ghost use Rattle.std.specs.List.{flat_map};
ghost use Rattle.least.specs.Nearest.{joined};
ghost use Rattle.rv_image.specs.MemoryMap.{DATA_START};
ghost use Rattle.obj_input.specs.Input.{InputParts};
ghost use Rattle.obj_input.specs.DataLayout.{data_layout_of, section_address};
ghost use Rattle.obj_program.specs.Program.{AreInOrder, place_of};
ghost use Rattle.obj_items.specs.Bare.{bare, listed_relocs};
ghost use Rattle.obj_items.specs.InitialData.{reloc_of, relocs_in, relocs_of};
ghost use Rattle.obj_items.specs.Outline.{outline};

use crate::init::section_address;
use crate::values::use_value;
use obj_input::{DataLayout, Input, RelocKind, Relocation, Section};
use obj_program::{DataReloc, PackedItem, PackedReloc};
use rv_image::memory_map::DATA_START;
use rv_word::NoMemory;
use std::alloc::Global;

/// Where an offset of the section of data with this index stands in initialised data. What needs more bytes than there
/// are addresses wants memory.
fn offset_in(input: &Input, layout: &DataLayout, k: u32, at: u64) -> Result<u64, NoMemory>
    requires { layout.now ≡ data_layout_of input.now }
    ensures { IfOk result (λ offset. offset ≡ section_address input.now k - DATA_START + at) }
{
    let start = section_address(input, layout, k).saturating_sub(u128::from(DATA_START));
    match u64::try_from(start + u128::from(at)) {
        Ok(offset) => Ok(offset),
        Err(_) => Err(NoMemory),
    }
}

/// Puts the relocation of data that a relocation of the section with the index `k` is behind others, if it is one.
fn push_reloc(
    relocs: &mut Vec<PackedReloc>,
    input: &Input,
    layout: &DataLayout,
    places: &[PackedItem],
    k: u32,
    u: &Relocation,
) -> Result<(), NoMemory>
    requires order { AreInOrder places.now }
    requires layout { layout.now ≡ data_layout_of input.now }
    ensures { OnOk result (relocs.new.items ≡ relocs.old.items ++ reloc_of input.now places.now k u.now) }
{
    if let RelocKind::InData(patch) = u.kind() {
        relocs.push(PackedReloc::of(DataReloc {
            section: k,
            at: u.offset,
            offset: offset_in(input, layout, k, u.offset)?,
            patch,
            value: use_value(input, layout, places, u),
        }))?;
    }
    Ok(())
}

/// Puts what these relocations of the section with the index `k` are behind others.
fn push_relocs(
    relocs: &mut Vec<PackedReloc>,
    input: &Input,
    layout: &DataLayout,
    places: &[PackedItem],
    k: u32,
    uses: &[Relocation],
) -> Result<(), NoMemory>
    requires order { AreInOrder places.now }
    requires layout { layout.now ≡ data_layout_of input.now }
    ensures { OnOk result (relocs.new.items ≡ relocs.old.items ++ flat_map (reloc_of input.now places.now k) uses.now) }
{
    for u in uses {
        push_reloc(relocs, input, layout, places, k, u)?;
    }
    Ok(())
}

/// Puts the relocations of data of a section, which has the index `k`, behind others.
fn push_section(
    relocs: &mut Vec<PackedReloc>,
    input: &Input,
    layout: &DataLayout,
    places: &[PackedItem],
    k: u32,
    section: &Section,
) -> Result<(), NoMemory>
    requires order { AreInOrder places.now }
    requires layout { layout.now ≡ data_layout_of input.now }
    ensures { OnOk result (relocs.new.items ≡ relocs.old.items ++ relocs_in input.now places.now k section.now) }
{
    if section.is_data() {
        push_relocs(relocs, input, layout, places, k, section.uses())?;
    }
    Ok(())
}

/// The relocations of data that those of these sections are, where an input says where they stand. Each section goes when
/// its relocations are listed.
fn all_relocs(
    alloc: Global,
    sections: Vec<Section>,
    input: &Input,
    places: &[PackedItem],
) -> Result<Vec<PackedReloc>, NoMemory>
    requires order { AreInOrder places.now }
    requires few { length sections.items < 2 ^ 32 }
    ensures { IfOk result (λ v. v.items ≡ joined (listed_relocs input.now places.now sections.entry.items) (length sections.entry.items)) }
{
    let layout = DataLayout::of(alloc, input)?;
    let mut relocs = Vec::new(alloc);
    let mut k = 0;
    for section in sections {
        push_section(&mut relocs, input, &layout, places, k, &section)?;
        k += 1;
    }
    Ok(relocs)
}

/// The relocations of initialised data, in the order of sections and then of their tables: those of the sections, which
/// go, where an input without relocations says where they stand.
pub(crate) fn relocs(
    alloc: Global,
    sections: Vec<Section>,
    input: &Input,
    places: &[PackedItem],
) -> Result<Vec<PackedReloc>, NoMemory>
    requires order { AreInOrder places.now }
    requires few { length sections.items < 2 ^ 32 }
    ensures { (whole : InputParts) → input.now ≡ bare whole → sections.entry.items ≡ whole.sections
        → ((section offset : ℕ) → place_of places.now section offset ≡ place_of (outline whole) section offset)
        → IfOk result (λ v. v.items ≡ relocs_of whole (outline whole)) }
{
    let relocs = all_relocs(alloc, sections, input, places)?;
    Ok(relocs)
}
