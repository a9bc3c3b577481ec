//! The sections of objects.

ghost use Rattle.std.specs.Prelude.{◌≡◌, ◌+◌, ◌++◌, ◌<◌, ◌≤◌, true, IfOk, OnOk, length, map};
ghost use Rattle.elf_tables.specs.Header.{e_shnum};
ghost use Rattle.elf_tables.specs.Section.{content, section_header};
ghost use Rattle.elf_tables.specs.Symbol.{symbol_count};
ghost use Rattle.obj_input.specs.Input.{has_bytes};
ghost use Rattle.obj_join.specs.Said.{section_behind};
ghost use Rattle.obj_join.specs.SaidInput.{section_of};
ghost use Rattle.obj_join.specs.Numbers.{by};
ghost use Rattle.obj_link.specs.Sections.{kept_sort, section_said_in, sections_said, sort_of};
ghost use Rattle.obj_link.specs.SaidOf.{said_by};

use crate::resolution::Resolution;
use elf_object::{Object, SectionHeader};
use elf_tables::constants::SHT_NOBITS;
use obj_input::{Section, Sort};
use rv_word::NoMemory;
use std::alloc::Global;

/// What a kept section with this header holds.
fn kept_sort(header: &SectionHeader) -> Sort
    ensures { result ≡ kept_sort header.now }
{
    if header.is_executable() {
        Sort::Code
    } else if header.kind == SHT_NOBITS {
        Sort::Zeros
    } else {
        Sort::Data
    }
}

/// What the section with this index holds.
pub fn sort_of(object: &Object, k: u32) -> Sort
    requires { k < e_shnum object.now }
    ensures { result ≡ sort_of object.now k }
{
    if object.is_kept(k) {
        kept_sort(&object.header(k))
    } else {
        Sort::Dropped
    }
}

/// The bytes of the section with this index: all of code and data.
pub fn content<'a>(object: &Object<'a>, k: u32) -> &'a [u8]
    requires { k < e_shnum object.now }
    ensures value { result.now ≡ content object.now (section_header object.now k) }
    ensures whole { has_bytes (sort_of object.now k) ≡ true → length result.now ≡ (section_header object.now k).size }
{
    let _count = object.sections();
    object.content(k)
}

/// The section with this index of an object, behind so many symbols.
fn section<'a>(
    alloc: Global,
    resolution: &Resolution,
    object: &Object<'a>,
    symbols: u64,
    k: u32,
) -> Result<Section<'a>, NoMemory>
    requires there { k < e_shnum object.now }
    requires symbols { symbols + symbol_count object.now ≤ length (said_by resolution.now.objects).symbols }
    ensures { IfOk result (λ s. s ≡ section_of (by resolution.now.numbers) (said_by resolution.now.objects) (section_behind symbols (section_said_in object.now k))) }
{
    let header = object.header(k);
    let uses = resolution.uses(alloc, object, symbols, k)?;
    Section::of(
        alloc,
        sort_of(object, k),
        header.size,
        header.align,
        content(object, k),
        uses,
    )
}

/// Puts the sections of an object, behind so many symbols, behind others.
fn push_sections<'a>(
    alloc: Global,
    sections: &mut Vec<Section<'a>>,
    resolution: &Resolution,
    object: &Object<'a>,
    symbols: u64,
) -> Result<(), NoMemory>
    requires { symbols + symbol_count object.now ≤ length (said_by resolution.now.objects).symbols }
    ensures { OnOk result (sections.new.items ≡ sections.old.items ++ map (section_of (by resolution.now.numbers) (said_by resolution.now.objects)) (map (section_behind symbols) (sections_said object.now))) }
{
    for k in 0..object.sections() {
        sections.push(section(alloc, resolution, object, symbols, k)?)?;
    }
    Ok(())
}

/// The sections of several objects.
pub(crate) fn sections_of<'a>(
    alloc: Global,
    resolution: &Resolution<'_, 'a>,
) -> Result<Vec<Section<'a>>, NoMemory>
    ensures { IfOk result (λ v. v.items ≡ map (section_of (by resolution.now.numbers) (said_by resolution.now.objects)) (said_by resolution.now.objects).sections) }
{
    let _count = resolution.count();
    let mut symbols = 0;
    let mut sections = Vec::new(alloc);
    for object in resolution.objects() {
        push_sections(alloc, &mut sections, resolution, object, symbols)?;
        symbols += object.symbols();
    }
    Ok(sections)
}
