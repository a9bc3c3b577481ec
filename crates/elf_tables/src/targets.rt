//! Which sections have relocations.

ghost use Rattle.std.specs.Prelude.{◌≡◌, ◌<◌, ◌==◌, ◌&&◌, ℕ, Option, None, Some, IfOk, length, replicate, slice_index_or, if◌then◌else◌};
ghost use Rattle.std.specs.Option.{option_or};
ghost use Rattle.elf_tables.specs.Header.{e_shnum};
ghost use Rattle.elf_tables.specs.Relocation.{IsFirstOfEach};

use crate::constants::SHT_RELA;
use crate::header::SectionHeader;
use crate::sections::Sections;
use std::alloc::{AllocError, Global};

/// For each section the first section with relocations of it.
pub(crate) fn first_of_each(
    alloc: Global,
    sections: &Sections,
) -> Result<Vec<Option<u32>>, AllocError>
    ensures len { IfOk result (λ t. length t.items ≡ e_shnum sections.now) }
    ensures first { IfOk result (λ t. IsFirstOfEach sections.now (e_shnum sections.now) t.items) }
{
    let mut table = empty_table(alloc, sections.count() as usize)?;
    for index in 0..sections.count() {
        let header = sections.header(index);
        note(table.as_mut_slice(), &header, index);
    }
    Ok(table)
}

/// A table with nothing for each of `count` sections.
fn empty_table(alloc: Global, count: usize) -> Result<Vec<Option<u32>>, AllocError>
    ensures { IfOk result (λ t. t.items ≡ replicate count None) }
{
    let mut table = Vec::new(alloc);
    table.resize(count, None)?;
    Ok(table)
}

/// Writes down that the section `index` with this header has relocations, if it has and is the first.
fn note(table: &mut [Option<u32>], header: &SectionHeader, index: u32)
    ensures len { length table.new ≡ length table.old }
    ensures each { (s : ℕ) → s < length table.old → slice_index_or table.new s None ≡ option_or (slice_index_or table.old s None) (if header.now.kind == 4 && header.now.info == s then Some index else None) }
{
    if header.kind == SHT_RELA {
        note_target(table, header.info, index);
    }
}

/// Writes down that the section `index` has relocations of the section `target`, if it is the first.
fn note_target(table: &mut [Option<u32>], target: u32, index: u32)
    ensures len { length table.new ≡ length table.old }
    ensures each { (s : ℕ) → s < length table.old → slice_index_or table.new s None ≡ option_or (slice_index_or table.old s None) (if target == s then Some index else None) }
{
    let at = target as usize;
    if at < table.len() {
        if table[at].is_none() {
            table[at] = Some(index);
        }
    }
}
