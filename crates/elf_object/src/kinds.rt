//! Sections of kinds that are not taken.

ghost use Rattle.std.specs.Prelude.{◌≡◌, ◌<◌};
ghost use Rattle.elf_tables.specs.Header.{e_shnum};
ghost use Rattle.least.specs.First.{first_below};
ghost use Rattle.elf_object.specs.Kind.{is_alignment, is_wrong_code, is_wrong_kept, is_wrong_kind};

use elf_tables::constants::{SHT_GROUP, SHT_NOBITS, SHT_PROGBITS};
use elf_tables::{Lookup, SectionHeader};
use least::first_below;

/// The greatest alignment of data that is taken: a page.
pub(crate) const MOST_ALIGNMENT: u64 = 4096;

/// Whether a number may be an alignment.
pub(crate) fn is_alignment(value: u64) -> bool
    ensures { result ≡ is_alignment value }
{
    value == 0 || value.is_power_of_two()
}

/// Whether executable bytes may be written, are not in the file, or are no whole instructions.
fn is_wrong_code(header: &SectionHeader) -> bool
    ensures { result ≡ is_wrong_code header.now }
{
    header.is_writable() || header.kind == SHT_NOBITS || header.size % 4 != 0
}

/// Whether a kept section is not taken.
fn is_wrong_kept(header: &SectionHeader) -> bool
    ensures { result ≡ is_wrong_kept header.now }
{
    header.kind != SHT_PROGBITS && header.kind != SHT_NOBITS
        || header.is_thread_local()
        || !is_alignment(header.align)
        || header.is_executable() && is_wrong_code(header)
        || !header.is_executable() && header.align > MOST_ALIGNMENT
}

/// Whether the section with this index is of a kind that is not taken.
fn is_wrong_kind(lookup: &Lookup, index: u32) -> bool
    requires { index < e_shnum lookup.now }
    ensures { result ≡ is_wrong_kind lookup.now index }
{
    let header = lookup.header(index);
    header.kind == SHT_GROUP || lookup.is_kept(index) && is_wrong_kept(&header)
}

/// The first section of a kind that is not taken.
pub(crate) fn first_wrong_kind(lookup: &Lookup) -> Option<u32>
    ensures { result ≡ first_below (is_wrong_kind lookup.now) (e_shnum lookup.now) }
{
    first_below(lookup.count(), |index| is_wrong_kind(lookup, index))
}
