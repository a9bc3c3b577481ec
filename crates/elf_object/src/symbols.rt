ghost use Rattle.std.specs.Prelude.{◌≡◌, ◌<◌};
ghost use Rattle.least.specs.First.{first_below};
ghost use Rattle.elf_tables.specs.Symbol.{symbol_count};
ghost use Rattle.elf_object.specs.Symbol.{has_no_place, has_wrong_alignment, has_wrong_type, is_past_end, is_wrong_entry, is_wrong_symbol};

use crate::kinds::{MOST_ALIGNMENT, is_alignment};
use elf_tables::constants::{SHN_ABS, SHN_COMMON, SHN_UNDEF, STT_GNU_IFUNC, STT_TLS};
use elf_tables::{Lookup, SymbolEntry};
use least::first_below_u64;

/// Whether a symbol's section index is none of a section's, `SHN_ABS` or `SHN_COMMON`.
fn has_no_place(lookup: &Lookup, entry: &SymbolEntry) -> bool
    ensures { result ≡ has_no_place lookup.now entry.now }
{
    u32::from(entry.section) >= lookup.count()
        && entry.section != SHN_ABS
        && entry.section != SHN_COMMON
}

/// Whether a symbol is of a type that is not taken.
fn has_wrong_type(entry: &SymbolEntry) -> bool
    ensures { result ≡ has_wrong_type entry.now }
{
    entry.kind() == STT_TLS || entry.kind() == STT_GNU_IFUNC
}

/// Whether a symbol stands beyond the end of a kept section.
fn is_past_end(lookup: &Lookup, entry: &SymbolEntry) -> bool
    ensures { result ≡ is_past_end lookup.now entry.now }
{
    let index = u32::from(entry.section);
    entry.section != SHN_UNDEF
        && index < lookup.count()
        && lookup.is_kept(index)
        && lookup.header(index).size < entry.value
}

/// Whether a symbol without a place yet has an alignment that is not taken.
fn has_wrong_alignment(entry: &SymbolEntry) -> bool
    ensures { result ≡ has_wrong_alignment entry.now }
{
    entry.section == SHN_COMMON && !(is_alignment(entry.value) && entry.value <= MOST_ALIGNMENT)
}

/// Whether what a symbol says is wrong.
fn is_wrong_entry(lookup: &Lookup, entry: &SymbolEntry) -> bool
    ensures { result ≡ is_wrong_entry lookup.now entry.now }
{
    !lookup.has_symbol_name(entry)
        || has_no_place(lookup, entry)
        || has_wrong_type(entry)
        || is_past_end(lookup, entry)
        || has_wrong_alignment(entry)
}

/// Whether the symbol with this number is wrong.
fn is_wrong_symbol(lookup: &Lookup, number: u64) -> bool
    requires { number < symbol_count lookup.now }
    ensures { result ≡ is_wrong_symbol lookup.now number }
{
    let entry = lookup.symbol(number);
    number != 0 && is_wrong_entry(lookup, &entry)
}

/// The first wrong symbol.
pub(crate) fn first_wrong_symbol(lookup: &Lookup) -> Option<u64>
    ensures { result ≡ first_below (is_wrong_symbol lookup.now) (symbol_count lookup.now) }
{
    first_below_u64(
        lookup.symbol_count(),
        |number| is_wrong_symbol(lookup, number),
    )
}
