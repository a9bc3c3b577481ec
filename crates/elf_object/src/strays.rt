//! Relocations that name a symbol that is not there.

ghost use Rattle.std.specs.Prelude.{◌≡◌, ◌<◌};
ghost use Rattle.elf_tables.specs.Header.{e_shnum};
ghost use Rattle.elf_tables.specs.Symbol.{symbol_count};
ghost use Rattle.elf_tables.specs.Relocation.{relocation_bytes, relocation_count};
ghost use Rattle.elf_object.specs.Stray.{stray_at, stray_in, stray_symbol};

use elf_bytes::places::ENTRY_SIZE;
use elf_tables::{Lookup, Reloc};
use least::{least_below, least_below_u64};

/// The number of the symbol that a relocation names, where no symbol has that number.
fn stray_at(count: u64, table: &[u8], index: u64) -> Option<u64>
    requires { index < relocation_count table.now }
    ensures { result ≡ stray_at count table.now index }
{
    let number = u64::from(Reloc::read(table, index).symbol);
    if number < count {
        return None;
    }
    Some(number)
}

/// The least number of a symbol that relocations name, where no symbol has that number.
fn stray_in(count: u64, table: &[u8]) -> Option<u64>
    ensures { result ≡ stray_in count table.now }
{
    least_below_u64(
        table.len() as u64 / ENTRY_SIZE,
        |index| stray_at(count, table, index),
    )
}

/// The same of the relocations of the section with this index.
fn stray_of(lookup: &Lookup, target: u32) -> Option<u64>
    requires { target < e_shnum lookup.now }
    ensures { result ≡ stray_in (symbol_count lookup.now) (relocation_bytes lookup.now target) }
{
    stray_in(lookup.symbol_count(), lookup.relocation_bytes(target))
}

/// The least number of a symbol that a relocation of a kept section names and that is not there.
#[tactic(auto, unfolding(crate::specs::Stray::stray_symbol))]
pub(crate) fn stray_symbol(lookup: &Lookup) -> Option<u64>
    ensures { result ≡ stray_symbol lookup.now }
{
    least_below(lookup.count(), |target| stray_of(lookup, target))
}
