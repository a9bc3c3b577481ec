//! The uses of the table of addresses in a section of code, by the words that they stand at.

ghost use Rattle.std.specs.Prelude.{◌≡◌, ◌==◌, ◌*◌, ◌/◌, ◌%◌, ◌&&◌, ℕ, IfOk, filter, map, nat_lt};
ghost use Rattle.std.specs.List.Sorted.{IsNonDecreasingBy};
ghost use Rattle.least.specs.Nearest.{joined};
ghost use Rattle.obj_join.specs.Uses.{standing, symbols_at};

use rv_word::NoMemory;
use std::alloc::Global;

/// A use of the table: where it stands in its section, and the symbol whose slot it wants.
#[derive(Clone, Copy)]
pub struct TableUse {
    pub offset: u64,
    pub symbol: u64,
}

/// Uses by their offset; at one offset they keep their order.
fn in_order(alloc: Global, uses: &[TableUse]) -> Result<Vec<TableUse>, NoMemory>
    ensures order { IfOk result (λ v. IsNonDecreasingBy (λ u. u.offset) v.items) }
    ensures found { IfOk result (λ v. (at : ℕ) → standing at v.items ≡ standing at uses.now) }
{
    let mut uses = Vec::from_slice(alloc, uses)?;
    uses.sort_by_key(|u| u.offset)?;
    Ok(uses)
}

/// The symbols of those uses that stand at one of so many words.
fn at_words(alloc: Global, uses: &[TableUse], words: u64) -> Result<Vec<u64>, NoMemory>
    ensures { IfOk result (λ v. v.items ≡ map (λ u. u.symbol) (filter (λ u. u.offset % 4 == 0 && nat_lt (u.offset / 4) words) uses.now)) }
{
    Ok(
        uses.iter()
            .filter(|u| u.offset % 4 == 0 && u.offset / 4 < words)
            .map(|u| u.symbol)
            .collect(alloc)?,
    )
}

/// The symbols that the words of a section have addresses of from the table, in the order of the words; at one word they
/// keep the order of their uses. A word costs nothing.
pub fn table_symbols(alloc: Global, uses: &[TableUse], words: u64) -> Result<Vec<u64>, NoMemory>
    ensures { IfOk result (λ v. v.items ≡ joined (symbols_at uses.now) words) }
{
    let uses = in_order(alloc, uses)?;
    let symbols = at_words(alloc, &uses, words)?;
    Ok(symbols)
}
