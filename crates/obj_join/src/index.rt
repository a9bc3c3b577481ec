//! The first symbol of each name in a rank, where names have numbers.

ghost use Rattle.std.specs.Prelude.{◌≡◌, ℕ, length, IfOk, OnOk};
ghost use Rattle.obj_join.specs.Ranked.{first_ranked, looked_up, noted};

use crate::rank::Rank;
use crate::symbol::Symbol;
use rv_word::NoMemory;
use std::alloc::Global;
use std::collections::BTreeMap;

/// The symbol that the name with this number has in an index.
pub(crate) fn look_up(index: &BTreeMap<u64, u64>, name: u64) -> Option<u64>
    ensures { result ≡ looked_up name index.now }
{
    index.get(&name).copied()
}

/// Adds the symbol with this number to the index of a rank, unless it has another rank or its name, which has this number
/// too, is there.
fn note(
    index: &mut BTreeMap<u64, u64>,
    rank: Rank,
    symbol: &Symbol,
    name: u64,
    number: u64,
) -> Result<(), NoMemory>
    ensures { OnOk result ((other : ℕ) → looked_up other index.new ≡ noted rank symbol.now name number (looked_up other index.old) other) }
{
    if !symbol.has_rank(rank) {
        return Ok(());
    }
    if look_up(index, name).is_some() {
        return Ok(());
    }
    index.insert(name, number)?;
    Ok(())
}

/// The first symbol of each name that has this rank, where `names` has the number of each symbol's name.
#[tactic(auto, unfolding(least::specs::First::first_below))]
pub(crate) fn index_of(
    alloc: Global,
    rank: Rank,
    symbols: &[Symbol],
    names: &[u64],
) -> Result<BTreeMap<u64, u64>, NoMemory>
    requires { length names.now ≡ length symbols.now }
    ensures { IfOk result (λ index. (name : ℕ) → looked_up name index ≡ first_ranked rank symbols.now names.now name (length symbols.now)) }
{
    let mut index = BTreeMap::new(alloc);
    for (number, symbol) in symbols.iter().enumerate() {
        note(&mut index, rank, symbol, names[number], number as u64)?;
    }
    Ok(index)
}
