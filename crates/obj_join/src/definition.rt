//! What symbols stand for.

ghost use Rattle.std.specs.Prelude.{◌≡◌, ℕ, IfOk, length};
ghost use Rattle.obj_input.specs.Listed.{listed};
ghost use Rattle.obj_join.specs.Stands.{definition, definition_of};
ghost use Rattle.obj_join.specs.Numbers.{before, by};

use crate::standing::Standing;
use crate::symbol::Symbol;
use obj_input::Definition;
use rv_word::NoMemory;
use std::alloc::Global;

/// What the symbol with this number stands for by itself, where `places` says how many blocks are before that of each
/// symbol.
pub fn definition_of(symbols: &[Symbol], places: &[u64], number: u64) -> Definition
    requires { length places.now ≡ length symbols.now }
    ensures { (resolve : ℕ → ℕ) → places.now ≡ listed (before resolve symbols.now) (length symbols.now)
        → result ≡ definition_of resolve symbols.now number }
{
    let Some(symbol) = symbols.get(number as usize) else {
        return Definition::Zero;
    };
    match symbol.standing() {
        Standing::IsNone => Definition::Zero,
        Standing::Nowhere => Definition::Missing(number),
        Standing::AsNumber => Definition::Absolute(symbol.value()),
        Standing::AsCommon => Definition::Common(places[number as usize]),
        Standing::InSection(section) => Definition::Within(section, symbol.value()),
    }
}

/// What each symbol stands for, where `numbers` says which symbol each one is, and `places` how many blocks are before it.
#[tactic(auto, using(crate::proofs::Listing::listings))]
pub fn definitions(
    alloc: Global,
    symbols: &[Symbol],
    numbers: &[u64],
    places: &[u64],
) -> Result<Vec<Definition>, NoMemory>
    requires numbers { length numbers.now ≡ length symbols.now }
    requires places { places.now ≡ listed (before (by numbers.now) symbols.now) (length symbols.now) }
    ensures { IfOk result (λ v. v.items ≡ listed (definition (by numbers.now) symbols.now) (length symbols.now)) }
{
    let mut definitions = Vec::new(alloc);
    for number in numbers {
        definitions.push(definition_of(symbols, places, *number))?;
    }
    Ok(definitions)
}
