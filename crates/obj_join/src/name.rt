ghost use Rattle.std.specs.Prelude.{◌≡◌, ◌<◌, ℕ, IfOk, length};
ghost use Rattle.obj_input.specs.Listed.{listed};
ghost use Rattle.obj_join.specs.Stands.{definition};
ghost use Rattle.obj_join.specs.Found.{is_found};
ghost use Rattle.obj_join.specs.Symbols.{symbol};
ghost use Rattle.obj_join.specs.SaidInput.{named, names_by};

use crate::definers::Definers;
use crate::symbol::Symbol;
use obj_input::{Definition, Name};
use rv_word::NoMemory;
use std::alloc::Global;

/// The symbol with this number.
fn symbol<'s, 'a>(symbols: &'s [Symbol<'a>], number: u64) -> &'s Symbol<'a>
    requires { number < length symbols.now }
    ensures { result.now ≡ symbol symbols.now number }
{
    &symbols[number as usize]
}

/// The name of the symbol with this number, and what a use of it stands for.
pub(crate) fn named<'a>(symbols: &[Symbol<'a>], definitions: &[Definition], number: u64) -> Name<'a>
    requires below { number < length definitions.now }
    requires count { length definitions.now ≡ length symbols.now }
    ensures { (resolve : ℕ → ℕ) → definitions.now ≡ listed (definition resolve symbols.now) (length symbols.now)
        → result ≡ named resolve symbols.now number }
{
    symbol(symbols, number).named(definitions[number as usize])
}

/// The names that find something, where `definitions` says what a use of each symbol stands for.
#[tactic(auto, unfolding(crate::specs::SaidInput::names_by))]
pub fn names<'a>(
    alloc: Global,
    definers: &Definers<'_, 'a>,
    definitions: &[Definition],
) -> Result<Vec<Name<'a>>, NoMemory>
    requires { length definitions.now ≡ length definers.now }
    ensures { (resolve : ℕ → ℕ) → definitions.now ≡ listed (definition resolve definers.now) (length definers.now)
        → IfOk result (λ v. v.items ≡ names_by resolve (is_found definers.now) definers.now) }
{
    let symbols = definers.symbols();
    let mut names = Vec::new(alloc);
    for number in 0..definers.count() {
        if definers.is_named(number) {
            names.push(named(symbols, definitions, number))?;
        }
    }
    Ok(names)
}
