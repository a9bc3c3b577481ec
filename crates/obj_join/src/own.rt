//! One object by itself, where each symbol is its own.

ghost use Rattle.std.specs.Prelude.{◌≡◌, ◌<◌, ℕ, true, IfOk, length};
ghost use Rattle.obj_input.specs.Listed.{listed};
ghost use Rattle.obj_join.specs.Stands.{definition};
ghost use Rattle.obj_join.specs.SaidInput.{is_named, names_by};
ghost use Rattle.obj_join.specs.Definer.{own};

use crate::name::named;
use crate::symbol::Symbol;
use obj_input::{Definition, Name};
use rv_word::NoMemory;
use std::alloc::Global;

/// Which symbol the one with this number is: itself, or number 0 where it is none.
fn own(symbols: &[Symbol], number: u64) -> u64
    requires { number < length symbols.now }
    ensures { result ≡ own symbols.now number }
{
    if symbols[number as usize].is_some() {
        number
    } else {
        0
    }
}

/// Which symbol each one is.
#[tactic(auto, using(crate::proofs::Listing::listings))]
pub fn own_numbers(alloc: Global, symbols: &[Symbol]) -> Result<Vec<u64>, NoMemory>
    ensures { IfOk result (λ v. v.items ≡ listed (own symbols.now) (length symbols.now)) }
{
    let mut numbers = Vec::new(alloc);
    for number in 0..symbols.len() as u64 {
        numbers.push(own(symbols, number))?;
    }
    Ok(numbers)
}

/// Whether the symbol with this number stands for something.
fn is_named(symbols: &[Symbol], number: u64) -> bool
    requires { number < length symbols.now }
    ensures { result ≡ is_named (λ n. true) symbols.now number }
{
    symbols[number as usize].is_some()
}

/// The names of all symbols, where `definitions` says what a use of each stands for.
#[tactic(auto, unfolding(crate::specs::SaidInput::names_by))]
pub fn own_names<'a>(
    alloc: Global,
    symbols: &[Symbol<'a>],
    definitions: &[Definition],
) -> Result<Vec<Name<'a>>, NoMemory>
    requires { length definitions.now ≡ length symbols.now }
    ensures { (resolve : ℕ → ℕ) → definitions.now ≡ listed (definition resolve symbols.now) (length symbols.now)
        → IfOk result (λ v. v.items ≡ names_by resolve (λ n. true) symbols.now) }
{
    let mut names = Vec::new(alloc);
    for number in 0..symbols.len() as u64 {
        if is_named(symbols, number) {
            names.push(named(symbols, definitions, number))?;
        }
    }
    Ok(names)
}
