//! The numbers of the names of symbols.

ghost use Rattle.std.specs.Prelude.{◌≡◌, ◌++◌, ◌<◌, List, ℕ, IfOk, OnOk, length};
ghost use Rattle.elf_names.specs.Numbers.{AreApart, AreNumbers};
ghost use Rattle.elf_tables.specs.Symbol.{symbol_count};
ghost use Rattle.obj_input.specs.Listed.{listed};
ghost use Rattle.obj_join.specs.Symbols.{names_of};
ghost use Rattle.obj_link.specs.Names.{start_in};
ghost use Rattle.obj_link.specs.SaidOf.{said_by};
ghost use Rattle.obj_link.specs.Symbols.{symbols_said};

use elf_names::{Texts, push_numbers};
use elf_object::Object;
use rv_word::NoMemory;
use std::alloc::Global;

/// Where the name of the symbol with this number begins in the table of names; that of number 0, which is empty, at its end.
fn start(object: &Object, number: u64) -> u64
    requires { number < symbol_count object.now }
    ensures { result ≡ start_in object.now number }
{
    if number == 0 {
        return object.symbol_names().len() as u64;
    }
    u64::from(object.symbol_entry(number).name)
}

/// Where the names of the symbols of an object begin.
#[tactic(auto, using(obj_join::proofs::Listing::listings))]
fn starts(alloc: Global, object: &Object) -> Result<Vec<u64>, NoMemory>
    ensures { IfOk result (λ v. v.items ≡ listed (start_in object.now) (symbol_count object.now)) }
{
    let mut starts = Vec::new(alloc);
    for number in 0..object.symbols() {
        starts.push(start(object, number))?;
    }
    Ok(starts)
}

/// Puts the numbers of the names of an object's symbols behind others.
fn push_names<'a>(
    alloc: Global,
    texts: &mut Texts<'a>,
    numbers: &mut Vec<u64>,
    object: &Object<'a>,
) -> Result<(), NoMemory>
    ensures { (names : List (List ℕ)) → AreNumbers texts.old numbers.old.items names
        → OnOk result (AreNumbers texts.new numbers.new.items (names ++ names_of (symbols_said object.now))) }
{
    let _sections = object.sections();
    let starts = starts(alloc, object)?;
    push_numbers(alloc, texts, numbers, object.symbol_names(), &starts)?;
    Ok(())
}

/// The numbers of the names of the symbols of several objects.
fn numbers_of<'a>(
    alloc: Global,
    texts: &mut Texts<'a>,
    objects: &[Object<'a>],
) -> Result<Vec<u64>, NoMemory>
    ensures { IfOk result (λ v. AreNumbers texts.new v.items (names_of (said_by objects.now).symbols)) }
{
    let mut numbers = Vec::new(alloc);
    for object in objects {
        push_names(alloc, texts, &mut numbers, object)?;
    }
    Ok(numbers)
}

/// A number for the name of each symbol of several objects. Names are equal where their numbers are.
pub fn name_numbers(alloc: Global, objects: &[Object]) -> Result<Vec<u64>, NoMemory>
    ensures { IfOk result (λ v. AreApart (names_of (said_by objects.now).symbols) v.items) }
{
    let mut texts = Texts::new(alloc);
    let numbers = numbers_of(alloc, &mut texts, objects)?;
    texts.tells_apart(&numbers);
    Ok(numbers)
}
