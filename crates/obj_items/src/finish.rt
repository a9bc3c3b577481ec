//! The program that several objects are.

ghost use Rattle.std.specs.Prelude.{◌≡◌, ◌<◌, ◌≤◌, ◌^◌, map, IfOk};
ghost use Rattle.std.specs.List.{sum_by};
ghost use Rattle.elf_tables.specs.Header.{e_shnum};
ghost use Rattle.obj_join.specs.Joined.{among, joined_input};
ghost use Rattle.refusals.specs.declared.refusal.Refusal.TheVariants.{Duplicate};
ghost use Rattle.obj_items.specs.FitCode.{HasFitCode};
ghost use Rattle.obj_link.specs.SaidOf.{said_by, said_of};
ghost use Rattle.obj_items.specs.Finished.{IsFinished, Tells, refusal_in};

use crate::program::items_of;
use elf_object::Object;
use obj_check::ItemFault;
use obj_join::Definers;
use obj_link::{joined_input, name_numbers, symbols_of};
use obj_program::Items;
use refusals::Refusal;
use rv_word::{Bytes, End, NoMemory};
use std::alloc::Global;

/// The code of objects is whole words, in sections whose indices have 16 bits.
fn codes_fit(objects: &[Object])
    requires { sum_by e_shnum objects.now ≤ 2 ^ 16 }
    ensures { HasFitCode (joined_input (map said_of objects.now)) }
{
    for object in objects {
        let _sections = object.sections();
    }
}

/// Which object has the symbol with a number among those of all, and its number there, both from 0.
fn among(objects: &[Object], number: u64) -> (u64, u64)
    ensures exact { result ≡ among (map said_of objects.now) number }
    ensures few { result.0 < 2 ^ 63 }
{
    let mut behind = number;
    for (index, object) in objects.iter().enumerate() {
        if behind < object.symbols() {
            return (index as u64, behind);
        }
        behind -= object.symbols();
    }
    (objects.len() as u64, behind)
}

/// A fault of the input of objects, as it is told.
fn refusal_in(objects: &[Object], fault: ItemFault) -> Refusal
    ensures { result ≡ refusal_in objects.now fault }
{
    match fault {
        ItemFault::Undefined(number) => {
            let (object, symbol) = among(objects, number);
            Refusal::UndefinedIn(symbol, object + 1)
        }
        fault => Refusal::Items(fault),
    }
}

/// What is told of a name that is defined twice.
fn refusal_of_duplicate(alloc: Global, name: &[u8]) -> Result<Refusal, NoMemory>
    ensures { IfOk result (λ refusal. refusal ≡ Duplicate name.now) }
{
    Ok(Refusal::Duplicate(Bytes::of(Vec::from_slice(alloc, name)?)))
}

/// The program that objects are, whose symbols have these definers.
fn program<'a>(
    alloc: Global,
    objects: &[Object<'a>],
    definers: &Definers<'_, 'a>,
) -> Result<Items<'a>, End<Refusal>>
    requires few { sum_by e_shnum objects.now ≤ 2 ^ 16 }
    requires definers { definers.now ≡ (said_by objects.now).symbols }
    ensures { Tells objects.now (joined_input (map said_of objects.now)) result }
{
    let input = joined_input(alloc, objects, definers)?;
    codes_fit(objects);
    match items_of(alloc, input) {
        Ok(items) => Ok(items),
        Err(End::Fault(fault)) => Err(End::Fault(refusal_in(objects, fault))),
        Err(End::NoMemory) => Err(End::NoMemory),
    }
}

/// The program that objects are, if there is one.
pub(crate) fn finished<'a>(alloc: Global, objects: &[Object<'a>]) -> Result<Items<'a>, End<Refusal>>
    requires { sum_by e_shnum objects.now ≤ 2 ^ 16 }
    ensures { IsFinished objects.now result }
{
    let symbols = symbols_of(alloc, objects)?;
    let names = name_numbers(alloc, objects)?;
    let definers = Definers::of(alloc, &symbols, &names)?;
    match definers.duplicate() {
        Some(name) => Err(End::Fault(refusal_of_duplicate(alloc, name)?)),
        None => program(alloc, objects, &definers),
    }
}
