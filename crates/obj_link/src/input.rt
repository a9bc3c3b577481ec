//! The input that several objects are, and the one that an object is by itself.

ghost use Rattle.std.specs.Prelude.{◌≡◌, ◌≤◌, ◌<◌, ◌^◌, ◌++◌, ◌∷◌, [], ℕ, Bool, IfOk, OnOk, length, map};
ghost use Rattle.std.specs.List.{sum_by};
ghost use Rattle.elf_tables.specs.Header.{e_shnum};
ghost use Rattle.obj_input.specs.Listed.{listed};
ghost use Rattle.obj_join.specs.Said.{Said};
ghost use Rattle.obj_join.specs.Stands.{definition};
ghost use Rattle.obj_join.specs.Table as table;
ghost use Rattle.obj_join.specs.SaidInput.{input_by, names_by, section_of};
ghost use Rattle.obj_join.specs.Definer.{own, resolved};
ghost use Rattle.obj_join.specs.Joined.{joined_input, own_input, shared_input};
ghost use Rattle.obj_join.specs.Numbers.{before, by};
ghost use Rattle.obj_link.specs.SaidOf.{said_by, said_of};

use crate::resolution::Resolution;
use crate::sections::sections_of;
use crate::slots::slots_of;
use crate::symbols::symbols_of;
use crate::tables::tables_of;
use elf_object::Object;
use indexmap::IndexSet;
use obj_input::{Definition, Input, Names, Section};
use obj_join::{
    Definers, Symbol, blocks, definitions, funcs, names, own_names, own_numbers, places,
    table_section,
};
use rv_word::NoMemory;
use std::alloc::Global;

/// How many sections several objects have.
fn section_count(objects: &[Object]) -> u32
    requires { sum_by e_shnum objects.now ≤ 2 ^ 16 }
    ensures { result ≡ length (said_by objects.now).sections }
{
    let mut count = 0;
    for object in objects {
        count += object.sections();
    }
    count
}

/// The sections of several objects, where `slots` are the symbols that have slots.
fn own_sections<'a>(
    alloc: Global,
    objects: &[Object<'a>],
    numbers: &[u64],
    definitions: &[Definition],
    slots: &IndexSet<u64>,
) -> Result<Vec<Section<'a>>, NoMemory>
    requires few { sum_by e_shnum objects.now ≤ 2 ^ 16 }
    requires numbers { length numbers.now ≡ length (said_by objects.now).symbols }
    requires definitions { definitions.now ≡ listed (definition (by numbers.now) (said_by objects.now).symbols) (length (said_by objects.now).symbols) }
    requires slots { slots.now.keys ≡ table.slots (by numbers.now) (said_by objects.now).sections }
    ensures { IfOk result (λ v. v.items ≡ map (section_of (by numbers.now) (said_by objects.now)) (said_by objects.now).sections) }
{
    let count = section_count(objects);
    let resolution = Resolution::of(objects, numbers, definitions, slots, count);
    let sections = sections_of(alloc, &resolution)?;
    Ok(sections)
}

/// Puts the table of addresses behind sections, if a symbol has a slot.
fn push_table<'a>(
    alloc: Global,
    sections: &mut Vec<Section<'a>>,
    symbols: &[Symbol],
    places: &[u64],
    slots: &[u64],
) -> Result<(), NoMemory>
    requires { length places.now ≡ length symbols.now }
    ensures { (resolve : ℕ → ℕ) (said : Said) → symbols.now ≡ said.symbols → places.now ≡ listed (before resolve symbols.now) (length symbols.now)
        → slots.now ≡ table.slots resolve said.sections
        → OnOk result (sections.new.items ≡ sections.old.items ++ table.table_of resolve said (length slots.now)) }
{
    match table_section(alloc, symbols, places, slots)? {
        Some(table) => Ok(sections.push(table)?),
        None => Ok(()),
    }
}

/// The sections of several objects, and behind them the table of addresses, where `slots` are the symbols that have slots.
#[tactic(auto, using(obj_join::proofs::Listing::listings))]
fn all_sections<'a>(
    alloc: Global,
    objects: &[Object<'a>],
    symbols: &[Symbol],
    numbers: &[u64],
    places: &[u64],
    definitions: &[Definition],
    slots: &IndexSet<u64>,
) -> Result<Vec<Section<'a>>, NoMemory>
    requires few { sum_by e_shnum objects.now ≤ 2 ^ 16 }
    requires symbols { symbols.now ≡ (said_by objects.now).symbols }
    requires numbers { length numbers.now ≡ length symbols.now }
    requires places { places.now ≡ listed (before (by numbers.now) symbols.now) (length symbols.now) }
    requires definitions { definitions.now ≡ listed (definition (by numbers.now) symbols.now) (length symbols.now) }
    requires slots { slots.now.keys ≡ table.slots (by numbers.now) (said_by objects.now).sections }
    ensures value { IfOk result (λ v. v.items ≡ map (section_of (by numbers.now) (said_by objects.now)) (said_by objects.now).sections
        ++ table.table_of (by numbers.now) (said_by objects.now) (length (table.slots (by numbers.now) (said_by objects.now).sections))) }
    ensures few { IfOk result (λ v. length v.items < 2 ^ 32) }
{
    let mut sections = own_sections(alloc, objects, numbers, definitions, slots)?;
    push_table(alloc, &mut sections, symbols, places, slots.as_slice())?;
    Ok(sections)
}

/// The input of several objects with these symbols, where `numbers` says which symbol each one is, `places` how many blocks
/// are before that of each, and `definitions` what uses of them stand for.
fn input_with<'a>(
    alloc: Global,
    objects: &[Object<'a>],
    symbols: &[Symbol<'a>],
    numbers: &[u64],
    places: &[u64],
    definitions: &[Definition],
    names: Names<'a>,
) -> Result<Input<'a>, NoMemory>
    requires few { sum_by e_shnum objects.now ≤ 2 ^ 16 }
    requires symbols { symbols.now ≡ (said_by objects.now).symbols }
    requires numbers { length numbers.now ≡ length symbols.now }
    requires places { places.now ≡ listed (before (by numbers.now) symbols.now) (length symbols.now) }
    requires definitions { definitions.now ≡ listed (definition (by numbers.now) symbols.now) (length symbols.now) }
    ensures { (found : ℕ → Bool) → names.entry ≡ names_by (by numbers.now) found symbols.now
        → IfOk result (λ i. i ≡ input_by (by numbers.now) found (said_by objects.now)) }
{
    let slots = slots_of(alloc, objects, numbers)?;
    let sections = all_sections(
        alloc,
        objects,
        symbols,
        numbers,
        places,
        definitions,
        &slots,
    )?;
    let blocks = blocks(alloc, symbols, numbers)?;
    let funcs = funcs(alloc, symbols)?;
    Ok(Input::of(sections, blocks, names, funcs))
}

/// The input of several objects with these symbols, where `numbers` says which symbol each one is.
#[tactic(auto, using(obj_join::proofs::Listing::listings))]
fn input_by<'a>(
    alloc: Global,
    objects: &[Object<'a>],
    symbols: &[Symbol<'a>],
    definers: &Definers<'_, 'a>,
    numbers: &[u64],
) -> Result<Input<'a>, NoMemory>
    requires few { sum_by e_shnum objects.now ≤ 2 ^ 16 }
    requires symbols { symbols.now ≡ (said_by objects.now).symbols }
    requires definers { definers.now ≡ symbols.now }
    requires count { length numbers.now ≡ length symbols.now }
    requires numbers { numbers.now ≡ listed (resolved symbols.now) (length symbols.now) }
    ensures { IfOk result (λ i. i ≡ shared_input (said_by objects.now)) }
{
    let places = places(alloc, symbols, numbers)?;
    let definitions = definitions(alloc, symbols, numbers, &places)?;
    let names = names(alloc, definers, &definitions)?;
    let names = Names::of(alloc, names, &tables_of(alloc, objects)?)?;
    let input = input_with(
        alloc,
        objects,
        symbols,
        numbers,
        &places,
        &definitions,
        names,
    )?;
    Ok(input)
}

/// The input that several objects are, which have at most 2^16 sections in all, and whose symbols have these definers. It
/// borrows the bytes of their files.
#[tactic(auto, using(obj_join::proofs::Listing::listings), unfolding(crate::specs::SaidOf::said_by))]
pub fn joined_input<'a>(
    alloc: Global,
    objects: &[Object<'a>],
    definers: &Definers<'_, 'a>,
) -> Result<Input<'a>, NoMemory>
    requires few { sum_by e_shnum objects.now ≤ 2 ^ 16 }
    requires definers { definers.now ≡ (said_by objects.now).symbols }
    ensures { IfOk result (λ i. i ≡ joined_input (map said_of objects.now)) }
{
    let symbols = definers.symbols();
    let numbers = definers.all_resolved(alloc)?;
    let input = input_by(alloc, objects, symbols, definers, &numbers)?;
    Ok(input)
}

/// The input of objects with these symbols, each of which is its own, as `numbers` says.
#[tactic(auto, using(obj_join::proofs::Listing::listings))]
fn own_input_by<'a>(
    alloc: Global,
    objects: &[Object<'a>],
    symbols: &[Symbol<'a>],
    numbers: &[u64],
) -> Result<Input<'a>, NoMemory>
    requires few { sum_by e_shnum objects.now ≤ 2 ^ 16 }
    requires symbols { symbols.now ≡ (said_by objects.now).symbols }
    requires count { length numbers.now ≡ length symbols.now }
    requires numbers { numbers.now ≡ listed (own symbols.now) (length symbols.now) }
    ensures { IfOk result (λ i. i ≡ own_input (said_by objects.now)) }
{
    let places = places(alloc, symbols, numbers)?;
    let definitions = definitions(alloc, symbols, numbers, &places)?;
    let names = own_names(alloc, symbols, &definitions)?;
    let names = Names::of(alloc, names, &tables_of(alloc, objects)?)?;
    let input = input_with(
        alloc,
        objects,
        symbols,
        numbers,
        &places,
        &definitions,
        names,
    )?;
    Ok(input)
}

/// The input of objects with these symbols, each of which is its own.
#[tactic(auto, using(obj_join::proofs::Listing::listings))]
fn own_input_of<'a>(
    alloc: Global,
    objects: &[Object<'a>],
    symbols: &[Symbol<'a>],
) -> Result<Input<'a>, NoMemory>
    requires few { sum_by e_shnum objects.now ≤ 2 ^ 16 }
    requires symbols { symbols.now ≡ (said_by objects.now).symbols }
    ensures { IfOk result (λ i. i ≡ own_input (said_by objects.now)) }
{
    let numbers = own_numbers(alloc, symbols)?;
    let input = own_input_by(alloc, objects, symbols, &numbers)?;
    Ok(input)
}

/// An object as a list of one.
fn alone<'o, 'a>(object: &'o Object<'a>) -> &'o [Object<'a>]
    ensures value { result.now ≡ object.now ∷ [] }
    ensures few { sum_by e_shnum result.now ≤ 2 ^ 16 }
    ensures said { said_by result.now ≡ said_of object.now }
{
    let _sections = object.sections();
    std::slice::from_ref(object)
}

/// The input that an object is by itself. It borrows the bytes of the object's file.
pub fn own_input<'a>(alloc: Global, object: &Object<'a>) -> Result<Input<'a>, NoMemory>
    ensures { IfOk result (λ i. i ≡ own_input (said_of object.now)) }
{
    let objects = alone(object);
    let symbols = symbols_of(alloc, objects)?;
    let input = own_input_of(alloc, objects, &symbols)?;
    Ok(input)
}
