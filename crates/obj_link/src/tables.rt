//! The tables that the names of symbols stand in, for the seed of the index of names. Nothing is proved of them.

use elf_object::Object;
use rv_word::NoMemory;
use std::alloc::Global;

/// The longest part of an object's table that a symbol's name begins: all names stand in it.
fn table_of<'a>(object: &Object<'a>) -> &'a [u8] {
    let mut longest: &'a [u8] = &[];
    for number in 0..object.symbols() {
        let rest = object.symbol_name_rest(number);
        if rest.len() > longest.len() {
            longest = rest;
        }
    }
    longest
}

/// Those of several objects.
pub(crate) fn tables_of<'a>(
    alloc: Global,
    objects: &[Object<'a>],
) -> Result<Vec<&'a [u8]>, NoMemory> {
    let mut tables = Vec::new(alloc);
    for object in objects {
        tables.push(table_of(object))?;
    }
    Ok(tables)
}
