use crate::item_rows;
use crate::object::object;
use elf_object::Object;
use obj_input::{Block, Definition, Func, Input, Name, Names, Relocation, Section, Sort};
use obj_items::{input_of, items};
use sample_programs::{is_told_as, rows};
use std::alloc::Global;

/// A table of objects with what is wrong with each, and how many there are.
fn table(number: u32) -> (&'static [u8], usize) {
    match number {
        0 => (item_rows::WORDS, 13),
        1 => (item_rows::TRANSFERS, 9),
        2 => (item_rows::MORE_TRANSFERS, 9),
        3 => (item_rows::PLACES, 22),
        4 => (item_rows::KINDS, 13),
        5 => (item_rows::POINTERS, 6),
        _ => (item_rows::FAULTLESS, 14),
    }
}

/// Whether an object has the fault of these words, and is a program where they are `none`.
fn has_fault(alloc: Global, object: &Object, words: &str) -> bool {
    match items(alloc, object) {
        Ok(_) => words == "none",
        Err(end) => is_told_as(alloc, &end, words),
    }
}

/// Whether a file is an object with the fault of these words.
fn is_read_with(alloc: Global, file: &[u8], words: &str) -> bool {
    match Object::read(alloc, file) {
        Ok(object) => has_fault(alloc, &object, words),
        Err(_) => false,
    }
}

/// Whether a row says what is wrong with its object.
fn is_right(alloc: Global, row: &str) -> bool {
    let Some((words, digits)) = row.split_once('|') else {
        return false;
    };
    match hex::decode(alloc, digits) {
        Ok(file) => is_read_with(alloc, &file, words),
        Err(_) => false,
    }
}

/// Whether all rows of a table are right.
fn are_right(alloc: Global, number: u32) -> bool {
    let (table, count) = table(number);
    for row in rows(table, count).lines() {
        if !is_right(alloc, row) {
            return false;
        }
    }
    true
}

#[test]
fn tells_what_is_wrong(rt: HostRuntime) {
    for number in 0..7 {
        assert!(rt; are_right(rt.alloc(), number), "table {number}");
    }
}

/// What the symbols of the object that the tests change stand for, from number 1 on.
static DEFINITIONS: [Definition; 11] = [
    Definition::Within(1, 0),
    Definition::Within(1, 0),
    Definition::Absolute(u64::MAX),
    Definition::Common(0),
    Definition::Missing(5),
    Definition::Within(3, 8),
    Definition::Within(4, 16),
    Definition::Missing(8),
    Definition::Missing(9),
    Definition::Absolute(0),
    Definition::Within(1, 4),
];

/// Its common block.
static BLOCK: Block = Block { size: 4, align: 8 };

/// Its function.
static FUNC: Func = Func {
    section: 1,
    offset: 0,
    size: 8,
};

/// The relocation of its code.
static MARK: Relocation = Relocation {
    offset: 4,
    number: 51,
    addend: -2,
    definition: Definition::Within(1, 0),
};

/// Whether the names stand for what the symbols do.
fn has_names(input: &Input) -> bool {
    let names = input.names().as_slice();
    if names.len() != 11 {
        return false;
    }
    for k in 0..11 {
        if names[k].definition() != DEFINITIONS[k] {
            return false;
        }
    }
    true
}

/// Whether an input has just one common block and one function.
fn has_block_and_func(input: &Input) -> bool {
    let (blocks, funcs) = (input.blocks(), input.funcs());
    blocks.len() == 1 && blocks[0] == BLOCK && funcs.len() == 1 && funcs[0] == FUNC
}

/// Whether a section is the code of the object, with its relocation.
fn is_its_code(section: &Section) -> bool {
    let uses = section.uses();
    section.is_code() && uses.len() == 1 && uses[0] == MARK
}

/// Whether an input has the sections of the object: code, data, zeros, and others that are dropped.
fn has_sections(input: &Input) -> bool {
    input.section_count() == 10
        && is_its_code(input.section(1))
        && input.section(3).is_data()
        && input.section(4).is_zeros()
        && input.section(5).sort() == Sort::Dropped
}

/// Whether an object has its parts as an input.
fn has_parts(alloc: Global, object: &Object) -> bool {
    match input_of(alloc, object) {
        Ok(input) => has_names(&input) && has_block_and_func(&input) && has_sections(&input),
        Err(_) => false,
    }
}

/// Whether the object that the tests change has its parts as an input.
fn is_input(alloc: Global) -> bool {
    match Object::read(alloc, &object()) {
        Ok(object) => has_parts(alloc, &object),
        Err(_) => false,
    }
}

#[test]
fn tells_what_symbols_stand_for(rt: HostRuntime) {
    assert!(rt; is_input(rt.alloc()));
}

/// The names of the object's symbols from number 1 on, and what they stand for.
fn names<'a>(alloc: Global, object: &Object<'a>) -> Option<Names<'a>> {
    let mut names = Vec::new(alloc);
    for k in 1..object.symbols() {
        let definition = *DEFINITIONS.get(k as usize - 1)?;
        let name = Name::of(object.symbol_name_rest(k), definition);
        if names.push(name).is_err() {
            return None;
        }
    }
    match Names::of(alloc, names, &[]) {
        Ok(names) => Some(names),
        Err(_) => None,
    }
}

/// Whether the first symbol of a name is found, and none by the end of a name, an empty or a long one.
fn are_found(names: &Names) -> bool {
    names.find(b"main") == Some((1, 0))
        && names.find(b"in").is_none()
        && names.find(b"ain").is_none()
        && names.find(b"").is_none()
        && names.find(&[b'm'; 257]).is_none()
}

/// Whether the names of an object's symbols are found.
fn has_found(alloc: Global, object: &Object) -> bool {
    match names(alloc, object) {
        Some(names) => are_found(&names),
        None => false,
    }
}

/// Whether the names of the object that the tests change are found.
fn is_found(alloc: Global) -> bool {
    match Object::read(alloc, &object()) {
        Ok(object) => has_found(alloc, &object),
        Err(_) => false,
    }
}

#[test]
fn finds_names(rt: HostRuntime) {
    assert!(rt; is_found(rt.alloc()));
}
