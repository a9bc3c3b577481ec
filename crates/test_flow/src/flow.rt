use crate::object::file;
use crate::row::{Row, row_of};
use crate::rows;
use crate::told::told;
use elf_object::Object;
use obj_items::items;
use obj_program::Items;
use rv_image::Form;
use std::alloc::Global;

/// A table of programs, and how many there are.
fn table(number: u32) -> (&'static [u8], usize) {
    match number {
        0 => (rows::REACHED, 29),
        1 => (rows::POLICIES, 31),
        2 => (rows::SECTIONS, 6),
        3 => (rows::ASKED, 17),
        4 => (rows::LEADS, 18),
        _ => (rows::SPLIT, 9),
    }
}

/// Whether a program is told as its row says.
fn is_told(alloc: Global, form: Form, items: &Items, row: &Row) -> bool {
    match told(alloc, form, items, row.asked) {
        Some(text) => text.as_str() == row.told,
        None => false,
    }
}

/// Whether an object is a program that is told as its row says.
fn is_program(alloc: Global, form: Form, object: &Object, row: &Row) -> bool {
    match items(alloc, object) {
        Ok(items) => is_told(alloc, form, &items, row),
        Err(_) => false,
    }
}

/// Whether a file is an object that is told as its row says.
fn is_object(alloc: Global, form: Form, file: &[u8], row: &Row) -> bool {
    match Object::read(alloc, file) {
        Ok(object) => is_program(alloc, form, &object, row),
        Err(_) => false,
    }
}

/// Whether a row tells its program right.
fn is_right(alloc: Global, form: Form, text: &str) -> bool {
    let Some(row) = row_of(text) else {
        return false;
    };
    match file(alloc, &row) {
        Some(file) => is_object(alloc, form, &file, &row),
        None => false,
    }
}

/// The first row of a table that is not right in a form, or an empty text.
fn first_wrong(alloc: Global, form: Form, number: u32) -> &'static str {
    let (table, count) = table(number);
    for row in sample_programs::rows(table, count).lines() {
        if !is_right(alloc, form, row) {
            return row;
        }
    }
    ""
}

#[test]
fn tells_the_flow_of_programs(rt: HostRuntime) {
    for number in 0..4 {
        assert_eq!(rt; first_wrong(rt.alloc(), Form::Plain, number), "");
    }
}

#[test]
fn tells_the_flow_for_several_harts(rt: HostRuntime) {
    assert_eq!(rt; first_wrong(rt.alloc(), Form::Harts, 0), "");
}

#[test]
fn tells_calls_and_jumps_apart(rt: HostRuntime) {
    for form in [Form::Split, Form::HartsSplit] {
        assert_eq!(rt; first_wrong(rt.alloc(), form, 5), "");
    }
}

#[test]
fn tells_leads_and_leaves(rt: HostRuntime) {
    assert_eq!(rt; first_wrong(rt.alloc(), Form::Split, 4), "");
}
