//! What is told of several objects as one program that is hardened for one hart, as text: where it is entered, its classes, of each
//! instruction with a relocation's immediate or a target the last word of its unit, of a store the first, the bytes of initialised
//! data in numbers of 8 bytes, and where all data end; or what stands against it.

use cfi_graph::write_graph;
use cfi_rewrite::{Hardened, rewrite_joined};
use elf_bytes::u32_at;
use elf_image::read_image;
use obj_input::ItemKind;
use obj_items::Join;
use obj_program::Items;
use refusals::Refusal;
use rv_image::memory_map::CODE_START;
use rv_image::{Form, Image};
use rv_word::End;
use std::alloc::{AllocError, Global};
use std::fmt::Write;

/// A place whose unit has a word that is told, and how many bytes before the unit's end that word begins.
#[derive(Clone, Copy)]
struct Mark {
    place: usize,
    back: u64,
}

/// Objects as one program.
pub(crate) fn joined<'a>(alloc: Global, files: &'a [Vec<u8>]) -> Result<Items<'a>, End<Refusal>> {
    let mut join = Join::new(alloc);
    for file in files {
        join.add(file)?;
    }
    join.finish()
}

/// What a refusal tells behind its number.
fn told_of_refusal(alloc: Global, refusal: &Refusal) -> Option<String> {
    let line = refusal.line(alloc).ok()?;
    let (_, numbered) = str::from_utf8(&line).ok()?.split_once(' ')?;
    let (_, told) = numbered.split_once(' ')?;
    String::from_str(alloc, told).ok()
}

/// What is told where objects are no program.
pub(crate) fn told_of_end(alloc: Global, end: &End<Refusal>) -> Option<String> {
    match end {
        End::Fault(refusal) => told_of_refusal(alloc, refusal),
        End::NoMemory => None,
    }
}

/// How far before a unit's end the word begins that is told of it.
fn back(kind: ItemKind) -> u64 {
    if kind == ItemKind::Store { 16 } else { 4 }
}

/// The places with a relocation's immediate or a target.
fn marks(alloc: Global, items: &Items) -> Option<Vec<Mark>> {
    let mut marks = Vec::new(alloc);
    for k in 0..items.count() {
        let item = items.item(k);
        if items.patched(k) || item.target.is_some() {
            let place = usize::try_from(k).ok()?;
            let back = back(item.kind);
            marks.push(Mark { place, back }).ok()?;
        }
    }
    Some(marks)
}

/// Adds where a graph's opening goes.
fn add_entry(text: &mut String, graph: &str) -> Result<(), AllocError> {
    for line in graph.lines() {
        if let Some(address) = line.strip_prefix("call 4000000c ") {
            write!(text, "enter {address}")?;
        }
    }
    Ok(())
}

/// Adds the lines of a graph's classes.
fn add_classes(text: &mut String, graph: &str) -> Result<(), AllocError> {
    for line in graph.lines() {
        if line.starts_with("class ") {
            write!(text, ", {line}")?;
        }
    }
    Ok(())
}

/// The word that is told of a place.
fn word_at(hardened: &Hardened, image: &Image<'_>, mark: &Mark) -> Option<u32> {
    let end = hardened
        .map
        .as_slice()
        .get(mark.place.checked_add(1)?)?
        .gate;
    u32_at(
        image.code(),
        end.checked_sub(CODE_START)?.checked_sub(mark.back)?,
    )
}

/// Adds the words that are told of places.
fn add_words(
    text: &mut String,
    hardened: &Hardened,
    image: &Image<'_>,
    marks: &[Mark],
) -> Option<()> {
    if !marks.is_empty() {
        text.push_str(", words").ok()?;
    }
    for mark in marks {
        let word = word_at(hardened, image, mark)?;
        write!(text, " {word:08x}").ok()?;
    }
    Some(())
}

/// The number whose bytes these are, the lowest first.
fn number_of(bytes: &[u8]) -> u64 {
    let mut number: u64 = 0;
    for byte in bytes.iter().rev() {
        number = number.wrapping_mul(256) | u64::from(*byte);
    }
    number
}

/// Adds initialised data.
fn add_data(text: &mut String, data: &[u8]) -> Result<(), AllocError> {
    if !data.is_empty() {
        write!(text, ", data {}", data.len())?;
    }
    for bytes in data.chunks(8) {
        write!(text, " {:x}", number_of(bytes))?;
    }
    Ok(())
}

/// What is told of an image.
fn told_of_image(
    alloc: Global,
    hardened: &Hardened,
    image: &Image<'_>,
    marks: &[Mark],
    end: u128,
) -> Option<String> {
    let graph = write_graph(alloc, &hardened.graph).ok()?;
    let graph = str::from_utf8(&graph).ok()?;
    let mut text = String::new(alloc);
    add_entry(&mut text, graph).ok()?;
    add_classes(&mut text, graph).ok()?;
    add_words(&mut text, hardened, image, marks)?;
    add_data(&mut text, image.init()).ok()?;
    write!(text, ", end {end:x}").ok()?;
    Some(text)
}

/// What is told of a hardened program.
fn told_of_hardened(
    alloc: Global,
    hardened: &Hardened,
    marks: &[Mark],
    end: u128,
) -> Option<String> {
    match read_image(hardened.image.as_slice()) {
        Ok(image) => told_of_image(alloc, hardened, &image, marks, end),
        Err(_) => None,
    }
}

/// What is told of a program that is entered at a name, under a policy.
fn told_of_program(
    alloc: Global,
    items: Items,
    entry: &str,
    policy: Option<&[u8]>,
) -> Option<String> {
    let marks = marks(alloc, &items)?;
    let end = items.data_extent().end;
    match rewrite_joined(alloc, Form::Plain, &items, entry, policy) {
        Ok(hardened) => told_of_hardened(alloc, &hardened, &marks, end),
        Err(End::Fault(refusal)) => told_of_refusal(alloc, &refusal),
        Err(End::NoMemory) => None,
    }
}

/// The text of a policy with these lines, each two with a `;` between them.
fn policy_text(alloc: Global, lines: &str) -> Result<String, AllocError> {
    let mut text = String::from_str(alloc, "rvcfi-policy 1\n")?;
    for line in lines.split(';') {
        writeln!(text, "{line}")?;
    }
    text.push_str("end\n")?;
    Ok(text)
}

/// What is told of a program when this is asked: the name of its entry, and lines of a policy behind it.
pub(crate) fn told_of(alloc: Global, items: Items, asked: &str) -> Option<String> {
    match asked.split_once(' ') {
        Some((entry, lines)) => {
            let policy = policy_text(alloc, lines).ok()?;
            told_of_program(alloc, items, entry, Some(policy.as_bytes()))
        }
        None => told_of_program(alloc, items, asked, None),
    }
}

/// What is told of objects.
pub(crate) fn told(alloc: Global, files: &[Vec<u8>], asked: &str) -> Option<String> {
    match joined(alloc, files) {
        Ok(items) => told_of(alloc, items, asked),
        Err(end) => told_of_end(alloc, &end),
    }
}
