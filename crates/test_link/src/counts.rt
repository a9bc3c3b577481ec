//! How many sections objects may have in all, and that an object that is refused changes nothing.

use crate::told::{joined, told_of, told_of_end};
use cfi_map_text::write_map;
use cfi_rewrite::rewrite_joined;
use elf_bytes::{bytes_at, u16_at, u64_at};
use obj_items::Join;
use obj_program::Items;
use rv_image::Form;
use sample_hardened::put;
use sample_links::file;
use std::alloc::Global;

/// The texts of objects by a name. `broken` is for another processor, `none` has no sections.
#[rattlefmt::skip]
static OBJECTS: &[u8] = b"\
    main|code,4,00000097.000080e7.00008067;main,GLOBAL,FUNC,1,0,12 f,GLOBAL,NOTYPE,0,0,0;1,0,CALL_PLT,f,0\n\
    slot|code,4,00000517.00053503.00008067;main,GLOBAL,FUNC,1,0,12 f,GLOBAL,NOTYPE,0,0,0;1,0,GOT_HI20,f,0 \
    1,4,PCREL_LO12_I,main,0\n\
    f|code,4,00300513.00008067;f,GLOBAL,FUNC,1,0,8;\n\
    g|code,4,00300513.00008067;g,GLOBAL,FUNC,1,0,8;\n\
    h|code,4,00300513.00008067;h,GLOBAL,FUNC,1,0,8;\n\
    wrong|code,4,00000000;f,GLOBAL,FUNC,1,0,4;\n\
    broken|code,4,00300513.00008067;f,GLOBAL,FUNC,1,0,8;;18,3e00\n\
    none|;;;40,0000000000000000 60,0000\n";

/// Objects that are added one after another, each with `;` behind it, and what is told of the program in the end. Of an object
/// its name, how many sections it is given, in hexadecimal (0: those that it has, 6 where it has relocations and else 5), and the
/// answer: `taken`, or why it is not.
#[rattlefmt::skip]
static ADDED: &[u8] = b"\
    main,8000,taken;f,8000,taken|enter 40000040, words 01c000ef, end 10000\n\
    main,8000,taken;f,8001,TooManySections 65537;f,8000,taken|enter 40000040, words 01c000ef, end 10000\n\
    main,8000,taken;f,8001,TooManySections 65537;f,8002,TooManySections 65538;f,0,taken|\
    enter 40000040, words 01c000ef, end 10000\n\
    main,8000,taken;f,0,taken;broken,0,NotRiscv 62 in 3;g,7ffc,TooManySections 65537|\
    enter 40000040, words 01c000ef, end 10000\n\
    main,8000,taken;broken,8001,NotRiscv 62 in 2|Undefined 2 in 1\n\
    none,0,taken;main,0,taken;f,0,taken;g,fef5,taken;none,0,taken;h,101,TooManySections 65537;h,100,taken;none,0,taken|\
    enter 40000040, words 01c000ef, end 10000\n\
    main,feff,taken;g,feff,TooManySections 130558|Undefined 2 in 1\n\
    main,8000,taken;wrong,8000,taken|Undecodable 32769 0 0\n\
    slot,8000,taken;f,8000,taken|enter 40000040, words c0010517 fc053503, data 8 40000060, end 10008\n";

/// The text of the object with a name.
fn text_of(name: &str) -> Option<&'static str> {
    for line in sample_programs::rows(OBJECTS, 8).lines() {
        match line.split_once('|') {
            Some((known, text)) if known == name => return Some(text),
            _ => {}
        }
    }
    None
}

/// Gives a file whose section headers stand at its end so many sections; those that it does not have are of type 0.
fn widen(file: &mut Vec<u8>, count: u16) -> Option<()> {
    let more = usize::from(count.checked_sub(u16_at(file, 60)?)?);
    let len = file.len().checked_add(more.checked_mul(64)?)?;
    file.resize(len, 0).ok()?;
    if put(file, 60, &count.to_le_bytes()) {
        Some(())
    } else {
        None
    }
}

/// The file of an object that is added.
fn file_of(alloc: Global, added: &str) -> Option<Vec<u8>> {
    let mut fields = added.split(',');
    let mut file = file(alloc, text_of(fields.next()?)?)?;
    let count = u16::from_str_radix(fields.next()?, 16).ok()?;
    if count != 0 {
        widen(&mut file, count)?;
    }
    Some(file)
}

/// The files of all that are added.
fn files_of(alloc: Global, all: &str) -> Option<Vec<Vec<u8>>> {
    let mut files = Vec::new(alloc);
    for added in all.split(';') {
        files.push(file_of(alloc, added)?).ok()?;
    }
    Some(files)
}

/// Whether a text is there, and is this one.
fn is_text(text: Option<String>, words: &str) -> bool {
    match text {
        Some(text) => text.as_str() == words,
        None => false,
    }
}

/// Whether adding a file is answered in these words.
fn answers<'a>(alloc: Global, join: &mut Join<'a>, file: &'a [u8], words: &str) -> bool {
    match join.add(file) {
        Ok(()) => words == "taken",
        Err(end) => is_text(told_of_end(alloc, &end), words),
    }
}

/// Whether objects are told in these words.
fn finishes(alloc: Global, join: Join<'_>, words: &str) -> bool {
    match join.finish() {
        Ok(items) => is_text(told_of(alloc, items, "main"), words),
        Err(end) => is_text(told_of_end(alloc, &end), words),
    }
}

/// Whether files are answered as they are added, and told in these words then.
fn joins_so(alloc: Global, files: &[Vec<u8>], all: &str, words: &str) -> bool {
    let mut join = Join::new(alloc);
    for (file, added) in files.iter().zip(all.split(';')) {
        let answer = added.split(',').nth(2).unwrap_or("");
        if !answers(alloc, &mut join, file, answer) {
            return false;
        }
    }
    finishes(alloc, join, words)
}

/// Whether a row is right.
fn is_right(alloc: Global, row: &str) -> Option<bool> {
    let (all, words) = row.split_once('|')?;
    let files = files_of(alloc, all)?;
    Some(joins_so(alloc, &files, all, words))
}

#[test]
fn counts_sections(rt: HostRuntime) {
    for row in sample_programs::rows(ADDED, 9).lines() {
        assert_eq!(rt; is_right(rt.alloc(), row), Some(true), "{row}");
    }
}

/// Where an object with 8 bytes of code has the index of the section of its first symbol.
const SYMBOL_SECTION: usize = 102;

/// Gives the section of code of such an object, which has 8000h sections, and its first symbol the last index.
fn move_last(alloc: Global, file: &mut Vec<u8>) -> Option<()> {
    let first = u64_at(file, 40)?.checked_add(64)?;
    let header = Vec::from_slice(alloc, bytes_at(file, first, 64)?).ok()?;
    let last = file.len().checked_sub(64)?;
    let is_moved = put(file, usize::try_from(first).ok()?, &[0; 64])
        && put(file, last, &header)
        && put(file, SYMBOL_SECTION, &0x7fff_u16.to_le_bytes());
    if is_moved { Some(()) } else { None }
}

/// Two objects of 8000h sections, of which the second one's code is the last of all.
fn objects_to_the_end(alloc: Global) -> Option<Vec<Vec<u8>>> {
    let mut files = files_of(alloc, "main,8000;f,8000")?;
    move_last(alloc, files.last_mut()?)?;
    Some(files)
}

/// The last lines of the map of these.
const LAST_LINES: &[u8] =
    b"at 40000078 ffff 00000000\nat 4000007c ffff 00000004\nat 40000090 ffff 00000008\nend\n";

/// Whether a program's map has these last lines.
fn ends_so(alloc: Global, items: Items) -> bool {
    let Ok(hardened) = rewrite_joined(alloc, Form::Plain, &items, "main", None) else {
        return false;
    };
    match write_map(alloc, &hardened.map) {
        Ok(map) => map.as_slice().ends_with(LAST_LINES),
        Err(_) => false,
    }
}

/// Whether the map of objects has these last lines.
fn end_so(alloc: Global, files: &[Vec<u8>]) -> bool {
    match joined(alloc, files) {
        Ok(items) => ends_so(alloc, items),
        Err(_) => false,
    }
}

#[test]
fn greatest_section(rt: HostRuntime) {
    let files = objects_to_the_end(rt.alloc());
    assert!(rt; matches!(&files, Some(files) if end_so(rt.alloc(), files)));
}
