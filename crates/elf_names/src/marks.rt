//! The numbers of the names of a table.

ghost use Rattle.std.specs.Prelude.{◌≡◌, ◌++◌, ◌*◌, ◌+◌, ◌/◌, ◌<◌, ◌≤◌, List, ℕ, IfOk, OnOk, drop, length, map};
ghost use Rattle.elf_names.specs.Texts.{Grows, Has};
ghost use Rattle.elf_names.specs.Marks.{AreMarks, IsMark, ending, spelled};
ghost use Rattle.elf_names.specs.Numbers.{AreNumbers};

use crate::texts::Texts;
use rv_word::NoMemory;
use std::alloc::Global;

/// How many bytes a block has.
const BLOCK: usize = 64;

/// A name as it stands in a table: its first bytes, fewer than a block, and the number of the text behind them, which is
/// whole blocks.
#[derive(Clone, Copy)]
pub struct Mark {
    pub front: usize,
    pub tail: u64,
}

/// The last `n` bytes of a table.
fn ending<'a>(table: &'a [u8], n: usize) -> &'a [u8]
    requires { n ≤ length table.now }
    ensures value { result.now ≡ ending n table.now }
    ensures size { length result.now ≡ n }
{
    &table[table.len() - n..]
}

/// The name that some bytes begin with, where the one is known that begins one byte later.
fn step<'a>(texts: &mut Texts<'a>, bytes: &'a [u8], after: Mark) -> Result<Mark, NoMemory>
    requires some { 0 < length bytes.now }
    requires after { IsMark texts.old (drop 1 bytes.now) after }
    ensures grown { OnOk result (Grows texts.old texts.new) }
    ensures mark { IfOk result (λ m. IsMark texts.new bytes.now m) }
{
    if bytes[0] == 0 {
        return Ok(Mark {
            front: 0,
            tail: texts.empty(),
        });
    }
    let front = after.front + 1;
    if front < BLOCK {
        return Ok(Mark {
            front,
            tail: after.tail,
        });
    }
    let tail = texts.number(after.tail, &bytes[..BLOCK])?;
    Ok(Mark { front: 0, tail })
}

/// The name that the last `to` bytes of a table begin with, where that of the last `from` is known.
fn back<'a>(
    texts: &mut Texts<'a>,
    table: &'a [u8],
    from: usize,
    to: usize,
    mark: Mark,
) -> Result<Mark, NoMemory>
    requires order { from ≤ to }
    requires inside { to ≤ length table.now }
    requires from { IsMark texts.old (ending from table.now) mark }
    ensures grown { OnOk result (Grows texts.old texts.new) }
    ensures mark { IfOk result (λ m. IsMark texts.new (ending to table.now) m) }
{
    let mut mark = mark;
    for n in from..to {
        mark = step(texts, ending(table, n + 1), mark)?;
    }
    Ok(mark)
}

/// The names that begin at each 64th place of a table, counted from its end.
fn marks_of<'a>(
    alloc: Global,
    texts: &mut Texts<'a>,
    table: &'a [u8],
) -> Result<Vec<Mark>, NoMemory>
    ensures grown { OnOk result (Grows texts.old texts.new) }
    ensures marks { IfOk result (λ v. AreMarks texts.new table.now v.items) }
    ensures count { IfOk result (λ v. length v.items ≡ length table.now / 64 + 1) }
{
    let mut mark = Mark {
        front: 0,
        tail: texts.empty(),
    };
    let mut marks = Vec::new(alloc);
    marks.push(mark)?;
    for k in 0..table.len() / BLOCK {
        mark = back(texts, table, BLOCK * k, BLOCK * k + BLOCK, mark)?;
        marks.push(mark)?;
    }
    Ok(marks)
}

/// The number of the name that some bytes begin with, which is told by a mark.
fn number_of<'a>(texts: &mut Texts<'a>, bytes: &'a [u8], mark: Mark) -> Result<u64, NoMemory>
    requires { IsMark texts.old bytes.now mark }
    ensures grown { OnOk result (Grows texts.old texts.new) }
    ensures put { IfOk result (λ n. Has texts.new n (spelled bytes.now)) }
{
    if mark.front == 0 {
        return Ok(mark.tail);
    }
    texts.number(mark.tail, &bytes[..mark.front])
}

/// The bytes of a table from `at` on, none where it lies past the end.
fn rest_at<'a>(table: &'a [u8], at: u64) -> &'a [u8]
    ensures value { result.now ≡ drop at table.now }
    ensures ending { result.now ≡ ending (length result.now) table.now }
    ensures inside { length result.now ≤ length table.now }
{
    table.get(at as usize..).unwrap_or(&[])
}

/// The number of the name that begins at `at`.
fn number_at<'a>(
    texts: &mut Texts<'a>,
    table: &'a [u8],
    marks: &[Mark],
    at: u64,
) -> Result<u64, NoMemory>
    requires marks { AreMarks texts.old table.now marks.now }
    requires count { length marks.now ≡ length table.now / 64 + 1 }
    ensures grown { OnOk result (Grows texts.old texts.new) }
    ensures put { IfOk result (λ n. Has texts.new n (spelled (drop at table.now))) }
{
    let rest = rest_at(table, at);
    let k = rest.len() / BLOCK;
    let mark = back(texts, table, BLOCK * k, rest.len(), marks[k])?;
    let number = number_of(texts, rest, mark)?;
    Ok(number)
}

/// Puts the numbers of the names that begin at these places of a table behind others.
pub fn push_numbers<'a>(
    alloc: Global,
    texts: &mut Texts<'a>,
    numbers: &mut Vec<u64>,
    table: &'a [u8],
    starts: &[u64],
) -> Result<(), NoMemory>
    ensures { (names : List (List ℕ)) → AreNumbers texts.old numbers.old.items names
        → OnOk result (AreNumbers texts.new numbers.new.items (names ++ map (λ at. spelled (drop at table.now)) starts.now)) }
{
    let marks = marks_of(alloc, texts, table)?;
    for at in starts {
        let number = number_at(texts, table, &marks, *at)?;
        numbers.push(number)?;
    }
    Ok(())
}
