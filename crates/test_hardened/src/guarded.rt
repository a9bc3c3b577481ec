//! System calls behind tests of their numbers: the words of lists of one number and of more, and words
//! that are no such unit.

ghost use Rattle.std.specs.Prelude.{◌<◌};

use cfi_emit::{emit, fits, recognise, size};
use cfi_unit::Unit;
use rv_word::Numbers;
use std::alloc::Global;

/// A list, where its unit stands, and the unit's words.
struct Row(&'static [u16], u64, &'static [u32]);

static ROWS: [Row; 5] = [
    Row(
        &[64],
        0x4000_00a8,
        &[0x0400_0f93, 0x011f_8463, 0xf51f_f06f, 0x0000_0073],
    ),
    Row(
        &[0],
        0x4000_0040,
        &[0x0000_0f93, 0x011f_8463, 0xfb9f_f06f, 0x0000_0073],
    ),
    Row(
        &[2047],
        0x4000_0040,
        &[0x7ff0_0f93, 0x011f_8463, 0xfb9f_f06f, 0x0000_0073],
    ),
    Row(
        &[63, 64],
        0x400f_ffc8,
        &[
            0x03f0_0f93,
            0x011f_8863,
            0x0400_0f93,
            0x011f_8463,
            0x8280_006f,
            0x0000_0073,
        ],
    ),
    Row(
        &[0, 1, 63, 64, 93, 94, 172, 2047],
        0x4000_0040,
        &[
            0x0000_0f93,
            0x051f_8063,
            0x0010_0f93,
            0x031f_8c63,
            0x03f0_0f93,
            0x031f_8863,
            0x0400_0f93,
            0x031f_8463,
            0x05d0_0f93,
            0x031f_8063,
            0x05e0_0f93,
            0x011f_8c63,
            0x0ac0_0f93,
            0x011f_8863,
            0x7ff0_0f93,
            0x011f_8463,
            0xf81f_f06f,
            0x0000_0073,
        ],
    ),
];

/// The first of these numbers that a list may have.
fn numbers_of(items: &[u16]) -> Numbers {
    let mut numbers = Numbers::new();
    for item in items {
        let number = *item;
        if numbers.len() < 8 && number < 2048 {
            numbers.push(number);
        }
    }
    numbers
}

/// Whether a unit is emitted as these words at an address.
fn is_emitted(alloc: Global, unit: &Unit, at: u64, words: &[u32]) -> bool
    requires { at < 0x4010_0000 }
{
    if !fits(unit, at) {
        return false;
    }
    match emit(alloc, unit, at) {
        Ok(own) => own.as_slice() == words,
        Err(_) => false,
    }
}

/// Whether a list's unit has these words at an address, and they are recognised as it.
fn are_its_words(alloc: Global, unit: &Unit, at: u64, words: &[u32]) -> bool
    requires { at < 0x4010_0000 }
{
    let count = size(unit) / 4;
    is_emitted(alloc, unit, at, words)
        && words.len() == count as usize
        && recognise(words, at) == Some((*unit, count))
}

/// Whether a row's unit has the row's words.
fn is_right(alloc: Global, row: &Row) -> bool {
    row.1 < 0x4010_0000 && are_its_words(alloc, &Unit::Guarded(numbers_of(row.0)), row.1, row.2)
}

#[test]
fn words(rt: HostRuntime) {
    for (k, row) in ROWS.iter().enumerate() {
        assert!(rt; is_right(rt.alloc(), row), "{k}");
    }
}

/// Where `ONE` stands, a call behind a test for 64.
const AT: u64 = 0x4000_00a8;

static ONE: [u32; 4] = [0x0400_0f93, 0x011f_8463, 0xf51f_f06f, 0x0000_0073];

/// A word of `ONE`, and what it is changed to.
static SPOILT: [(usize, u32); 13] = [
    (0, 0x0400_0f13),
    (0, 0x0400_8f93),
    (0, 0x8000_0f93),
    (1, 0x011f_8263),
    (1, 0x011f_8663),
    (1, 0x01f8_8463),
    (1, 0x00af_8463),
    (1, 0x011f_9463),
    (2, 0xf55f_f06f),
    (2, 0xf51f_f0ef),
    (2, 0x0000_0013),
    (3, 0x0010_0073),
    (3, 0x0000_0013),
];

/// Whether a system call behind tests begins these words.
fn is_guarded(words: &[u32], at: u64) -> bool
    requires { at < 0x4010_0000 }
{
    matches!(recognise(words, at), Some((Unit::Guarded(_), _)))
}

/// Whether `ONE` is no unit with a word changed.
fn is_refused(index: usize, word: u32) -> bool {
    let mut words = ONE;
    match words.get_mut(index) {
        Some(place) => *place = word,
        None => return false,
    }
    recognise(&words, AT).is_none()
}

/// No unit begins with the words once one of them is changed.
#[test]
fn refused(rt: HostRuntime) {
    assert!(rt; is_guarded(&ONE, AT));
    for row in &SPOILT {
        assert!(rt; is_refused(row.0, row.1), "{}: {:08x}", row.0, row.1);
    }
}

/// Tests of nine numbers, and the jump and the call behind them.
static NINE: [u32; 20] = [
    0x0000_0f93,
    0x051f_8463,
    0x0010_0f93,
    0x051f_8063,
    0x0020_0f93,
    0x031f_8c63,
    0x0030_0f93,
    0x031f_8863,
    0x0040_0f93,
    0x031f_8463,
    0x0050_0f93,
    0x031f_8063,
    0x0060_0f93,
    0x011f_8c63,
    0x0070_0f93,
    0x011f_8863,
    0x0080_0f93,
    0x011f_8463,
    0xf79f_f06f,
    0x0000_0073,
];

/// A unit has at most eight numbers, stands at its own address alone, and is not recognised without its
/// last word.
#[test]
fn whole(rt: HostRuntime) {
    assert!(rt; recognise(&NINE, 0x4000_0040).is_none());
    assert!(rt; is_guarded(&NINE[2..], 0x4000_0048));
    assert!(rt; recognise(&ONE, 0x4000_00ac).is_none());
    assert!(rt; recognise(&ONE[..3], AT).is_none());
}
