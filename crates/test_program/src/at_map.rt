ghost use Rattle.std.specs.Prelude.{◌≡◌, ◌<◌, length, true, false};
ghost use Rattle.obj_program.specs.Program.{count, is_end, item_of};

use crate::samples;
use elf_object::Object;
use least::Place;
use obj_input::ItemKind;
use obj_items::items;
use obj_program::Items;
use rv_code::encode;
use std::alloc::Global;

/// The gates of the places of P, and their words: the first instructions of its two functions that are called by a table
/// have a gate's word before them.
#[rattlefmt::skip]
static P_GATES: [u64; 13] = [
    0x40000040, 0x40000044, 0x40000054, 0x40000058, 0x4000005c, 0x400000ac, 0x400000b0, 0x400000b4,
    0x400000c8, 0x400000d0, 0x400000e4, 0x400000ec, 0x40000100,
];

#[rattlefmt::skip]
static P_WORDS: [u64; 13] = [
    0x40000040, 0x40000044, 0x40000054, 0x40000058, 0x4000005c, 0x400000ac, 0x400000b0, 0x400000b4,
    0x400000cc, 0x400000d0, 0x400000e8, 0x400000ec, 0x40000100,
];

/// The gates of the places of H, which are their words as well.
#[rattlefmt::skip]
static H_GATES: [u64; 15] = [
    0x40000040, 0x40000044, 0x40000054, 0x40000074, 0x40000078, 0x4000007c, 0x40000080,
    0x40000094, 0x40000098, 0x4000009c, 0x400000a0, 0x400000a4, 0x400000a8, 0x400000ac, 0x400000c0,
];

/// Gates from where no data can be reached.
static H_FAR: [u64; 15] = [0x1_0000_0000; 15];

/// Gates that do not fit into 32 bits.
static MENU_FAR: [u64; 51] = [0x1_0000_0000; 51];

/// What is asked of a program at a map.
#[derive(Clone, Copy)]
struct Asked {
    /// The object in hexadecimal.
    digits: &'static [u8],
    gates: &'static [u64],
    words: &'static [u64],
    /// The index of an instruction, and its word at the map.
    instructions: [(u64, Option<u32>); 3],
    /// The initialised data at the map, in hexadecimal.
    data: Option<&'static [u8]>,
    out_of_range: Option<Place>,
}

/// What is asked. A high part does not reach from a gate that is far, so the low part of the same distance is none either.
fn asked_of(number: u32) -> Asked {
    match number {
        0 => Asked {
            digits: sample_objects::P,
            gates: &P_GATES,
            words: &P_WORDS,
            instructions: [
                (2, Some(0x000102b7)),
                (3, Some(0x0002b283)),
                (4, Some(0x000280e7)),
            ],
            data: Some(b"c800004000000000e400004000000000"),
            out_of_range: None,
        },
        1 => Asked {
            digits: sample_objects::H,
            gates: &H_GATES,
            words: &H_GATES,
            instructions: [
                (7, Some(0xc0010597)),
                (8, Some(0xf6c58593)),
                (2, Some(0x000080e7)),
            ],
            data: Some(b"68690a"),
            out_of_range: None,
        },
        2 => Asked {
            digits: sample_objects::H,
            gates: &H_FAR,
            words: &H_FAR,
            instructions: [(7, None), (6, Some(0x00008067)), (14, None)],
            data: Some(b"68690a"),
            out_of_range: Some(Place {
                section: 1,
                offset: 32,
            }),
        },
        _ => Asked {
            digits: samples::MENU,
            gates: &MENU_FAR,
            words: &MENU_FAR,
            instructions: [(0, Some(0x000107b7)), (50, None), (51, None)],
            data: None,
            out_of_range: Some(Place {
                section: 5,
                offset: 0,
            }),
        },
    }
}

/// Whether maps have a gate and a word for each place.
fn fits(items: &Items, gates: &[u64], words: &[u64]) -> bool
    ensures gates { result ≡ true → length gates.now ≡ count items.now }
    ensures words { result ≡ true → length words.now ≡ count items.now }
{
    gates.len() as u64 == items.count() && words.len() as u64 == items.count()
}

/// The word of the instruction with this index at a map, if it has one.
fn instr_word(items: &Items, gates: &[u64], words: &[u64], k: u64) -> Option<u32>
    requires place { k < count items.now }
    requires instruction { is_end (item_of items.now k).kind ≡ false }
    requires gates { length gates.now ≡ count items.now }
    requires words { length words.now ≡ count items.now }
{
    match items.instr_at(k, gates, words) {
        Ok(instr) => Some(encode(instr)),
        Err(_) => None,
    }
}

/// Whether an instruction has this index.
fn is_instr(items: &Items, k: u64) -> bool
    ensures below { result ≡ true → k < count items.now }
    ensures instruction { result ≡ true → is_end (item_of items.now k).kind ≡ false }
{
    k < items.count() && !matches!(items.item(k).kind, ItemKind::End)
}

/// The word of an instruction at a map; none where it has none, or where there is no instruction.
pub(crate) fn word_at(items: &Items, gates: &[u64], words: &[u64], k: u64) -> Option<u32> {
    if fits(items, gates, words) && is_instr(items, k) {
        instr_word(items, gates, words, k)
    } else {
        None
    }
}

/// Whether the instructions that are asked for have their words.
fn has_words(items: &Items, asked: &Asked) -> bool {
    for (k, word) in &asked.instructions {
        if word_at(items, asked.gates, asked.words, *k) != *word {
            return false;
        }
    }
    true
}

/// Whether bytes are these, in hexadecimal.
fn are_digits(alloc: Global, bytes: &[u8], digits: &[u8]) -> bool {
    match hex::decode(alloc, digits) {
        Ok(wanted) => wanted.as_slice() == bytes,
        Err(_) => false,
    }
}

/// Whether initialised data are these, or have no value.
fn has_data(alloc: Global, items: &Items, asked: &Asked) -> bool {
    if !fits(items, asked.gates, asked.words) {
        return false;
    }
    match (items.data_at(alloc, asked.gates), asked.data) {
        (Ok(bytes), Some(digits)) => are_digits(alloc, &bytes, digits),
        (Err(_), None) => true,
        _ => false,
    }
}

/// Whether the first value that leaves its range is where it is wanted.
fn leaves_range(items: &Items, asked: &Asked) -> bool {
    fits(items, asked.gates, asked.words)
        && items.out_of_range(asked.gates, asked.words) == asked.out_of_range
}

/// Whether an object's program is as it is asked for.
fn is_answered(alloc: Global, object: &Object, asked: &Asked) -> bool {
    match items(alloc, object) {
        Ok(items) => {
            has_words(&items, asked)
                && has_data(alloc, &items, asked)
                && leaves_range(&items, asked)
        }
        Err(_) => false,
    }
}

/// Whether a file is read as such an object.
fn is_read(alloc: Global, file: &[u8], asked: &Asked) -> bool {
    match Object::read(alloc, file) {
        Ok(object) => is_answered(alloc, &object, asked),
        Err(_) => false,
    }
}

/// Whether what is asked is answered.
fn is_right(alloc: Global, number: u32) -> bool {
    let asked = asked_of(number);
    match hex::decode(alloc, asked.digits) {
        Ok(file) => is_read(alloc, &file, &asked),
        Err(_) => false,
    }
}

#[test]
fn has_values_at_maps(rt: HostRuntime) {
    for number in 0..4 {
        assert!(rt; is_right(rt.alloc(), number), "program {number}");
    }
}
