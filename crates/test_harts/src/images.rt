//! Images of version 2, for several harts: how they are answered, what stands where, and the walk. What is
//! right follows from the prologue's words and from what the rules say in words.

use cfi_graph::{Graph, read_graph};
use cfi_unit::{SystemOp, Unit};
use cfi_verify::{Checked, Place, verify};
use rv_image::ImageVersion::{EightHarts, OneHart};
use rv_image::{Image, ImageVersion};
use sample_programs::{
    A, A_GRAPH, A_OF_HARTS, A_OF_HARTS_GRAPH, JOBS, JOBS_GRAPH, PROLOGUE, PROLOGUE_OF_HARTS,
    SHARED, SHARED_GRAPH,
};
use sample_runs::{SAME, Step, code_with, is_code_told, walks_along};
use std::alloc::Global;

/// The graph of `A_OF_HARTS` where the opening calls its second unit.
const LATER_GRAPH: &[u8] = b"rvcfi-graph 1\ncode 40000000 00000060\ncall 4000000c 40000054\nend\n";

/// That of `A_OF_HARTS` with a list of system calls.
const LISTED_GRAPH: &[u8] =
    b"rvcfi-graph 1\ncode 40000000 00000060\ncalls 93\ncall 4000000c 40000050\nend\n";

/// A version, the prologue and the units of a code, its graph, where a word is put by its index, the word, and the rule
/// that fails with its address; no text where the image is accepted.
#[derive(Drop)]
struct Row(
    ImageVersion,
    &'static [u32],
    &'static [u32],
    &'static [u8],
    usize,
    u32,
    &'static str,
);

#[rattlefmt::skip]
static ROWS: [Row; 21] = [
    Row(EightHarts, &PROLOGUE_OF_HARTS, &A_OF_HARTS, A_OF_HARTS_GRAPH, 0, SAME, ""),
    Row(EightHarts, &PROLOGUE_OF_HARTS, &SHARED, SHARED_GRAPH, 0, SAME, ""),
    Row(EightHarts, &PROLOGUE_OF_HARTS, &JOBS, JOBS_GRAPH, 0, SAME, ""),
    // Code of the other version: the first word that differs is that after the stack's end.
    Row(OneHart, &PROLOGUE, &A, A_GRAPH, 0, SAME, ""),
    Row(EightHarts, &PROLOGUE, &A, A_GRAPH, 0, SAME, "Prologue 40000010"),
    Row(OneHart, &PROLOGUE_OF_HARTS, &A_OF_HARTS, A_OF_HARTS_GRAPH, 0, SAME, "Prologue 40000010"),
    // The entry's call to another unit, with its line and without, to no unit, and by another register.
    Row(EightHarts, &PROLOGUE_OF_HARTS, &A_OF_HARTS, LATER_GRAPH, 17, 0x0100_00ef, ""),
    Row(EightHarts, &PROLOGUE_OF_HARTS, &A_OF_HARTS, A_OF_HARTS_GRAPH, 17, 0x0100_00ef, "Unlisted 4000000c"),
    Row(EightHarts, &PROLOGUE_OF_HARTS, &A_OF_HARTS, A_OF_HARTS_GRAPH, 17, 0xffdf_f0ef, "Target 4000000c"),
    Row(EightHarts, &PROLOGUE_OF_HARTS, &A_OF_HARTS, A_OF_HARTS_GRAPH, 17, 0x00c0_02ef, "Prologue 40000044"),
    // A first unit that jumps to each handler, of which the first makes it a stop, to where version 1's units
    // begin, and to the closing.
    Row(EightHarts, &PROLOGUE_OF_HARTS, &A_OF_HARTS, A_OF_HARTS_GRAPH, 20, 0xfb1f_f06f, ""),
    Row(EightHarts, &PROLOGUE_OF_HARTS, &A_OF_HARTS, A_OF_HARTS_GRAPH, 20, 0xfb5f_f06f, "Target 40000050"),
    Row(EightHarts, &PROLOGUE_OF_HARTS, &A_OF_HARTS, A_OF_HARTS_GRAPH, 20, 0xfb9f_f06f, "Target 40000050"),
    Row(EightHarts, &PROLOGUE_OF_HARTS, &A_OF_HARTS, A_OF_HARTS_GRAPH, 20, 0xff1f_f06f, "Target 40000050"),
    Row(EightHarts, &PROLOGUE_OF_HARTS, &A_OF_HARTS, A_OF_HARTS_GRAPH, 20, 0xff9f_f06f, "Target 40000050"),
    // A jump to the second unit without its line, no unit, and a last one that is no stop.
    Row(EightHarts, &PROLOGUE_OF_HARTS, &A_OF_HARTS, A_OF_HARTS_GRAPH, 20, 0x0040_006f, "Unlisted 40000050"),
    Row(EightHarts, &PROLOGUE_OF_HARTS, &A_OF_HARTS, A_OF_HARTS_GRAPH, 20, 0x0010_0f13, "Unit 40000050"),
    Row(EightHarts, &PROLOGUE_OF_HARTS, &A_OF_HARTS, A_OF_HARTS_GRAPH, 23, 0x0000_0013, "End 4000005c"),
    Row(EightHarts, &PROLOGUE_OF_HARTS, &A_OF_HARTS, A_GRAPH, 0, SAME, "Length 96 80"),
    // A bare call under a list; the closing's is none of a unit.
    Row(EightHarts, &PROLOGUE_OF_HARTS, &A_OF_HARTS, LISTED_GRAPH, 0, SAME, "Unit 40000058"),
    Row(EightHarts, &PROLOGUE_OF_HARTS, &A_OF_HARTS, LISTED_GRAPH, 22, 0x0000_0013, ""),
];

/// Whether an image is answered as its row says.
fn is_right(alloc: Global, row: &Row) -> bool {
    let change = (row.4.saturating_mul(4), row.5);
    let Some(code) = code_with(alloc, row.1, row.2, &[change]) else {
        return false;
    };
    match read_graph(alloc, row.3) {
        Ok(graph) => is_code_told(alloc, row.0, &code, &graph, row.6),
        Err(_) => false,
    }
}

#[test]
fn answers(rt: HostRuntime) {
    for row in &ROWS {
        assert!(rt;
            is_right(rt.alloc(), row),
            "{} with {:x} at {}",
            row.6,
            row.5,
            row.4
        );
    }
}

/// How an image is answered whose prologue is no prologue at a word, by the word's index.
static CHANGED: [(usize, &str); 20] = [
    (0, "Prologue 40000000"),
    (1, "Prologue 40000004"),
    (2, "Prologue 40000008"),
    (3, "Prologue 4000000c"),
    (4, "Prologue 40000010"),
    (5, "Prologue 40000014"),
    (6, "Prologue 40000018"),
    (7, "Prologue 4000001c"),
    (8, "Prologue 40000020"),
    (9, "Prologue 40000024"),
    (10, "Prologue 40000028"),
    (11, "Prologue 4000002c"),
    (12, "Prologue 40000030"),
    (13, "Prologue 40000034"),
    (14, "Prologue 40000038"),
    (15, "Prologue 4000003c"),
    (16, "Prologue 40000040"),
    (17, "Prologue 40000044"),
    (18, "Prologue 40000048"),
    (19, "Prologue 4000004c"),
];

/// The row of `A_OF_HARTS` with a word put at an index.
fn row_with(index: usize, word: u32, words: &'static str) -> Row {
    Row(
        EightHarts,
        &PROLOGUE_OF_HARTS,
        &A_OF_HARTS,
        A_OF_HARTS_GRAPH,
        index,
        word,
        words,
    )
}

/// Whether the program with the lowest bit of a destination register turned, in a word of its prologue, is
/// answered so, and as it was is accepted.
fn is_asked(alloc: Global, index: usize, words: &'static str) -> bool {
    let own = PROLOGUE_OF_HARTS.get(index).copied().unwrap_or(0);
    is_right(alloc, &row_with(index, own ^ 0x80, words))
        && is_right(alloc, &row_with(index, own, ""))
}

#[test]
fn each_word_of_the_prologue(rt: HostRuntime) {
    for row in &CHANGED {
        assert!(rt; is_asked(rt.alloc(), row.0, row.1), "{}", row.1);
    }
}

/// Addresses, and whether something starts there: the handlers, the opening, the closing and the units of
/// `A_OF_HARTS`; not version 1's closing and first unit, nor the words beside those that start something.
static STARTS: [(u64, bool); 16] = [
    (0x4000_0000, true),
    (0x4000_0004, true),
    (0x4000_0008, true),
    (0x4000_000c, true),
    (0x4000_0010, false),
    (0x4000_0038, false),
    (0x4000_0040, false),
    (0x4000_0044, false),
    (0x4000_0048, true),
    (0x4000_004c, false),
    (0x4000_0050, true),
    (0x4000_0052, false),
    (0x4000_0054, true),
    (0x4000_0058, true),
    (0x4000_005c, true),
    (0x4000_0060, false),
];

/// Whether something starts at an address, by both calls that tell it, or nothing.
fn starts(checked: &Checked<'_>, row: &(u64, bool)) -> bool {
    checked.is_place(row.0) == row.1 && checked.place_at(row.0).is_some() == row.1
}

/// Whether something starts where it is to.
fn starts_so(checked: &Checked<'_>) -> bool {
    for row in &STARTS {
        if !starts(checked, row) {
            return false;
        }
    }
    true
}

/// Whether the prologue's parts stand where they are to.
fn has_prologue(checked: &Checked<'_>) -> bool {
    matches!(checked.place_at(0x4000_0000), Some(Place::Handler))
        && matches!(checked.place_at(0x4000_0004), Some(Place::Handler))
        && matches!(checked.place_at(0x4000_0008), Some(Place::Handler))
        && matches!(
            checked.place_at(0x4000_000c),
            Some(Place::Opening(0x4000_0050))
        )
        && matches!(checked.place_at(0x4000_0048), Some(Place::Closing))
        && checked.closing() == 0x4000_0048
}

/// Whether the units do.
fn has_units(checked: &Checked<'_>) -> bool {
    matches!(checked.unit_at(0x4000_0050), Some(Unit::Plain(_)))
        && matches!(checked.unit_at(0x4000_0054), Some(Unit::Plain(_)))
        && matches!(
            checked.unit_at(0x4000_0058),
            Some(Unit::System(SystemOp::Ecall))
        )
        && matches!(checked.unit_at(0x4000_005c), Some(Unit::Stop))
        && checked.unit_at(0x4000_0040).is_none()
        && checked.unit_at(0x4000_0048).is_none()
}

/// The walk of `A_OF_HARTS`: to the first unit, unit by unit, to the first handler, and no further.
static EXITING: [Step; 5] = [
    (0x4000_0050, 1, Some(0x4000_0048)),
    (0x4000_0054, 1, Some(0x4000_0048)),
    (0x4000_0058, 1, Some(0x4000_0048)),
    (0x4000_005c, 1, Some(0x4000_0048)),
    (0x4000_0000, 1, Some(0x4000_0048)),
];

/// That of `SHARED` in hart 0 and in another: past the store or to it, then to the closing, with no site pending.
static FIRST_HART: [Step; 5] = [
    (0x4000_0050, 1, Some(0x4000_0048)),
    (0x4000_0054, 1, Some(0x4000_0048)),
    (0x4000_0058, 1, Some(0x4000_0048)),
    (0x4000_005c, 1, Some(0x4000_0048)),
    (0x4000_0048, 0, None),
];

static OTHER_HART: [Step; 5] = [
    (0x4000_0050, 1, Some(0x4000_0048)),
    (0x4000_0054, 1, Some(0x4000_0048)),
    (0x4000_0070, 1, Some(0x4000_0048)),
    (0x4000_0080, 1, Some(0x4000_0048)),
    (0x4000_0048, 0, None),
];

/// Where no step of a walk leads from any of these: version 1's closing and first unit, the word after the closing, a
/// handler that no unit here goes to.
static NOWHERE: [u64; 4] = [0x4000_0038, 0x4000_0040, 0x4000_004c, 0x4000_0008];

/// Whether `A_OF_HARTS` has its parts and its walk.
fn exits_so(alloc: Global, image: &Image<'_>, graph: &Graph) -> bool {
    match verify(alloc, image, graph) {
        Ok(checked) => {
            starts_so(&checked)
                && has_prologue(&checked)
                && has_units(&checked)
                && walks_along(alloc, &checked, &EXITING, &NOWHERE)
        }
        Err(_) => false,
    }
}

/// Whether `SHARED` has its walks.
fn shares_so(alloc: Global, image: &Image<'_>, graph: &Graph) -> bool {
    match verify(alloc, image, graph) {
        Ok(checked) => {
            matches!(checked.unit_at(0x4000_005c), Some(Unit::Return))
                && walks_along(alloc, &checked, &FIRST_HART, &NOWHERE)
                && walks_along(alloc, &checked, &OTHER_HART, &NOWHERE)
        }
        Err(_) => false,
    }
}

/// Whether a code is that of `A_OF_HARTS`, of 96 bytes.
fn is_exiting(alloc: Global, code: &[u8]) -> bool {
    if code.len() != 96 {
        return false;
    }
    match read_graph(alloc, A_OF_HARTS_GRAPH) {
        Ok(graph) => exits_so(alloc, &Image::of_version(EightHarts, code, &[]), &graph),
        Err(_) => false,
    }
}

/// Whether a code is that of `SHARED`, of 152 bytes.
fn is_sharing(alloc: Global, code: &[u8]) -> bool {
    if code.len() != 152 {
        return false;
    }
    match read_graph(alloc, SHARED_GRAPH) {
        Ok(graph) => shares_so(alloc, &Image::of_version(EightHarts, code, &[]), &graph),
        Err(_) => false,
    }
}

/// Whether both programs are as they are to be.
fn are_so(alloc: Global) -> bool {
    let Some(exits) = code_with(alloc, &PROLOGUE_OF_HARTS, &A_OF_HARTS, &[]) else {
        return false;
    };
    let Some(shared) = code_with(alloc, &PROLOGUE_OF_HARTS, &SHARED, &[]) else {
        return false;
    };
    is_exiting(alloc, &exits) && is_sharing(alloc, &shared)
}

#[test]
fn parts_and_walks(rt: HostRuntime) {
    assert!(rt; are_so(rt.alloc()));
}
