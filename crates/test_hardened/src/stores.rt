//! Stores behind one mask: which words are one unit, and codes in which a store stands behind sixteen or too far off.

use cfi_emit::recognise;
use cfi_graph::{Graph, read_graph};
use cfi_unit::Unit;
use cfi_verify::{Reject, Rule, verify};
use rv_image::Image;
use rv_word::End;
use sample_programs::{STORES, code};
use std::alloc::Global;

/// Where the first unit of an image stands.
const FIRST: u64 = 0x4000_0040;

/// How many of the words are seen, and how many of these are the unit with which they begin; 0 where there is none.
static SEEN: [(usize, u32); 7] = [(3, 0), (4, 4), (5, 5), (8, 8), (18, 18), (19, 19), (20, 19)];

/// How many words the unit of stores has with which some words begin.
fn count_of(words: &[u32]) -> u32 {
    match recognise(words, FIRST) {
        Some((Unit::Stores(..), count)) => count,
        _ => 0,
    }
}

#[test]
fn as_many_as_follow(rt: HostRuntime) {
    for row in &SEEN {
        let words = STORES.get(..row.0).unwrap_or(&[]);
        assert!(rt; count_of(words) == row.1, "{}", row.0);
    }
}

/// A store at a distance of -2,040.
const BEHIND: u32 = 0x800f_b423;

/// A code that begins with some of the words: how many, what follows them, the graph, and the address at which no unit begins; 0
/// where the code is accepted.
struct Code(usize, &'static [u32], &'static [u8], u64);

static CODES: [Code; 7] = [
    Code(
        4,
        &[0xfb1f_f06f],
        b"rvcfi-graph 1\ncode 40000000 00000054\ncall 4000000c 40000040\nend\n",
        0,
    ),
    Code(
        5,
        &[0xfadf_f06f],
        b"rvcfi-graph 1\ncode 40000000 00000058\ncall 4000000c 40000040\nend\n",
        0,
    ),
    Code(
        18,
        &[0xf79f_f06f],
        b"rvcfi-graph 1\ncode 40000000 0000008c\ncall 4000000c 40000040\nend\n",
        0,
    ),
    Code(
        19,
        &[0xf75f_f06f],
        b"rvcfi-graph 1\ncode 40000000 00000090\ncall 4000000c 40000040\nend\n",
        0,
    ),
    Code(
        20,
        &[0xf71f_f06f],
        b"rvcfi-graph 1\ncode 40000000 00000094\ncall 4000000c 40000040\nend\n",
        0x4000_008c,
    ),
    Code(
        3,
        &[BEHIND, 0xfb1f_f06f],
        b"rvcfi-graph 1\ncode 40000000 00000054\ncall 4000000c 40000040\nend\n",
        0x4000_0040,
    ),
    Code(
        4,
        &[BEHIND, 0xfadf_f06f],
        b"rvcfi-graph 1\ncode 40000000 00000058\ncall 4000000c 40000040\nend\n",
        0x4000_0050,
    ),
];

/// The bytes of a row's code.
fn bytes_of(alloc: Global, row: &Code) -> Option<Vec<u8>> {
    let mut words = Vec::from_slice(alloc, STORES.get(..row.0)?).ok()?;
    words.extend_from_slice(row.1).ok()?;
    code(alloc, &words).ok()
}

/// The address at which no unit of an image begins; 0 where it is accepted, and 1 where something else is wrong.
fn wrong_at(alloc: Global, image: &Image<'_>, graph: &Graph) -> u64 {
    match verify(alloc, image, graph) {
        Ok(_) => 0,
        Err(End::Fault(Reject::At(Rule::Unit, at))) => at,
        Err(_) => 1,
    }
}

/// The same of a code.
pub(crate) fn wrong_in(alloc: Global, code: &[u8], graph: &Graph) -> u64 {
    let len = code.len();
    if len < 4 || len > 0x10_0000 || len % 4 != 0 {
        return 1;
    }
    wrong_at(alloc, &Image::of(code, &[]), graph)
}

/// Whether a row's code is accepted or rejected as it says.
fn is_answered(alloc: Global, row: &Code) -> bool {
    match (bytes_of(alloc, row), read_graph(alloc, row.2)) {
        (Some(bytes), Ok(graph)) => wrong_in(alloc, &bytes, &graph) == row.3,
        _ => false,
    }
}

#[test]
fn sixteen_at_most(rt: HostRuntime) {
    for (k, row) in CODES.iter().enumerate() {
        assert!(rt; is_answered(rt.alloc(), row), "{k}");
    }
}
