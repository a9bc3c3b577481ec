//! Units of images whose callees save the sites of calls: what they are, and that no graph of today admits one.

use crate::stores::wrong_in;
use cfi_emit::recognise;
use cfi_graph::read_graph;
use sample_programs::code;
use std::alloc::Global;

/// Where the first unit of an image stands.
const FIRST: u64 = 0x4000_0040;

/// A unit's words and the jump to the handler of bad targets behind them, how many words the unit has, and a graph of each version.
struct Lean(&'static [u32], u32, [&'static [u8]; 2]);

static UNITS: [Lean; 10] = [
    // a short mask
    Lean(
        &[0x0041_7fb3, 0x001f_b023, 0xfb9f_f06f],
        2,
        [
            b"rvcfi-graph 1\ncode 40000000 0000004c\ncall 4000000c 40000040\nend\n",
            b"rvcfi-graph 2\ncode 40000000 0000004c\ncall 4000000c 40000040\nend\n",
        ],
    ),
    // a long mask
    Lean(
        &[0xff81_0f93, 0x004f_ffb3, 0x001f_b023, 0xfb5f_f06f],
        3,
        [
            b"rvcfi-graph 1\ncode 40000000 00000050\ncall 4000000c 40000040\nend\n",
            b"rvcfi-graph 2\ncode 40000000 00000050\ncall 4000000c 40000040\nend\n",
        ],
    ),
    // a short mask of x3
    Lean(
        &[0x0041_ffb3, 0x001f_b023, 0xfb9f_f06f],
        2,
        [
            b"rvcfi-graph 1\ncode 40000000 0000004c\ncall 4000000c 40000040\nend\n",
            b"rvcfi-graph 2\ncode 40000000 0000004c\ncall 4000000c 40000040\nend\n",
        ],
    ),
    // a short mask of x4
    Lean(
        &[0x0042_7fb3, 0x001f_b023, 0xfb9f_f06f],
        2,
        [
            b"rvcfi-graph 1\ncode 40000000 0000004c\ncall 4000000c 40000040\nend\n",
            b"rvcfi-graph 2\ncode 40000000 0000004c\ncall 4000000c 40000040\nend\n",
        ],
    ),
    // sixteen stores
    Lean(
        &[
            0x0041_7fb3,
            0x001f_b023,
            0x001f_b023,
            0x001f_b023,
            0x001f_b023,
            0x001f_b023,
            0x001f_b023,
            0x001f_b023,
            0x001f_b023,
            0x001f_b023,
            0x001f_b023,
            0x001f_b023,
            0x001f_b023,
            0x001f_b023,
            0x001f_b023,
            0x001f_b023,
            0x001f_b023,
            0xf7df_f06f,
        ],
        17,
        [
            b"rvcfi-graph 1\ncode 40000000 00000088\ncall 4000000c 40000040\nend\n",
            b"rvcfi-graph 2\ncode 40000000 00000088\ncall 4000000c 40000040\nend\n",
        ],
    ),
    // a call by `jal x1`
    Lean(
        &[0x0040_00ef, 0xfbdf_f06f],
        1,
        [
            b"rvcfi-graph 1\ncode 40000000 00000048\ncall 4000000c 40000040\nend\n",
            b"rvcfi-graph 2\ncode 40000000 00000048\ncall 4000000c 40000040\nend\n",
        ],
    ),
    // an enter
    Lean(
        &[
            0x0301_9f13,
            0x000f_1463,
            0xfc1f_f06f,
            0x0011_b023,
            0x0081_8193,
            0xfadf_f06f,
        ],
        5,
        [
            b"rvcfi-graph 1\ncode 40000000 00000058\ncall 4000000c 40000040\nend\n",
            b"rvcfi-graph 2\ncode 40000000 00000058\ncall 4000000c 40000040\nend\n",
        ],
    ),
    // a computed jump
    Lean(
        &[
            0x0002_8f93,
            0xffcf_ff93,
            0x4000_0f37,
            0x41ef_8f33,
            0x014f_5f13,
            0x000f_0463,
            0xfa9f_f06f,
            0x000f_af03,
            0x0000_1237,
            0x0372_0213,
            0x004f_0463,
            0xf95f_f06f,
            0x1000_0237,
            0xfff2_0213,
            0x000f_8067,
            0xf85f_f06f,
        ],
        15,
        [
            b"rvcfi-graph 1\ncode 40000000 00000080\ncall 4000000c 40000040\nend\n",
            b"rvcfi-graph 2\ncode 40000000 00000080\ncall 4000000c 40000040\nend\n",
        ],
    ),
    // a computed call
    Lean(
        &[
            0x0002_8f93,
            0xffcf_ff93,
            0x4000_0f37,
            0x41ef_8f33,
            0x014f_5f13,
            0x000f_0463,
            0xfa9f_f06f,
            0x008f_af03,
            0x0000_1237,
            0x0372_0213,
            0x004f_0463,
            0xf95f_f06f,
            0x1000_0237,
            0xfff2_0213,
            0x008f_80e7,
            0xf85f_f06f,
        ],
        15,
        [
            b"rvcfi-graph 1\ncode 40000000 00000080\ncall 4000000c 40000040\nend\n",
            b"rvcfi-graph 2\ncode 40000000 00000080\ncall 4000000c 40000040\nend\n",
        ],
    ),
    // a leaf return
    Lean(
        &[0x0000_8067, 0xfbdf_f06f],
        1,
        [
            b"rvcfi-graph 1\ncode 40000000 00000048\ncall 4000000c 40000040\nend\n",
            b"rvcfi-graph 2\ncode 40000000 00000048\ncall 4000000c 40000040\nend\n",
        ],
    ),
];

/// How many words the unit has with which some words begin; 0 where there is none.
fn count_of(words: &[u32]) -> u32 {
    match recognise(words, FIRST) {
        Some((_, count)) => count,
        None => 0,
    }
}

/// Each is recognised, with as many words as it has.
#[test]
fn recognised(rt: HostRuntime) {
    for (k, row) in UNITS.iter().enumerate() {
        assert!(rt; count_of(row.0) == row.1, "{k}");
    }
}

/// Where a code of a row's words is rejected under a graph's text; 1 where there is none.
fn rejected_at(alloc: Global, words: &[u32], text: &[u8]) -> u64 {
    match (code(alloc, words), read_graph(alloc, text)) {
        (Ok(bytes), Ok(graph)) => wrong_in(alloc, &bytes, &graph),
        _ => 1,
    }
}

/// And none is admitted.
#[test]
fn not_admitted(rt: HostRuntime) {
    for (k, row) in UNITS.iter().enumerate() {
        for text in &row.2 {
            assert!(rt; rejected_at(rt.alloc(), row.0, text) == FIRST, "{k}");
        }
    }
}
