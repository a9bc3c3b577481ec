//! Codes that come in pieces: wherever they are cut, the answer is that on the whole. The rules and addresses are those
//! that the definitions of the rules give.
ghost use Rattle.std.specs.Prelude.{◌≡◌, ◌<◌};

use cfi_graph::{Graph, read_graph};
use cfi_scan::Steps;
use cfi_verify::Scan;
use rv_image::ImageVersion;
use rv_image::ImageVersion::{EightHarts, OneHart};
use sample_programs::{
    A, A_GRAPH, A_OF_HARTS, A_OF_HARTS_GRAPH, B, B_GRAPH, H, H_GRAPH, JOBS, JOBS_GRAPH, JUMP,
    JUMP_GRAPH, LOOP, LOOP_GRAPH, NARROW, NARROW_GRAPH, NOWHERE, NOWHERE_GRAPH, P, P_GRAPH,
    PROLOGUE, PROLOGUE_OF_HARTS, SHARED, SHARED_GRAPH,
};
use sample_runs::{SAME, code_with};
use std::alloc::Global;
use std::marker::Brand;
use std::sync::ledger::{Blank, Ledger};

/// The version of an image, the units of a program, its graph, where in the code a word is put, the word, and the rule that
/// fails with its address; no text where the code is accepted.
pub(crate) struct Row(
    pub(crate) ImageVersion,
    pub(crate) &'static [u32],
    pub(crate) &'static [u8],
    pub(crate) usize,
    pub(crate) u32,
    pub(crate) &'static str,
);

/// Makes the call whose number its data has, if that is 64 or 93, and returns. The guarded call stands at 48h.
const CALLS: [u32; 14] = [
    0x000102b7, 0x0002b883, 0x04000f93, 0x011f8863, 0x05d00f93, 0x011f8463, 0xfa9ff06f, 0x00000073,
    0xff81bf83, 0xff818193, 0x001f8463, 0xf99ff06f, 0x000f8067, 0xf8dff06f,
];

const CALLS_GRAPH: &[u8] =
    b"rvcfi-graph 1\ncode 40000000 00000078\ncalls 64 93\ncall 4000000c 40000040\nend\n";

/// `A` with a list.
const A_CALLS_GRAPH: &[u8] =
    b"rvcfi-graph 1\ncode 40000000 00000050\ncalls 93\ncall 4000000c 40000040\nend\n";

#[rattlefmt::skip]
static ROWS: [Row; 35] = [
    Row(OneHart, &A, A_GRAPH, 0, SAME, ""),
    Row(OneHart, &B, B_GRAPH, 0, SAME, ""),
    Row(OneHart, &H, H_GRAPH, 0, SAME, ""),
    Row(OneHart, &P, P_GRAPH, 0, SAME, ""),
    Row(OneHart, &JUMP, JUMP_GRAPH, 0, SAME, ""),
    Row(OneHart, &LOOP, LOOP_GRAPH, 0, SAME, ""),
    Row(OneHart, &NARROW, NARROW_GRAPH, 0, SAME, ""),
    Row(OneHart, &NOWHERE, NOWHERE_GRAPH, 0, SAME, ""),
    Row(OneHart, &A, A_GRAPH, 0x8, 0x0000_0013, "Prologue 40000008"),
    Row(OneHart, &A, B_GRAPH, 0, SAME, "Length 80 92"),
    Row(OneHart, &B, A_GRAPH, 0, SAME, "Length 92 80"),
    Row(OneHart, &A, A_GRAPH, 0x40, 0x0010_0f13, "Unit 40000040"),
    Row(OneHart, &A, A_GRAPH, 0x34, 0x0040_00ef, "Target 4000000c"),
    Row(OneHart, &A, A_GRAPH, 0x40, 0x0080_006f, "Unlisted 40000040"),
    Row(OneHart, &A, A_GRAPH, 0x4c, 0x0000_0013, "End 4000004c"),
    Row(OneHart, &B, B_GRAPH, 0x54, 0x0000_8067, "Unit 40000044"),
    Row(OneHart, &P, P_GRAPH, 0x48, 0x022f_9f93, "Unit 40000044"),
    Row(OneHart, &P, P_GRAPH, 0x90, 0x0000_0013, "Unit 4000005c"),
    Row(OneHart, &P, P_GRAPH, 0x7c, 0x0000_2237, "Site 4000005c"),
    Row(OneHart, &P, P_GRAPH, 0xe4, 0x0000_2037, "Gate 400000e4"),
    Row(OneHart, &P, P_GRAPH, 0xcc, 0x0000_1037, "Astray 400000cc"),
    Row(EightHarts, &A_OF_HARTS, A_OF_HARTS_GRAPH, 0, SAME, ""),
    Row(EightHarts, &SHARED, SHARED_GRAPH, 0, SAME, ""),
    Row(EightHarts, &JOBS, JOBS_GRAPH, 0, SAME, ""),
    Row(EightHarts, &A_OF_HARTS, A_OF_HARTS_GRAPH, 0x10, 0x6000_01b7, "Prologue 40000010"),
    Row(EightHarts, &A_OF_HARTS, A_OF_HARTS_GRAPH, 0x4c, 0x0010_0073, "Prologue 4000004c"),
    Row(EightHarts, &A_OF_HARTS, A_OF_HARTS_GRAPH, 0x44, 0xffdf_f0ef, "Target 4000000c"),
    Row(EightHarts, &SHARED, SHARED_GRAPH, 0x74, 0x022f_9f93, "Unit 40000070"),
    Row(EightHarts, &JOBS, JOBS_GRAPH, 0x94, 0x0000_2037, "Gate 40000094"),
    Row(EightHarts, &A_OF_HARTS, A_OF_HARTS_GRAPH, 0x5c, 0x0000_0013, "End 4000005c"),
    // Lists of system calls: a guarded call with its numbers, with others, with a word that is none of its own; a bare one.
    Row(OneHart, &CALLS, CALLS_GRAPH, 0, SAME, ""),
    Row(OneHart, &CALLS, CALLS_GRAPH, 0x48, 0x03f0_0f93, "Unit 40000048"),
    Row(OneHart, &CALLS, CALLS_GRAPH, 0x50, 0x05e0_0f93, "Unit 40000048"),
    Row(OneHart, &CALLS, CALLS_GRAPH, 0x54, 0x010f_8463, "Unit 40000048"),
    Row(OneHart, &A, A_CALLS_GRAPH, 0, SAME, "Unit 40000048"),
];

/// The sizes of pieces.
const SIZES: [usize; 7] = [1, 3, 4, 5, 13, 64, 260];

/// The answer on a code in pieces of a size, of which each is cut once more at a place that is drawn.
fn scanned<L: Ledger>(
    alloc: Global,
    blank: Blank,
    version: ImageVersion,
    graph: &Graph,
    bytes: &[u8],
    size: usize,
) -> Option<String>
    requires name { blank.name ≡ L.name }
    requires parts { blank.parts ≡ L.parts }
    requires some { 0 < L.parts }
    requires size { 0 < size }
{
    let mut steps = Steps::<L>::new(blank);
    let mut scan = Scan::new(alloc, version, graph).ok()?;
    let mut drawn: u32 = 1;
    for piece in bytes.chunks(size) {
        if scan.fed() > 1_000_000 || piece.len() > 1_000_000 {
            return None;
        }
        drawn = drawn.wrapping_mul(1_103_515_245).wrapping_add(12_345);
        let (first, rest) = piece.split_at((drawn >> 16) as usize % (piece.len() + 1));
        scan.feed(first, &mut steps);
        scan.feed(rest, &mut steps);
    }
    match scan.finish() {
        Ok(_) => Some(String::new(alloc)),
        Err(reject) => format!(in alloc; "{reject}").ok(),
    }
}

/// The same under a ledger of its own.
fn answer(
    alloc: Global,
    version: ImageVersion,
    graph: &Graph,
    bytes: &[u8],
    size: usize,
) -> Option<String>
    requires { 0 < size }
{
    scanned::<Brand>(alloc, Blank::new(1), version, graph, bytes, size)
}

/// The code of a row.
fn code_of(alloc: Global, row: &Row) -> Option<Vec<u8>> {
    let prologue = match row.0 {
        OneHart => PROLOGUE.as_slice(),
        EightHarts => PROLOGUE_OF_HARTS.as_slice(),
    };
    code_with(alloc, prologue, row.1, &[(row.3, row.4)])
}

/// Whether a code is answered as its row says, in pieces of a size.
fn is_answered(alloc: Global, row: &Row, size: usize) -> bool
    requires { 0 < size }
{
    let Some(bytes) = code_of(alloc, row) else {
        return false;
    };
    let Ok(graph) = read_graph(alloc, row.2) else {
        return false;
    };
    match answer(alloc, row.0, &graph, &bytes, size) {
        Some(text) => text.as_str() == row.5,
        None => false,
    }
}

/// Whether the same holds of each size.
pub(crate) fn is_right(alloc: Global, row: &Row) -> bool {
    for size in &SIZES {
        if *size == 0 || !is_answered(alloc, row, *size) {
            return false;
        }
    }
    true
}

#[test]
fn pieces(rt: HostRuntime) {
    for row in &ROWS {
        assert!(rt; is_right(rt.alloc(), row), "{} at {}", row.5, row.3);
    }
}
