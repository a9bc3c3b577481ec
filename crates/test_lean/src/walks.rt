//! Walks of lean images: where each unit leads, with the sites that are pending then. They are worked out by hand.

use crate::samples::Program;
use cfi_graph::read_graph;
use cfi_verify::{Checked, verify};
use rv_image::{Image, ImageVersion};
use sample_runs::{Step, code_with, walks_along, walks_so};
use std::alloc::Global;

/// Where a walk goes after the opening, then an address, and whether it goes there as well.
type Went = (&'static [u64], u64, bool);

/// The opening's site.
const CLOSING: Option<u64> = Some(0x4000_0024);

/// A function that calls nothing, and returns to its call's site.
#[rattlefmt::skip]
const CALLS_LEAF: &[Step] = &[
    (0x4000_0030, 1, CLOSING),
    (0x4000_0044, 1, CLOSING),
    (0x4000_0048, 1, CLOSING),
    (0x4000_0050, 1, CLOSING),
    (0x4000_0074, 2, Some(0x4000_0054)),
    (0x4000_0078, 2, Some(0x4000_0054)),
    (0x4000_007c, 2, Some(0x4000_0054)),
    (0x4000_0080, 2, Some(0x4000_0054)),
    (0x4000_0084, 2, Some(0x4000_0054)),
    (0x4000_0088, 2, Some(0x4000_0054)),
    (0x4000_008c, 2, Some(0x4000_0054)),
    (0x4000_0054, 1, CLOSING),
    (0x4000_0058, 1, CLOSING),
    (0x4000_005c, 1, CLOSING),
    (0x4000_0060, 1, CLOSING),
    (0x4000_0024, 0, None),
];

/// A call through a pointer, which goes to the gate 8 bytes behind its target.
#[rattlefmt::skip]
const CALLS_BY_POINTER: &[Step] = &[
    (0x4000_0030, 1, CLOSING),
    (0x4000_0044, 1, CLOSING),
    (0x4000_0048, 1, CLOSING),
    (0x4000_0050, 1, CLOSING),
    (0x4000_0054, 1, CLOSING),
    (0x4000_0058, 1, CLOSING),
    (0x4000_00b8, 2, Some(0x4000_0094)),
    (0x4000_00bc, 2, Some(0x4000_0094)),
    (0x4000_00d0, 2, Some(0x4000_0094)),
    (0x4000_00d4, 2, Some(0x4000_0094)),
    (0x4000_0094, 1, CLOSING),
    (0x4000_0098, 1, CLOSING),
    (0x4000_009c, 1, CLOSING),
    (0x4000_0024, 0, None),
];

/// A jump through a pointer, to its target.
#[rattlefmt::skip]
const JUMPS_BY_POINTER: &[Step] = &[
    (0x4000_0030, 1, CLOSING),
    (0x4000_0044, 1, CLOSING),
    (0x4000_0048, 1, CLOSING),
    (0x4000_004c, 1, CLOSING),
    (0x4000_0088, 1, CLOSING),
    (0x4000_008c, 1, CLOSING),
    (0x4000_0090, 1, CLOSING),
    (0x4000_0024, 0, None),
];

/// To the call of the leaf, into it, and to its return.
const TO_CALL: &[u64] = &[0x4000_0030, 0x4000_0044, 0x4000_0048, 0x4000_0050];

#[rattlefmt::skip]
const TO_LEAF_RETURN: &[u64] = &[
    0x4000_0030, 0x4000_0044, 0x4000_0048, 0x4000_0050, 0x4000_0074, 0x4000_0078, 0x4000_007c, 0x4000_0080, 0x4000_0084, 0x4000_0088,
    0x4000_008c,
];

/// An enter goes on where there is room; a leaf returns to its call's site alone, and to no handler.
#[rattlefmt::skip]
const CALLS_LEAF_WALKS: &[Went] = &[
    (&[0x4000_0030], 0x4000_0044, true),
    (&[0x4000_0030], 0x4000_0008, false),
    (&[0x4000_0030], 0x4000_0004, false),
    (&[], 0x4000_002c, false),
    (&[], 0x4000_0044, false),
    (TO_CALL, 0x4000_0074, true),
    (TO_CALL, 0x4000_0054, false),
    (TO_CALL, 0x4000_0008, false),
    (TO_LEAF_RETURN, 0x4000_0054, true),
    (TO_LEAF_RETURN, 0x4000_0024, false),
    (TO_LEAF_RETURN, 0x4000_0004, false),
    (TO_LEAF_RETURN, 0x4000_0090, false),
];

/// To the call through a pointer, and to the jump.
const TO_POINTER: &[u64] = &[
    0x4000_0030,
    0x4000_0044,
    0x4000_0048,
    0x4000_0050,
    0x4000_0054,
    0x4000_0058,
];

const TO_JUMP: &[u64] = &[0x4000_0030, 0x4000_0044, 0x4000_0048, 0x4000_004c];

/// A call goes to either gate and to the handler of targets: not to a target, an enter, or past one.
#[rattlefmt::skip]
const CALLS_BY_POINTER_WALKS: &[Went] = &[
    (TO_POINTER, 0x4000_00f0, true),
    (TO_POINTER, 0x4000_0000, true),
    (TO_POINTER, 0x4000_0008, false),
    (TO_POINTER, 0x4000_00b0, false),
    (TO_POINTER, 0x4000_00bc, false),
    (TO_POINTER, 0x4000_00d0, false),
    (TO_POINTER, 0x4000_0094, false),
];

/// A jump goes to either target and to the handler of targets: not over the word behind the gate of the jump's class.
#[rattlefmt::skip]
const JUMPS_BY_POINTER_WALKS: &[Went] = &[
    (TO_JUMP, 0x4000_00a4, true),
    (TO_JUMP, 0x4000_0000, true),
    (TO_JUMP, 0x4000_00a8, false),
    (TO_JUMP, 0x4000_00ac, false),
    (TO_JUMP, 0x4000_00c4, false),
    (TO_JUMP, 0x4000_0004, false),
];

/// Addresses to which no unit of any of these programs leads from any of its places.
const NOWHERE: &[u64] = &[0x4000_0034, 0x4000_0028, 0x4000_0046, 0x4000_0200];

/// Whether an accepted pair has its undisturbed walk and those of rows.
fn are_walked(alloc: Global, checked: &Checked<'_>, trail: &[Step], rows: &[Went]) -> bool {
    for row in rows {
        if !walks_so(alloc, checked, row) {
            return false;
        }
    }
    walks_along(alloc, checked, trail, NOWHERE)
}

/// Whether a code with a program's graph is accepted and walked so.
fn is_code_walked(
    alloc: Global,
    code: &[u8],
    program: Program,
    trail: &[Step],
    rows: &[Went],
) -> bool {
    if code.len() < 4 || code.len() > 4096 || code.len() % 4 != 0 {
        return false;
    }
    let Ok(graph) = read_graph(alloc, program.graph()) else {
        return false;
    };
    let image = Image::of_version(ImageVersion::OneHart, code, &[]);
    match verify(alloc, &image, &graph) {
        Ok(checked) => are_walked(alloc, &checked, trail, rows),
        Err(_) => false,
    }
}

/// The same of the program's own.
fn is_walked(alloc: Global, program: Program, trail: &[Step], rows: &[Went]) -> bool {
    match code_with(alloc, program.words(), &[], &[]) {
        Some(code) => is_code_walked(alloc, &code, program, trail, rows),
        None => false,
    }
}

#[test]
fn walks(rt: HostRuntime) {
    let alloc = rt.alloc();
    assert!(rt; is_walked(alloc, Program::CallsLeaf, CALLS_LEAF, CALLS_LEAF_WALKS));
    assert!(rt;
        is_walked(
            alloc,
            Program::CallsByPointer,
            CALLS_BY_POINTER,
            CALLS_BY_POINTER_WALKS
        )
    );
    assert!(rt;
        is_walked(
            alloc,
            Program::JumpsByPointer,
            JUMPS_BY_POINTER,
            JUMPS_BY_POINTER_WALKS
        )
    );
}
