//! Pairs of a lean image and a graph, and the line that is printed of each.

use crate::samples::Program;
use rv_image::ImageVersion;
use rv_word::NoMemory;
use sample_calls::{answers, image_as, put};
use sample_programs::add_words;
use std::alloc::Global;
use std::process::Abort;
use tool_io::MemFiles;

/// A program, a word at an offset in its code, a text in its graph and what stands there in its place, and the line that is put.
struct Case(
    Program,
    usize,
    u32,
    &'static str,
    &'static str,
    &'static str,
);

/// The lines of the leaf of `CallsLeaf`, of its call, of the opening's call and of the jump over the enter.
const OWN_LEAF: &str = "leaf 40000074 40000090\n";

const OWN_CALL: &str = "call 40000050 40000074\n";

const OPENING: &str = "call 4000000c 40000030\n";

const OVER: &str = "edge 4000002c 40000044\n";

/// A call's class of `CallsByPointer`, a jump's of `JumpsByPointer`.
const CALLS: &str = "callclass 00001 400000b0 400000e8\n";

const JUMPS: &str = "jumpclass 00002 40000088 400000a4\n";

#[rattlefmt::skip]
static CASES: [Case; 54] = [
    // Prologues of both versions, and graphs of other versions.
    Case(Program::Leaf, 0x00, 0x00100073, "end\n", "end\n", "accepted\n"),
    Case(Program::Leaf, 0x00, 0x00100073, "leaf 4000002c 4000003c\n", "", "rejected Target 4000000c\n"),
    Case(Program::Leaf, 0x00, 0x00100073, "2c 4000003c\n", "2c 40000038\n", "rejected Leaf 40000034\n"),
    Case(Program::Leaf, 0x00, 0x00100073, "graph 3\n", "graph 2\n", "refused 23 Graph 3 Form\n"),
    Case(Program::Leaf, 0x00, 0x00100073, "3\ncode 40000000 0000003c\nleaf 4000002c 4000003c\n", "2\ncode 40000000 0000003c\n", "rejected Prologue 40000010\n"),
    Case(Program::Leaf, 0x14, 0x00000013, "end\n", "end\n", "rejected Prologue 40000014\n"),
    Case(Program::Leaf, 0x24, 0x05e00893, "end\n", "end\n", "rejected Prologue 40000024\n"),
    Case(Program::CallsLeaf, 0x00, 0x00100073, "end\n", "end\n", "accepted\n"),
    Case(Program::CallsByPointer, 0x00, 0x00100073, "end\n", "end\n", "accepted\n"),
    Case(Program::JumpsByPointer, 0x00, 0x00100073, "end\n", "end\n", "accepted\n"),
    // Unit: what may not stand in a leaf, a return of a leaf outside of one.
    Case(Program::CallsLeaf, 0x54, 0x00008067, "end\n", "end\n", "rejected Unit 40000054\n"),
    Case(Program::CallsLeaf, 0x7c, 0x00008093, "end\n", "end\n", "rejected Unit 4000007c\n"),
    Case(Program::CallsLeaf, 0x84, 0x00001037, "end\n", "end\n", "rejected Unit 40000084\n"),
    Case(Program::CallsLeaf, 0x84, 0xfadff0ef, "end\n", "end\n", "rejected Unit 40000084\n"),
    Case(Program::CallsLeaf, 0x84, 0xff81bf83, "end\n", "end\n", "rejected Unit 40000084\n"),
    Case(Program::CallsLeaf, 0x84, 0x00100073, "end\n", "end\n", "accepted\n"),
    Case(Program::CallsLeaf, 0x00, 0x00100073, OWN_LEAF, "", "rejected Unit 4000008c\n"),
    Case(Program::CallsLeaf, 0x00, 0x00100073, OWN_LEAF, "leaf 40000074 4000008c\n", "rejected Unit 4000008c\n"),
    Case(Program::CallsLeaf, 0x00, 0x00100073, OWN_LEAF, "leaf 40000030 40000090\n", "rejected Unit 40000030\n"),
    Case(Program::CallsLeaf, 0x00, 0x00100073, OWN_LEAF, "leaf 40000074 40000094\n", "accepted\n"),
    // A check that does not read, or does not make the mask of stores again, and one that goes to its destination.
    Case(Program::CallsByPointer, 0x88, 0x00000013, "end\n", "end\n", "rejected Unit 40000058\n"),
    Case(Program::CallsByPointer, 0x8c, 0x00000013, "end\n", "end\n", "rejected Unit 40000058\n"),
    Case(Program::CallsByPointer, 0x90, 0x000f80e7, "end\n", "end\n", "rejected Unit 40000058\n"),
    Case(Program::CallsByPointer, 0x74, 0x000faf03, "end\n", "end\n", "rejected Unit 40000058\n"),
    Case(Program::CallsByPointer, 0x78, 0x00002237, "end\n", "end\n", "rejected Site 40000058\n"),
    // Leaf: ranges that begin or end inside a unit or in the prologue, and units that go on to one of another kind.
    Case(Program::CallsLeaf, 0x00, 0x00100073, OWN_LEAF, "leaf 40000070 40000090\n", "rejected Leaf 40000070\n"),
    Case(Program::CallsLeaf, 0x00, 0x00100073, OWN_LEAF, "leaf 40000078 40000090\n", "rejected Leaf 40000074\n"),
    Case(Program::CallsLeaf, 0x00, 0x00100073, OWN_LEAF, "leaf 40000024 40000028\nleaf 40000074 40000090\n", "rejected Leaf 40000024\n"),
    Case(Program::CallsLeaf, 0x00, 0x00100073, OWN_LEAF, "leaf 40000074 40000080\nleaf 40000080 40000090\n", "rejected Leaf 4000007c\n"),
    Case(Program::CallsLeaf, 0x2c, 0x00000013, "end\n", "end\n", "rejected Leaf 4000002c\n"),
    Case(Program::CallsLeaf, 0x8c, 0x00000013, "end\n", "end\n", "rejected Leaf 4000008c\n"),
    Case(Program::CallsLeaf, 0x8c, 0x00000073, "end\n", "end\n", "rejected Leaf 4000008c\n"),
    Case(Program::CallsLeaf, 0x8c, 0x00100073, "end\n", "end\n", "accepted\n"),
    Case(Program::CallsByPointer, 0xb8, 0x00000013, "end\n", "end\n", "rejected Leaf 400000b8\n"),
    // Target: calls into a leaf, past an enter, to the jump over it, and to an enter; jumps to an enter, into a leaf, out of one.
    Case(Program::CallsLeaf, 0x50, 0x028000ef, OWN_CALL, "call 40000050 40000078\n", "rejected Target 40000050\n"),
    Case(Program::CallsLeaf, 0x50, 0xff5ff0ef, OWN_CALL, "call 40000050 40000044\n", "rejected Target 40000050\n"),
    Case(Program::CallsLeaf, 0x50, 0xfddff0ef, OWN_CALL, "call 40000050 4000002c\n", "rejected Target 40000050\n"),
    Case(Program::CallsLeaf, 0x50, 0xfe1ff0ef, OWN_CALL, "call 40000050 40000030\n", "accepted\n"),
    Case(Program::CallsLeaf, 0x2c, 0x0040006f, OVER, "edge 4000002c 40000030\n", "rejected Target 4000002c\n"),
    Case(Program::CallsLeaf, 0x54, 0x0200006f, OWN_CALL, "call 40000050 40000074\nedge 40000054 40000074\n", "rejected Target 40000054\n"),
    Case(Program::CallsLeaf, 0x78, 0xfcdff06f, OWN_CALL, "call 40000050 40000074\nedge 40000078 40000044\n", "rejected Target 40000078\n"),
    Case(Program::CallsLeaf, 0x78, 0x0100006f, OWN_CALL, "call 40000050 40000074\nedge 40000078 40000088\n", "accepted\n"),
    Case(Program::CallsLeaf, 0x20, 0x024000ef, OPENING, "call 4000000c 40000044\n", "rejected Target 4000000c\n"),
    Case(Program::CallsLeaf, 0x20, 0x054000ef, OPENING, "call 4000000c 40000074\n", "accepted\n"),
    // Gate and Astray.
    Case(Program::CallsByPointer, 0x00, 0x00100073, CALLS, "callclass 00001 400000b0 400000e8 400000ec\n", "rejected Gate 400000ec\n"),
    Case(Program::CallsByPointer, 0x00, 0x00100073, CALLS, "callclass 00001 400000b8 400000e8\n", "rejected Gate 400000b8\n"),
    Case(Program::CallsByPointer, 0xb8, 0x00002037, "end\n", "end\n", "rejected Gate 400000b0\n"),
    Case(Program::CallsByPointer, 0xd0, 0x00001037, CALLS, "callclass 00001 400000b0 400000c8 400000e8\n", "rejected Gate 400000c8\n"),
    Case(Program::JumpsByPointer, 0xac, 0x00002037, "callclass 00001 400000a4\njumpclass 00002 40000088 400000a4\n", "callclass 00001\njumpclass 00002 40000088 400000a4 400000ac\n", "rejected Gate 400000ac\n"),
    Case(Program::JumpsByPointer, 0x00, 0x00100073, JUMPS, "jumpclass 00002 40000088 400000a4 400000a8\n", "rejected Gate 400000a8\n"),
    Case(Program::CallsByPointer, 0x00, 0x00100073, CALLS, "callclass 00001 400000b0\n", "rejected Astray 400000f0\n"),
    Case(Program::CallsByPointer, 0xb0, 0x00001037, "end\n", "end\n", "rejected Astray 400000b0\n"),
    Case(Program::CallsByPointer, 0xb0, 0x00002037, "end\n", "end\n", "accepted\n"),
    Case(Program::JumpsByPointer, 0xc4, 0x00002037, "end\n", "end\n", "rejected Astray 400000c4\n"),
];

/// A graph with a text in place of one that stands in it once.
fn graph_with(alloc: Global, case: &Case) -> Result<Vec<u8>, NoMemory> {
    let text = str::from_utf8(case.0.graph()).unwrap_or("");
    let (front, back) = text.split_once(case.3).unwrap_or(("", ""));
    let mut graph = Vec::new(alloc);
    graph.extend_from_slice(front.as_bytes())?;
    graph.extend_from_slice(case.4.as_bytes())?;
    graph.extend_from_slice(back.as_bytes())?;
    Ok(graph)
}

/// An image of a version that has a code with one word in place of that at an offset.
pub(crate) fn image_with(
    alloc: Global,
    version: ImageVersion,
    words: &[u32],
    at: usize,
    word: u32,
    data: &[u8],
) -> Result<Vec<u8>, NoMemory> {
    let mut code = Vec::new(alloc);
    add_words(&mut code, words)?;
    put(&mut code, at, &word.to_le_bytes());
    image_as(alloc, version, &code, data)
}

/// Whether the tool puts a text of an image and a graph, and ends with its status.
fn verifies(alloc: Global, image: &[u8], graph: &[u8], text: &str) -> bool {
    let mut files = MemFiles::new(alloc, Vec::new(alloc));
    let status = u8::from(text != "accepted\n");
    files.insert("image", image).is_ok()
        && files.insert("graph", graph).is_ok()
        && answers(alloc, "rvcfi,verify,image,graph", &mut files, status, text)
}

/// Whether the line of a case is put of its image, of a version, and its graph.
fn is_right(alloc: Global, version: ImageVersion, case: &Case) -> bool {
    let image = image_with(alloc, version, case.0.words(), case.1, case.2, b"");
    match (image, graph_with(alloc, case)) {
        (Ok(image), Ok(graph)) => verifies(alloc, &image, &graph, case.5),
        _ => false,
    }
}

#[test]
fn pairs(rt: HostRuntime) {
    for case in &CASES {
        assert!(rt;
            is_right(rt.alloc(), ImageVersion::OneHart, case),
            "{:x} {:x} {}",
            case.1,
            case.2,
            case.4
        );
    }
}

/// The same of images for several harts: the prologue of one hart, and a word of their own.
#[rattlefmt::skip]
static CASES_OF_HARTS: [Case; 4] = [
    Case(Program::Enter, 0x00, 0x00100073, "end\n", "end\n", "accepted\n"),
    Case(Program::Leaf, 0x00, 0x00100073, "end\n", "end\n", "rejected Prologue 40000018\n"),
    Case(Program::Enter, 0x2c, 0x00018193, "end\n", "end\n", "rejected Prologue 4000002c\n"),
    Case(Program::Enter, 0x30, 0x020000ef, "end\n", "end\n", "rejected Target 4000000c\n"),
];

#[test]
fn pairs_of_harts(rt: HostRuntime) {
    for case in &CASES_OF_HARTS {
        assert!(rt;
            is_right(rt.alloc(), ImageVersion::EightHarts, case),
            "{:x} {:x}",
            case.1,
            case.2
        );
    }
}
