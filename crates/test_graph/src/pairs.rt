//! Images of each version with graphs of each version: whether they are accepted, and if not, by which rule and where. What is right
//! follows from what the rules say in words; a model of them, `tests/model/rules.py` at the top of the repository, says the same.

use crate::answered::{Words, is_answered};
use cfi_graph::{Graph, read_graph};
use rv_image::ImageVersion;
use rv_image::ImageVersion::{EightHarts, OneHart};
use sample_programs::{
    A, A_GRAPH, A_OF_HARTS, APART, APART_GRAPH, APART_OF_HARTS, APART_OF_HARTS_GRAPH, JOBS,
    JOBS_GRAPH, JOINED, JOINED_GRAPH, JUMP, JUMP_GRAPH, P, Q, Q_GRAPH, Q_OF_HARTS,
    Q_OF_HARTS_GRAPH,
};
use std::alloc::Global;

/// The version of an image, its units, the graph, words that are put by their offsets in the code, and the rule that fails with its
/// address; no text where the pair is accepted.
struct Pair(
    ImageVersion,
    &'static [u32],
    &'static [u8],
    Words,
    &'static str,
);

/// `A`, `P` and `JUMP` with graphs of version 2, of which the last is none of its code's.
const A_APART_GRAPH: &[u8] =
    b"rvcfi-graph 2\ncode 40000000 00000050\ncall 4000000c 40000040\nend\n";

const P_APART_GRAPH: &[u8] =
    b"rvcfi-graph 2\ncode 40000000 00000104\ncallclass 00001 400000c8 400000e4\n\
call 4000000c 40000040\nsite 4000005c call 00001\nend\n";

const JUMP_APART_GRAPH: &[u8] =
    b"rvcfi-graph 2\ncode 40000000 000000b8\njumpclass 00001 4000007c 40000098\n\
call 4000000c 40000040\nsite 40000048 jump 00001\nend\n";

/// `A_OF_HARTS` with a graph of version 2.
const A_OF_HARTS_APART_GRAPH: &[u8] =
    b"rvcfi-graph 2\ncode 40000000 00000060\ncall 4000000c 40000050\nend\n";

/// The code of `Q` with a graph of version 1.
const Q_JOINED_GRAPH: &[u8] =
    b"rvcfi-graph 1\ncode 40000000 00000124\nclass 00001 4000009c\nclass 00002 4000007c 4000009c\n\
call 4000000c 40000040\nsite 40000048 jump 00002\nsite 400000bc call 00001\nend\n";

/// The code of `JOINED` with a graph of version 2.
const JOINED_APART_GRAPH: &[u8] =
    b"rvcfi-graph 2\ncode 40000000 00000148\ncallclass 00001 400000f0 4000010c 40000128\n\
jumpclass 00002\ncall 4000000c 40000040\nsite 4000005c call 00001\nsite 400000bc jump 00001\nend\n";

/// A last word that is a gate, by the sort of its class: it is a call's target, and no jump's; it is the second word of a jump's.
const LAST_CALLED_GRAPH: &[u8] =
    b"rvcfi-graph 2\ncode 40000000 00000050\ncallclass 00001 4000004c\ncall 4000000c 40000040\nend\n";

const LAST_JUMPED_GRAPH: &[u8] =
    b"rvcfi-graph 2\ncode 40000000 00000050\njumpclass 00001 4000004c\ncall 4000000c 40000040\nend\n";

const BEFORE_LAST_JUMPED_GRAPH: &[u8] =
    b"rvcfi-graph 2\ncode 40000000 00000050\njumpclass 00001 40000048\ncall 4000000c 40000040\nend\n";

/// A load of a jump's check by the first word of its destination, by the second, by the third, half a word on, and without a sign.
const FIRST: u32 = 0x000f_af03;

const SECOND: u32 = 0x004f_af03;

const THIRD: u32 = 0x008f_af03;

const HALF: u32 = 0x002f_af03;

const UNSIGNED: u32 = 0x004f_ef03;

#[rattlefmt::skip]
static PAIRS: [Pair; 24] = [
    // Each version of images with each version of graphs.
    Pair(OneHart, &Q, Q_GRAPH, &[], ""),
    Pair(OneHart, &APART, APART_GRAPH, &[], ""),
    Pair(OneHart, &JOINED, JOINED_GRAPH, &[], ""),
    Pair(EightHarts, &Q_OF_HARTS, Q_OF_HARTS_GRAPH, &[], ""),
    Pair(EightHarts, &APART_OF_HARTS, APART_OF_HARTS_GRAPH, &[], ""),
    Pair(EightHarts, &JOBS, JOBS_GRAPH, &[], ""),
    // What has no computed jump is right under both.
    Pair(OneHart, &A, A_GRAPH, &[], ""),
    Pair(OneHart, &A, A_APART_GRAPH, &[], ""),
    Pair(EightHarts, &A_OF_HARTS, A_OF_HARTS_APART_GRAPH, &[], ""),
    Pair(OneHart, &P, P_APART_GRAPH, &[], ""),
    // A jump's check is one version's alone.
    Pair(OneHart, &JUMP, JUMP_GRAPH, &[(0x64, SECOND)], "Unit 40000048"),
    Pair(OneHart, &JUMP, JUMP_APART_GRAPH, &[], "Unit 40000048"),
    Pair(OneHart, &Q, Q_JOINED_GRAPH, &[], "Unit 40000048"),
    Pair(OneHart, &JOINED, JOINED_APART_GRAPH, &[], "Unit 400000bc"),
    Pair(EightHarts, &JOBS, JOBS_GRAPH, &[(0x7c, SECOND)], "Unit 40000060"),
    Pair(EightHarts, &Q_OF_HARTS, Q_OF_HARTS_GRAPH, &[(0x74, FIRST)], "Unit 40000058"),
    // Length and Prologue come first.
    Pair(OneHart, &Q, APART_GRAPH, &[], "Length 292 340"),
    Pair(EightHarts, &Q_OF_HARTS, Q_GRAPH, &[], "Length 308 292"),
    Pair(OneHart, &Q, Q_GRAPH, &[(0x04, 0x13), (0x64, FIRST)], "Prologue 40000004"),
    Pair(EightHarts, &Q_OF_HARTS, Q_OF_HARTS_GRAPH, &[(0x10, 0x6000_01b7), (0x74, FIRST)], "Prologue 40000010"),
    // The last word.
    Pair(OneHart, &A, LAST_CALLED_GRAPH, &[(0x4c, 0x1037)], "End 4000004c"),
    Pair(OneHart, &A, LAST_JUMPED_GRAPH, &[(0x4c, 0x1037)], "Gate 4000004c"),
    Pair(OneHart, &A, BEFORE_LAST_JUMPED_GRAPH, &[(0x4c, 0x1037)], "End 4000004c"),
    Pair(OneHart, &A, BEFORE_LAST_JUMPED_GRAPH, &[], "Gate 40000048"),
];

/// Whether a pair is answered as its row says.
fn is_pair_right(alloc: Global, row: &Pair) -> bool {
    match read_graph(alloc, row.2) {
        Ok(graph) => is_answered(alloc, row.0, row.1, row.3, &graph, row.4),
        Err(_) => false,
    }
}

#[test]
fn versions(rt: HostRuntime) {
    for (k, row) in PAIRS.iter().enumerate() {
        assert!(rt; is_pair_right(rt.alloc(), row), "{k} {}", row.4);
    }
}

/// The lines of classes and of sites in the graph of `Q`, or of `Q_OF_HARTS`, words that are put by their offsets in the code, and
/// the rule that fails with its address; no text where the pair is accepted.
struct Row(&'static str, &'static str, Words, &'static str);

/// The classes and the sites of the graph of `Q`.
const CLASSES: &str = "callclass 00001 4000009c\njumpclass 00002 4000007c 4000009c\n";

const SITES: &str = "site 40000048 jump 00002\nsite 400000bc call 00001\n";

/// Two classes that are the other way round.
const TURNED: &str = "jumpclass 00001 4000007c 4000009c\ncallclass 00002 4000009c\n";

const TURNED_SITES: &str = "site 40000048 jump 00001\nsite 400000bc call 00002\n";

/// The first function is called, and the second one is called and jumped to; or both are both; or the first one is jumped to.
const F_CALLED: &str = "callclass 00001 4000007c 4000009c\njumpclass 00002 4000009c\n";

const BOTH: &str = "callclass 00001 4000007c 4000009c\njumpclass 00002 4000007c 4000009c\n";

const F_JUMPED: &str = "callclass 00001 4000009c\njumpclass 00002 4000007c\n";

/// Jumps have two classes, with one function each.
const TWO: &str = "callclass 00001 4000009c\njumpclass 00002 4000007c\njumpclass 00003 4000009c\n";

/// Gates of labels 1, 2 and 3, and what does nothing.
const G1: u32 = 0x1037;

const G2: u32 = 0x2037;

const G3: u32 = 0x3037;

const BARE: u32 = 0x13;

/// The word of a check that names label 1, 2 or 3.
const L1: u32 = 0x1237;

const L2: u32 = 0x2237;

const L3: u32 = 0x3237;

#[rattlefmt::skip]
static ROWS: [Row; 69] = [
    // Accepted: functions of each sort and of both, the classes the other way round, classes without targets.
    Row(CLASSES, SITES, &[], ""),
    Row(BOTH, SITES, &[(0x7c, G1)], ""),
    Row(F_CALLED, SITES, &[(0x7c, G1), (0x80, BARE)], ""),
    Row(F_JUMPED, SITES, &[(0xa0, BARE)], ""),
    Row(TURNED, TURNED_SITES, &[(0x68, L1), (0xdc, L2), (0x80, G1), (0x9c, G2), (0xa0, G1)], ""),
    Row(TWO, SITES, &[(0xa0, G3)], ""),
    Row("callclass 00001 4000009c\njumpclass 00002 4000007c 4000009c\ncallclass 00003\njumpclass 00004\n", SITES, &[], ""),
    Row("callclass 00001 4000009c\njumpclass 00002\n", SITES, &[(0x80, BARE), (0xa0, BARE)], ""),
    Row("callclass 00001\njumpclass 00002\n", SITES, &[(0x80, BARE), (0x9c, BARE), (0xa0, BARE)], ""),
    // The word that is not asked for may be any unit of one word; gates of no class may stand anywhere.
    Row(CLASSES, SITES, &[(0x7c, 0x0015_0513)], ""),
    Row(CLASSES, SITES, &[(0x7c, 0x0000_0073)], ""),
    Row(CLASSES, SITES, &[(0x7c, G3)], ""),
    Row(F_CALLED, SITES, &[(0x7c, G1), (0x80, 0x0000_0073)], ""),
    Row(CLASSES, SITES, &[(0x40, G3), (0x84, G3)], ""),
    // Targets one word apart: each second word but the last is the next one's first.
    Row("callclass 00001 4000009c\njumpclass 00002 4000007c 40000080 4000009c\n", SITES, &[(0x84, G2)], ""),
    // Unit: checks that read another word than theirs, or in another way.
    Row(CLASSES, SITES, &[(0x64, FIRST)], "Unit 40000048"),
    Row(CLASSES, SITES, &[(0x64, THIRD)], "Unit 40000048"),
    Row(CLASSES, SITES, &[(0x64, HALF)], "Unit 40000048"),
    Row(CLASSES, SITES, &[(0x64, UNSIGNED)], "Unit 40000048"),
    Row(CLASSES, SITES, &[(0xd8, SECOND)], "Unit 400000bc"),
    Row(CLASSES, SITES, &[(0x64, FIRST), (0xd8, SECOND)], "Unit 40000048"),
    // Site: the label of the other sort, of no class, of a class in the line alone; the other kind; no line, or one too many.
    Row(CLASSES, "site 40000048 jump 00001\nsite 400000bc call 00001\n", &[(0x68, L1)], "Site 40000048"),
    Row(CLASSES, "site 40000048 jump 00002\nsite 400000bc call 00002\n", &[(0xdc, L2)], "Site 400000bc"),
    Row(CLASSES, TURNED_SITES, &[(0x68, L1), (0xdc, L2)], "Site 40000048"),
    Row(CLASSES, "site 40000048 jump 00003\nsite 400000bc call 00001\n", &[(0x68, L3)], "Site 40000048"),
    Row(CLASSES, "site 40000048 jump 00002\nsite 400000bc call 00003\n", &[(0xdc, L3)], "Site 400000bc"),
    Row(CLASSES, "site 40000048 jump 00001\nsite 400000bc call 00001\n", &[], "Site 40000048"),
    Row(CLASSES, SITES, &[(0x68, L1)], "Site 40000048"),
    Row(CLASSES, "site 40000048 call 00002\nsite 400000bc call 00001\n", &[], "Site 40000048"),
    Row(CLASSES, "site 40000048 call 00001\nsite 400000bc call 00001\n", &[(0x68, L1)], "Site 40000048"),
    Row(CLASSES, "site 40000048 jump 00002\nsite 400000bc jump 00001\n", &[], "Site 400000bc"),
    Row(CLASSES, "site 400000bc call 00001\n", &[], "Site 40000048"),
    Row(CLASSES, "site 40000048 jump 00002\n", &[], "Site 400000bc"),
    Row(CLASSES, "site 40000048 jump 00002\nsite 4000007c jump 00002\nsite 400000bc call 00001\n", &[], "Site 4000007c"),
    // The words of targets are those of a class of the other sort; the label of a class of the other sort, before Gate.
    Row("callclass 00001 4000009c\ncallclass 00002 40000080 400000a0\n", SITES, &[], "Site 40000048"),
    Row("jumpclass 00001 40000098\njumpclass 00002 4000007c 4000009c\n", SITES, &[], "Site 400000bc"),
    Row(CLASSES, "site 40000048 jump 00001\nsite 400000bc call 00001\n", &[(0x68, L1), (0x80, BARE)], "Site 40000048"),
    // Gate: a word that is missing, both words the other way round, a label of the other sort or of no class.
    Row(CLASSES, SITES, &[(0x80, BARE)], "Gate 4000007c"),
    Row(CLASSES, SITES, &[(0x80, G1)], "Gate 4000007c"),
    Row(CLASSES, SITES, &[(0x80, G3)], "Gate 4000007c"),
    Row(CLASSES, SITES, &[(0x7c, G2), (0x80, BARE)], "Gate 4000007c"),
    Row(CLASSES, SITES, &[(0x9c, G2), (0xa0, G1)], "Gate 4000009c"),
    Row(CLASSES, SITES, &[(0xa0, BARE)], "Gate 4000009c"),
    Row(CLASSES, SITES, &[(0x9c, BARE)], "Gate 4000009c"),
    Row(CLASSES, SITES, &[(0x80, BARE), (0x9c, BARE)], "Gate 4000007c"),
    Row(F_JUMPED, SITES, &[(0x9c, BARE), (0xa0, G1)], "Gate 4000009c"),
    Row(F_CALLED, SITES, &[(0x7c, BARE), (0x80, G1)], "Gate 4000007c"),
    Row(TWO, SITES, &[], "Gate 4000009c"),
    // The target is inside a unit, before a gate of its class; a gate is too far behind; the second word is no unit's start.
    Row("callclass 00001 4000009c\njumpclass 00002 40000078 4000009c\n", SITES, &[(0x7c, G2), (0x80, BARE)], "Gate 40000078"),
    Row("callclass 00001 4000009c\njumpclass 00002 4000007c 40000098 4000009c\n", SITES, &[(0x9c, G2), (0xa0, G2)], "Gate 40000098"),
    Row(CLASSES, SITES, &[(0x80, BARE), (0x84, G2)], "Gate 4000007c"),
    Row("callclass 00001 4000009c\njumpclass 00002 4000007c 40000088 4000009c\n", SITES, &[], "Gate 40000088"),
    Row("callclass 00001 40000098 4000009c\njumpclass 00002 4000007c 4000009c\n", SITES, &[], "Gate 40000098"),
    // Targets in the prologue, one of them right before a gate of its class, and the last word.
    Row("callclass 00001 4000009c\njumpclass 00002 40000038 4000007c 4000009c\n", SITES, &[], "Gate 40000038"),
    Row("callclass 00001 4000009c\njumpclass 00002 4000003c 4000007c 4000009c\n", SITES, &[(0x40, G2)], "Gate 4000003c"),
    Row("callclass 00001 4000009c\njumpclass 00002 4000007c 4000009c 40000120\n", SITES, &[], "Gate 40000120"),
    Row("callclass 00001 4000009c\njumpclass 00002 4000007c 4000009c 4000011c\n", SITES, &[], "Gate 4000011c"),
    Row("callclass 00001 4000009c 40000120\njumpclass 00002 4000007c 4000009c\n", SITES, &[], "Gate 40000120"),
    // Astray: a call's label beside its targets, also one word behind one; a jump's at its target, two words behind it, one word
    // behind a target of calls alone; labels of classes without targets.
    Row(CLASSES, SITES, &[(0x84, G1)], "Astray 40000084"),
    Row(CLASSES, SITES, &[(0x7c, G1)], "Astray 4000007c"),
    Row(F_CALLED, SITES, &[(0x7c, G1), (0x80, G1)], "Astray 40000080"),
    Row(CLASSES, SITES, &[(0x7c, G2)], "Astray 4000007c"),
    Row(CLASSES, SITES, &[(0x84, G2)], "Astray 40000084"),
    Row(CLASSES, SITES, &[(0x40, G2)], "Astray 40000040"),
    Row(F_CALLED, SITES, &[(0x7c, G1)], "Astray 40000080"),
    Row(F_JUMPED, SITES, &[], "Astray 400000a0"),
    Row("callclass 00001 4000009c\njumpclass 00002 4000007c 4000009c\ncallclass 00003\n", SITES, &[(0x84, G3)], "Astray 40000084"),
    Row("callclass 00001 4000009c\njumpclass 00002 4000007c 4000009c\njumpclass 00003\n", SITES, &[(0x84, G3)], "Astray 40000084"),
    // End.
    Row(CLASSES, SITES, &[(0x120, BARE)], "End 40000120"),
];

/// The same of `Q_OF_HARTS`, whose units stand sixteen bytes further on.
const HARTS_CLASSES: &str = "callclass 00001 400000ac\njumpclass 00002 4000008c 400000ac\n";

const HARTS_SITES: &str = "site 40000058 jump 00002\nsite 400000cc call 00001\n";

#[rattlefmt::skip]
static ROWS_OF_HARTS: [Row; 17] = [
    Row(HARTS_CLASSES, HARTS_SITES, &[], ""),
    Row("callclass 00001 4000008c 400000ac\njumpclass 00002 4000008c 400000ac\n", HARTS_SITES, &[(0x8c, G1)], ""),
    Row("callclass 00001 400000ac\njumpclass 00002\n", HARTS_SITES, &[(0x90, BARE), (0xb0, BARE)], ""),
    Row(HARTS_CLASSES, HARTS_SITES, &[(0x74, FIRST)], "Unit 40000058"),
    Row(HARTS_CLASSES, HARTS_SITES, &[(0xe8, SECOND)], "Unit 400000cc"),
    Row(HARTS_CLASSES, "site 40000058 jump 00001\nsite 400000cc call 00001\n", &[(0x78, L1)], "Site 40000058"),
    Row(HARTS_CLASSES, "site 40000058 jump 00002\nsite 400000cc call 00002\n", &[(0xec, L2)], "Site 400000cc"),
    Row(HARTS_CLASSES, HARTS_SITES, &[(0x90, BARE)], "Gate 4000008c"),
    Row(HARTS_CLASSES, HARTS_SITES, &[(0xac, G2), (0xb0, G1)], "Gate 400000ac"),
    Row("callclass 00001 400000ac\njumpclass 00002 40000088 400000ac\n", HARTS_SITES, &[(0x8c, G2), (0x90, BARE)], "Gate 40000088"),
    Row("callclass 00001 400000ac\njumpclass 00002 40000048 4000008c 400000ac\n", HARTS_SITES, &[], "Gate 40000048"),
    Row("callclass 00001 400000ac\njumpclass 00002 4000004c 4000008c 400000ac\n", HARTS_SITES, &[(0x50, G2)], "Gate 4000004c"),
    Row("callclass 00001 400000ac\njumpclass 00002 4000008c 400000ac 40000130\n", HARTS_SITES, &[], "Gate 40000130"),
    Row(HARTS_CLASSES, HARTS_SITES, &[(0x94, G1)], "Astray 40000094"),
    Row(HARTS_CLASSES, HARTS_SITES, &[(0x8c, G2)], "Astray 4000008c"),
    Row(HARTS_CLASSES, HARTS_SITES, &[(0x50, G2)], "Astray 40000050"),
    Row(HARTS_CLASSES, HARTS_SITES, &[(0x130, BARE)], "End 40000130"),
];

/// The graph of a row; none where there is no memory, or its text is none.
fn graph_of(alloc: Global, head: &str, call: &str, row: &Row) -> Option<Graph> {
    let text = format!(in alloc; "rvcfi-graph 2\n{head}{}{call}{}end\n", row.0, row.1).ok()?;
    read_graph(alloc, text.as_bytes()).ok()
}

/// Whether the code of `Q` is answered as a row says.
fn is_right(alloc: Global, row: &Row) -> bool {
    let (head, call) = ("code 40000000 00000124\n", "call 4000000c 40000040\n");
    match graph_of(alloc, head, call, row) {
        Some(graph) => is_answered(alloc, OneHart, &Q, row.2, &graph, row.3),
        None => false,
    }
}

/// The same of `Q_OF_HARTS`.
fn is_right_of_harts(alloc: Global, row: &Row) -> bool {
    let (head, call) = ("code 40000000 00000134\n", "call 4000000c 40000050\n");
    match graph_of(alloc, head, call, row) {
        Some(graph) => is_answered(alloc, EightHarts, &Q_OF_HARTS, row.2, &graph, row.3),
        None => false,
    }
}

#[test]
fn rules(rt: HostRuntime) {
    for (k, row) in ROWS.iter().enumerate() {
        assert!(rt; is_right(rt.alloc(), row), "{k} {}", row.3);
    }
}

#[test]
fn rules_of_harts(rt: HostRuntime) {
    for (k, row) in ROWS_OF_HARTS.iter().enumerate() {
        assert!(rt; is_right_of_harts(rt.alloc(), row), "{k} {}", row.3);
    }
}
