//! Walks of programs with graphs of version 2: calls go to targets of calls, jumps to targets of jumps, and neither behind a target's
//! first word; and what stands where. They are worked out by hand.

use crate::answered::{Went, are_walked, code_of};
use cfi_graph::{Graph, SiteKind, read_graph};
use cfi_unit::TargetWord;
use cfi_verify::{Asks, Checked, verify};
use rv_image::{Image, ImageVersion};
use sample_programs::{
    APART, APART_GRAPH, APART_OF_HARTS, APART_OF_HARTS_GRAPH, JOINED, JOINED_GRAPH, Q, Q_GRAPH,
    Q_OF_HARTS, Q_OF_HARTS_GRAPH,
};
use sample_runs::{Step, walks_along};
use std::alloc::Global;

/// The walk of `Q` to its jump, and that of `Q_OF_HARTS`.
const TO_JUMP: &[u64] = &[0x4000_0040, 0x4000_0044, 0x4000_0048];

const HARTS_TO_JUMP: &[u64] = &[0x4000_0050, 0x4000_0054, 0x4000_0058];

/// From its jump `Q` goes to either function and to the handler of targets: not to the second or third word of one, before one, to
/// the place that no site may go to, back, into the jump, or to another handler. It does not go past a function's second word.
#[rattlefmt::skip]
const Q_WALKS: &[Went] = &[
    (TO_JUMP, 0x4000_007c, true),
    (TO_JUMP, 0x4000_009c, true),
    (TO_JUMP, 0x4000_0000, true),
    (TO_JUMP, 0x4000_0080, false),
    (TO_JUMP, 0x4000_00a0, false),
    (TO_JUMP, 0x4000_0084, false),
    (TO_JUMP, 0x4000_0078, false),
    (TO_JUMP, 0x4000_0098, false),
    (TO_JUMP, 0x4000_00bc, false),
    (TO_JUMP, 0x4000_0040, false),
    (TO_JUMP, 0x4000_004c, false),
    (TO_JUMP, 0x4000_0004, false),
    (TO_JUMP, 0x4000_0008, false),
    (TO_JUMP, 0x4000_0038, false),
    (&[0x4000_0040, 0x4000_0044, 0x4000_0048, 0x4000_009c], 0x4000_00a4, false),
    (&[0x4000_0040, 0x4000_0044, 0x4000_0048, 0x4000_009c, 0x4000_00a0], 0x4000_00a4, true),
    (&[0x4000_0040, 0x4000_0044, 0x4000_0048, 0x4000_009c, 0x4000_00a0, 0x4000_00a4, 0x4000_00a8], 0x4000_0038, true),
    (&[0x4000_0040, 0x4000_0044, 0x4000_0048, 0x4000_009c, 0x4000_00a0, 0x4000_00a4, 0x4000_00a8], 0x4000_0004, true),
];

/// The same of `Q_OF_HARTS`; version 1's units do not stand there.
#[rattlefmt::skip]
const Q_OF_HARTS_WALKS: &[Went] = &[
    (HARTS_TO_JUMP, 0x4000_008c, true),
    (HARTS_TO_JUMP, 0x4000_00ac, true),
    (HARTS_TO_JUMP, 0x4000_0000, true),
    (HARTS_TO_JUMP, 0x4000_0090, false),
    (HARTS_TO_JUMP, 0x4000_00b0, false),
    (HARTS_TO_JUMP, 0x4000_007c, false),
    (HARTS_TO_JUMP, 0x4000_009c, false),
    (HARTS_TO_JUMP, 0x4000_00cc, false),
    (&[0x4000_0050, 0x4000_0054, 0x4000_0058, 0x4000_00ac, 0x4000_00b0, 0x4000_00b4, 0x4000_00b8], 0x4000_0048, true),
];

/// The walk of `APART` to its call, and the one to its jump where the call went to the function of calls; the same of `JOINED` and
/// of `APART_OF_HARTS`.
const TO_CALL: &[u64] = &[
    0x4000_0040,
    0x4000_0044,
    0x4000_0054,
    0x4000_0058,
    0x4000_005c,
];

#[rattlefmt::skip]
const PAST_CALL: &[u64] = &[
    0x4000_0040, 0x4000_0044, 0x4000_0054, 0x4000_0058, 0x4000_005c, 0x4000_00f0, 0x4000_00f4, 0x4000_00f8,
    0x4000_00fc, 0x4000_00ac, 0x4000_00b0, 0x4000_00b4, 0x4000_00b8, 0x4000_00bc,
];

#[rattlefmt::skip]
const JOINED_PAST_CALL: &[u64] = &[
    0x4000_0040, 0x4000_0044, 0x4000_0054, 0x4000_0058, 0x4000_005c, 0x4000_00f0, 0x4000_00f4, 0x4000_00f8,
    0x4000_00ac, 0x4000_00b0, 0x4000_00b4, 0x4000_00b8, 0x4000_00bc,
];

const HARTS_TO_CALL: &[u64] = &[
    0x4000_0050,
    0x4000_0054,
    0x4000_0064,
    0x4000_0068,
    0x4000_006c,
];

#[rattlefmt::skip]
const HARTS_PAST_CALL: &[u64] = &[
    0x4000_0050, 0x4000_0054, 0x4000_0064, 0x4000_0068, 0x4000_006c, 0x4000_0100, 0x4000_0104, 0x4000_0108,
    0x4000_010c, 0x4000_00bc, 0x4000_00c0, 0x4000_00c4, 0x4000_00c8, 0x4000_00cc,
];

/// From its call `APART` goes to the function of calls and to that of both, from its jump to the function of jumps and to that of
/// both, and from either to the handler of targets. No step leads to the handler of a full shadow stack, which is not full.
#[rattlefmt::skip]
const APART_WALKS: &[Went] = &[
    (TO_CALL, 0x4000_00f0, true),
    (TO_CALL, 0x4000_0130, true),
    (TO_CALL, 0x4000_0110, false),
    (TO_CALL, 0x4000_00f4, false),
    (TO_CALL, 0x4000_0134, false),
    (TO_CALL, 0x4000_0000, true),
    (TO_CALL, 0x4000_0008, false),
    (TO_CALL, 0x4000_0004, false),
    (PAST_CALL, 0x4000_0110, true),
    (PAST_CALL, 0x4000_0130, true),
    (PAST_CALL, 0x4000_00f0, false),
    (PAST_CALL, 0x4000_0114, false),
    (PAST_CALL, 0x4000_0134, false),
    (PAST_CALL, 0x4000_0000, true),
    (PAST_CALL, 0x4000_0008, false),
    (PAST_CALL, 0x4000_0004, false),
];

/// `JOINED` goes from either to each function.
#[rattlefmt::skip]
const JOINED_WALKS: &[Went] = &[
    (TO_CALL, 0x4000_00f0, true),
    (TO_CALL, 0x4000_010c, true),
    (TO_CALL, 0x4000_0128, true),
    (TO_CALL, 0x4000_00f4, false),
    (JOINED_PAST_CALL, 0x4000_00f0, true),
    (JOINED_PAST_CALL, 0x4000_010c, true),
    (JOINED_PAST_CALL, 0x4000_0128, true),
    (JOINED_PAST_CALL, 0x4000_012c, false),
];

#[rattlefmt::skip]
const APART_OF_HARTS_WALKS: &[Went] = &[
    (HARTS_TO_CALL, 0x4000_0100, true),
    (HARTS_TO_CALL, 0x4000_0140, true),
    (HARTS_TO_CALL, 0x4000_0120, false),
    (HARTS_TO_CALL, 0x4000_0104, false),
    (HARTS_PAST_CALL, 0x4000_0120, true),
    (HARTS_PAST_CALL, 0x4000_0140, true),
    (HARTS_PAST_CALL, 0x4000_0100, false),
    (HARTS_PAST_CALL, 0x4000_0124, false),
];

/// The undisturbed walks after the opening, with the sites that are pending: a call adds one, a jump none.
#[rattlefmt::skip]
const Q_TRAIL: &[Step] = &[
    (0x4000_0040, 1, Some(0x4000_0038)),
    (0x4000_0044, 1, Some(0x4000_0038)),
    (0x4000_0048, 1, Some(0x4000_0038)),
    (0x4000_007c, 1, Some(0x4000_0038)),
    (0x4000_0080, 1, Some(0x4000_0038)),
    (0x4000_0084, 1, Some(0x4000_0038)),
    (0x4000_0088, 1, Some(0x4000_0038)),
    (0x4000_0038, 0, None),
];

#[rattlefmt::skip]
const APART_TRAIL: &[Step] = &[
    (0x4000_0040, 1, Some(0x4000_0038)),
    (0x4000_0044, 1, Some(0x4000_0038)),
    (0x4000_0054, 1, Some(0x4000_0038)),
    (0x4000_0058, 1, Some(0x4000_0038)),
    (0x4000_005c, 1, Some(0x4000_0038)),
    (0x4000_00f0, 2, Some(0x4000_00ac)),
    (0x4000_00f4, 2, Some(0x4000_00ac)),
    (0x4000_00f8, 2, Some(0x4000_00ac)),
    (0x4000_00fc, 2, Some(0x4000_00ac)),
    (0x4000_00ac, 1, Some(0x4000_0038)),
    (0x4000_00b0, 1, Some(0x4000_0038)),
    (0x4000_00b4, 1, Some(0x4000_0038)),
    (0x4000_00b8, 1, Some(0x4000_0038)),
    (0x4000_00bc, 1, Some(0x4000_0038)),
    (0x4000_0110, 1, Some(0x4000_0038)),
    (0x4000_0114, 1, Some(0x4000_0038)),
    (0x4000_0118, 1, Some(0x4000_0038)),
    (0x4000_011c, 1, Some(0x4000_0038)),
    (0x4000_0038, 0, None),
];

/// Where no step of these walks leads from any of their places: inside units, or at the last words of both programs.
const NOWHERE: &[u64] = &[0x4000_00c0, 0x4000_0098, 0x4000_0120, 0x4000_0150];

/// What a transfer asks for: its kind, the word that its check reads, the label; and the targets of the class that serves it, none
/// where no class does.
type Asked = (SiteKind, TargetWord, u32, &'static [u64]);

/// In graphs of version 2 a class serves one kind; that a jump's check reads the second word there is asked of its unit.
#[rattlefmt::skip]
const Q_ASKED: &[Asked] = &[
    (SiteKind::Call, TargetWord::First, 1, &[0x4000_009c]),
    (SiteKind::Jump, TargetWord::Second, 2, &[0x4000_007c, 0x4000_009c]),
    (SiteKind::Call, TargetWord::First, 2, &[]),
    (SiteKind::Call, TargetWord::Second, 1, &[]),
    (SiteKind::Call, TargetWord::Second, 2, &[]),
    (SiteKind::Jump, TargetWord::First, 1, &[]),
    (SiteKind::Jump, TargetWord::First, 2, &[0x4000_007c, 0x4000_009c]),
    (SiteKind::Jump, TargetWord::Second, 1, &[]),
    (SiteKind::Jump, TargetWord::Second, 3, &[]),
];

/// In graphs of version 1 it serves both, whose checks read the first word.
#[rattlefmt::skip]
const JOINED_ASKED: &[Asked] = &[
    (SiteKind::Call, TargetWord::First, 1, &[0x4000_00f0, 0x4000_010c, 0x4000_0128]),
    (SiteKind::Jump, TargetWord::First, 1, &[0x4000_00f0, 0x4000_010c, 0x4000_0128]),
    (SiteKind::Call, TargetWord::Second, 1, &[]),
    (SiteKind::Jump, TargetWord::Second, 1, &[]),
    (SiteKind::Jump, TargetWord::First, 2, &[]),
];

/// A program: the version of its image, its units, its graph, its undisturbed walk, other walks, and what its classes serve.
struct Program {
    version: ImageVersion,
    units: &'static [u32],
    graph: &'static [u8],
    trail: &'static [Step],
    walks: &'static [Went],
    asked: &'static [Asked],
}

static PROGRAMS: [Program; 5] = [
    Program {
        version: ImageVersion::OneHart,
        units: &Q,
        graph: Q_GRAPH,
        trail: Q_TRAIL,
        walks: Q_WALKS,
        asked: Q_ASKED,
    },
    Program {
        version: ImageVersion::EightHarts,
        units: &Q_OF_HARTS,
        graph: Q_OF_HARTS_GRAPH,
        trail: &[],
        walks: Q_OF_HARTS_WALKS,
        asked: &[],
    },
    Program {
        version: ImageVersion::OneHart,
        units: &APART,
        graph: APART_GRAPH,
        trail: APART_TRAIL,
        walks: APART_WALKS,
        asked: &[],
    },
    Program {
        version: ImageVersion::OneHart,
        units: &JOINED,
        graph: JOINED_GRAPH,
        trail: &[],
        walks: JOINED_WALKS,
        asked: JOINED_ASKED,
    },
    Program {
        version: ImageVersion::EightHarts,
        units: &APART_OF_HARTS,
        graph: APART_OF_HARTS_GRAPH,
        trail: &[],
        walks: APART_OF_HARTS_WALKS,
        asked: &[],
    },
];

/// Whether what asks for a class is served as its row says.
fn is_served(checked: &Checked<'_>, row: &Asked) -> bool {
    let asked = Asks {
        kind: row.0,
        which: row.1,
        label: row.2,
    };
    match checked.targets_for(asked) {
        Some(targets) => targets == row.3,
        None => row.3.is_empty(),
    }
}

/// Whether the classes of a pair serve as rows say.
fn are_served(checked: &Checked<'_>, rows: &[Asked]) -> bool {
    for row in rows {
        if !is_served(checked, row) {
            return false;
        }
    }
    true
}

/// Whether an image with a graph is accepted, and is what its program says.
fn is_program(alloc: Global, image: &Image<'_>, graph: &Graph, program: &Program) -> bool {
    match verify(alloc, image, graph) {
        Ok(checked) => {
            walks_along(alloc, &checked, program.trail, NOWHERE)
                && are_walked(alloc, &checked, program.walks)
                && are_served(&checked, program.asked)
        }
        Err(_) => false,
    }
}

/// The same of a code.
fn is_code(alloc: Global, code: &[u8], program: &Program) -> bool {
    if code.len() < 4 || code.len() > 4096 || code.len() % 4 != 0 {
        return false;
    }
    let Ok(graph) = read_graph(alloc, program.graph) else {
        return false;
    };
    let image = Image::of_version(program.version, code, &[]);
    is_program(alloc, &image, &graph, program)
}

/// Whether a program has its walks.
fn is_right(alloc: Global, program: &Program) -> bool {
    match code_of(alloc, program.version, program.units, &[]) {
        Some(code) => is_code(alloc, &code, program),
        None => false,
    }
}

#[test]
fn walks(rt: HostRuntime) {
    for (k, program) in PROGRAMS.iter().enumerate() {
        assert!(rt; is_right(rt.alloc(), program), "{k}");
    }
}
