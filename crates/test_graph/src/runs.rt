//! Runs of programs with graphs of version 2 while a script turns the pointers by which they call and jump. Those of one hart are
//! worked out by hand; all are those of a model of the machine, `tests/model` at the top of the repository.

use crate::ended::{Ended, ends_alone, ends_in_turns, has_ended};
use cfi_step::{Handler, Hostile, RunEnd};
use rv_image::ImageVersion;
use sample_programs::{
    APART, APART_DATA, APART_GRAPH, APART_OF_HARTS, APART_OF_HARTS_DATA, APART_OF_HARTS_GRAPH,
    JOINED, JOINED_DATA, JOINED_GRAPH, Q, Q_DATA, Q_GRAPH, Q_OF_HARTS, Q_OF_HARTS_DATA,
    Q_OF_HARTS_GRAPH,
};
use sample_runs::{Program, is_same_again, report};
use std::alloc::Global;

static JUMPING: Program = Program {
    version: ImageVersion::OneHart,
    units: &Q,
    graph: Q_GRAPH,
    data: Q_DATA,
    input: b"",
};

static JUMPING_HARTS: Program = Program {
    version: ImageVersion::EightHarts,
    units: &Q_OF_HARTS,
    graph: Q_OF_HARTS_GRAPH,
    data: Q_OF_HARTS_DATA,
    input: b"",
};

static PARTED: Program = Program {
    version: ImageVersion::OneHart,
    units: &APART,
    graph: APART_GRAPH,
    data: APART_DATA,
    input: b"",
};

static PARTED_HARTS: Program = Program {
    version: ImageVersion::EightHarts,
    units: &APART_OF_HARTS,
    graph: APART_OF_HARTS_GRAPH,
    data: APART_OF_HARTS_DATA,
    input: b"",
};

static MERGED: Program = Program {
    version: ImageVersion::OneHart,
    units: &JOINED,
    graph: JOINED_GRAPH,
    data: JOINED_DATA,
    input: b"",
};

/// One of these programs.
#[derive(Clone, Copy)]
enum Sample {
    Jumping,
    JumpingHarts,
    Parted,
    PartedHarts,
    Merged,
}

fn program(sample: Sample) -> &'static Program {
    match sample {
        Sample::Jumping => &JUMPING,
        Sample::JumpingHarts => &JUMPING_HARTS,
        Sample::Parted => &PARTED,
        Sample::PartedHarts => &PARTED_HARTS,
        Sample::Merged => &MERGED,
    }
}

/// A program, the lines of a script for one hart, how the run ends, after how many steps, and of its walk the number of addresses
/// and the last one.
struct Row(Sample, &'static str, RunEnd, u64, u64, u64);

/// A computed transfer is refused, or a return.
const BAD: RunEnd = RunEnd::Handler(Handler::BadTarget);

const BAD_RETURN: RunEnd = RunEnd::Handler(Handler::BadReturn);

#[rattlefmt::skip]
static ROWS: [Row; 72] = [
    // Undisturbed.
    Row(Sample::Jumping, "", RunEnd::Exit(1), 32, 9, 0x4000_0038),
    Row(Sample::JumpingHarts, "", RunEnd::Exit(1), 36, 9, 0x4000_0048),
    Row(Sample::Parted, "", RunEnd::Exit(3), 65, 20, 0x4000_0038),
    Row(Sample::PartedHarts, "", RunEnd::Exit(3), 69, 20, 0x4000_0048),
    Row(Sample::Merged, "", RunEnd::Exit(3), 63, 18, 0x4000_0038),
    // The jump of `Q` goes to either function, also where the last two bits of the pointer are set.
    Row(Sample::Jumping, "at 0 00010000 9c000040\n", RunEnd::Exit(2), 32, 9, 0x4000_0038),
    Row(Sample::Jumping, "at 0 00010000 7d000040\n", RunEnd::Exit(1), 32, 9, 0x4000_0038),
    Row(Sample::Jumping, "at 0 00010000 7f000040\n", RunEnd::Exit(1), 32, 9, 0x4000_0038),
    Row(Sample::Jumping, "at 0 00010000 9e000040\n", RunEnd::Exit(2), 32, 9, 0x4000_0038),
    Row(Sample::JumpingHarts, "at 0 00010000 ac000040\n", RunEnd::Exit(2), 36, 9, 0x4000_0048),
    // To a function's second word, its third, its end, the word before it; of the other function too.
    Row(Sample::Jumping, "at 0 00010000 80000040\n", BAD, 24, 5, 0x4000_0000),
    Row(Sample::Jumping, "at 0 00010000 83000040\n", BAD, 24, 5, 0x4000_0000),
    Row(Sample::Jumping, "at 0 00010000 84000040\n", BAD, 24, 5, 0x4000_0000),
    Row(Sample::Jumping, "at 0 00010000 88000040\n", BAD, 24, 5, 0x4000_0000),
    Row(Sample::Jumping, "at 0 00010000 78000040\n", BAD, 24, 5, 0x4000_0000),
    Row(Sample::Jumping, "at 0 00010000 a0000040\n", BAD, 24, 5, 0x4000_0000),
    Row(Sample::Jumping, "at 0 00010000 98000040\n", BAD, 24, 5, 0x4000_0000),
    // To the place of which no address is taken, the entry, the jump and the inside of both, before a word that names the label.
    Row(Sample::Jumping, "at 0 00010000 bc000040\n", BAD, 24, 5, 0x4000_0000),
    Row(Sample::Jumping, "at 0 00010000 40000040\n", BAD, 24, 5, 0x4000_0000),
    Row(Sample::Jumping, "at 0 00010000 48000040\n", BAD, 24, 5, 0x4000_0000),
    Row(Sample::Jumping, "at 0 00010000 4c000040\n", BAD, 24, 5, 0x4000_0000),
    Row(Sample::Jumping, "at 0 00010000 64000040\n", BAD, 24, 5, 0x4000_0000),
    Row(Sample::Jumping, "at 0 00010000 d8000040\n", BAD, 24, 5, 0x4000_0000),
    // To the prologue, to the last word, behind it, to the last words of the region of code, whose second word is behind it.
    Row(Sample::Jumping, "at 0 00010000 00000040\n", BAD, 24, 5, 0x4000_0000),
    Row(Sample::Jumping, "at 0 00010000 38000040\n", BAD, 24, 5, 0x4000_0000),
    Row(Sample::Jumping, "at 0 00010000 3c000040\n", BAD, 24, 5, 0x4000_0000),
    Row(Sample::Jumping, "at 0 00010000 20010040\n", BAD, 24, 5, 0x4000_0000),
    Row(Sample::Jumping, "at 0 00010000 24010040\n", BAD, 24, 5, 0x4000_0000),
    Row(Sample::Jumping, "at 0 00010000 f8ff0f40\n", BAD, 24, 5, 0x4000_0000),
    Row(Sample::Jumping, "at 0 00010000 fcff0f40\n", BAD, 24, 5, 0x4000_0000),
    Row(Sample::Jumping, "at 0 00010000 ffff0f40\n", BAD, 24, 5, 0x4000_0000),
    // Out of the region of code.
    Row(Sample::Jumping, "at 0 00010000 00001040\n", BAD, 20, 5, 0x4000_0000),
    Row(Sample::Jumping, "at 0 00010000 fcffff3f\n", BAD, 20, 5, 0x4000_0000),
    Row(Sample::Jumping, "at 0 00010000 00000000\n", BAD, 20, 5, 0x4000_0000),
    Row(Sample::Jumping, "at 0 00010000 08000060\n", BAD, 20, 5, 0x4000_0000),
    Row(Sample::Jumping, "at 0 00010000 9c00004001000000\n", BAD, 20, 5, 0x4000_0000),
    Row(Sample::Jumping, "at 0 00010000 9c000040ffffffff\n", BAD, 20, 5, 0x4000_0000),
    Row(Sample::JumpingHarts, "at 0 00010000 90000040\n", BAD, 28, 5, 0x4000_0000),
    Row(Sample::JumpingHarts, "at 0 00010000 9c000040\n", BAD, 28, 5, 0x4000_0000),
    Row(Sample::JumpingHarts, "at 0 00010000 fcff0f40\n", BAD, 28, 5, 0x4000_0000),
    Row(Sample::JumpingHarts, "at 0 00010000 00001040\n", BAD, 24, 5, 0x4000_0000),
    // The pointer turned when it has been loaded, and between the check and the jump.
    Row(Sample::Jumping, "at 11 00010000 9c000040\n", RunEnd::Exit(2), 32, 9, 0x4000_0038),
    Row(Sample::Jumping, "at 12 00010000 9c000040\n", RunEnd::Exit(1), 32, 9, 0x4000_0038),
    Row(Sample::Jumping, "at 22 00010000 40000040\n", RunEnd::Exit(1), 32, 9, 0x4000_0038),
    // The call and the jump of `APART` go to the function of both.
    Row(Sample::Parted, "at 0 00010000 30010040\n", RunEnd::Exit(6), 65, 20, 0x4000_0038),
    Row(Sample::Parted, "at 0 00010008 30010040\n", RunEnd::Exit(5), 65, 20, 0x4000_0038),
    Row(Sample::Parted, "at 0 00010000 30010040\nat 0 00010008 30010040\n", RunEnd::Exit(8), 65, 20, 0x4000_0038),
    Row(Sample::PartedHarts, "at 0 00010000 40010040\nat 0 00010008 40010040\n", RunEnd::Exit(8), 69, 20, 0x4000_0048),
    // A call to the function of jumps, a jump to that of calls; with one class either goes to each of the three.
    Row(Sample::Parted, "at 0 00010000 10010040\n", BAD, 29, 7, 0x4000_0000),
    Row(Sample::Parted, "at 0 00010008 f0000040\n", BAD, 57, 16, 0x4000_0000),
    Row(Sample::PartedHarts, "at 0 00010000 20010040\n", BAD, 33, 7, 0x4000_0000),
    Row(Sample::PartedHarts, "at 0 00010008 00010040\n", BAD, 61, 16, 0x4000_0000),
    Row(Sample::Merged, "at 0 00010000 0c010040\n", RunEnd::Exit(4), 63, 18, 0x4000_0038),
    Row(Sample::Merged, "at 0 00010008 f0000040\n", RunEnd::Exit(2), 63, 18, 0x4000_0038),
    Row(Sample::Merged, "at 0 00010000 28010040\nat 0 00010008 28010040\n", RunEnd::Exit(8), 63, 18, 0x4000_0038),
    // Beside each function: where the word for calls is read as that for jumps, and the other way round.
    Row(Sample::Parted, "at 0 00010000 f4000040\n", BAD, 29, 7, 0x4000_0000),
    Row(Sample::Parted, "at 0 00010000 14010040\n", BAD, 29, 7, 0x4000_0000),
    Row(Sample::Parted, "at 0 00010000 34010040\n", BAD, 29, 7, 0x4000_0000),
    Row(Sample::Parted, "at 0 00010008 ec000040\n", BAD, 57, 16, 0x4000_0000),
    Row(Sample::Parted, "at 0 00010008 0c010040\n", BAD, 57, 16, 0x4000_0000),
    Row(Sample::Parted, "at 0 00010008 2c010040\n", BAD, 57, 16, 0x4000_0000),
    Row(Sample::Parted, "at 0 00010008 14010040\n", BAD, 57, 16, 0x4000_0000),
    Row(Sample::Parted, "at 0 00010008 34010040\n", BAD, 57, 16, 0x4000_0000),
    Row(Sample::Merged, "at 0 00010000 f4000040\n", BAD, 29, 7, 0x4000_0000),
    Row(Sample::Merged, "at 0 00010008 08010040\n", BAD, 56, 15, 0x4000_0000),
    // The jump's pointer is turned while the call is pending, and out of code.
    Row(Sample::Parted, "at 34 00010008 30010040\n", RunEnd::Exit(5), 65, 20, 0x4000_0038),
    Row(Sample::Parted, "at 44 00010008 f0000040\n", BAD, 57, 16, 0x4000_0000),
    Row(Sample::Parted, "at 45 00010008 f0000040\n", RunEnd::Exit(3), 65, 20, 0x4000_0038),
    Row(Sample::Parted, "at 0 00010000 00001040\n", BAD, 25, 7, 0x4000_0000),
    Row(Sample::Parted, "at 0 00010008 00001040\n", BAD, 53, 16, 0x4000_0000),
    Row(Sample::Parted, "at 0 00010008 fcff0f40\n", BAD, 57, 16, 0x4000_0000),
    // The saved return address is turned to targets of each sort.
    Row(Sample::Parted, "at 40 0ffffff8 f0000040\n", BAD_RETURN, 64, 20, 0x4000_0004),
];

/// A program, how many harts run, the lines of their script, how the run ends and by which hart, after how many steps, and of each
/// hart's walk the number of its addresses and the last one, 0 where there is none.
struct Turned(
    Sample,
    u8,
    &'static str,
    RunEnd,
    u8,
    u64,
    &'static [(u64, u64)],
);

#[rattlefmt::skip]
static TURNED: [Turned; 12] = [
    // Another hart exits, whose number is in what it adds up; harts that stand in the middle of units.
    Turned(Sample::PartedHarts, 2, "harts 2\nturn 1 100\n", RunEnd::Exit(4), 1, 69, &[(0, 0x0), (20, 0x4000_0048)]),
    Turned(Sample::PartedHarts, 8, "harts 8\nturn 7 69\n", RunEnd::Exit(10), 7, 69, &[(0, 0x0), (0, 0x0), (0, 0x0), (0, 0x0), (0, 0x0), (0, 0x0), (0, 0x0), (20, 0x4000_0048)]),
    Turned(Sample::PartedHarts, 8, "harts 8\nturn 7 60\nturn 6 55\nturn 5 50\nturn 4 45\nturn 3 40\nturn 2 35\nturn 1 30\n", RunEnd::Exit(3), 0, 384, &[(20, 0x4000_0048), (6, 0x4000_006c), (6, 0x4000_006c), (8, 0x4000_0104), (10, 0x4000_010c), (15, 0x4000_00cc), (15, 0x4000_00cc), (15, 0x4000_00cc)]),
    Turned(Sample::JumpingHarts, 3, "harts 3\nturn 2 22\nturn 1 27\nturn 2 14\n", RunEnd::Exit(1), 2, 63, &[(0, 0x0), (4, 0x4000_0058), (9, 0x4000_0048)]),
    // The jump's pointer is turned to the function of calls before one hart loads it and after another one has.
    Turned(Sample::PartedHarts, 2, "harts 2\nturn 1 48\nturn 0 48\nturn 1 40\nat 48 00010008 00010040\n", BAD, 1, 109, &[(13, 0x4000_00c4), (16, 0x4000_0000)]),
    Turned(Sample::PartedHarts, 2, "harts 2\nturn 1 49\nturn 0 48\nturn 1 40\nat 49 00010008 00010040\n", RunEnd::Exit(4), 1, 117, &[(13, 0x4000_00c4), (20, 0x4000_0048)]),
    Turned(Sample::PartedHarts, 2, "harts 2\nturn 1 49\nturn 0 48\nat 49 00010008 00010040\n", BAD, 0, 110, &[(16, 0x4000_0000), (14, 0x4000_00c8)]),
    // The call's pointer is turned to the function of jumps, or to that of both, for one of three harts.
    Turned(Sample::PartedHarts, 3, "harts 3\nturn 2 30\nturn 1 100\nat 30 00010000 20010040\n", BAD, 1, 63, &[(0, 0x0), (7, 0x4000_0000), (6, 0x4000_006c)]),
    Turned(Sample::PartedHarts, 3, "harts 3\nturn 2 30\nturn 1 18\nturn 2 100\nat 30 00010000 20010040\n", RunEnd::Exit(5), 2, 87, &[(0, 0x0), (3, 0x4000_0054), (20, 0x4000_0048)]),
    Turned(Sample::PartedHarts, 3, "harts 3\nturn 2 20\nturn 1 18\nturn 2 10\nturn 1 100\nat 30 00010000 40010040\n", RunEnd::Exit(7), 1, 99, &[(0, 0x0), (20, 0x4000_0048), (6, 0x4000_006c)]),
    // A hart's pointer leads between both words of a function.
    Turned(Sample::JumpingHarts, 4, "harts 4\nturn 3 16\nturn 2 15\nturn 3 30\nat 31 00010000 b0000040\n", RunEnd::Exit(1), 3, 51, &[(0, 0x0), (0, 0x0), (2, 0x4000_0050), (9, 0x4000_0048)]),
    Turned(Sample::JumpingHarts, 4, "harts 4\nturn 3 15\nturn 2 16\nturn 3 30\nat 31 00010000 b0000040\n", BAD, 3, 44, &[(0, 0x0), (0, 0x0), (3, 0x4000_0054), (5, 0x4000_0000)]),
];

/// Whether a run of one hart ends as its row says, and is the same again under its turns and changes.
fn is_right(alloc: Global, row: &Row) -> bool {
    let ended = Ended(row.2, 0, row.3, &[(row.4, row.5)]);
    ends_alone(alloc, program(row.0), row.1, &ended)
}

/// The same of a run of several harts.
fn is_turned_right(alloc: Global, row: &Turned) -> bool {
    let ended = Ended(row.3, row.4, row.5, row.6);
    ends_in_turns(alloc, program(row.0), row.1, row.2, &ended)
}

#[test]
fn pointers(rt: HostRuntime) {
    for (k, row) in ROWS.iter().enumerate() {
        assert!(rt; is_right(rt.alloc(), row), "{k} {}", row.1);
    }
}

#[test]
fn in_turns(rt: HostRuntime) {
    for (k, row) in TURNED.iter().enumerate() {
        assert!(rt; is_turned_right(rt.alloc(), row), "{k} {}", row.2);
    }
}

/// Whether the hostile meddler, which zeroes the saved return address as soon as it is on the stack, is caught by the handler of
/// returns.
fn is_caught(alloc: Global) -> bool {
    match report(alloc, &PARTED, 1, &mut Hostile, 1000) {
        Some(first) => {
            has_ended(&first, &Ended(BAD_RETURN, 0, 64, &[(20, 0x4000_0004)]))
                && first.made.len() == 8
                && is_same_again(alloc, &PARTED, 1, &first, 1000)
        }
        None => false,
    }
}

#[test]
fn hostile(rt: HostRuntime) {
    assert!(rt; is_caught(rt.alloc()));
}
