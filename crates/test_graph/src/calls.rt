//! Graphs with a list of system calls, under images of either version whose calls are bare, guarded by the list's numbers or by
//! others; and runs and walks of guarded calls. The words are made by the rules for a guarded call: for each number `addi x31,x0,N`
//! and `beq x31,x17` to the last word, then a jump to the handler of targets, then `ecall`. What is right is worked out by hand.

use crate::answered::{Went, Words, are_walked, code_of, is_answered};
use crate::ended::{Ended, ends_alone, ends_in_turns};
use cfi_graph::{Graph, read_graph};
use cfi_step::{Handler, RunEnd};
use cfi_verify::verify;
use rv_image::{Image, ImageVersion};
use sample_programs::{A, BREAK};
use sample_runs::Program;
use std::alloc::Global;

/// Exits with 7, by a guarded call that may have the number 93. It stands at 48h, its last word at 54h.
const EXITS: [u32; 7] = [
    0x00700513, 0x05d00893, 0x05d00f93, 0x011f8463, 0xfb1ff06f, 0x00000073, 0xfa9ff06f,
];

/// The same for several harts, sixteen bytes further on.
const EXITS_OF_HARTS: [u32; 7] = [
    0x00700513, 0x05d00893, 0x05d00f93, 0x011f8463, 0xfa1ff06f, 0x00000073, 0xf99ff06f,
];

/// Makes the call whose number its data has, if that is 64, and returns.
const ONE: [u32; 12] = [
    0x000102b7, 0x0002b883, 0x04000f93, 0x011f8463, 0xfb1ff06f, 0x00000073, 0xff81bf83, 0xff818193,
    0x001f8463, 0xfa1ff06f, 0x000f8067, 0xf95ff06f,
];

/// The same for several harts.
const ONE_OF_HARTS: [u32; 12] = [
    0x000102b7, 0x0002b883, 0x04000f93, 0x011f8463, 0xfa1ff06f, 0x00000073, 0xff81bf83, 0xff818193,
    0x001f8463, 0xf91ff06f, 0x000f8067, 0xf85ff06f,
];

/// The same where the number is 64 or 93, where these stand the other way round, and where both are 64.
const TWO: [u32; 14] = [
    0x000102b7, 0x0002b883, 0x04000f93, 0x011f8863, 0x05d00f93, 0x011f8463, 0xfa9ff06f, 0x00000073,
    0xff81bf83, 0xff818193, 0x001f8463, 0xf99ff06f, 0x000f8067, 0xf8dff06f,
];

const TURNED: [u32; 14] = [
    0x000102b7, 0x0002b883, 0x05d00f93, 0x011f8863, 0x04000f93, 0x011f8463, 0xfa9ff06f, 0x00000073,
    0xff81bf83, 0xff818193, 0x001f8463, 0xf99ff06f, 0x000f8067, 0xf8dff06f,
];

const TWICE: [u32; 14] = [
    0x000102b7, 0x0002b883, 0x04000f93, 0x011f8863, 0x04000f93, 0x011f8463, 0xfa9ff06f, 0x00000073,
    0xff81bf83, 0xff818193, 0x001f8463, 0xf99ff06f, 0x000f8067, 0xf8dff06f,
];

/// The same where it is 0, and where it is 2047.
const ZERO: [u32; 12] = [
    0x000102b7, 0x0002b883, 0x00000f93, 0x011f8463, 0xfb1ff06f, 0x00000073, 0xff81bf83, 0xff818193,
    0x001f8463, 0xfa1ff06f, 0x000f8067, 0xf95ff06f,
];

const MOST: [u32; 12] = [
    0x000102b7, 0x0002b883, 0x7ff00f93, 0x011f8463, 0xfb1ff06f, 0x00000073, 0xff81bf83, 0xff818193,
    0x001f8463, 0xfa1ff06f, 0x000f8067, 0xf95ff06f,
];

/// The same where it is 0, 1, 2, 3, 62, 63, 64 or 2047. The last word of the guarded call stands at 8ch.
const EIGHT: [u32; 26] = [
    0x000102b7, 0x0002b883, 0x00000f93, 0x051f8063, 0x00100f93, 0x031f8c63, 0x00200f93, 0x031f8863,
    0x00300f93, 0x031f8463, 0x03e00f93, 0x031f8063, 0x03f00f93, 0x011f8c63, 0x04000f93, 0x011f8863,
    0x7ff00f93, 0x011f8463, 0xf79ff06f, 0x00000073, 0xff81bf83, 0xff818193, 0x001f8463, 0xf69ff06f,
    0x000f8067, 0xf5dff06f,
];

/// `EXITS` with a bare call behind the guarded one, at 58h.
const MIXED: [u32; 8] = [
    0x00700513, 0x05d00893, 0x05d00f93, 0x011f8463, 0xfb1ff06f, 0x00000073, 0x00000073, 0xfa5ff06f,
];

/// Two guarded calls, for 64 at 48h and for 93 at 58h.
const BOTH: [u32; 11] = [
    0x00700513, 0x05d00893, 0x04000f93, 0x011f8463, 0xfb1ff06f, 0x00000073, 0x05d00f93, 0x011f8463,
    0xfa1ff06f, 0x00000073, 0xf99ff06f,
];

/// `EXITS` with a jump to the guarded call's last word in the place of its first unit.
const INTO: [u32; 7] = [
    0x0140006f, 0x05d00893, 0x05d00f93, 0x011f8463, 0xfb1ff06f, 0x00000073, 0xfa9ff06f,
];

/// One of these programs, or `A` with its bare call at 48h, or `BREAK`.
#[derive(Clone, Copy)]
enum Sample {
    A,
    Break,
    Exits,
    ExitsOfHarts,
    One,
    OneOfHarts,
    Two,
    Turned,
    Twice,
    Zero,
    Most,
    Eight,
    Mixed,
    Both,
    Into,
}

/// The units of a program, and the length of its code in hexadecimal digits.
fn units(sample: Sample) -> (&'static [u32], &'static str) {
    match sample {
        Sample::A => (&A, "00000050"),
        Sample::Break => (&BREAK, "00000048"),
        Sample::Exits => (&EXITS, "0000005c"),
        Sample::ExitsOfHarts => (&EXITS_OF_HARTS, "0000006c"),
        Sample::One => (&ONE, "00000070"),
        Sample::OneOfHarts => (&ONE_OF_HARTS, "00000080"),
        Sample::Two => (&TWO, "00000078"),
        Sample::Turned => (&TURNED, "00000078"),
        Sample::Twice => (&TWICE, "00000078"),
        Sample::Zero => (&ZERO, "00000070"),
        Sample::Most => (&MOST, "00000070"),
        Sample::Eight => (&EIGHT, "000000a8"),
        Sample::Mixed => (&MIXED, "00000060"),
        Sample::Both => (&BOTH, "0000006c"),
        Sample::Into => (&INTO, "0000005c"),
    }
}

/// The version of a program's image.
fn version(sample: Sample) -> ImageVersion {
    match sample {
        Sample::ExitsOfHarts | Sample::OneOfHarts => ImageVersion::EightHarts,
        _ => ImageVersion::OneHart,
    }
}

/// A program, the graph's line of system calls, its lines from the opening's call on, words that are put by their offsets in the
/// code, and the rule that fails with its address; no text where the pair is accepted.
struct Row(Sample, &'static str, &'static str, Words, &'static str);

const ENTRY: &str = "call 4000000c 40000040\n";

const ENTRY_OF_HARTS: &str = "call 4000000c 40000050\n";

const EIGHT_CALLS: &str = "calls 0 1 2 3 62 63 64 2047\n";

/// What does nothing, and a bare call.
const BARE: u32 = 0x13;

const ECALL: u32 = 0x73;

#[rattlefmt::skip]
static ROWS: [Row; 73] = [
    // A bare call without a list, and with one.
    Row(Sample::A, "", ENTRY, &[], ""),
    Row(Sample::A, "calls 93\n", ENTRY, &[], "Unit 40000048"),
    Row(Sample::A, "calls 0\n", ENTRY, &[], "Unit 40000048"),
    Row(Sample::A, "calls 2047\n", ENTRY, &[], "Unit 40000048"),
    Row(Sample::A, "calls 64 93\n", ENTRY, &[], "Unit 40000048"),
    // A guarded call with its list, and without one.
    Row(Sample::Exits, "calls 93\n", ENTRY, &[], ""),
    Row(Sample::Exits, "", ENTRY, &[], "Unit 40000048"),
    Row(Sample::ExitsOfHarts, "calls 93\n", ENTRY_OF_HARTS, &[], ""),
    Row(Sample::ExitsOfHarts, "", ENTRY_OF_HARTS, &[], "Unit 40000058"),
    Row(Sample::ExitsOfHarts, "calls 64\n", ENTRY_OF_HARTS, &[], "Unit 40000058"),
    Row(Sample::One, "calls 64\n", ENTRY, &[], ""),
    Row(Sample::OneOfHarts, "calls 64\n", ENTRY_OF_HARTS, &[], ""),
    Row(Sample::Zero, "calls 0\n", ENTRY, &[], ""),
    Row(Sample::Most, "calls 2047\n", ENTRY, &[], ""),
    Row(Sample::Two, "calls 64 93\n", ENTRY, &[], ""),
    Row(Sample::Eight, EIGHT_CALLS, ENTRY, &[], ""),
    // Another number, also one that differs in one bit, and the least and the greatest.
    Row(Sample::Exits, "calls 0\n", ENTRY, &[], "Unit 40000048"),
    Row(Sample::Exits, "calls 92\n", ENTRY, &[], "Unit 40000048"),
    Row(Sample::Exits, "calls 94\n", ENTRY, &[], "Unit 40000048"),
    Row(Sample::Exits, "calls 125\n", ENTRY, &[], "Unit 40000048"),
    Row(Sample::Exits, "calls 2047\n", ENTRY, &[], "Unit 40000048"),
    Row(Sample::Zero, "calls 1\n", ENTRY, &[], "Unit 40000048"),
    Row(Sample::Zero, "calls 2047\n", ENTRY, &[], "Unit 40000048"),
    Row(Sample::Most, "calls 0\n", ENTRY, &[], "Unit 40000048"),
    Row(Sample::Most, "calls 2046\n", ENTRY, &[], "Unit 40000048"),
    Row(Sample::Most, "calls 1023\n", ENTRY, &[], "Unit 40000048"),
    // The guarded call has one number less than the list, one more, another first or last one.
    Row(Sample::Exits, "calls 93 94\n", ENTRY, &[], "Unit 40000048"),
    Row(Sample::Exits, "calls 64 93\n", ENTRY, &[], "Unit 40000048"),
    Row(Sample::Exits, "calls 0 93\n", ENTRY, &[], "Unit 40000048"),
    Row(Sample::Two, "calls 64\n", ENTRY, &[], "Unit 40000048"),
    Row(Sample::Two, "calls 93\n", ENTRY, &[], "Unit 40000048"),
    Row(Sample::Two, "calls 64 93 94\n", ENTRY, &[], "Unit 40000048"),
    Row(Sample::Two, "calls 0 64 93\n", ENTRY, &[], "Unit 40000048"),
    Row(Sample::Two, "calls 63 93\n", ENTRY, &[], "Unit 40000048"),
    Row(Sample::Two, "calls 64 94\n", ENTRY, &[], "Unit 40000048"),
    Row(Sample::Eight, "calls 0 1 2 3 62 63 64\n", ENTRY, &[], "Unit 40000048"),
    Row(Sample::Eight, "calls 1 2 3 62 63 64 2047\n", ENTRY, &[], "Unit 40000048"),
    Row(Sample::Eight, "calls 0 1 2 3 62 63 64 2046\n", ENTRY, &[], "Unit 40000048"),
    Row(Sample::Eight, "calls 0 1 2 3 62 63 65 2047\n", ENTRY, &[], "Unit 40000048"),
    Row(Sample::Eight, "calls 4 5 6 7 62 63 64 2047\n", ENTRY, &[], "Unit 40000048"),
    Row(Sample::Eight, EIGHT_CALLS, ENTRY, &[(0x80, 0x7fe0_0f93)], "Unit 40000048"),
    Row(Sample::Eight, EIGHT_CALLS, ENTRY, &[(0x48, 0x0010_0f93)], "Unit 40000048"),
    // The list's numbers in another order, or one of them twice.
    Row(Sample::Turned, "calls 64 93\n", ENTRY, &[], "Unit 40000048"),
    Row(Sample::Twice, "calls 64\n", ENTRY, &[], "Unit 40000048"),
    Row(Sample::Twice, "calls 64 93\n", ENTRY, &[], "Unit 40000048"),
    // The least address at which a unit is not admitted.
    Row(Sample::Mixed, "calls 93\n", ENTRY, &[], "Unit 40000058"),
    Row(Sample::Mixed, "", ENTRY, &[], "Unit 40000048"),
    Row(Sample::Mixed, "calls 64\n", ENTRY, &[], "Unit 40000048"),
    Row(Sample::Both, "calls 64\n", ENTRY, &[], "Unit 40000058"),
    Row(Sample::Both, "calls 93\n", ENTRY, &[], "Unit 40000048"),
    Row(Sample::Both, "calls 64 93\n", ENTRY, &[], "Unit 40000048"),
    Row(Sample::Exits, "calls 93\n", ENTRY, &[(0x44, ECALL)], "Unit 40000044"),
    Row(Sample::Exits, "calls 64\n", ENTRY, &[(0x44, ECALL)], "Unit 40000044"),
    // What is no guarded call: a number of 2048, of another register, in another register; a branch of another kind, that compares
    // otherwise or leads elsewhere; a jump that links, to another handler; no call at the end.
    Row(Sample::Exits, "calls 93\n", ENTRY, &[(0x48, 0x8000_0f93)], "Unit 40000048"),
    Row(Sample::Exits, "calls 93\n", ENTRY, &[(0x48, 0x05d0_8f93)], "Unit 40000048"),
    Row(Sample::Exits, "calls 93\n", ENTRY, &[(0x4c, 0x011f_9463)], "Unit 40000048"),
    Row(Sample::Exits, "calls 93\n", ENTRY, &[(0x4c, 0x010f_8463)], "Unit 40000048"),
    Row(Sample::Exits, "calls 93\n", ENTRY, &[(0x4c, 0x01f8_8463)], "Unit 40000048"),
    Row(Sample::Exits, "calls 93\n", ENTRY, &[(0x4c, 0x011f_8263)], "Unit 40000048"),
    Row(Sample::Exits, "calls 93\n", ENTRY, &[(0x4c, 0x011f_8663)], "Unit 40000048"),
    Row(Sample::Exits, "calls 93\n", ENTRY, &[(0x50, 0xfb1f_f0ef)], "Unit 40000048"),
    Row(Sample::Exits, "calls 93\n", ENTRY, &[(0x50, 0xfb5f_f06f)], "Unit 40000048"),
    Row(Sample::Exits, "calls 93\n", ENTRY, &[(0x54, BARE)], "Unit 40000048"),
    Row(Sample::Exits, "calls 93\n", ENTRY, &[(0x54, 0x0010_0073)], "Unit 40000048"),
    // Transfers to a guarded call, to its first words and to the bare call at its end: a jump, and the opening's call.
    Row(Sample::Into, "calls 93\n", "call 4000000c 40000040\nedge 40000040 40000048\n", &[(0x40, 0x0080_006f)], ""),
    Row(Sample::Into, "calls 93\n", "call 4000000c 40000040\nedge 40000040 4000004c\n", &[(0x40, 0x00c0_006f)], "Target 40000040"),
    Row(Sample::Into, "calls 93\n", "call 4000000c 40000040\nedge 40000040 40000050\n", &[(0x40, 0x0100_006f)], "Target 40000040"),
    Row(Sample::Into, "calls 93\n", "call 4000000c 40000040\nedge 40000040 40000054\n", &[], "Target 40000040"),
    Row(Sample::Exits, "calls 93\n", "call 4000000c 40000054\n", &[(0x34, 0x0200_00ef)], "Target 4000000c"),
    // Other units under a list; the rules before and after Unit.
    Row(Sample::Break, "calls 93\n", ENTRY, &[], ""),
    Row(Sample::A, "calls 93\n", ENTRY, &[(0x04, BARE)], "Prologue 40000004"),
    Row(Sample::Exits, "calls 93\n", ENTRY, &[(0x58, BARE)], "End 40000058"),
    Row(Sample::Exits, "calls 93\n", "", &[], "Unlisted 4000000c"),
];

/// The graph of the version with a number, with the lines of a row; none where there is no memory, or its text is none.
fn graph_of(alloc: Global, number: u8, row: &Row) -> Option<Graph> {
    let text = format!(in alloc;
        "rvcfi-graph {number}\ncode 40000000 {}\n{}{}end\n",
        units(row.0).1,
        row.1,
        row.2
    )
    .ok()?;
    read_graph(alloc, text.as_bytes()).ok()
}

/// Whether the code of a row is answered as it says, with the graph of the version with a number.
fn is_right(alloc: Global, number: u8, row: &Row) -> bool {
    match graph_of(alloc, number, row) {
        Some(graph) => is_answered(alloc, version(row.0), units(row.0).0, row.3, &graph, row.4),
        None => false,
    }
}

#[test]
fn pairs(rt: HostRuntime) {
    for (k, row) in ROWS.iter().enumerate() {
        assert!(rt; is_right(rt.alloc(), 1, row), "{k} {}", row.4);
        assert!(rt; is_right(rt.alloc(), 2, row), "{k} {}", row.4);
    }
}

static EXITING: Program = Program {
    version: ImageVersion::OneHart,
    units: &EXITS,
    graph: b"rvcfi-graph 1\ncode 40000000 0000005c\ncalls 93\ncall 4000000c 40000040\nend\n",
    data: b"",
    input: b"",
};

const ONE_GRAPH: &[u8] =
    b"rvcfi-graph 1\ncode 40000000 00000070\ncalls 64\ncall 4000000c 40000040\nend\n";

static CALLING: Program = Program {
    version: ImageVersion::OneHart,
    units: &ONE,
    graph: ONE_GRAPH,
    data: b"\x40\x00\x00\x00\x00\x00\x00\x00",
    input: b"",
};

static CALLING_HARTS: Program = Program {
    version: ImageVersion::EightHarts,
    units: &ONE_OF_HARTS,
    graph: b"rvcfi-graph 2\ncode 40000000 00000080\ncalls 64\ncall 4000000c 40000050\nend\n",
    data: b"\x40\x00\x00\x00\x00\x00\x00\x00",
    input: b"",
};

static CALLING_TWO: Program = Program {
    version: ImageVersion::OneHart,
    units: &TWO,
    graph: b"rvcfi-graph 2\ncode 40000000 00000078\ncalls 64 93\ncall 4000000c 40000040\nend\n",
    data: b"\x40\x00\x00\x00\x00\x00\x00\x00",
    input: b"",
};

static CALLING_EIGHT: Program = Program {
    version: ImageVersion::OneHart,
    units: &EIGHT,
    graph: b"rvcfi-graph 1\ncode 40000000 000000a8\ncalls 0 1 2 3 62 63 64 2047\n\
call 4000000c 40000040\nend\n",
    data: b"\x40\x00\x00\x00\x00\x00\x00\x00",
    input: b"",
};

/// One of these programs.
#[derive(Clone, Copy)]
enum Caller {
    Exits,
    One,
    Harts,
    Two,
    Eight,
}

fn program(caller: Caller) -> &'static Program {
    match caller {
        Caller::Exits => &EXITING,
        Caller::One => &CALLING,
        Caller::Harts => &CALLING_HARTS,
        Caller::Two => &CALLING_TWO,
        Caller::Eight => &CALLING_EIGHT,
    }
}

/// A program, the lines of a script for one hart, how the run ends, after how many steps, and of its walk the number of addresses
/// and the last one.
struct Run(Caller, &'static str, RunEnd, u64, u64, u64);

/// The number is none of the list.
const BAD: RunEnd = RunEnd::Handler(Handler::BadTarget);

#[rattlefmt::skip]
static RUNS: [Run; 38] = [
    // The closing exits though 93 is not listed; a guarded call exits with 93 where it is.
    Run(Caller::One, "", RunEnd::Exit(247), 21, 6, 0x4000_0038),
    Run(Caller::Exits, "", RunEnd::Exit(7), 15, 4, 0x4000_0048),
    // A number that is not listed: 93, others, and 64 with bits above the low ones.
    Run(Caller::One, "at 0 00010000 5d\n", BAD, 16, 5, 0x4000_0000),
    Run(Caller::One, "at 0 00010000 00\n", BAD, 16, 5, 0x4000_0000),
    Run(Caller::One, "at 0 00010000 3f\n", BAD, 16, 5, 0x4000_0000),
    Run(Caller::One, "at 0 00010000 41\n", BAD, 16, 5, 0x4000_0000),
    Run(Caller::One, "at 0 00010000 4001\n", BAD, 16, 5, 0x4000_0000),
    Run(Caller::One, "at 0 00010000 4000000001000000\n", BAD, 16, 5, 0x4000_0000),
    Run(Caller::One, "at 0 00010000 4000000000000001\n", BAD, 16, 5, 0x4000_0000),
    Run(Caller::One, "at 0 00010000 4000000000000080\n", BAD, 16, 5, 0x4000_0000),
    Run(Caller::One, "at 0 00010000 ffffffffffffffff\n", BAD, 16, 5, 0x4000_0000),
    // Every byte of data changes before the number is loaded, or after: between the test and the call as well.
    Run(Caller::One, "at 11 00010000 5d5d5d5d5d5d5d5d\n", BAD, 16, 5, 0x4000_0000),
    Run(Caller::One, "at 12 00010000 5d5d5d5d5d5d5d5d\n", RunEnd::Exit(247), 21, 6, 0x4000_0038),
    Run(Caller::One, "at 13 00010000 5d5d5d5d5d5d5d5d\n", RunEnd::Exit(247), 21, 6, 0x4000_0038),
    Run(Caller::One, "at 14 00010000 5d5d5d5d5d5d5d5d\n", RunEnd::Exit(247), 21, 6, 0x4000_0038),
    Run(Caller::One, "at 15 00010000 5d5d5d5d5d5d5d5d\n", RunEnd::Exit(247), 21, 6, 0x4000_0038),
    Run(Caller::One, "at 0 00010000 5d00000000000000\nat 11 00010000 4000000000000000\nat 12 00010000 5d00000000000000\n", RunEnd::Exit(247), 21, 6, 0x4000_0038),
    Run(Caller::One, "at 0 00010000 5d00000000000000\nat 12 00010000 4000000000000000\n", BAD, 16, 5, 0x4000_0000),
    // Two numbers: the first, the second, which exits, and others.
    Run(Caller::Two, "", RunEnd::Exit(247), 21, 6, 0x4000_0038),
    Run(Caller::Two, "at 0 00010000 5d\n", RunEnd::Exit(0), 17, 4, 0x4000_0048),
    Run(Caller::Two, "at 0 00010000 5e\n", BAD, 18, 5, 0x4000_0000),
    Run(Caller::Two, "at 0 00010000 00\n", BAD, 18, 5, 0x4000_0000),
    // Eight numbers: each of them, and others.
    Run(Caller::Eight, "at 0 00010000 00\n", RunEnd::Exit(218), 21, 6, 0x4000_0038),
    Run(Caller::Eight, "at 0 00010000 01\n", RunEnd::Exit(218), 23, 6, 0x4000_0038),
    Run(Caller::Eight, "at 0 00010000 02\n", RunEnd::Exit(218), 25, 6, 0x4000_0038),
    Run(Caller::Eight, "at 0 00010000 03\n", RunEnd::Exit(218), 27, 6, 0x4000_0038),
    Run(Caller::Eight, "at 0 00010000 3e\n", RunEnd::Exit(218), 29, 6, 0x4000_0038),
    Run(Caller::Eight, "at 0 00010000 3f\n", RunEnd::Exit(0), 31, 6, 0x4000_0038),
    Run(Caller::Eight, "at 0 00010000 40\n", RunEnd::Exit(247), 33, 6, 0x4000_0038),
    Run(Caller::Eight, "at 0 00010000 ff07\n", RunEnd::Exit(218), 35, 6, 0x4000_0038),
    Run(Caller::Eight, "at 0 00010000 04\n", BAD, 30, 5, 0x4000_0000),
    Run(Caller::Eight, "at 0 00010000 3d\n", BAD, 30, 5, 0x4000_0000),
    Run(Caller::Eight, "at 0 00010000 41\n", BAD, 30, 5, 0x4000_0000),
    Run(Caller::Eight, "at 0 00010000 5d\n", BAD, 30, 5, 0x4000_0000),
    Run(Caller::Eight, "at 0 00010000 ff\n", BAD, 30, 5, 0x4000_0000),
    Run(Caller::Eight, "at 0 00010000 ff06\n", BAD, 30, 5, 0x4000_0000),
    Run(Caller::Eight, "at 0 00010000 0008\n", BAD, 30, 5, 0x4000_0000),
    Run(Caller::Eight, "at 0 00010000 ff0f\n", BAD, 30, 5, 0x4000_0000),
];

/// The same of several harts: how many, and which of them ends the run; of each hart's walk the number of addresses and the last one.
struct Turned(u8, &'static str, RunEnd, u8, u64, &'static [(u64, u64)]);

#[rattlefmt::skip]
static TURNED_RUNS: [Turned; 4] = [
    // Hart 1 gives its number to the call as what it writes to.
    Turned(1, "harts 1\n", RunEnd::Exit(247), 0, 25, &[(6, 0x4000_0048)]),
    Turned(2, "harts 2\nturn 1 100\n", RunEnd::Exit(0), 1, 25, &[(0, 0x0), (6, 0x4000_0048)]),
    // The number changes for one hart, and not for the one that has it in its register.
    Turned(2, "harts 2\nturn 0 16\nturn 1 100\nat 16 00010000 5d\n", BAD, 1, 36, &[(3, 0x4000_0054), (5, 0x4000_0000)]),
    Turned(2, "harts 2\nturn 0 16\nturn 1 10\nturn 0 100\nat 16 00010000 5d\n", RunEnd::Exit(247), 0, 35, &[(6, 0x4000_0048), (1, 0x4000_000c)]),
];

/// Whether a run of one hart ends as its row says, and is the same again under its turns and changes.
fn is_run_right(alloc: Global, row: &Run) -> bool {
    let ended = Ended(row.2, 0, row.3, &[(row.4, row.5)]);
    ends_alone(alloc, program(row.0), row.1, &ended)
}

/// The same of a run of several harts.
fn is_turned_right(alloc: Global, row: &Turned) -> bool {
    let ended = Ended(row.2, row.3, row.4, row.5);
    ends_in_turns(alloc, &CALLING_HARTS, row.0, row.1, &ended)
}

#[test]
fn runs(rt: HostRuntime) {
    for (k, row) in RUNS.iter().enumerate() {
        assert!(rt; is_run_right(rt.alloc(), row), "{k} {}", row.1);
    }
}

#[test]
fn in_turns(rt: HostRuntime) {
    for (k, row) in TURNED_RUNS.iter().enumerate() {
        assert!(rt; is_turned_right(rt.alloc(), row), "{k} {}", row.1);
    }
}

/// The walk of `ONE` to its guarded call.
const TO_CALL: &[u64] = &[0x4000_0040, 0x4000_0044, 0x4000_0048];

/// From a guarded call the walk goes to the unit behind it and to the handler of targets: not to its own words, to another handler,
/// further on or back.
#[rattlefmt::skip]
const WALKS: &[Went] = &[
    (TO_CALL, 0x4000_0058, true),
    (TO_CALL, 0x4000_0000, true),
    (TO_CALL, 0x4000_0048, false),
    (TO_CALL, 0x4000_004c, false),
    (TO_CALL, 0x4000_0050, false),
    (TO_CALL, 0x4000_0054, false),
    (TO_CALL, 0x4000_005c, false),
    (TO_CALL, 0x4000_0004, false),
    (TO_CALL, 0x4000_0008, false),
    (TO_CALL, 0x4000_0038, false),
    (TO_CALL, 0x4000_0044, false),
    (&[0x4000_0040, 0x4000_0044, 0x4000_0048, 0x4000_0058], 0x4000_0038, true),
    (&[0x4000_0040, 0x4000_0044, 0x4000_0048, 0x4000_0000], 0x4000_0000, false),
];

/// Whether all walks of `ONE` go as their rows say.
fn walks_right(alloc: Global, code: &[u8], graph: &Graph) -> bool {
    if code.len() < 4 || code.len() > 4096 || code.len() % 4 != 0 {
        return false;
    }
    let image = Image::of(code, &[]);
    match verify(alloc, &image, graph) {
        Ok(checked) => are_walked(alloc, &checked, WALKS),
        Err(_) => false,
    }
}

/// The same, with the code and the graph made.
fn one_walks_right(alloc: Global) -> bool {
    let Some(code) = code_of(alloc, ImageVersion::OneHart, &ONE, &[]) else {
        return false;
    };
    match read_graph(alloc, ONE_GRAPH) {
        Ok(graph) => walks_right(alloc, &code, &graph),
        Err(_) => false,
    }
}

#[test]
fn walks(rt: HostRuntime) {
    assert!(rt; one_walks_right(rt.alloc()));
}
