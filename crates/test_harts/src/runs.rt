ghost use Rattle.std.specs.Prelude.{IfSome};
ghost use Rattle.cfi_script.specs.Script.{IsScript};

use cfi_script::Script;
use cfi_step::{Handler, HartWalk, Hostile, RunEnd, RunReport};
use rv_image::ImageVersion;
use rv_machine::Change;
use sample_programs::{
    A_OF_HARTS, A_OF_HARTS_GRAPH, JOBS, JOBS_DATA, JOBS_GRAPH, SHARED, SHARED_GRAPH,
};
use sample_runs::{Program, is_same_again, report};
use std::alloc::Global;

/// A program of which each hart exits with 7 in its seventeenth step, the third after the opening.
static EXITING: Program = Program {
    version: ImageVersion::EightHarts,
    units: &A_OF_HARTS,
    graph: A_OF_HARTS_GRAPH,
    data: b"",
    input: b"",
};

/// A program whose other harts store their numbers, with which hart 0 exits.
static SHARING: Program = Program {
    version: ImageVersion::EightHarts,
    units: &SHARED,
    graph: SHARED_GRAPH,
    data: b"",
    input: b"",
};

/// A program that gives each hart a job.
static WORKING: Program = Program {
    version: ImageVersion::EightHarts,
    units: &JOBS,
    graph: JOBS_GRAPH,
    data: JOBS_DATA,
    input: b"0123456789",
};

/// One of these programs.
#[derive(Clone, Copy)]
enum Sample {
    Exiting,
    Sharing,
    Working,
}

fn program(sample: Sample) -> &'static Program {
    match sample {
        Sample::Exiting => &EXITING,
        Sample::Sharing => &SHARING,
        Sample::Working => &WORKING,
    }
}

/// A run under turns: how it ends and by which hart, which turns are taken, and of each hart's walk the number of its addresses
/// and the last one, 0 where there is none.
struct Row {
    program: Sample,
    harts: u8,
    turns: &'static [(u8, u64)],
    limit: u64,
    end: RunEnd,
    hart: u8,
    taken: &'static [(u8, u64)],
    walks: &'static [(u64, u64)],
}

/// The rows are those of a model of the machine, `tests/model` at the top of the repository.
static ROWS: [Row; 15] = [
    // One hart, and two and eight of which each exits in its seventeenth step.
    Row {
        program: Sample::Exiting,
        harts: 1,
        turns: &[],
        limit: 100,
        end: RunEnd::Exit(7),
        hart: 0,
        taken: &[(0, 17)],
        walks: &[(4, 0x40000058)],
    },
    Row {
        program: Sample::Exiting,
        harts: 2,
        turns: &[(0, 8), (1, 9)],
        limit: 100,
        end: RunEnd::Exit(7),
        hart: 0,
        taken: &[(0, 8), (1, 9), (0, 9)],
        walks: &[(4, 0x40000058), (1, 0x4000000c)],
    },
    Row {
        program: Sample::Exiting,
        harts: 2,
        turns: &[(0, 5), (1, 17)],
        limit: 100,
        end: RunEnd::Exit(7),
        hart: 1,
        taken: &[(0, 5), (1, 17)],
        walks: &[(1, 0x4000000c), (4, 0x40000058)],
    },
    Row {
        program: Sample::Exiting,
        harts: 8,
        turns: &[
            (7, 16),
            (6, 16),
            (5, 16),
            (4, 16),
            (3, 16),
            (2, 16),
            (1, 16),
            (0, 16),
            (5, 9),
        ],
        limit: 1000,
        end: RunEnd::Exit(7),
        hart: 5,
        taken: &[
            (7, 16),
            (6, 16),
            (5, 16),
            (4, 16),
            (3, 16),
            (2, 16),
            (1, 16),
            (0, 16),
            (5, 1),
        ],
        walks: &[
            (3, 0x40000054),
            (3, 0x40000054),
            (3, 0x40000054),
            (3, 0x40000054),
            (3, 0x40000054),
            (4, 0x40000058),
            (3, 0x40000054),
            (3, 0x40000054),
        ],
    },
    // A limit within a turn and after the last one, and no step at all.
    Row {
        program: Sample::Exiting,
        harts: 2,
        turns: &[(0, 2), (1, 9)],
        limit: 6,
        end: RunEnd::Limit,
        hart: 0,
        taken: &[(0, 2), (1, 4)],
        walks: &[(1, 0x4000000c), (1, 0x4000000c)],
    },
    Row {
        program: Sample::Exiting,
        harts: 2,
        turns: &[(1, 4), (0, 3)],
        limit: 10,
        end: RunEnd::Limit,
        hart: 0,
        taken: &[(1, 4), (0, 6)],
        walks: &[(1, 0x4000000c), (1, 0x4000000c)],
    },
    Row {
        program: Sample::Exiting,
        harts: 3,
        turns: &[(2, 5)],
        limit: 0,
        end: RunEnd::Limit,
        hart: 0,
        taken: &[],
        walks: &[(0, 0x0), (0, 0x0), (0, 0x0)],
    },
    // Turns of harts that are not there, and two of one hart that are one.
    Row {
        program: Sample::Exiting,
        harts: 2,
        turns: &[(1, 2), (5, 3), (7, 1), (0, 2), (1, 1), (1, 2)],
        limit: 100,
        end: RunEnd::Exit(7),
        hart: 0,
        taken: &[(1, 2), (0, 6), (1, 3), (0, 11)],
        walks: &[(4, 0x40000058), (1, 0x4000000c)],
    },
    // What one hart stores before another one loads it, and after.
    Row {
        program: Sample::Sharing,
        harts: 2,
        turns: &[(1, 20)],
        limit: 100,
        end: RunEnd::Exit(1),
        hart: 0,
        taken: &[(1, 20), (0, 23)],
        walks: &[(6, 0x40000048), (4, 0x40000070)],
    },
    Row {
        program: Sample::Sharing,
        harts: 2,
        turns: &[(1, 19)],
        limit: 100,
        end: RunEnd::Exit(0),
        hart: 0,
        taken: &[(1, 19), (0, 23)],
        walks: &[(6, 0x40000048), (4, 0x40000070)],
    },
    Row {
        program: Sample::Sharing,
        harts: 8,
        turns: &[(7, 30), (3, 20)],
        limit: 100,
        end: RunEnd::Exit(7),
        hart: 7,
        taken: &[(7, 26)],
        walks: &[
            (0, 0x0),
            (0, 0x0),
            (0, 0x0),
            (0, 0x0),
            (0, 0x0),
            (0, 0x0),
            (0, 0x0),
            (6, 0x40000048),
        ],
    },
    // A break; a site of another hart, loaded; what was read, written; calls without an end.
    Row {
        program: Sample::Working,
        harts: 8,
        turns: &[(0, 20), (6, 40)],
        limit: 1000,
        end: RunEnd::Break(0x40000228),
        hart: 6,
        taken: &[(0, 20), (6, 31)],
        walks: &[
            (6, 0x40000060),
            (0, 0x0),
            (0, 0x0),
            (0, 0x0),
            (0, 0x0),
            (0, 0x0),
            (8, 0x40000228),
            (0, 0x0),
        ],
    },
    Row {
        program: Sample::Working,
        harts: 8,
        turns: &[(0, 17), (5, 50)],
        limit: 1000,
        end: RunEnd::Exit(72),
        hart: 5,
        taken: &[(0, 17), (5, 41)],
        walks: &[
            (4, 0x40000058),
            (0, 0x0),
            (0, 0x0),
            (0, 0x0),
            (0, 0x0),
            (14, 0x40000048),
            (0, 0x0),
            (0, 0x0),
        ],
    },
    Row {
        program: Sample::Working,
        harts: 8,
        turns: &[(3, 9), (4, 200)],
        limit: 1000,
        end: RunEnd::Exit(0),
        hart: 4,
        taken: &[(3, 9), (4, 96)],
        walks: &[
            (0, 0x0),
            (0, 0x0),
            (0, 0x0),
            (1, 0x4000000c),
            (69, 0x40000048),
            (0, 0x0),
            (0, 0x0),
            (0, 0x0),
        ],
    },
    Row {
        program: Sample::Working,
        harts: 8,
        turns: &[(7, 100000)],
        limit: 100000,
        end: RunEnd::Handler(Handler::Deep),
        hart: 7,
        taken: &[(7, 57364)],
        walks: &[
            (0, 0x0),
            (0, 0x0),
            (0, 0x0),
            (0, 0x0),
            (0, 0x0),
            (0, 0x0),
            (0, 0x0),
            (8199, 0x40000008),
        ],
    },
];

/// How many steps turns have together.
fn steps_of(turns: &[(u8, u64)]) -> u64 {
    let mut steps: u64 = 0;
    for turn in turns {
        steps = steps.saturating_add(turn.1);
    }
    steps
}

/// Whether walks have so many addresses each, and these last ones.
fn have_walked(walks: &[HartWalk], wanted: &[(u64, u64)]) -> bool {
    for (walk, row) in walks.iter().zip(wanted) {
        if walk.walk != row.0 || walk.trail.as_slice().last().copied().unwrap_or(0) != row.1 {
            return false;
        }
    }
    walks.len() == wanted.len()
}

/// Whether a report is that of a row.
fn is_told(report: &RunReport, row: &Row) -> bool {
    report.end == row.end
        && report.hart == row.hart
        && report.steps == steps_of(row.taken)
        && report.turns.as_slice() == row.taken
        && report.made.is_empty()
        && have_walked(report.walks.as_slice(), row.walks)
}

/// Whether a run under the turns of a row is as the row says, and the same again under those that it took.
fn is_right(alloc: Global, row: &Row) -> bool {
    match row_report(alloc, row) {
        Some(first) => {
            is_told(&first, row)
                && is_same_again(alloc, program(row.program), row.harts, &first, row.limit)
        }
        None => false,
    }
}

/// The report of a run under the turns of a row.
fn row_report(alloc: Global, row: &Row) -> Option<RunReport>
    ensures { IfSome result (λ report. IsScript report.made) }
{
    let mut script = Script::of(alloc, row.harts, row.turns, &[]).ok()?;
    report(
        alloc,
        program(row.program),
        row.harts,
        &mut script,
        row.limit,
    )
}

#[test]
fn in_turns(rt: HostRuntime) {
    for (k, row) in ROWS.iter().enumerate() {
        assert!(rt; is_right(rt.alloc(), row), "{k}");
    }
}

/// A program for one hart may not be run by two, nor one for several by nine or none.
#[test]
fn counts(rt: HostRuntime) {
    assert!(rt; runs(rt.alloc(), &EXITING, 8));
    for harts in [0, 9, 255] {
        assert!(rt; !runs(rt.alloc(), &EXITING, harts), "{harts}");
    }
}

/// Whether a run of a program by so many harts has a report.
fn runs(alloc: Global, program: &Program, harts: u8) -> bool {
    report(alloc, program, harts, &mut Script::none(alloc), 0).is_some()
}

/// Where each hart's walk is when hart 0 comes to the handler of returns.
static CAUGHT: [(u64, u64); 3] = [(25, 0x40000004), (34, 0x400001a4), (24, 0x40000130)];

/// Whether the changes are zeros at the eight bytes of two double words, in which hart 0 and hart 2 save the address to which
/// their call returns, each on its own stack and before the step after it.
fn are_zeroed(made: &[(u64, Change)]) -> bool {
    for (k, made) in made.iter().enumerate() {
        let (step, from) = match k / 8 {
            0 => (103, 0x0fff_fff8),
            _ => (105, 0x0fdf_fff8),
        };
        if made.0 != step || made.1.addr() != from + k as u64 % 8 || made.1.byte() != 0 {
            return false;
        }
    }
    made.len() == 16
}

/// Whether so many steps were taken by the three harts in turn.
fn are_in_turn(turns: &[(u8, u64)], steps: usize) -> bool {
    for (k, turn) in turns.iter().enumerate() {
        if *turn != ((k % 3) as u8, 1) {
            return false;
        }
    }
    turns.len() == steps
}

/// Whether the run of three harts under the hostile meddler, which lets them step in turn, is caught by the handler of returns, and
/// is the same again under its turns and changes.
fn is_caught(alloc: Global) -> bool {
    match report(alloc, &WORKING, 3, &mut Hostile, 1000) {
        Some(first) => {
            matches!(first.end, RunEnd::Handler(Handler::BadReturn))
                && first.hart == 0
                && first.steps == 226
                && are_in_turn(first.turns.as_slice(), 226)
                && are_zeroed(first.made.as_slice())
                && have_walked(first.walks.as_slice(), &CAUGHT)
                && is_same_again(alloc, &WORKING, 3, &first, 1000)
        }
        None => false,
    }
}

#[test]
fn hostile_to_each(rt: HostRuntime) {
    assert!(rt; is_caught(rt.alloc()));
}
