ghost use Rattle.std.specs.Prelude.{◌≤◌, IfSome};
ghost use Rattle.cfi_script.specs.Script.{IsScript};

use cfi_script::Script;
use cfi_step::{Handler, Hostile, RunEnd, RunReport};
use rv_image::ImageVersion;
use rv_machine::Change;
use sample_programs::{ECHO, ECHO_GRAPH, P, P_DATA, P_GRAPH};
use sample_runs::{Program, is_same_again, report};
use std::alloc::Global;

/// A program that calls through a pointer.
static CALLER: Program = Program {
    version: ImageVersion::OneHart,
    units: &P,
    graph: P_GRAPH,
    data: P_DATA,
    input: b"",
};

/// A program that writes what it reads.
static READER: Program = Program {
    version: ImageVersion::OneHart,
    units: &ECHO,
    graph: ECHO_GRAPH,
    data: b"",
    input: b"0123456789",
};

/// The words of round.s in tests/units at the top of the repository, as binutils makes them: stores of the
/// return address near address 0, with x2 near 2^64.
const ROUND: [u32; 22] = [
    0xff800113, 0x00000f93, 0x024f9f93, 0x024fdf93, 0x001fb023, 0x00800f93, 0x024f9f93, 0x024fdf93,
    0x001fb023, 0xffc00113, 0x01000f93, 0x024f9f93, 0x024fdf93, 0x001fb023, 0x00400f93, 0x024f9f93,
    0x024fdf93, 0x001fb023, 0x01003503, 0x05d00893, 0x00000073, 0xf6dff06f,
];

const ROUND_GRAPH: &[u8] = b"rvcfi-graph 1\ncode 40000000 00000098\ncall 4000000c 40000040\nend\n";

/// A program of these words.
static STORER: Program = Program {
    version: ImageVersion::OneHart,
    units: &ROUND,
    graph: ROUND_GRAPH,
    data: b"",
    input: b"",
};

/// How far a run goes whose first return address was changed.
const TRAIL: [u64; 13] = [
    0x4000000c, 0x40000040, 0x40000044, 0x40000054, 0x40000058, 0x4000005c, 0x400000c8, 0x400000cc,
    0x400000d0, 0x400000ac, 0x400000b0, 0x400000b4, 0x40000004,
];

/// Whether the changes are zeros at the eight bytes of the saved return address, before one step.
fn zeroes_the_saved_address(made: &[(u64, Change)]) -> bool {
    for (k, made) in made.iter().enumerate() {
        if !is_zero_at(made, 0x0fff_fff8 + k as u64) {
            return false;
        }
    }
    made.len() == 8
}

/// Whether a change is a zero at this address, before the step at which the address is on the stack.
fn is_zero_at(made: &(u64, Change), addr: u64) -> bool {
    made.0 == 15 && made.1.addr() == addr && made.1.byte() == 0
}

/// Whether a run is of hart 0 alone, whose walk has so many addresses.
fn is_of_one(report: &RunReport, walk: u64) -> bool {
    let walks = report.walks.as_slice();
    walks.len() == 1 && walks[0].walk == walk && report.hart == 0 && is_one_turn(report)
}

/// Whether a run is one turn of hart 0, of all steps, and none where there are no steps.
fn is_one_turn(report: &RunReport) -> bool {
    if report.steps == 0 {
        report.turns.is_empty()
    } else {
        report.turns.as_slice() == [(0, report.steps)].as_slice()
    }
}

/// Whether a run comes to the handler of returns along the trail.
fn is_caught(report: &RunReport) -> bool {
    matches!(report.end, RunEnd::Handler(Handler::BadReturn))
        && is_of_one(report, 13)
        && has_trail(report)
}

/// Whether the walk of a run is the trail.
fn has_trail(report: &RunReport) -> bool {
    match report.walks.as_slice().first() {
        Some(walk) => walk.trail.as_slice() == TRAIL.as_slice(),
        None => false,
    }
}

/// The hostile meddler finds the saved return address as soon as it is on the stack. A run under the changes that
/// another one made has the same report.
#[test]
fn hostile_and_replayed(rt: HostRuntime) {
    for limit in [0, 15, 16, 46, 47, 100, 1000] {
        assert!(rt; is_replayed(rt.alloc(), limit), "{limit}");
    }
}

/// Whether a run that ends at a limit is as it has to be, and is the same again.
fn is_replayed(alloc: Global, limit: u64) -> bool {
    match report(alloc, &CALLER, 1, &mut Hostile, limit) {
        Some(first) => has_run(&first, limit) && is_same_again(alloc, &CALLER, 1, &first, limit),
        None => false,
    }
}

/// Whether a run has as many steps as a limit leaves of 47, after fifteen of which the saved return address
/// is zeroed; it is caught in the last of them, and below them stopped by the limit.
fn has_run(report: &RunReport, limit: u64) -> bool {
    report.steps == limit.min(47)
        && has_made(report.made.as_slice(), limit)
        && has_ended(report, limit)
}

/// Whether a run ends as it has to where it has so many steps.
fn has_ended(report: &RunReport, limit: u64) -> bool {
    if limit < 47 {
        matches!(report.end, RunEnd::Limit)
    } else {
        is_caught(report)
    }
}

/// Whether the changes are those that a run makes to a limit.
fn has_made(made: &[(u64, Change)], limit: u64) -> bool {
    if limit > 15 {
        zeroes_the_saved_address(made)
    } else {
        made.is_empty()
    }
}

/// The double words that the hostile meddler looks at go on at address 0: those at 0 and 8 are found from
/// 2^64 - 8 on and the one at 4 from 2^64 - 4 on, but not that at 16, which the exit's status shows.
#[test]
fn hostile_goes_round(rt: HostRuntime) {
    assert!(rt; goes_round(rt.alloc()));
}

/// Whether the return addresses that the program stores are zeroed, but the one.
fn goes_round(alloc: Global) -> bool {
    match report(alloc, &STORER, 1, &mut Hostile, 100) {
        Some(report) => {
            matches!(report.end, RunEnd::Exit(0x38))
                && report.steps == 31
                && is_of_one(&report, 10)
                && zeroes_each_store(report.made.as_slice())
        }
        None => false,
    }
}

/// Whether the changes are zeros at the eight bytes of three stores, each right after it.
fn zeroes_each_store(made: &[(u64, Change)]) -> bool {
    for (k, made) in made.iter().enumerate() {
        let (step, from) = match k / 8 {
            0 => (15, 0),
            1 => (19, 8),
            _ => (28, 4),
        };
        if made.0 != step || made.1.addr() != from + k as u64 % 8 || made.1.byte() != 0 {
            return false;
        }
    }
    made.len() == 24
}

/// The report of a run with one byte changed before one step.
fn changed_report(alloc: Global, program: &Program, step: u64, change: Change) -> Option<RunReport>
    requires { step ≤ 100 }
    ensures { IfSome result (λ report. IsScript report.made) }
{
    let mut script = Script::of(alloc, 1, &[], &[(step, change)]).ok()?;
    report(alloc, program, 1, &mut script, 100)
}

/// A change of the pointer before the first step sends the call to the other function; what its
/// system call tells is in the report.
#[test]
fn events(rt: HostRuntime) {
    assert!(rt; goes_to_the_other(rt.alloc()));
}

/// Whether a run with the pointer changed goes to the other function, tells its exit, and is the same
/// again.
fn goes_to_the_other(alloc: Global) -> bool {
    let Some(change) = Change::new(0x1_0000, 0xe4) else {
        return false;
    };
    match changed_report(alloc, &CALLER, 0, change) {
        Some(first) => {
            has_exited(&first)
                && tells_its_exit(&first)
                && is_same_again(alloc, &CALLER, 1, &first, 100)
        }
        None => false,
    }
}

/// Whether a run exits with 2, after as many steps and places as the other function's has.
fn has_exited(report: &RunReport) -> bool {
    matches!(report.end, RunEnd::Exit(2)) && report.steps == 48 && is_of_one(report, 13)
}

/// Whether the only system call of a run is its exit.
fn tells_its_exit(report: &RunReport) -> bool {
    if report.events.len() != 1 {
        return false;
    }
    let event = report.events.get(0);
    event.number == 93 && event.a0 == 2 && event.answer == 0
}

/// A change of the byte that was read, before it is written, is what the output shows; the eight system
/// calls of the run are those of the same run again.
#[test]
fn read_and_written(rt: HostRuntime) {
    assert!(rt; writes_what_it_reads(rt.alloc()));
}

/// Whether a run with the first byte of its input changed writes the others, and is the same again.
fn writes_what_it_reads(alloc: Global) -> bool {
    let Some(change) = Change::new(0x1_0000, b'!') else {
        return false;
    };
    match changed_report(alloc, &READER, 19, change) {
        Some(first) => has_written(&first) && is_same_again(alloc, &READER, 1, &first, 100),
        None => false,
    }
}

/// Whether a run has written all that it read, in three parts, after which there was no more.
fn has_written(report: &RunReport) -> bool {
    matches!(report.end, RunEnd::Exit(0))
        && report.steps == 54
        && is_of_one(report, 40)
        && report.events.len() == 8
        && report.output.as_slice() == b"!123456789".as_slice()
}
