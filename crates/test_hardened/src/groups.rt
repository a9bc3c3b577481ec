//! Runs of stores behind one mask while data change before each of their steps: each store lands where it should, and control stays in
//! the graph. What the undisturbed run puts out, its status and its steps are qemu's; what changes bring was worked out by hand.

ghost use Rattle.std.specs.Prelude.{IfSome};
ghost use Rattle.cfi_script.specs.Script.{IsScript};

use cfi_script::Script;
use cfi_step::{Hostile, RunEnd, RunReport};
use rv_image::ImageVersion;
use sample_programs::{GROUPS, GROUPS_DATA, GROUPS_GRAPH};
use sample_runs::{Program, is_same_again, report};
use std::alloc::Global;

/// A program that stores by each width behind one mask, in its steps from 16 to 21, and puts out what then stands there in step 29.
static STORING: Program = Program {
    version: ImageVersion::OneHart,
    units: &GROUPS,
    graph: GROUPS_GRAPH,
    data: GROUPS_DATA,
    input: b"",
};

/// What the program puts out where nothing is changed: a byte of x6, the byte that nothing stores to, two bytes of x6, four and eight,
/// and x31, which is the masked address.
const PUT: &[u8] = b"A.ABABCDABCDEFGH\x20\x00\x01\x00\x00\x00\x00\x00";

/// Where each store's bytes stand in what is put out, and the step that stores them.
static STORED: [(usize, usize, u64); 5] = [
    (0, 1, 16),
    (2, 4, 18),
    (4, 8, 19),
    (8, 16, 21),
    (16, 24, 17),
];

/// The report of a run under a script for one hart.
fn scripted(alloc: Global, script: &[u8]) -> Option<RunReport>
    ensures { IfSome result (λ report. IsScript report.made) }
{
    let mut script = Script::read(alloc, script).ok()?;
    report(alloc, &STORING, 1, &mut script, 1000)
}

/// Whether a run has the walk of an undisturbed one, which returns to the closing and exits.
fn has_walked(report: &RunReport) -> bool {
    match report.walks.as_slice().first() {
        Some(walk) => walk.walk == 17 && walk.trail.as_slice().last() == Some(&0x4000_0038),
        None => false,
    }
}

/// Whether a run exits with a status after the steps of an undisturbed one, along its walk, and puts out these bytes.
fn is_told(report: &RunReport, status: u8, put: &[u8]) -> bool {
    report.end == RunEnd::Exit(status)
        && report.steps == 38
        && has_walked(report)
        && report.output.as_slice() == put
}

/// Whether a run under a script ends so, and is the same again.
fn is_right(alloc: Global, script: &[u8], status: u8, put: &[u8]) -> bool {
    match scripted(alloc, script) {
        Some(first) => {
            is_told(&first, status, put) && is_same_again(alloc, &STORING, 1, &first, 1000)
        }
        None => false,
    }
}

/// The byte that is put out of a place where `x` is written to all of them before a step: what is stored later stays.
fn left(place: usize, step: u64) -> u8 {
    let own = PUT.get(place).copied().unwrap_or(0);
    if step > 29 {
        return own;
    }
    for row in &STORED {
        if row.0 <= place && place < row.1 && step <= row.2 {
            return own;
        }
    }
    b'x'
}

/// What is put out where that happens; none where there is no memory.
fn left_by(alloc: Global, step: u64) -> Option<Vec<u8>> {
    let mut bytes = Vec::new(alloc);
    for place in 0..24_usize {
        bytes.push(left(place, step)).ok()?;
    }
    Some(bytes)
}

/// Whether a run is right where the bytes that are put out are changed before a step.
fn is_overwritten(alloc: Global, step: u64) -> bool {
    let line = "787878787878787878787878787878787878787878787878";
    let Ok(script) = format!(in alloc; "rvcfi-script 1\nat {step} 00010020 {line}\nend\n") else {
        return false;
    };
    match left_by(alloc, step) {
        Some(put) => is_right(alloc, script.as_bytes(), 65, &put),
        None => false,
    }
}

/// What is stored to is overwritten before each step of the run.
#[test]
fn overwritten(rt: HostRuntime) {
    for step in 0..38_u64 {
        assert!(rt; is_overwritten(rt.alloc(), step), "{step}");
    }
}

/// Changes from step 13 on, before each word behind the load of the address and each store: of what was loaded, of where, to the shadow
/// stack and to code.
fn is_too_late(alloc: Global, step: u64) -> bool {
    let line = "61626364656667680c00006000000000";
    let Ok(script) = format!(in alloc; "rvcfi-script 1\nat {step} 00010000 {line}\nend\n") else {
        return false;
    };
    is_right(alloc, script.as_bytes(), 65, PUT)
}

/// What was loaded before the mask does not change with memory.
#[test]
fn too_late(rt: HostRuntime) {
    for step in 13..38_u64 {
        assert!(rt; is_too_late(rt.alloc(), step), "{step}");
    }
}

/// Changes of a script, the status and what is put out.
struct Row(&'static [u8], u8, &'static [u8]);

static ROWS: [Row; 8] = [
    Row(b"rvcfi-script 1\nend\n", 65, PUT),
    // What is stored is another value, loaded in step 11, and is not where it changes later.
    Row(
        b"rvcfi-script 1\nat 11 00010000 6162636465666768\nend\n",
        97,
        b"a.ababcdabcdefgh\x20\x00\x01\x00\x00\x00\x00\x00",
    ),
    Row(
        b"rvcfi-script 1\nat 12 00010000 6162636465666768\nend\n",
        65,
        PUT,
    ),
    // The address, loaded in step 12, is the first slot of the shadow stack: the stores go to data, from address 8 on.
    Row(
        b"rvcfi-script 1\nat 12 00010008 0c00006000000000\nend\n",
        0,
        b"........................",
    ),
    // It is in code; the stores end behind 2^28.
    Row(
        b"rvcfi-script 1\nat 12 00010008 4000004000000000\nend\n",
        0,
        b"........................",
    ),
    Row(
        b"rvcfi-script 1\nat 12 00010008 0000001000000000\nend\n",
        0,
        b"........................",
    ),
    // It has other upper bits: the stores land where they did.
    Row(
        b"rvcfi-script 1\nat 12 00010008 2400010000000010\nend\n",
        65,
        PUT,
    ),
    Row(
        b"rvcfi-script 1\nat 12 00010008 24000110fcffffff\nend\n",
        65,
        PUT,
    ),
];

#[test]
fn values_and_addresses(rt: HostRuntime) {
    for (k, row) in ROWS.iter().enumerate() {
        assert!(rt; is_right(rt.alloc(), row.0, row.1, row.2), "{k}");
    }
}

/// Whether the hostile meddler finds nothing to change: no store leaves a return address.
fn is_left_alone(alloc: Global) -> bool {
    match report(alloc, &STORING, 1, &mut Hostile, 1000) {
        Some(report) => is_told(&report, 65, PUT) && report.made.as_slice().is_empty(),
        None => false,
    }
}

#[test]
fn hostile(rt: HostRuntime) {
    assert!(rt; is_left_alone(rt.alloc()));
}
