//! Reports of runs of programs, and when two are the same.

ghost use Rattle.std.specs.Prelude.{◌≡◌, IfSome, IsTrue};
ghost use Rattle.rv_image.specs.Image.{image_profile};
ghost use Rattle.rv_image.specs.MemoryMap.{MayRun, profile_of};
ghost use Rattle.cfi_script.specs.Script.{IsScript};

use cfi_graph::{Graph, read_graph};
use cfi_script::{Meddler, Script};
use cfi_step::{HartWalk, RunReport, run};
use cfi_verify::{Checked, verify};
use rv_code::{Event, Events};
use rv_image::{Image, ImageVersion};
use sample_programs::{code, code_of_harts};
use std::alloc::Global;

/// A program that is run.
pub struct Program {
    pub version: ImageVersion,
    pub units: &'static [u32],
    pub graph: &'static [u8],
    pub data: &'static [u8],
    pub input: &'static [u8],
}

/// The report of a run of a program by so many harts; none if it is not accepted, it may not have so many, or there is no memory.
pub fn report<M: Meddler>(
    alloc: Global,
    program: &Program,
    harts: u8,
    meddler: &mut M,
    limit: u64,
) -> Option<RunReport>
    ensures { IfSome result (λ report. IsScript report.made) }
{
    let made = match program.version {
        ImageVersion::OneHart => code(alloc, program.units),
        ImageVersion::EightHarts => code_of_harts(alloc, program.units),
    };
    match made {
        Ok(bytes) => report_of(alloc, &bytes, program, harts, meddler, limit),
        Err(_) => None,
    }
}

/// The report of a run of a program whose code is this.
fn report_of<M: Meddler>(
    alloc: Global,
    code: &[u8],
    program: &Program,
    harts: u8,
    meddler: &mut M,
    limit: u64,
) -> Option<RunReport>
    ensures { IfSome result (λ report. IsScript report.made) }
{
    let (len, init) = (code.len(), program.data.len());
    if len < 4 || len > 0x10_0000 || len % 4 != 0 || init > 0x200_0000 {
        return None;
    }
    let image = Image::of_version(program.version, code, program.data);
    match read_graph(alloc, program.graph) {
        Ok(graph) => report_with(alloc, &image, &graph, program.input, harts, meddler, limit),
        Err(_) => None,
    }
}

/// The report of a run of an image.
fn report_with<M: Meddler>(
    alloc: Global,
    image: &Image<'_>,
    graph: &Graph,
    input: &[u8],
    harts: u8,
    meddler: &mut M,
    limit: u64,
) -> Option<RunReport>
    ensures { IfSome result (λ report. IsScript report.made) }
{
    match verify(alloc, image, graph) {
        Ok(checked) => run_of(alloc, &checked, input, harts, meddler, limit),
        Err(_) => None,
    }
}

/// The report of a run with an input.
pub fn run_of<M: Meddler>(
    alloc: Global,
    checked: &Checked<'_>,
    input: &[u8],
    harts: u8,
    meddler: &mut M,
    limit: u64,
) -> Option<RunReport>
    ensures { IfSome result (λ report. IsScript report.made) }
{
    if may_run(checked.image(), harts) {
        run(alloc, checked, input, harts, meddler, limit).ok()
    } else {
        None
    }
}

/// Whether a run of an image may have so many harts.
fn may_run(image: &Image<'_>, harts: u8) -> bool
    ensures { IsTrue result → MayRun (image_profile image.now) harts }
{
    harts >= 1 && harts <= most_harts(image.version())
}

/// How many harts a run of an image of a version has at most.
fn most_harts(version: ImageVersion) -> u8
    ensures { result ≡ (profile_of version).harts }
{
    match version {
        ImageVersion::OneHart => 1,
        ImageVersion::EightHarts => 8,
    }
}

/// The arguments of a system call.
fn arguments(call: &Event) -> [u64; 6] {
    [call.a0, call.a1, call.a2, call.a3, call.a4, call.a5]
}

/// Whether two system calls are alike.
fn is_same_call(one: &Event, other: &Event) -> bool {
    one.number == other.number
        && arguments(one) == arguments(other)
        && one.bytes.as_slice() == other.bytes.as_slice()
        && one.answer == other.answer
}

/// Whether two runs made the same system calls.
fn has_same_calls(one: &Events, other: &Events) -> bool {
    for k in 0..one.len() {
        if k >= other.len() || !is_same_call(one.get(k), other.get(k)) {
            return false;
        }
    }
    one.len() == other.len()
}

/// Whether two runs had harts with the same walks.
fn has_same_walks(one: &[HartWalk], other: &[HartWalk]) -> bool {
    for (walk, same) in one.iter().zip(other) {
        if walk.walk != same.walk || walk.trail.as_slice() != same.trail.as_slice() {
            return false;
        }
    }
    one.len() == other.len()
}

/// Whether two runs ended in one way and by one hart, after the same turns, along the same walks, under the same changes, with
/// the same system calls.
fn is_same(one: &RunReport, other: &RunReport) -> bool {
    one.end == other.end
        && one.hart == other.hart
        && one.steps == other.steps
        && one.turns.as_slice() == other.turns.as_slice()
        && has_same_walks(one.walks.as_slice(), other.walks.as_slice())
        && one.made.as_slice() == other.made.as_slice()
        && one.output.as_slice() == other.output.as_slice()
        && has_same_calls(&one.events, &other.events)
}

/// Whether a run under the turns and the changes of another one is the same.
pub fn is_same_again(
    alloc: Global,
    program: &Program,
    harts: u8,
    first: &RunReport,
    limit: u64,
) -> bool
    requires { IsScript first.now.made }
{
    match again(alloc, program, harts, first, limit) {
        Some(again) => is_same(&again, first),
        None => false,
    }
}

/// The report of a run under the turns and the changes of another one.
fn again(
    alloc: Global,
    program: &Program,
    harts: u8,
    first: &RunReport,
    limit: u64,
) -> Option<RunReport>
    requires { IsScript first.now.made }
{
    let mut script = Script::of(alloc, harts, first.turns.as_slice(), first.made.as_slice()).ok()?;
    report(alloc, program, harts, &mut script, limit)
}
