//! How a run under the lines of a script ends.

ghost use Rattle.std.specs.Prelude.{IfSome};
ghost use Rattle.cfi_script.specs.Script.{IsScript};

use cfi_script::Script;
use cfi_step::{HartWalk, RunEnd, RunReport};
use sample_runs::{Program, is_same_again, report};
use std::alloc::Global;

/// How a run ends, by which hart and after how many steps, and of each hart's walk the number of its addresses and the last one, 0
/// where there is none.
#[derive(Clone, Copy)]
pub(crate) struct Ended<'a>(
    pub(crate) RunEnd,
    pub(crate) u8,
    pub(crate) u64,
    pub(crate) &'a [(u64, u64)],
);

/// Whether walks have so many addresses each, and these last ones.
fn have_walked(walks: &[HartWalk], wanted: &[(u64, u64)]) -> bool {
    for (walk, row) in walks.iter().zip(wanted) {
        if walk.walk != row.0 || walk.trail.as_slice().last().copied().unwrap_or(0) != row.1 {
            return false;
        }
    }
    walks.len() == wanted.len()
}

/// Whether a run ends so.
pub(crate) fn has_ended(report: &RunReport, ended: &Ended<'_>) -> bool {
    report.end == ended.0
        && report.hart == ended.1
        && report.steps == ended.2
        && have_walked(report.walks.as_slice(), ended.3)
}

/// The report of a run of so many harts under a script.
fn scripted(alloc: Global, program: &Program, harts: u8, script: &str) -> Option<RunReport>
    ensures { IfSome result (λ report. IsScript report.made) }
{
    let mut script = Script::read(alloc, script.as_bytes()).ok()?;
    report(alloc, program, harts, &mut script, 1000)
}

/// Whether a run of so many harts under a script ends so, and is the same again under its turns and changes.
fn ends(alloc: Global, program: &Program, harts: u8, script: &str, ended: &Ended<'_>) -> bool {
    match scripted(alloc, program, harts, script) {
        Some(first) => {
            has_ended(&first, ended) && is_same_again(alloc, program, harts, &first, 1000)
        }
        None => false,
    }
}

/// The same of one hart under the lines of a script for one.
pub(crate) fn ends_alone(alloc: Global, program: &Program, lines: &str, ended: &Ended<'_>) -> bool {
    match format!(in alloc; "rvcfi-script 1\n{lines}end\n") {
        Ok(script) => ends(alloc, program, 1, script.as_str(), ended),
        Err(_) => false,
    }
}

/// The same of so many harts under the lines of a script for several.
pub(crate) fn ends_in_turns(
    alloc: Global,
    program: &Program,
    harts: u8,
    lines: &str,
    ended: &Ended<'_>,
) -> bool {
    match format!(in alloc; "rvcfi-script 2\n{lines}end\n") {
        Ok(script) => ends(alloc, program, harts, script.as_str(), ended),
        Err(_) => false,
    }
}
