//! The loop of a run.

ghost use Rattle.std.specs.Prelude.{◌≡◌, ℕ, length, IfOk, OnOk};
ghost use Rattle.rv_image.specs.Image.{image_profile};
ghost use Rattle.cfi_rules.specs.Rules.{pair_profile};
ghost use Rattle.rv_image.specs.MemoryMap.{MayRun};
ghost use Rattle.rv_code.specs.State.{start_hart, start_shared};
ghost use Rattle.rv_machine.specs.Harts.{harts_in, harts_share};
ghost use Rattle.cfi_rules.specs.Split.{code_words};
ghost use Rattle.cfi_rules.specs.Taken.{steps_taken};
ghost use Rattle.cfi_rules.specs.Walks.{walk_of, IsGraphWalk};
ghost use Rattle.cfi_script.specs.Plan.{planned, steps_of};
ghost use Rattle.cfi_script.specs.Script.{IsScript, script_plan};
ghost use Rattle.cfi_step.specs.Report.{AreWalked, IsReport};
ghost use Rattle.cfi_step.specs.Running.{IsBegun, IsOver};
ghost use Rattle.cfi_step.specs.Starts.{AreStartsOf, LiesInCode};

use crate::report::{RunEnd, RunReport, end_of};
use crate::running::Running;
use crate::starts::{Starts, lies_in_code};
use crate::stretch::Halt;
use cfi_script::Meddler;
use cfi_verify::Checked;
use rv_word::NoMemory;
use std::alloc::Global;

/// Takes steps until the run stops, at most `limit`; gives the end and the number of steps.
fn finish<M: Meddler>(
    alloc: Global,
    checked: &Checked<'_>,
    starts: &Starts,
    meddler: &mut M,
    limit: u64,
    running: &mut Running,
) -> Result<(RunEnd, u64), NoMemory>
    requires starts { AreStartsOf (pair_profile checked.now.image checked.now.graph) (code_words checked.now.image.code) starts.now }
    requires inside { LiesInCode (pair_profile checked.now.image checked.now.graph) (code_words checked.now.image.code) }
    requires begun { IsBegun (pair_profile checked.now.image checked.now.graph) checked.now.image running.old }
    ensures over { IfOk result (λ r. IsOver (pair_profile checked.now.image checked.now.graph) checked.now.image (length running.old.machine.resting)
        (harts_in running.old.machine) (harts_share running.old.machine)
        (planned (pair_profile checked.now.image checked.now.graph) (M.plan meddler.old) (length running.old.machine.resting) 0
        (harts_in running.old.machine) (harts_share running.old.machine) limit) r.0 r.1 running.new) }
    ensures kept { meddler.new ≡ meddler.old }
{
    let mut steps = 0;
    while steps < limit {
        let until = running.choose(alloc, meddler, steps, limit)?;
        match running.go_on(starts, steps, until) {
            Ok(()) => steps = until,
            Err(Halt::Stopped(turn, taken)) => return Ok((end_of(turn), taken)),
            Err(Halt::NoMemory) => return Err(NoMemory),
        }
    }
    Ok((RunEnd::Limit, steps))
}

/// Runs an accepted image with an input and so many harts, at most `limit` steps. A meddler chooses the hart
/// that takes each of them, and changes the image's data before it.
pub fn run<M: Meddler>(
    alloc: Global,
    checked: &Checked<'_>,
    input: &[u8],
    harts: u8,
    meddler: &mut M,
    limit: u64,
) -> Result<RunReport, NoMemory>
    requires { MayRun (image_profile checked.now.image) harts }

    // The report is that of the run in the steps that the plan makes.
    ensures report { IfOk result (IsReport (pair_profile checked.now.image checked.now.graph) checked.now.image input.now harts
        (planned (pair_profile checked.now.image checked.now.graph) (M.plan meddler.old) harts 0 start_hart (start_shared checked.now.image input.now) limit)) }

    // Its turns and the changes that were made are a script, and a run under that script takes the same steps again.
    ensures script { IfOk result (λ report. IsScript report.made) }
    ensures replayed { IfOk result (λ report.
        planned (pair_profile checked.now.image checked.now.graph) (script_plan (record { harts = harts; turns = report.turns; changes = report.made })) harts 0 start_hart (start_shared checked.now.image input.now) limit
        ≡ planned (pair_profile checked.now.image checked.now.graph) (M.plan meddler.old) harts 0 start_hart (start_shared checked.now.image input.now) limit) }

    // The walk of each hart in that run is a list of steps of the graph walk.
    ensures walk { OnOk result ((k : ℕ) → IsGraphWalk (pair_profile checked.now.image checked.now.graph) (code_words checked.now.image.code) checked.now.graph.lines
        (walk_of (pair_profile checked.now.image checked.now.graph) (code_words checked.now.image.code) k (steps_taken (pair_profile checked.now.image checked.now.graph) start_hart (start_shared checked.now.image input.now)
        (steps_of (planned (pair_profile checked.now.image checked.now.graph) (M.plan meddler.old) harts 0 start_hart (start_shared checked.now.image input.now) limit))))) }

    // What the report has of a hart's walk is of the walk of that hart in this run, from the opening on, in a run that the machine may take.
    ensures walked { IfOk result (AreWalked (pair_profile checked.now.image checked.now.graph) checked.now.image
        (steps_taken (pair_profile checked.now.image checked.now.graph) start_hart (start_shared checked.now.image input.now)
        (steps_of (planned (pair_profile checked.now.image checked.now.graph) (M.plan meddler.old) harts 0 start_hart (start_shared checked.now.image input.now) limit)))) }

    // The meddler is as it was, so that the next run is under the same plan.
    ensures kept { meddler.new ≡ meddler.old }
{
    checked.is_safe();
    lies_in_code(checked);
    let mut running = Running::new(alloc, checked.image(), input, harts)?;
    let starts = Starts::of(alloc, checked)?;
    let (end, steps) = finish(alloc, checked, &starts, meddler, limit, &mut running)?;
    let report = running.into_report(alloc, end, steps)?;
    Ok(report)
}
