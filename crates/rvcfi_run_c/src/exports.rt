ghost use Rattle.std.specs.Prelude.{◌≡◌, ◌≤◌, ◌⊎◌, option_map};
ghost use Rattle.rvcfi_run_c.specs.Told.{IsComplete, IsRan, IsToldOf, output_of, run_of, script_in};

use crate::told::{RvcfiRun, run_of};
use cfi_launch::{LaunchFault, Launched, launch};
use rv_word::End;
use std::alloc::Global;

/// Runs an image with its graph for at most so many steps, on `input`. An empty script lets one hart run, undisturbed. The answer is the
/// outcome: 0 where it ran, and of what it wrote `output` has as many bytes as it holds; else `output` is as it was.
#[unsafe(no_mangle)]
#[tactic(auto, using(crate::proofs::Ran::kept))]
pub extern "C" fn rvcfi_run(
    alloc: Global,
    image: &[u8],
    graph: &[u8],
    script: &[u8],
    input: &[u8],
    limit: u64,
    output: &mut [u8],
    run: &mut RvcfiRun,
) -> u32
    ensures ran { result ≡ 0 → IsRan image.now graph.now (script_in script.now) input.now limit output.old output.new run.new }
    ensures complete { IsComplete image.now graph.now (script_in script.now) result }
    ensures told { IsToldOf image.now graph.now (script_in script.now) input.now limit run.new }
    ensures outcome { result ≡ run.new.outcome }
    ensures most { result ≤ 6 }
    ensures kept { (result ≡ 0) ⊎ (output.new ≡ output.old) }
{
    let launched = launch(alloc, image, graph, text_of(script), input, limit);
    put_output(&launched, output);
    *run = run_of(&launched);
    run.outcome
}

/// The text of a script, where there is one.
fn text_of(script: &[u8]) -> Option<&[u8]>
    ensures { script_in script.now ≡ option_map (λ t. t.now) result }
{
    if script.is_empty() {
        None
    } else {
        Some(script)
    }
}

/// Puts what a run wrote, as much of it as there is room for.
fn put_output(launched: &Result<Launched, End<LaunchFault>>, output: &mut [u8])
    ensures { output.new ≡ output_of launched.now output.old }
{
    match launched {
        Ok(Launched::Ran(_, report)) => {
            let wrote = report.output.as_slice();
            let n = wrote.len().min(output.len());
            output[..n].copy_from_slice(&wrote[..n]);
        }
        Ok(Launched::Rejected(_)) | Err(_) => {}
    }
}
