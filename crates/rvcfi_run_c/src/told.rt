ghost use Rattle.std.specs.Prelude.{◌≡◌};
ghost use Rattle.rvcfi_run_c.specs.Told.{not_run, run_of, stop_of};

use cfi_launch::{LaunchFault, Launched};
use cfi_pair::{RvcfiVerdict, Verdict, reason_number, verdict_of};
use cfi_step::{Handler, RunEnd};
use rv_word::End;

/// What a run comes to, in numbers.
#[repr(C)]
#[derive(Clone, Copy)]
pub struct RvcfiRun {
    /// 0 ran, 1 no image, 2 no graph, 3 rejected, 4 no memory, 5 no script, 6 a script for several harts and an image for one.
    pub outcome: u32,
    /// Of 1 to 3 as a verdict has it, of no script 1 form, 2 range, 3 order.
    pub reason: u32,
    /// Of 1 to 3 as a verdict has it, of no script the line from 1, of too many harts their number.
    pub first: u64,
    /// Of a reject by Length the bytes of code that the graph gives.
    pub second: u64,
    /// How the run stopped: 0 at its limit, 1 by an exit, 2 in a handler, 3 by a break, 4 by a load outside memory.
    pub stop: u32,
    /// The hart that stopped it.
    pub hart: u32,
    /// The exit's status, the handler (1 bad target, 2 bad return, 3 deep), or the pc of the break or the load.
    pub value: u64,
    /// The address of the load.
    pub address: u64,
    /// How many steps all harts took.
    pub steps: u64,
    /// How many bytes the program wrote.
    pub written: u64,
}

/// How a run stopped: which way, and two numbers of it.
fn stop_of(end: RunEnd) -> (u32, u64, u64)
    ensures { result ≡ stop_of end }
{
    match end {
        RunEnd::Limit => (0, 0, 0),
        RunEnd::Exit(status) => (1, u64::from(status), 0),
        RunEnd::Handler(Handler::BadTarget) => (2, 1, 0),
        RunEnd::Handler(Handler::BadReturn) => (2, 2, 0),
        RunEnd::Handler(Handler::Deep) => (2, 3, 0),
        RunEnd::Break(pc) => (3, pc, 0),
        RunEnd::LoadFault(pc, address) => (4, pc, address),
    }
}

/// What is told where there was no run.
fn not_run(verdict: RvcfiVerdict) -> RvcfiRun
    ensures { result ≡ not_run verdict }
{
    RvcfiRun {
        outcome: verdict.outcome,
        reason: verdict.reason,
        first: verdict.first,
        second: verdict.second,
        stop: 0,
        hart: 0,
        value: 0,
        address: 0,
        steps: 0,
        written: 0,
    }
}

/// The numbers of what a run comes to.
pub(crate) fn run_of(said: &Result<Launched, End<LaunchFault>>) -> RvcfiRun
    ensures { result ≡ run_of said.now }
{
    match said {
        Ok(Launched::Ran(_, report)) => {
            let (stop, value, address) = stop_of(report.end);
            RvcfiRun {
                outcome: 0,
                reason: 0,
                first: 0,
                second: 0,
                stop,
                hart: u32::from(report.hart),
                value,
                address,
                steps: report.steps,
                written: report.output.len() as u64,
            }
        }
        Ok(Launched::Rejected(reject)) => not_run(verdict_of(Ok(Verdict::Rejected(*reject)))),
        Err(End::Fault(LaunchFault::Pair(fault))) => {
            not_run(verdict_of(Err(End::Fault(*fault))))
        }
        Err(End::Fault(LaunchFault::Script(line, reason))) => not_run(RvcfiVerdict {
            outcome: 5,
            reason: reason_number(*reason),
            first: *line,
            second: 0,
        }),
        Err(End::Fault(LaunchFault::Harts(count))) => not_run(RvcfiVerdict {
            outcome: 6,
            reason: 0,
            first: u64::from(*count),
            second: 0,
        }),
        Err(End::NoMemory) => not_run(verdict_of(Err(End::NoMemory))),
    }
}
