//! A stretch of steps of one hart, along which the meddler need not be asked.

ghost use Rattle.std.specs.Prelude.{◌≡◌, ◌≤◌, ◌<◌, ◌+◌, ◌*◌, ◌^◌, ℕ, List, None, length, IfErr, IfOk, OnOk};
ghost use Rattle.rv_image.specs.MemoryMap.{CODE_START, Profile};
ghost use Rattle.rv_code.specs.State.{last_exit};
ghost use Rattle.rv_machine.specs.Harts.{at_pc, harts_share};
ghost use Rattle.cfi_step.specs.Running.{is_stop};
ghost use Rattle.cfi_step.specs.Starts.{AreStartsOf};
ghost use Rattle.cfi_step.specs.Stretch.{Goes, Halts, IsOwnStep, IsStaying, MayFetch, OnStop};

use crate::starts::Starts;
use crate::trail::Trail;
use rv_machine::{Machine, Turn};
use rv_word::NoMemory;

/// A step of the selected hart of a machine at an address. That the run has ended, that no instruction stands there and that
/// it is none of the code's words is excluded, so none of it is asked.
#[inline(always)]
fn take_step(
    machine: &mut Machine,
    trail: &mut Trail,
    starts: &Starts,
    pc: &mut u64,
) -> Result<Turn, NoMemory>
    requires going { last_exit (harts_share machine.old).events ≡ None }
    requires fetch { MayFetch (at_pc machine.old pc.old) }
    requires inside { pc.old < CODE_START + 4 * length starts.now }
    requires room { trail.old.count + 1 < 2 ^ 64 }
    ensures { IfOk result (λ turn. (p : Profile) (words : List ℕ) → AreStartsOf p words starts.now → IsOwnStep p words (at_pc machine.old pc.old) (at_pc machine.new pc.new) trail.old trail.new turn) }
{
    let (word, ready) = machine.fetch_known(*pc);
    trail.note_start(*pc, starts.at(word));
    machine.step_at(pc, &ready)
}

/// Why a hart goes on no further, before the meddler is to be asked.
pub(crate) enum Halt {
    /// The run stopped: how its last step ended, and how many are then taken.
    Stopped(Turn, u64),
    /// Memory could not be had.
    NoMemory,
}

impl From<NoMemory> for Halt {
    ghost use Rattle.std.specs.Prelude.{◌≡◌};
    ghost use Rattle.cfi_step.specs.declared.stretch.Halt.TheVariants as halts;

    ghost from_gives = { λ _ h. h ≡ halts.NoMemory };

    fn from(_: NoMemory) -> Self {
        Halt::NoMemory
    }
}

/// Lets the selected hart of a machine take the steps from the one with the number `from` on, until so many are taken. Where
/// the run stops before, the hart is left at any address.
#[inline(always)]
pub(crate) fn take_steps(
    machine: &mut Machine,
    trail: &mut Trail,
    starts: &Starts,
    from: u64,
    until: u64,
) -> Result<(), Halt>
    requires more { from < until }
    requires going { last_exit (harts_share machine.old).events ≡ None }
    requires below { machine.old.current < length machine.old.resting }
    requires room { trail.old.count ≤ from }
    requires stays { IsStaying (length starts.now) machine.old }
    requires known { (p : Profile) × (words : List ℕ) × AreStartsOf p words starts.now }
    ensures goes_on { OnOk result (Goes starts.now from until machine.old trail.old machine.new trail.new) }
    ensures stops { IfErr result (OnStop (Halts starts.now from until machine.old trail.old machine.new trail.new)) }
{
    let mut steps = from;
    let mut pc = machine.pc_of_selected();
    loop {
        let turn = take_step(machine, trail, starts, &mut pc)?;
        steps += 1;
        if is_stop(turn) {
            return Err(Halt::Stopped(turn, steps));
        }
        if steps == until {
            machine.go_to(pc);
            return Ok(());
        }
    }
}

/// Whether a step ended the run.
pub(crate) fn is_stop(turn: Turn) -> bool
    ensures { result ≡ is_stop turn }
{
    !matches!(turn, Turn::Ran)
}
