//! The image's run, followed as long as its system calls are those of the program's.

ghost use Rattle.std.specs.Prelude.{◌≡◌, ◌≤◌, ◌^◌, [], false, IfOk, replicate};
ghost use Rattle.rv_image.specs.MemoryMap.{profile_of};
ghost use Rattle.rv_code.specs.Run.{run_alone};
ghost use Rattle.rv_machine.specs.Parts.{hart_in, shared_in};
ghost use Rattle.cfi_compare.specs.Followed.{Agree, IsFollowed, agree_at, is_stop};

use crate::item::same_event;
use rv_code::Events;
use rv_machine::{Processor, Turn};
use rv_word::NoMemory;

/// Whether the system calls at an index are there in both lists and the same.
fn agree_at(ours: &Events, theirs: &Events, index: usize) -> bool
    ensures { result ≡ agree_at ours.now theirs.now index }
{
    match (ours.as_slice().get(index), theirs.as_slice().get(index)) {
        (Some(e), Some(f)) => same_event(e, f),
        _ => false,
    }
}

/// How many system calls two lists have alike, where so many are known to be.
fn alike(ours: &Events, theirs: &Events, known: usize) -> usize
    requires { Agree known ours.now theirs.now }
    ensures agree { Agree result ours.now theirs.now }
    ensures most { agree_at ours.now theirs.now result ≡ false }
{
    let mut index = known;
    while index < ours.len() && agree_at(ours, theirs, index) {
        index += 1;
    }
    index
}

/// Whether a step ended the run.
fn is_stop(turn: Turn) -> bool
    ensures { result ≡ is_stop turn }
{
    !matches!(turn, Turn::Ran)
}

/// Takes steps of the image until it stops, has taken so many or makes a system call that the program does not; tells how the
/// last step ended and how many system calls are alike.
pub(crate) fn follow(
    processor: &mut Processor,
    events: &Events,
    most: u64,
) -> Result<(Turn, usize), NoMemory>
    requires { (shared_in processor.old).events ≡ [] }
    ensures { IfOk result (λ r. IsFollowed events.now
        (run_alone (profile_of processor.old.memory.version) (hart_in processor.old) (shared_in processor.old) (replicate most []))
        (shared_in processor.new).events r.0 r.1) }
{
    let mut steps = 0;
    let mut index = 0;
    while steps < most {
        let turn = processor.step()?;
        steps += 1;
        let calls = processor.system().events();
        index = alike(events, calls, index);
        if index < calls.len() || is_stop(turn) {
            return Ok((turn, index));
        }
    }
    Ok((Turn::Ran, index))
}
