ghost use Rattle.std.specs.Prelude.{◌≡◌, ◌<◌, ◌+◌, ◌^◌, ◌++◌, length, OnOk, OnErr};
ghost use Rattle.rv_machine.specs.Harts.{harts_in, harts_share};
ghost use Rattle.cfi_script.specs.Plan.{IsOneHart, IsQuietPlan, Plan};

use rv_machine::{Change, Machine};
use rv_word::NoMemory;
use std::alloc::Global;

/// What chooses the hart that takes each step of a run, and changes data between the instructions. No call changes what it
/// is: what a meddler keeps for the next call, as how far it has come, is no part of its model.
pub trait Meddler {
    /// The hart that takes each step and the changes before it, by the number of steps taken and the state then.
    ghost plan: { Self → Plan };

    /// The hart that takes the next step, `step` being the number of steps taken.
    fn hart(&mut self, step: u64, seen: &Machine) -> u8
        ensures answered { result ≡ (plan self.old).hart step (length seen.now.resting) (harts_in seen.now) (harts_share seen.now) }
        ensures below { result < length seen.now.resting }
        ensures kept { self.new ≡ self.old };

    /// The number of steps up to which it is known without a look at the state that no change comes, `step`
    /// being the number of steps taken. `step` itself is always right: a meddler that cannot tell leaves this
    /// as it is.
    fn quiet_until(&self, step: u64) -> u64
        ensures { IsQuietPlan step result (plan self.now) }
    {
        step
    }

    /// The hart that takes the next step, as `hart` answers it, and a number of steps, more than `step`, up to which it is
    /// known without a look at the state that it takes them all. `step + 1` is always right, as above.
    fn turn(&mut self, step: u64, seen: &Machine) -> (u8, u64)
        requires { step + 1 < 2 ^ 64 }
        ensures answered { result.0 ≡ (plan self.old).hart step (length seen.now.resting) (harts_in seen.now) (harts_share seen.now) }
        ensures below { result.0 < length seen.now.resting }
        ensures until { IsOneHart step result.1 (length seen.now.resting) result.0 (plan self.old) }
        ensures more { step < result.1 }
        ensures kept { self.new ≡ self.old }
    {
        (self.hart(step, seen), step + 1)
    }

    /// Appends the changes that come before the next step, `step` being the number of steps taken. A
    /// refusal leaves `into` as it was.
    fn meddle(
        &mut self,
        alloc: Global,
        step: u64,
        seen: &Machine,
        into: &mut Vec<Change>,
    ) -> Result<(), NoMemory>
        ensures answered { OnOk result
            (into.new.items ≡ into.old.items ++ (plan self.old).changes step (length seen.now.resting) (harts_in seen.now) (harts_share seen.now)) }
        ensures refused { OnErr result (into.new.items ≡ into.old.items) }
        ensures kept { self.new ≡ self.old };
}
