//! The harts of a run's steps, as turns.

ghost use Rattle.std.specs.Prelude.{◌≡◌, ◌≢◌, ◌≤◌, ◌==◌, ◌++◌, ◌∷◌, [], ℕ, List, length, IfOk, OnOk, OnErr};
ghost use Rattle.cfi_script.specs.Turns.{turns_of};
ghost use Rattle.cfi_step.specs.Report.{last_hart};
ghost use Rattle.cfi_step.specs.Taken.{AreTurnsOf};

use rv_word::NoMemory;
use std::alloc::Global;
use std::marker::Model;

/// Which hart took each step of a run, as turns: each a hart, and how many steps it took in a row.
#[derive(Drop)]
pub struct Turns {
    items: Vec<(u8, u64)>,
}

impl Model for Turns {
    ghost use Rattle.std.specs.Prelude.{ℕ, List};

    ghost Value = { List (ℕ × ℕ) };

    ghost view = { λ t. t.items.items };
}

impl Turns {
    fn new(alloc: Global) -> Self
        ensures { result ≡ [] }
    {
        Turns {
            items: Vec::new(alloc),
        }
    }

    fn push(&mut self, hart: u8, steps: u64) -> Result<(), NoMemory>
        ensures pushed { OnOk result (self.new ≡ self.old ++ (hart, steps) ∷ []) }
        ensures refused { OnErr result (self.new ≡ self.old) }
    {
        self.items.push((hart, steps))?;
        Ok(())
    }

    /// The turns, lent.
    pub fn as_slice(&self) -> &[(u8, u64)]
        ensures { result.now ≡ self.now }
    {
        self.items.as_slice()
    }

    /// How many turns it has.
    pub fn len(&self) -> usize
        ensures { result ≡ length self.now }
    {
        self.items.len()
    }

    /// Whether it has none.
    pub fn is_empty(&self) -> bool
        ensures { result ≡ (length self.now == 0) }
    {
        self.items.is_empty()
    }
}

/// The turns of the steps that a run has taken. The one that goes on has no entry yet, so that a further step of
/// its hart costs a comparison alone.
#[derive(Drop)]
pub(crate) struct TakenTurns {
    ended: Turns,
    /// The hart that took the last step; 0 before the first one.
    hart: u8,
    /// The number of steps before the turn that goes on.
    since: u64,
}

impl TakenTurns {
    /// Before the first step.
    pub(crate) fn new(alloc: Global) -> TakenTurns
        ensures none { AreTurnsOf [] result }
        ensures hart { result.hart ≡ 0 }
        ensures since { result.since ≡ 0 }
    {
        TakenTurns {
            ended: Turns::new(alloc),
            hart: 0,
            since: 0,
        }
    }

    /// A hart takes the step with a number.
    #[inline(always)]
    pub(crate) fn take(&mut self, hart: u8, step: u64) -> Result<(), NoMemory>
        requires { self.old.since ≤ step }
        ensures since { OnOk result (self.new.since ≤ step) }
        ensures taken { OnOk result ((harts : List ℕ) → length harts ≡ step → AreTurnsOf harts self.old → AreTurnsOf (harts ++ hart ∷ []) self.new) }
        ensures hart { OnOk result (self.new.hart ≡ hart) }
    {
        if hart != self.hart {
            self.turn_to(hart, step)?;
        }
        Ok(())
    }

    /// Another hart takes the step with a number.
    fn turn_to(&mut self, hart: u8, step: u64) -> Result<(), NoMemory>
        requires other { hart ≢ self.old.hart }
        requires since { self.old.since ≤ step }
        ensures since { OnOk result (self.new.since ≤ step) }
        ensures taken { OnOk result ((harts : List ℕ) → length harts ≡ step → AreTurnsOf harts self.old → AreTurnsOf (harts ++ hart ∷ []) self.new) }
        ensures hart { OnOk result (self.new.hart ≡ hart) }
    {
        self.close(step)?;
        self.hart = hart;
        self.since = step;
        Ok(())
    }

    /// The turn that goes on ends, after so many steps of the run.
    fn close(&mut self, steps: u64) -> Result<(), NoMemory>
        requires { self.old.since ≤ steps }
        ensures ended { OnOk result ((harts : List ℕ) → length harts ≡ steps → AreTurnsOf harts self.old → self.new.ended ≡ turns_of harts) }
        ensures hart { self.new.hart ≡ self.old.hart }
    {
        let taken = steps - self.since;
        if taken > 0 {
            self.ended.push(self.hart, taken)?;
        }
        Ok(())
    }

    /// The hart that took the last step; 0 before the first one.
    pub(crate) fn last(&self) -> u8
        ensures value { result ≡ self.now.hart }
        ensures last { (harts : List ℕ) → AreTurnsOf harts self.now → result ≡ last_hart harts }
    {
        self.hart
    }

    /// The turns of a run of so many steps.
    pub(crate) fn into_turns(mut self, steps: u64) -> Result<Turns, NoMemory>
        requires { self.since ≤ steps }
        ensures { IfOk result (λ turns. (harts : List ℕ) → length harts ≡ steps → AreTurnsOf harts self → turns ≡ turns_of harts) }
    {
        self.close(steps)?;
        Ok(self.ended)
    }
}
