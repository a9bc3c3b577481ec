//! The changes that a run has seen.

ghost use Rattle.std.specs.Prelude.{◌≡◌, ◌==◌, ◌++◌, ◌∷◌, [], length, OnOk, OnErr};

use rv_machine::Change;
use rv_word::NoMemory;
use std::alloc::Global;
use std::marker::Model;

/// The changes that were made in a run, in their order, each with the number of steps taken before it.
#[derive(Drop)]
pub struct Record {
    items: Vec<(u64, Change)>,
}

impl Model for Record {
    ghost use Rattle.std.specs.Prelude.{ℕ, List};

    ghost Value = { List (ℕ × (ℕ × ℕ)) };

    ghost view = { λ r. r.items.items };
}

impl Record {
    pub(crate) fn new(alloc: Global) -> Self
        ensures { result ≡ [] }
    {
        Record {
            items: Vec::new(alloc),
        }
    }

    pub(crate) fn push(&mut self, step: u64, change: Change) -> Result<(), NoMemory>
        ensures pushed { OnOk result (self.new ≡ self.old ++ (step, change) ∷ []) }
        ensures refused { OnErr result (self.new ≡ self.old) }
    {
        self.items.push((step, change))?;
        Ok(())
    }

    /// The changes, lent.
    pub fn as_slice(&self) -> &[(u64, Change)]
        ensures { result.now ≡ self.now }
    {
        self.items.as_slice()
    }

    /// How many changes it has.
    pub fn len(&self) -> usize
        ensures { result ≡ length self.now }
    {
        self.items.len()
    }

    /// Whether it has none.
    pub fn is_empty(&self) -> bool
        ensures { result ≡ (length self.now == 0) }
    {
        self.items.is_empty()
    }
}
