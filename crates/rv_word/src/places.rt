ghost use Rattle.std.specs.Prelude.{◌≡◌, length, ◌==◌, ◌++◌, ◌∷◌, [], OnOk, OnErr};

use crate::no_memory::NoMemory;
use std::marker::Model;

/// A list of addresses or places that owns its memory.
#[derive(Drop)]
pub struct Places {
    items: Vec<u64>,
}

impl Model for Places {
    ghost use Rattle.std.specs.Prelude.{List, ℕ};

    ghost Value = { List ℕ };

    ghost view = { λ p. p.items.items };
}

impl Places {
    /// The list with these members, in their order.
    pub fn of(items: Vec<u64>) -> Self
        ensures { result ≡ items.items }
    {
        Places { items }
    }

    /// The members, given back without taking memory.
    pub fn into_vec(self) -> Vec<u64>
        ensures { result.items ≡ self }
    {
        self.items
    }

    /// The members, lent.
    pub fn as_slice(&self) -> &[u64]
        ensures { result.now ≡ self.now }
    {
        self.items.as_slice()
    }

    /// How many members it has.
    pub fn len(&self) -> usize
        ensures { result ≡ length self.now }
    {
        self.items.len()
    }

    /// Whether it has none.
    pub fn is_empty(&self) -> bool
        ensures { result ≡ (length self.now == 0) }
    {
        self.items.is_empty()
    }

    /// Puts a member at the end; a refusal leaves the list as it was.
    pub fn push(&mut self, place: u64) -> Result<(), NoMemory>
        ensures grown { OnOk result (self.new ≡ self.old ++ place ∷ []) }
        ensures refused { OnErr result (self.new ≡ self.old) }
    {
        self.items.push(place)?;
        Ok(())
    }
}
