ghost use Rattle.std.specs.Prelude.{◌≡◌, ◌≤◌, ◌-◌, ◌^◌, Some, None, IfOk, OnErr};

use rv_word::NoMemory;
use std::marker::Model;

/// What a table has for a place: a number or none, in 32 bits.
#[derive(Drop)]
pub struct Entry {
    next: u32,
}

impl Model for Entry {
    ghost use Rattle.std.specs.Prelude.{ℕ, Option};
    ghost use Rattle.cfi_class.specs.Entries.{number_in};

    ghost Value = { Option ℕ };

    ghost view = { λ e. number_in e.next };
}

impl Entry {
    /// No number.
    pub fn none() -> Entry
        ensures { result ≡ None }
    {
        Entry { next: 0 }
    }

    /// A number. One that 32 bits do not hold wants memory.
    #[tactic(auto, using(crate::proofs::Entering::entered))]
    pub fn of(number: u64) -> Result<Entry, NoMemory>
        ensures value { IfOk result (λ e. e ≡ Some number) }
        ensures refused { OnErr result (2 ^ 32 - 1 ≤ number) }
    {
        if number < u64::from(u32::MAX) {
            let next = number as u32 + 1;
            Ok(Entry { next })
        } else {
            Err(NoMemory)
        }
    }

    /// The number, if there is one.
    pub fn number(&self) -> Option<u64>
        ensures { result ≡ self.now }
    {
        if self.next == 0 {
            None
        } else {
            Some(u64::from(self.next - 1))
        }
    }
}
