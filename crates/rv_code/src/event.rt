ghost use Rattle.std.specs.Prelude.{◌≡◌, ◌==◌, ◌<◌, ◌++◌, ◌∷◌, [], length, OnOk, OnErr, slice_get};

use rv_word::{Bytes, NoMemory};
use std::alloc::Global;
use std::marker::Model;

/// A system call that a run made: its number (x17), its arguments (x10 to x15), the bytes that it
/// wrote, and its answer.
#[derive(Drop)]
pub struct Event {
    /// The call's number, in x17.
    pub number: u64,
    /// The arguments, in x10 to x15.
    pub a0: u64,
    pub a1: u64,
    pub a2: u64,
    pub a3: u64,
    pub a4: u64,
    pub a5: u64,
    /// The bytes that it wrote.
    pub bytes: Bytes,
    /// The answer, in x10 after it.
    pub answer: u64,
}

/// The system calls of a run, oldest first.
#[derive(Drop)]
pub struct Events {
    items: Vec<Event>,
}

impl Model for Events {
    ghost use Rattle.std.specs.Prelude.{List};
    ghost use Rattle.rv_code.specs.declared.event.Event.{Event};

    ghost Value = { List Event };

    ghost view = { λ e. e.items.items };
}

impl Events {
    /// No system calls.
    pub fn new(alloc: Global) -> Self
        ensures { result ≡ [] }
    {
        Events {
            items: Vec::new(alloc),
        }
    }

    /// Puts a system call at the end; a refusal leaves the list as it was.
    pub fn push(&mut self, event: Event) -> Result<(), NoMemory>
        ensures pushed { OnOk result (self.new ≡ self.old ++ event ∷ []) }
        ensures refused { OnErr result (self.new ≡ self.old) }
    {
        self.items.push(event)?;
        Ok(())
    }

    /// How many system calls there were.
    pub fn len(&self) -> usize
        ensures { result ≡ length self.now }
    {
        self.items.len()
    }

    /// Whether there were none.
    pub fn is_empty(&self) -> bool
        ensures { result ≡ (length self.now == 0) }
    {
        self.items.is_empty()
    }

    /// The system call at an index, from 0 on.
    pub fn get(&self, index: usize) -> &Event
        requires { index < length self.now }
        ensures { slice_get self.now index ≡ Some result.now }
    {
        &self.items[index]
    }

    /// The system calls, lent.
    pub fn as_slice(&self) -> &[Event]
        ensures { result.now ≡ self.now }
    {
        self.items.as_slice()
    }
}
