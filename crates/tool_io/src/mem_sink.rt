ghost use Rattle.std.specs.Prelude.{◌≡◌, Some, []};

use crate::calls::Calls;
use crate::{OutEnd, Sink};
use std::alloc::Global;

/// An output in memory. The calls with the numbers that it was given fail, and append nothing.
#[derive(Drop)]
pub struct MemSink {
    bytes: Vec<u8>,
    calls: Calls,
    faults: u64,
}

impl MemSink {
    /// Nothing written. The calls of `put` with these numbers fail, the first having number 0.
    pub fn new(alloc: Global, failing: Vec<u64>) -> Self
        ensures written { ⟦<MemSink as Sink>⟧.written result ≡ Some [] }
        ensures faults { ⟦<MemSink as Sink>⟧.faults result ≡ 0 }
    {
        MemSink {
            bytes: Vec::new(alloc),
            calls: Calls::new(failing),
            faults: 0,
        }
    }

    /// What was written.
    pub fn bytes(&self) -> &[u8]
        ensures { ⟦<MemSink as Sink>⟧.written self.now ≡ Some result.now }
    {
        self.bytes.as_slice()
    }
}

impl Sink for MemSink {
    ghost use Rattle.std.specs.Prelude.{Some};

    ghost written = { λ s. Some s.bytes.items };

    ghost faults = { λ s. s.faults };

    fn put(&mut self, bytes: &[u8]) -> Result<(), OutEnd> {
        if self.calls.next_fails() {
            self.faults = self.faults.saturating_add(1);
            return Err(OutEnd::Failed);
        }
        self.bytes.extend_from_slice(bytes)?;
        Ok(())
    }
}
