ghost use Rattle.std.specs.Prelude.{◌≡◌, Some, []};

use crate::{OutEnd, Sink};
use std::alloc::Global;

/// An output in memory, no put of which fails.
#[derive(Drop)]
pub struct SureSink {
    bytes: Vec<u8>,
}

impl SureSink {
    /// Nothing written.
    pub fn new(alloc: Global) -> Self
        ensures written { ⟦<SureSink as Sink>⟧.written result ≡ Some [] }
    {
        SureSink {
            bytes: Vec::new(alloc),
        }
    }

    /// What was written.
    pub fn bytes(&self) -> &[u8]
        ensures { ⟦<SureSink as Sink>⟧.written self.now ≡ Some result.now }
    {
        self.bytes.as_slice()
    }
}

impl Sink for SureSink {
    ghost use Rattle.std.specs.Prelude.{Some};

    ghost written = { λ s. Some s.bytes.items };

    ghost faults = { λ s. 0 };

    fn put(&mut self, bytes: &[u8]) -> Result<(), OutEnd> {
        self.bytes.extend_from_slice(bytes)?;
        Ok(())
    }
}
