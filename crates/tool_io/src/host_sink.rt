ghost use Rattle.std.specs.Prelude.{◌≡◌};

use crate::transfer::write_whole;
use crate::{OutEnd, Sink};
use std::io::Write;

/// An output over a writer of std, as standard output. It tells what its writer tells.
#[derive(Drop)]
pub struct HostSink<W: Write + Drop> {
    writer: W,
    faults: u64,
}

impl<W: Write + Drop> HostSink<W> {
    /// An output over a writer, none of whose puts has failed.
    pub fn new(writer: W) -> Self
        ensures written { ⟦<HostSink<W> as Sink>⟧.written result ≡ W.contents writer }
        ensures faults { ⟦<HostSink<W> as Sink>⟧.faults result ≡ 0 }
    {
        HostSink { writer, faults: 0 }
    }
}

impl<W: Write + Drop> Sink for HostSink<W> {
    ghost written = { λ s. W.contents s.writer };

    ghost faults = { λ s. s.faults };

    fn put(&mut self, bytes: &[u8]) -> Result<(), OutEnd> {
        let end = write_whole(&mut self.writer, bytes);
        if end.is_err() {
            self.faults = self.faults.saturating_add(1);
        }
        end
    }
}
