ghost use Rattle.std.specs.Prelude.{◌≡◌, ◌+◌, ◌-◌, ◌^◌, ◌≤◌, Err, min};
ghost use Rattle.tool_io.specs.Faults.{Counts};
ghost use Rattle.tool_io.specs.declared.ends.ReadEnd.TheVariants as ReadEnd;

use crate::ReadEnd;
use std::alloc::Global;

/// The counts that an implementation of `Files` keeps, and the name of its last read that failed.
#[derive(Drop)]
pub(crate) struct Faults {
    reads: u64,
    writes: u64,
    long_reads: u64,
    name: String,
}

impl Faults {
    pub(crate) fn none(alloc: Global) -> Self
        ensures reads { result.reads ≡ 0 }
        ensures writes { result.writes ≡ 0 }
        ensures long_reads { result.long_reads ≡ 0 }
    {
        Faults {
            reads: 0,
            writes: 0,
            long_reads: 0,
            name: String::new(alloc),
        }
    }

    /// Counts the end of a read of the file of a name.
    pub(crate) fn note_read(&mut self, name: String, end: &Result<Vec<u8>, ReadEnd>)
        ensures reads { Counts (end.now ≡ Err ReadEnd.Failed) self.old.reads self.new.reads }
        ensures long_reads { Counts (end.now ≡ Err ReadEnd.TooLong) self.old.long_reads self.new.long_reads }
        ensures writes { self.new.writes ≡ self.old.writes }
        ensures named { end.now ≡ Err ReadEnd.Failed → self.new.name ≡ name }
        ensures name_kept { ¬ (end.now ≡ Err ReadEnd.Failed) → self.new.name ≡ self.old.name }
    {
        match end {
            Err(ReadEnd::Failed) => {
                self.reads = self.reads.saturating_add(1);
                self.name = name;
            }
            Err(ReadEnd::TooLong) => self.long_reads = self.long_reads.saturating_add(1),
            Err(ReadEnd::NoMemory) | Ok(_) => {}
        }
    }

    pub(crate) fn write_failed(&mut self)
        ensures counted { self.new.writes ≡ min (self.old.writes + 1) (2 ^ 64 - 1) }
        ensures later { self.old.writes ≤ self.new.writes }
        ensures rest { self.new ≡ record self.old { writes = self.new.writes } }
    {
        self.writes = self.writes.saturating_add(1);
    }
}
