ghost use Rattle.std.specs.Prelude.{◌≡◌};

use crate::faults::Faults;
use crate::transfer::{read_opened, write_opened};
use crate::{Counted, Files, OutEnd, ReadEnd};
use std::alloc::Global;
use std::{fs, rt};

/// The files of the host, by paths. What they hold is not told, nor which were read.
#[derive(Drop)]
pub struct HostFiles<'a, R: rt::Files> {
    rt: &'a R,
    faults: Faults,
}

impl<'a, R: rt::Files> HostFiles<'a, R> {
    /// The host's files, none of which has failed.
    pub fn new(alloc: Global, rt: &'a R) -> Self
        ensures reads { ⟦<HostFiles<'a, R> as Files>⟧.read_faults result ≡ 0 }
        ensures writes { ⟦<HostFiles<'a, R> as Files>⟧.write_faults result ≡ 0 }
        ensures long_reads { ⟦<HostFiles<'a, R> as Files>⟧.long_reads result ≡ 0 }
    {
        HostFiles {
            rt,
            faults: Faults::none(alloc),
        }
    }
}

impl<'a, R: rt::Files> Files for HostFiles<'a, R> {
    ghost use Rattle.std.specs.Prelude.{None, string_bytes};

    ghost content = { λ s name. None };

    ghost is_absent = { λ s name. ⊥ };

    ghost read_faults = { λ s. s.faults.reads };

    ghost write_faults = { λ s. s.faults.writes };

    ghost long_reads = { λ s. s.faults.long_reads };

    ghost failed_name = { λ s. string_bytes s.faults.name };

    ghost reads = { λ s. None };

    fn read(&mut self, alloc: Global, name: &str, limit: u64) -> Result<Vec<u8>, ReadEnd> {
        let named = String::from_str(alloc, name)?;
        let mut opened = fs::open(self.rt, name).map(Counted::new);
        let end = read_opened(alloc, &mut opened, limit);
        self.faults.note_read(named, &end);
        end
    }

    fn write(&mut self, name: &str, bytes: &[u8]) -> Result<(), OutEnd> {
        let end = write_opened(&mut fs::create(self.rt, name), bytes);
        if end.is_err() {
            self.faults.write_failed();
        }
        end
    }
}
