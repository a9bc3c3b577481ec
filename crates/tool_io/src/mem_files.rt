ghost use Rattle.std.specs.Prelude.{◌≡◌, ◌≢◌, ◌∷◌, [], ℕ, List, Some, None, IsOk, OnOk, OnErr};
ghost use Rattle.std.specs.Option.{option_map};

use crate::calls::Calls;
use crate::entries::{put_entry, read_entry};
use crate::faults::Faults;
use crate::{Files, OutEnd, ReadEnd};
use std::alloc::{AllocError, Global};
use std::collections::BTreeMap;

/// Files in memory. A read of a name that is not there fails, and so do the calls with the numbers
/// that it was given.
#[derive(Drop)]
pub struct MemFiles {
    alloc: Global,
    entries: BTreeMap<String, Vec<u8>>,
    calls: Calls,
    faults: Faults,
    reads: Vec<String>,
}

impl MemFiles {
    ghost use Rattle.tool_io.specs.Memory.{file_at, faults_of};
    ghost use Rattle.tool_io.specs.Names.{AreRead};

    /// No files. The calls of `read` and `write` with these numbers fail, the first having number 0.
    pub fn new(alloc: Global, failing: Vec<u64>) -> Self
        ensures empty { (name : List ℕ) → file_at result name ≡ None }
        ensures reads { ⟦<MemFiles as Files>⟧.read_faults result ≡ 0 }
        ensures writes { ⟦<MemFiles as Files>⟧.write_faults result ≡ 0 }
        ensures long_reads { ⟦<MemFiles as Files>⟧.long_reads result ≡ 0 }
        ensures none_read { ⟦<MemFiles as Files>⟧.reads result ≡ Some [] }
    {
        MemFiles {
            alloc,
            entries: BTreeMap::new(alloc),
            calls: Calls::new(failing),
            faults: Faults::none(alloc),
            reads: Vec::new(alloc),
        }
    }

    /// Puts a file there, or other bytes into it. This is no call that may fail.
    pub fn insert(&mut self, name: &str, bytes: &[u8]) -> Result<(), AllocError>
        ensures written { OnOk result (file_at self.new name.now ≡ Some bytes.now) }
        ensures others { (other : List ℕ) → other ≢ name.now → file_at self.new other ≡ file_at self.old other }
        ensures unchanged { OnErr result (file_at self.new name.now ≡ file_at self.old name.now) }
        ensures faults { faults_of self.new ≡ faults_of self.old }
        ensures none_read { ⟦<MemFiles as Files>⟧.reads self.new ≡ ⟦<MemFiles as Files>⟧.reads self.old }
    {
        put_entry(self.alloc, &mut self.entries, name, bytes)
    }

    /// Notes that the file of a name is read.
    fn note(&mut self, name: &str) -> Result<(), AllocError>
        ensures listed { AreRead (⟦<MemFiles as Files>⟧.reads self.old) (⟦<MemFiles as Files>⟧.reads self.new) (name.now ∷ []) (IsOk result) }
        ensures rest { self.new ≡ record self.old { reads = self.new.reads } }
    {
        let name = String::from_str(self.alloc, name)?;
        self.reads.push(name)?;
        Ok(())
    }

    /// The bytes of a file, if it is there.
    pub fn get(&self, name: &str) -> Option<&[u8]>
        ensures { option_map (λ file. file.now) result ≡ file_at self.now name.now }
    {
        Some(self.entries.get(name)?.as_slice())
    }
}

impl Files for MemFiles {
    ghost use Rattle.std.specs.Prelude.{◌≡◌, None, Some, map, string_bytes};
    ghost use Rattle.tool_io.specs.Entries.{bytes_at, entry_at};

    ghost content = { λ s name. Some (bytes_at s.entries name) };

    ghost is_absent = { λ s name. entry_at s.entries name ≡ None };

    ghost read_faults = { λ s. s.faults.reads };

    ghost write_faults = { λ s. s.faults.writes };

    ghost long_reads = { λ s. s.faults.long_reads };

    ghost failed_name = { λ s. string_bytes s.faults.name };

    ghost reads = { λ s. Some (map (λ name. string_bytes name) s.reads.items) };

    fn read(&mut self, alloc: Global, name: &str, limit: u64) -> Result<Vec<u8>, ReadEnd> {
        let named = String::from_str(alloc, name)?;
        self.note(name)?;
        let end = if self.calls.next_fails() {
            Err(ReadEnd::Failed)
        } else {
            read_entry(alloc, &self.entries, name, limit)
        };
        self.faults.note_read(named, &end);
        end
    }

    fn write(&mut self, name: &str, bytes: &[u8]) -> Result<(), OutEnd> {
        if self.calls.next_fails() {
            self.faults.write_failed();
            return Err(OutEnd::Failed);
        }
        put_entry(self.alloc, &mut self.entries, name, bytes)?;
        Ok(())
    }
}
