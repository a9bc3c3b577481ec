ghost use Rattle.std.specs.Prelude.{◌≡◌, ◌≢◌, ◌<◌, ◌≤◌, ℕ, List, [], length, Err, IfOk, OnOk, OnErr};
ghost use Rattle.tool_io.specs.Entries.{bytes_at};

use crate::entries::put_entry;
use crate::{Files, OutEnd, ReadEnd};
use std::alloc::{AllocError, Global};
use std::collections::BTreeMap;

/// Files in memory, no read and no write of which fails. A name that is not there reads as empty. Which were read is not told.
#[derive(Drop)]
pub struct SureFiles {
    alloc: Global,
    entries: BTreeMap<String, Vec<u8>>,
    long_reads: u64,
}

/// The bytes that a name holds: none where it is not there.
fn held<'a>(entries: &'a BTreeMap<String, Vec<u8>>, name: &str) -> &'a [u8]
    ensures { result.now ≡ bytes_at entries.now name.now }
{
    match entries.get(name) {
        Some(file) => file.as_slice(),
        None => &[],
    }
}

/// The bytes that a name holds, if they are at most `limit`.
fn held_within(
    alloc: Global,
    entries: &BTreeMap<String, Vec<u8>>,
    name: &str,
    limit: u64,
) -> Result<Vec<u8>, ReadEnd>
    ensures all { IfOk result (λ v. v.items ≡ bytes_at entries.now name.now) }
    ensures within { IfOk result (λ v. length v.items ≤ limit) }
    ensures too_long { result ≡ Err ReadEnd.TooLong → limit < length (bytes_at entries.now name.now) }
    ensures sure { result ≢ Err ReadEnd.Failed }
{
    let bytes = held(entries, name);
    if bytes.len() as u64 > limit {
        return Err(ReadEnd::TooLong);
    }
    Ok(bytes.to_vec(alloc)?)
}

impl SureFiles {
    ghost use Rattle.tool_io.specs.Memory.{sure_bytes};

    /// No files.
    pub fn new(alloc: Global) -> Self
        ensures empty { (name : List ℕ) → sure_bytes result name ≡ [] }
        ensures long_reads { ⟦<SureFiles as Files>⟧.long_reads result ≡ 0 }
    {
        SureFiles {
            alloc,
            entries: BTreeMap::new(alloc),
            long_reads: 0,
        }
    }

    /// Puts a file there, or other bytes into it.
    pub fn insert(&mut self, name: &str, bytes: &[u8]) -> Result<(), AllocError>
        ensures written { OnOk result (sure_bytes self.new name.now ≡ bytes.now) }
        ensures others { (other : List ℕ) → other ≢ name.now → sure_bytes self.new other ≡ sure_bytes self.old other }
        ensures unchanged { OnErr result (sure_bytes self.new name.now ≡ sure_bytes self.old name.now) }
        ensures long_reads { ⟦<SureFiles as Files>⟧.long_reads self.new ≡ ⟦<SureFiles as Files>⟧.long_reads self.old }
    {
        put_entry(self.alloc, &mut self.entries, name, bytes)
    }

    /// The bytes that a name holds: none where it is not there.
    pub fn get(&self, name: &str) -> &[u8]
        ensures { result.now ≡ sure_bytes self.now name.now }
    {
        held(&self.entries, name)
    }
}

impl Files for SureFiles {
    ghost use Rattle.std.specs.Prelude.{[], None, Some};
    ghost use Rattle.tool_io.specs.Entries.{bytes_at};

    ghost content = { λ s name. Some (bytes_at s.entries name) };

    ghost is_absent = { λ s name. ⊥ };

    ghost read_faults = { λ s. 0 };

    ghost write_faults = { λ s. 0 };

    ghost long_reads = { λ s. s.long_reads };

    ghost failed_name = { λ s. [] };

    ghost reads = { λ s. None };

    fn read(&mut self, alloc: Global, name: &str, limit: u64) -> Result<Vec<u8>, ReadEnd> {
        let end = held_within(alloc, &self.entries, name, limit);
        if matches!(end, Err(ReadEnd::TooLong)) {
            self.long_reads = self.long_reads.saturating_add(1);
        }
        end
    }

    fn write(&mut self, name: &str, bytes: &[u8]) -> Result<(), OutEnd> {
        put_entry(self.alloc, &mut self.entries, name, bytes)?;
        Ok(())
    }
}
