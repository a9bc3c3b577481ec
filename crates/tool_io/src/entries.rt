//! What files in memory do alike: an entry is put, and is read within a limit.
ghost use Rattle.std.specs.Prelude.{◌≡◌, ◌≢◌, ◌<◌, ◌≤◌, ℕ, List, length, Some, None, Err, IfOk, OnOk, OnErr};
ghost use Rattle.tool_io.specs.Entries.{bytes_at, entry_at};

use crate::ReadEnd;
use std::alloc::{AllocError, Global};
use std::collections::BTreeMap;

/// Puts a file there, or other bytes into it.
pub(crate) fn put_entry(
    alloc: Global,
    entries: &mut BTreeMap<String, Vec<u8>>,
    name: &str,
    bytes: &[u8],
) -> Result<(), AllocError>
    ensures written { OnOk result (entry_at entries.new name.now ≡ Some bytes.now) }
    ensures others { (other : List ℕ) → other ≢ name.now → entry_at entries.new other ≡ entry_at entries.old other }
    ensures unchanged { OnErr result (entry_at entries.new name.now ≡ entry_at entries.old name.now) }
{
    let name = String::from_str(alloc, name)?;
    let bytes = bytes.to_vec(alloc)?;
    entries.insert(name, bytes)?;
    Ok(())
}

/// The bytes of a file, if it is there and has at most `limit` bytes.
pub(crate) fn read_entry(
    alloc: Global,
    entries: &BTreeMap<String, Vec<u8>>,
    name: &str,
    limit: u64,
) -> Result<Vec<u8>, ReadEnd>
    ensures all { IfOk result (λ v. entry_at entries.now name.now ≡ Some v.items) }
    ensures within { IfOk result (λ v. length v.items ≤ limit) }
    ensures too_long { result ≡ Err ReadEnd.TooLong → limit < length (bytes_at entries.now name.now) }
    ensures absent { result ≡ Err ReadEnd.Failed → entry_at entries.now name.now ≡ None }
{
    let Some(bytes) = entries.get(name) else {
        return Err(ReadEnd::Failed);
    };
    if bytes.len() as u64 > limit {
        return Err(ReadEnd::TooLong);
    }
    Ok(bytes.as_slice().to_vec(alloc)?)
}
