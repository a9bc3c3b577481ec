//! Files that are read by name, or why one is not.

ghost use Rattle.std.specs.Prelude.{◌≡◌, ◌∷◌, [], IfOk, IfErr, IsOk, length, map, option_map, vec_len};
ghost use Rattle.tool_io.specs.Names.{AreRead};
ghost use Rattle.tool_io.specs.Reading.{CountsReads, IsOnlyRead};
ghost use Rattle.tool_common.specs.Reads.{GaveAll, GaveNamed, IsFault, IsStop, IsTooLong, file_names, unread_status};

use crate::status;
use rv_word::NoMemory;
use std::alloc::{AllocFailed, Global};
use std::fmt;
use tool_io::{Files, ReadEnd};

/// How many bytes a file may have.
const LIMIT: u64 = 1 << 26;

/// Why a file's bytes were not read.
#[derive(Clone, Copy)]
pub enum Unread<'a> {
    /// The read of the file of this name failed.
    Fault(&'a str),
    /// The file of this name has too many bytes.
    TooLong(&'a str),
}

impl Unread<'_> {
    /// The status with which the program ends.
    pub fn status(&self) -> u8
        ensures { result ≡ unread_status self.now }
    {
        match self {
            Unread::Fault(_) => status::READ_FAULT,
            Unread::TooLong(_) => status::TOO_LONG,
        }
    }
}

impl fmt::Display for Unread<'_> {
    ghost use Rattle.std.specs.Prelude.{Some};
    ghost use Rattle.tool_common.specs.Reads.{unread_line};

    ghost output = { λ unread. Some (unread_line unread) };

    fn fmt<W: fmt::Write>(&self, f: &mut fmt::Formatter<W>) -> fmt::Result {
        match self {
            Unread::Fault(name) => write!(f, "read fault {name}"),
            Unread::TooLong(name) => write!(f, "too long {name}"),
        }
    }
}

/// Why a command came to no outcome of its own.
#[derive(Clone, Copy)]
pub enum Stop<'a> {
    /// A file was not read.
    Unread(Unread<'a>),
    NoMemory,
}

impl From<NoMemory> for Stop<'_> {
    ghost use Rattle.std.specs.Prelude.{◌≡◌};
    ghost use Rattle.tool_common.specs.declared.read.Stop.TheVariants as stop;

    ghost from_gives = { λ _ s. s ≡ stop.NoMemory };

    fn from(_: NoMemory) -> Self {
        Stop::NoMemory
    }
}

impl<T: Drop> From<AllocFailed<T>> for Stop<'_> {
    ghost use Rattle.std.specs.Prelude.{◌≡◌};
    ghost use Rattle.tool_common.specs.declared.read.Stop.TheVariants as stop;

    ghost from_gives = { λ _ s. s ≡ stop.NoMemory };

    fn from(_: AllocFailed<T>) -> Self {
        Stop::NoMemory
    }
}

/// The bytes of a file, if one is named; else none.
fn read_named<'a, F: Files>(
    alloc: Global,
    name: Option<&'a str>,
    files: &mut F,
) -> Result<Vec<u8>, Stop<'a>>
    ensures gave { IfOk result (λ v. GaveNamed (F.content files.old) (option_map (λ n. n.now) name.entry) v.items) }
    ensures stopped { IfErr result (IsStop (F.content files.old) (F.failed_name files.new) (option_map (λ n. n.now) name.entry ∷ [])) }
    ensures only_read { IsOnlyRead F.Files files.old files.new }
    ensures counted { CountsReads F.Files files.old files.new (IsFault result) (IsTooLong result) }
    ensures in_order { AreRead (F.reads files.old) (F.reads files.new) (file_names (option_map (λ n. n.now) name.entry ∷ [])) (IsOk result) }
{
    let Some(name) = name else {
        return Ok(Vec::new(alloc));
    };
    match files.read(alloc, name, LIMIT) {
        Ok(bytes) => Ok(bytes),
        Err(ReadEnd::Failed) => Err(Stop::Unread(Unread::Fault(name))),
        Err(ReadEnd::TooLong) => Err(Stop::Unread(Unread::TooLong(name))),
        Err(ReadEnd::NoMemory) => Err(Stop::NoMemory),
    }
}

/// The bytes of the files of these names, which are read in this order; none where no file is named.
pub fn read_all<'a, F: Files>(
    alloc: Global,
    names: &[Option<&'a str>],
    files: &mut F,
) -> Result<Vec<Vec<u8>>, Stop<'a>>
    ensures count { IfOk result (λ all. vec_len all ≡ length names.now) }
    ensures gave { IfOk result (λ all. GaveAll (F.content files.old)
        (map (option_map (λ n. n.now)) names.now) (map (λ b. b.items) all.items)) }
    ensures stopped { IfErr result (IsStop (F.content files.old) (F.failed_name files.new)
        (map (option_map (λ n. n.now)) names.now)) }
    ensures only_read { IsOnlyRead F.Files files.old files.new }
    ensures counted { CountsReads F.Files files.old files.new (IsFault result) (IsTooLong result) }
    ensures in_order { AreRead (F.reads files.old) (F.reads files.new) (file_names (map (option_map (λ n. n.now)) names.now)) (IsOk result) }
{
    let mut all = Vec::new(alloc);
    for name in names {
        all.push(read_named(alloc, *name, files)?)?;
    }
    Ok(all)
}
