ghost use Rattle.std.specs.Prelude.{◌≡◌, is_some, unwrap_or, [], take, drop};
ghost use Rattle.elf_bytes.specs.Fields.{string_at, string_of};
ghost use Rattle.elf_tables.specs.Kept.{is_named};
ghost use Rattle.elf_tables.specs.Names.{IsLastEnd};

use elf_bytes::name_at;
use std::marker::Model;

/// A string table, which knows where its last string ends, so that no string is read to be tested.
#[derive(Drop)]
pub(crate) struct Strings<'a> {
    bytes: &'a [u8],
    end: usize,
}

impl<'a> Model for Strings<'a> {
    ghost use Rattle.std.specs.Prelude.{List, ℕ};
    ghost use Rattle.elf_tables.specs.Names.{IsLastEnd};

    ghost Value = { List ℕ };

    ghost view = { λ s. s.bytes.now };

    ghost invariant = { λ s. IsLastEnd s.bytes.now s.end };
}

impl<'a> Strings<'a> {
    /// The table with these bytes.
    pub(crate) fn of(bytes: &'a [u8]) -> Strings<'a>
        ensures { result ≡ bytes.now }
    {
        Strings {
            bytes,
            end: last_end(bytes),
        }
    }

    /// The bytes of the table.
    pub(crate) fn bytes(&self) -> &'a [u8]
        ensures { result.now ≡ self.now }
    {
        self.bytes
    }

    /// Whether a string begins at `at`.
    pub(crate) fn has(&self, at: u32) -> bool
        ensures { result ≡ is_some (string_at self.now at) }
    {
        (at as usize) < self.end
    }

    /// The string that begins at `at`, empty where there is none.
    pub(crate) fn get(&self, at: u32) -> &'a [u8]
        ensures { result.now ≡ unwrap_or (string_at self.now at) [] }
    {
        name_at(self.bytes, u64::from(at)).unwrap_or(&[])
    }

    /// The table from `at` on, none of it where `at` is past its end. Nothing is looked for.
    pub(crate) fn rest(&self, at: u32) -> &'a [u8]
        ensures { result.now ≡ drop at self.now }
    {
        self.bytes.get(at as usize..).unwrap_or(&[])
    }

    /// Whether the string that begins at `at` is this one. It looks at one byte more than the name has.
    pub(crate) fn is(&self, at: u32, name: &[u8]) -> bool
        ensures { result ≡ is_named name.now (string_at self.now at) }
    {
        begin_with(self.rest(at), name)
    }
}

/// Where the last NUL ends, 0 where there is none.
fn last_end(bytes: &[u8]) -> usize
    ensures { IsLastEnd bytes.now result }
{
    let mut end = 0;
    for (i, b) in bytes.iter().enumerate() {
        if *b == 0 {
            end = i + 1;
        }
    }
    end
}

/// As many of the first `len` bytes as there are.
fn front<'a>(bytes: &'a [u8], len: usize) -> &'a [u8]
    ensures { result.now ≡ take len bytes.now }
{
    bytes.get(..len).unwrap_or(bytes)
}

/// Whether the string that some bytes begin with is this one.
fn is_string(bytes: &[u8], name: &[u8]) -> bool
    ensures { result ≡ is_named name.now (string_of bytes.now) }
{
    match name_at(bytes, 0) {
        Some(found) => found == name,
        None => false,
    }
}

/// The same, looking at one byte more than the name has.
#[tactic(auto, using(crate::proofs::Endings::named_in_front))]
fn begin_with(bytes: &[u8], name: &[u8]) -> bool
    ensures { result ≡ is_named name.now (string_of bytes.now) }
{
    is_string(front(bytes, name.len() + 1), name)
}
