ghost use Rattle.std.specs.Prelude.{◌≡◌, ◌<◌, ◌≤◌, [], Some, None, IsSome, length, nat_le, take, unwrap_or, option_map, if◌then◌else◌};
ghost use Rattle.std.specs.Str.{bytes_eq};
ghost use Rattle.elf_bytes.specs.Fields.{string_of};

use crate::parts::Definition;
use elf_bytes::name_at;
use std::marker::Model;

/// A symbol with a name and what it stands for. It borrows the table of names from the name on, and looks for the
/// name's end only when it is asked for the name.
#[derive(Drop)]
pub struct Name<'a> {
    rest: &'a [u8],
    definition: Definition,
}

impl<'a> Model for Name<'a> {
    ghost use Rattle.std.specs.Prelude.{[], IsSome, unwrap_or};
    ghost use Rattle.elf_bytes.specs.Fields.{string_of};
    ghost use Rattle.obj_input.specs.Input.{Named};

    ghost Value = { Named };

    ghost view = { λ n. record { name = unwrap_or (string_of n.rest.now) []; definition = n.definition } };

    ghost invariant = { λ n. IsSome (string_of n.rest.now) };
}

impl<'a> Name<'a> {
    /// The symbol with this definition, whose name, which may be empty, is what stands at the beginning of some bytes
    /// before their first NUL. The NUL is not looked for.
    pub fn of(rest: &'a [u8], definition: Definition) -> Name<'a>
        requires { IsSome (string_of rest.now) }
        ensures { result ≡ record { name = unwrap_or (string_of rest.now) []; definition = definition } }
    {
        Name { rest, definition }
    }

    /// The bytes of the name. They cost a search for its end.
    pub fn bytes(&self) -> &'a [u8]
        ensures { result.now ≡ self.now.name }
    {
        name_at(self.rest, 0).unwrap_or(&[])
    }

    /// The table from the name on.
    pub(crate) fn rest(&self) -> &'a [u8] {
        self.rest
    }

    /// The bytes of the name, if it has at most so many. No more bytes than these and one are looked at.
    pub(crate) fn within(&self, most: usize) -> Option<&'a [u8]>
        requires { most < usize.MAX }
        ensures { option_map (λ name. name.now) result ≡ (if nat_le (length self.now.name) most then Some self.now.name else None) }
    {
        name_at(front(self.rest, most + 1), 0)
    }

    /// Whether this is the name. No more bytes than it has and one are looked at.
    pub fn is(&self, name: &[u8]) -> bool
        ensures { result ≡ bytes_eq self.now.name name.now }
    {
        match self.within(name.len()) {
            Some(found) => found == name,
            None => false,
        }
    }

    /// What the symbol stands for.
    pub fn definition(&self) -> Definition
        ensures { result ≡ self.now.definition }
    {
        self.definition
    }
}

/// As many of the first `len` bytes as there are.
fn front<'a>(bytes: &'a [u8], len: usize) -> &'a [u8]
    ensures { result.now ≡ take len bytes.now }
{
    bytes.get(..len).unwrap_or(bytes)
}
