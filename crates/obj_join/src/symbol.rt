ghost use Rattle.std.specs.Prelude.{◌≡◌, ◌==◌, IsSome, [], false, length, unwrap_or};
ghost use Rattle.std.specs.Str.{bytes_eq};
ghost use Rattle.elf_bytes.specs.Fields.{string_of};
ghost use Rattle.obj_join.specs.Symbols.{is_some_symbol, no_symbol};
ghost use Rattle.obj_join.specs.Blocks.{is_block};
ghost use Rattle.obj_join.specs.Definer.{is_private, is_put, is_shared, is_strong, is_weak, is_common};
ghost use Rattle.obj_join.specs.Ranked.{has_rank};

use crate::rank::Rank;
use crate::standing::Standing;
use elf_bytes::name_at;
use obj_input::{Definition, Name};
use std::marker::Model;

/// The bindings of symbols whose names several objects share (System V gABI, "Symbol Table").
const STB_GLOBAL: u8 = 1;

const STB_WEAK: u8 = 2;

/// A symbol without the file that says it. It borrows the table of names from its name on, and looks for the name's end
/// only when it is asked for the name.
#[derive(Drop)]
pub struct Symbol<'a> {
    rest: &'a [u8],
    binding: u8,
    standing: Standing,
    value: u64,
    size: u64,
    is_function: bool,
}

impl<'a> Model for Symbol<'a> {
    ghost use Rattle.std.specs.Prelude.{[], IsSome, unwrap_or};
    ghost use Rattle.elf_bytes.specs.Fields.{string_of};
    ghost use Rattle.obj_join.specs.Said.{SymbolSaid};

    ghost Value = { SymbolSaid };

    ghost view = { λ s. record {
      name = unwrap_or (string_of s.rest.now) [];
      binding = s.binding;
      standing = s.standing;
      value = s.value;
      size = s.size;
      is_function = s.is_function;
    } };

    ghost invariant = { λ s. IsSome (string_of s.rest.now) };
}

impl<'a> Symbol<'a> {
    /// The symbol that is none.
    pub fn none() -> Symbol<'a>
        ensures { result ≡ no_symbol }
    {
        Symbol {
            rest: &[0],
            binding: 0,
            standing: Standing::IsNone,
            value: 0,
            size: 0,
            is_function: false,
        }
    }

    /// The symbol with this binding, standing, value and size, whose name, which may be empty, is what stands at the
    /// beginning of some bytes before their first NUL; and whether it is a function in code. The NUL is not looked for.
    pub fn of(
        rest: &'a [u8],
        binding: u8,
        standing: Standing,
        value: u64,
        size: u64,
        is_function: bool,
    ) -> Symbol<'a>
        requires { IsSome (string_of rest.now) }
        ensures { result ≡ record { name = unwrap_or (string_of rest.now) []; binding = binding; standing = standing; value = value; size = size; is_function = is_function } }
    {
        Symbol {
            rest,
            binding,
            standing,
            value,
            size,
            is_function,
        }
    }

    /// Its name. It costs a search for the name's end.
    pub fn name(&self) -> &'a [u8]
        ensures { result.now ≡ self.now.name }
    {
        name_at(self.rest, 0).unwrap_or(&[])
    }

    /// Whether its name is empty.
    fn is_nameless(&self) -> bool
        ensures { result ≡ (length self.now.name == 0) }
    {
        match self.rest {
            [first, ..] => *first == 0,
            [] => true,
        }
    }

    /// Where it stands.
    pub fn standing(&self) -> Standing
        ensures { result ≡ self.now.standing }
    {
        self.standing
    }

    /// Its value: an offset, a number, or the alignment of a common block.
    pub fn value(&self) -> u64
        ensures { result ≡ self.now.value }
    {
        self.value
    }

    /// How many bytes it has.
    pub fn size(&self) -> u64
        ensures { result ≡ self.now.size }
    {
        self.size
    }

    /// Whether it is a function in code.
    pub fn is_function(&self) -> bool
        ensures { result ≡ self.now.is_function }
    {
        self.is_function
    }

    /// Whether it stands for something.
    pub fn is_some(&self) -> bool
        ensures { result ≡ is_some_symbol self.now.standing }
    {
        !matches!(self.standing, Standing::IsNone)
    }

    /// Whether it is a common block.
    pub fn is_block(&self) -> bool
        ensures { result ≡ is_block self.now.standing }
    {
        matches!(self.standing, Standing::AsCommon)
    }

    /// Whether it stands in a section, or is a number.
    fn is_put(&self) -> bool
        ensures { result ≡ is_put self.now.standing }
    {
        matches!(self.standing, Standing::AsNumber | Standing::InSection(_))
    }

    /// Whether its name is shared among objects.
    pub fn is_shared(&self) -> bool
        ensures { result ≡ is_shared self.now }
    {
        self.is_some()
            && !self.is_nameless()
            && (self.binding == STB_GLOBAL || self.binding == STB_WEAK)
    }

    /// Whether it is a global definition.
    fn is_strong(&self) -> bool
        ensures { result ≡ is_strong self.now }
    {
        self.is_shared() && self.binding == STB_GLOBAL && self.is_put()
    }

    /// Whether it is a weak definition.
    fn is_weak(&self) -> bool
        ensures { result ≡ is_weak self.now }
    {
        self.is_shared() && self.binding == STB_WEAK && self.is_put()
    }

    /// Whether it has this rank.
    pub fn has_rank(&self, rank: Rank) -> bool
        ensures { result ≡ has_rank rank self.now }
    {
        match rank {
            Rank::Strong => self.is_strong(),
            Rank::Common => self.is_shared() && self.is_block(),
            Rank::Weak => self.is_weak(),
            Rank::Private => self.is_some() && !self.is_shared(),
        }
    }

    /// Its name, with this as what it stands for.
    pub fn named(&self, definition: Definition) -> Name<'a>
        ensures { result ≡ record { name = self.now.name; definition = definition } }
    {
        Name::of(self.rest, definition)
    }
}
