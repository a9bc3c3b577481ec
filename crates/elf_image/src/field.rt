ghost use Rattle.std.specs.Prelude.{◌≡◌};

/// A field of the headers: its offset in the file, its size in bytes and its value.
#[derive(Clone, Copy)]
pub(crate) struct Field {
    pub(crate) at: u64,
    pub(crate) size: usize,
    pub(crate) value: u128,
}

/// What the program headers say of a segment beside what they have in common.
#[derive(Clone, Copy)]
pub(crate) struct Segment {
    pub(crate) flags: u128,
    pub(crate) offset: u128,
    pub(crate) address: u128,
    pub(crate) file_size: u128,
    pub(crate) memory_size: u128,
}

/// An `Elf64_Half`.
pub(crate) fn half(at: u64, value: u128) -> Field
    ensures { result ≡ record { at = at; size = 2; value = value } }
{
    Field { at, size: 2, value }
}

/// An `Elf64_Word`.
pub(crate) fn word(at: u64, value: u128) -> Field
    ensures { result ≡ record { at = at; size = 4; value = value } }
{
    Field { at, size: 4, value }
}

/// An `Elf64_Xword`, `Elf64_Addr` or `Elf64_Off`.
pub(crate) fn long(at: u64, value: u128) -> Field
    ensures { result ≡ record { at = at; size = 8; value = value } }
{
    Field { at, size: 8, value }
}

/// `e_ident`, its 16 bytes as one number.
pub(crate) fn ident(value: u128) -> Field
    ensures { result ≡ record { at = 0; size = 16; value = value } }
{
    Field {
        at: 0,
        size: 16,
        value,
    }
}
