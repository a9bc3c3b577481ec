//! Little-endian numbers in lists of bytes.

ghost use Rattle.std.specs.Prelude.{◌≡◌, ◌+◌, ◌≤◌, length, drop};
ghost use Rattle.rv_word.specs.Memory.{read};
ghost use Rattle.rv_mem.specs.Pages.{bytes_in};

/// The bytes from a place on; none past the end.
pub(crate) fn rest(bytes: &[u8], at: usize) -> &[u8]
    ensures { result.now ≡ drop at bytes.now }
{
    if at < bytes.len() { &bytes[at..] } else { &[] }
}

/// The number in the two bytes from a place on.
pub(crate) fn half_word_at(bytes: &[u8], at: usize) -> u16
    requires { at + 2 ≤ length bytes.now }
    ensures { result ≡ read 2 (bytes_in bytes.now) at }
{
    u16::from(bytes[at]) + (u16::from(bytes[at + 1]) << 8)
}

/// The number in the four bytes from a place on.
pub(crate) fn word_at(bytes: &[u8], at: usize) -> u32
    requires { at + 4 ≤ length bytes.now }
    ensures { result ≡ read 4 (bytes_in bytes.now) at }
{
    u32::from(half_word_at(bytes, at)) + (u32::from(half_word_at(bytes, at + 2)) << 16)
}

/// The number in the eight bytes from a place on.
pub(crate) fn double_word_at(bytes: &[u8], at: usize) -> u64
    requires { at + 8 ≤ length bytes.now }
    ensures { result ≡ read 8 (bytes_in bytes.now) at }
{
    u64::from(word_at(bytes, at)) + (u64::from(word_at(bytes, at + 4)) << 32)
}
