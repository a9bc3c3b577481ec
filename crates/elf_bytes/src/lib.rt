//! Numbers, bytes and names of an ELF file by their offset. A place that leaves the file is `None`,
//! so the readers above say what they read and never where a slice ends. The format's own places and
//! values stand here too.
#![tactic(auto)]

ghost use Rattle.std.specs.Prelude.{◌≡◌, ◌++◌, ◌∷◌, ◌==◌, List, ℕ, Contains, IfSome, IfNone, length, drop, option_map, position};
ghost use Rattle.elf_bytes.specs.Fields.{field_at, signed_at, part_at, string_of, string_at};

use byteorder::{ByteOrder, LittleEndian};

pub mod places;
pub mod values;

/// The 16-bit number at offset `at`, an `Elf64_Half`.
pub fn u16_at(bytes: &[u8], at: u64) -> Option<u16>
    ensures { result ≡ field_at bytes.now at 2 }
{
    Some(LittleEndian::read_u16(bytes_at(bytes, at, 2)?))
}

/// The 32-bit number at offset `at`, an `Elf64_Word`.
pub fn u32_at(bytes: &[u8], at: u64) -> Option<u32>
    ensures { result ≡ field_at bytes.now at 4 }
{
    Some(LittleEndian::read_u32(bytes_at(bytes, at, 4)?))
}

/// The 64-bit number at offset `at`, an `Elf64_Xword`, `Elf64_Addr` or `Elf64_Off`.
pub fn u64_at(bytes: &[u8], at: u64) -> Option<u64>
    ensures { result ≡ field_at bytes.now at 8 }
{
    Some(LittleEndian::read_u64(bytes_at(bytes, at, 8)?))
}

/// The signed 64-bit number at offset `at`, an `Elf64_Sxword`.
pub fn i64_at(bytes: &[u8], at: u64) -> Option<i64>
    ensures { result ≡ signed_at bytes.now at }
{
    Some(u64_at(bytes, at)?.cast_signed())
}

/// The `len` bytes from offset `at` on.
pub fn bytes_at<'a>(bytes: &'a [u8], at: u64, len: u64) -> Option<&'a [u8]>
    ensures value { option_map (λ part. part.now) result ≡ part_at bytes.now at len }
    ensures size { IfSome result (λ part. length part.now ≡ len) }
{
    let end = at.checked_add(len)?;
    bytes.get(at as usize..end as usize)
}

/// The string that begins at offset `at`, without its NUL.
pub fn name_at<'a>(bytes: &'a [u8], at: u64) -> Option<&'a [u8]>
    ensures value { option_map (λ name. name.now) result ≡ string_at bytes.now at }
    ensures ended { IfSome result (λ name. (rest : List ℕ) × (drop at bytes.now ≡ name.now ++ (0 ∷ rest))) }
    ensures without_nul { IfSome result (λ name. ¬ Contains name.now 0) }
    ensures endless { IfNone result (¬ Contains (drop at bytes.now) 0) }
{
    first_string(rest_at(bytes, at))
}

/// The bytes from offset `at` on, none where it lies past the end.
fn rest_at<'a>(bytes: &'a [u8], at: u64) -> &'a [u8]
    ensures { result.now ≡ drop at bytes.now }
{
    bytes.get(at as usize..).unwrap_or(&[])
}

/// The string that some bytes begin with.
fn first_string<'a>(bytes: &'a [u8]) -> Option<&'a [u8]>
    ensures value { option_map (λ name. name.now) result ≡ string_of bytes.now }
    ensures ended { IfSome result (λ name. (rest : List ℕ) × (bytes.now ≡ name.now ++ (0 ∷ rest))) }
    ensures without_nul { IfSome result (λ name. ¬ Contains name.now 0) }
    ensures endless { IfNone result (¬ Contains bytes.now 0) }
{
    let len = nul_of(bytes)?;
    Some(&bytes[..len])
}

/// How many bytes stand before the first NUL.
fn nul_of(bytes: &[u8]) -> Option<usize>
    ensures { result ≡ position (λ b. b == 0) bytes.now }
{
    bytes.iter().position(|b| *b == 0)
}
