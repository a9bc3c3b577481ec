ghost use Rattle.std.specs.Prelude.{◌≡◌, ◌+◌, ◌≤◌, length};
ghost use Rattle.elf_bytes.specs.Fields.{number_at};

use elf_bytes::{u16_at, u32_at, u64_at};

/// The `Elf64_Half` at `at`, which lies in the file.
pub fn half(bytes: &[u8], at: u64) -> u16
    requires { at + 2 ≤ length bytes.now }
    ensures { result ≡ number_at bytes.now at 2 }
{
    u16_at(bytes, at).unwrap()
}

/// The `Elf64_Word` at `at`, which lies in the file.
pub fn word(bytes: &[u8], at: u64) -> u32
    requires { at + 4 ≤ length bytes.now }
    ensures { result ≡ number_at bytes.now at 4 }
{
    u32_at(bytes, at).unwrap()
}

/// The `Elf64_Xword`, `Elf64_Addr` or `Elf64_Off` at `at`, which lies in the file.
pub fn long(bytes: &[u8], at: u64) -> u64
    requires { at + 8 ≤ length bytes.now }
    ensures { result ≡ number_at bytes.now at 8 }
{
    u64_at(bytes, at).unwrap()
}
