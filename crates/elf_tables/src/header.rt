ghost use Rattle.std.specs.Prelude.{◌≡◌, ◌+◌, ◌≤◌, length};
ghost use Rattle.elf_bytes.specs.declared.places.TheConstants.{SECTION_HEADER_SIZE};
ghost use Rattle.elf_tables.specs.Section.{section_header_at, is_in_file};
ghost use Rattle.elf_tables.specs.Kept.{is_writable, is_allocated, is_executable, is_thread_local};
ghost use Rattle.elf_tables.specs.Table.{has_entries};

use crate::constants::{SHF_ALLOC, SHF_EXECINSTR, SHF_TLS, SHF_WRITE, SHT_NOBITS, SHT_NULL};
use crate::field::{long, word};
use elf_bytes::places::{
    ENTRY_SIZE, SH_ADDRALIGN, SH_ENTSIZE, SH_FLAGS, SH_INFO, SH_LINK, SH_OFFSET, SH_SIZE, SH_TYPE,
};

/// A section header (System V gABI, "Section Header"), without its address.
#[derive(Clone, Copy)]
pub struct SectionHeader {
    pub name: u32,
    pub kind: u32,
    pub flags: u64,
    pub offset: u64,
    pub size: u64,
    pub link: u32,
    pub info: u32,
    pub align: u64,
    pub entry_size: u64,
}

impl SectionHeader {
    /// The section header at `at`, which lies in the file.
    #[tactic(auto, unfolding(crate::specs::Section::section_header_at))]
    pub fn read(bytes: &[u8], at: u64) -> SectionHeader
        requires { at + SECTION_HEADER_SIZE ≤ length bytes.now }
        ensures { result ≡ section_header_at bytes.now at }
    {
        SectionHeader {
            name: word(bytes, at),
            kind: word(bytes, at + SH_TYPE),
            flags: long(bytes, at + SH_FLAGS),
            offset: long(bytes, at + SH_OFFSET),
            size: long(bytes, at + SH_SIZE),
            link: word(bytes, at + SH_LINK),
            info: word(bytes, at + SH_INFO),
            align: long(bytes, at + SH_ADDRALIGN),
            entry_size: long(bytes, at + SH_ENTSIZE),
        }
    }

    /// Whether the section has bytes in the file.
    pub fn is_in_file(&self) -> bool
        ensures { result ≡ is_in_file self.now }
    {
        self.kind != SHT_NULL && self.kind != SHT_NOBITS
    }

    /// `SHF_WRITE`.
    pub fn is_writable(&self) -> bool
        ensures { result ≡ is_writable self.now }
    {
        self.flags & SHF_WRITE != 0
    }

    /// `SHF_ALLOC`.
    pub fn is_allocated(&self) -> bool
        ensures { result ≡ is_allocated self.now }
    {
        self.flags & SHF_ALLOC != 0
    }

    /// `SHF_EXECINSTR`.
    pub fn is_executable(&self) -> bool
        ensures { result ≡ is_executable self.now }
    {
        self.flags & SHF_EXECINSTR != 0
    }

    /// `SHF_TLS`.
    pub fn is_thread_local(&self) -> bool
        ensures { result ≡ is_thread_local self.now }
    {
        self.flags & SHF_TLS != 0
    }

    /// Whether the section has whole entries, as of symbols and relocations.
    pub fn has_entries(&self) -> bool
        ensures { result ≡ has_entries self.now }
    {
        self.entry_size == ENTRY_SIZE && self.size % ENTRY_SIZE == 0
    }
}
