//! Section headers of a file that is written.

ghost use Rattle.std.specs.Prelude.{◌≡◌, ◌<◌, ◌^◌, IsTrue};
ghost use Rattle.std.specs.List.{list_all};
ghost use Rattle.elf_writer.specs.Numbers.{is_number};
ghost use Rattle.elf_writer.specs.Header.{elf_numbers, names_heading, null_heading, section_numbers};

use crate::number::{Number, half, long, word};
use elf_bytes::places::{ELF_HEADER_SIZE, SECTION_HEADER_SIZE};
use elf_bytes::values::{EM_RISCV, EV_CURRENT, IDENT};
use elf_tables::constants::{ET_REL, SHT_STRTAB};

/// What a section's header says beside where its name and its bytes stand, by the names of its fields. Of
/// `sh_info` the lowest 32 bits are written.
#[derive(Clone, Copy)]
pub(crate) struct Heading {
    pub(crate) kind: u32,
    pub(crate) flags: u64,
    pub(crate) size: u64,
    pub(crate) link: u32,
    pub(crate) info: u64,
    pub(crate) align: u64,
    pub(crate) entry_size: u64,
}

/// The heading of section 0, which stands for none.
pub(crate) fn null_heading() -> Heading
    ensures { result ≡ null_heading }
{
    Heading {
        kind: 0,
        flags: 0,
        size: 0,
        link: 0,
        info: 0,
        align: 0,
        entry_size: 0,
    }
}

/// The heading of a table of names with this many bytes.
pub(crate) fn names_heading(len: usize) -> Heading
    ensures { result ≡ names_heading len }
{
    Heading {
        kind: SHT_STRTAB,
        size: len as u64,
        align: 1,
        ..null_heading()
    }
}

/// The fields of a section header (System V gABI, "Section Header").
#[tactic(auto, unfolding(crate::specs::Header::section_numbers))]
pub(crate) fn section_numbers(name: u64, offset: u64, heading: &Heading) -> [Number; 10]
    ensures value { result ≡ section_numbers name offset heading.now }
    ensures sizes { IsTrue (list_all is_number result) }
{
    [
        word(name), // sh_name
        word(u64::from(heading.kind)), // sh_type
        long(heading.flags), // sh_flags
        long(0), // sh_addr
        long(offset), // sh_offset
        long(heading.size), // sh_size
        word(u64::from(heading.link)), // sh_link
        word(heading.info), // sh_info
        long(heading.align), // sh_addralign
        long(heading.entry_size), // sh_entsize
    ]
}

/// The fields of the ELF header of an object whose section headers stand at `at`, with this many sections
/// beside section 0, the last of them their names (System V gABI, "ELF Header").
#[tactic(auto, unfolding(crate::specs::Header::elf_numbers))]
pub(crate) fn elf_numbers(flags: u32, at: u64, sections: u64) -> [Number; 15]
    requires { sections < 2 ^ 16 }
    ensures value { result ≡ elf_numbers flags at sections }
    ensures sizes { IsTrue (list_all is_number result) }
{
    [
        long(IDENT), // e_ident
        long(0), // e_ident: the rest
        half(u64::from(ET_REL)), // e_type
        half(u64::from(EM_RISCV)), // e_machine
        word(u64::from(EV_CURRENT)), // e_version
        long(0), // e_entry
        long(0), // e_phoff
        long(at), // e_shoff
        word(u64::from(flags)), // e_flags
        half(ELF_HEADER_SIZE), // e_ehsize
        half(0), // e_phentsize
        half(0), // e_phnum
        half(SECTION_HEADER_SIZE), // e_shentsize
        half(sections + 1), // e_shnum
        half(sections), // e_shstrndx
    ]
}
