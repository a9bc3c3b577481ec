ghost use Rattle.std.specs.Prelude.{◌≡◌, ◌≤◌, ◌<◌, ◌^◌, IsTrue};
ghost use Rattle.std.specs.List.{list_all};
ghost use Rattle.elf_image.specs.Header.{elf_header, program_header, shadow_header, data_segment, code_segment, shadow_segment, data_start, is_inside};

use super::field::{Field, Segment, half, ident, long, word};
use elf_bytes::places::{
    E_EHSIZE, E_ENTRY, E_FLAGS, E_MACHINE, E_PHENTSIZE, E_PHNUM, E_PHOFF, E_SHENTSIZE, E_SHNUM,
    E_SHOFF, E_SHSTRNDX, E_TYPE, E_VERSION, ELF_HEADER_SIZE, P_ALIGN, P_FILESZ, P_FLAGS, P_MEMSZ,
    P_OFFSET, P_PADDR, P_VADDR, PROGRAM_HEADER_SIZE,
};
use elf_bytes::values::{EM_RISCV, EV_CURRENT, IDENT};
use rv_image::ImageVersion;
use rv_image::memory_map::{CODE_SIZE, CODE_START, DATA_END, DATA_START, SHADOW_START};
use rv_image::profile::START;

/// How many bytes a page has, on which code and data begin.
pub(crate) const PAGE: u128 = 0x1000;

/// Where the program header of the data begins.
pub(crate) const DATA_HEADER: u64 = ELF_HEADER_SIZE;

/// Where the program header of the code begins.
pub(crate) const CODE_HEADER: u64 = DATA_HEADER + PROGRAM_HEADER_SIZE;

/// Where the program header of the shadow stack begins.
pub(crate) const SHADOW_HEADER: u64 = CODE_HEADER + PROGRAM_HEADER_SIZE;

/// How many bytes the headers have.
pub(crate) const HEADERS: usize = (SHADOW_HEADER + PROGRAM_HEADER_SIZE) as usize;

/// Where the data begin in a file with this much code.
pub(crate) fn data_offset(code: u128) -> u128
    requires { code < 2 ^ 64 }
    ensures { result ≡ data_start code }
{
    PAGE + (code + (PAGE - 1)) / PAGE * PAGE
}

/// The fields of the ELF header.
#[tactic(auto, unfolding(crate::specs::Header::elf_header))]
pub(crate) fn elf_header() -> [Field; 14]
    ensures value { result ≡ elf_header }
    ensures inside { IsTrue (list_all is_inside result) }
{
    [
        ident(u128::from(IDENT)),
        half(E_TYPE, 2), // ET_EXEC
        half(E_MACHINE, u128::from(EM_RISCV)),
        word(E_VERSION, u128::from(EV_CURRENT)),
        long(E_ENTRY, u128::from(START)),
        long(E_PHOFF, u128::from(DATA_HEADER)),
        long(E_SHOFF, 0),
        word(E_FLAGS, 0),
        half(E_EHSIZE, u128::from(ELF_HEADER_SIZE)),
        half(E_PHENTSIZE, u128::from(PROGRAM_HEADER_SIZE)),
        half(E_PHNUM, 3),
        half(E_SHENTSIZE, 0),
        half(E_SHNUM, 0),
        half(E_SHSTRNDX, 0),
    ]
}

/// The fields of the program header at `at`.
#[tactic(auto, unfolding(crate::specs::Header::program_header))]
pub(crate) fn program_header(at: u64, segment: Segment) -> [Field; 8]
    requires { at ≤ shadow_header }
    ensures value { result ≡ program_header at segment }
    ensures inside { IsTrue (list_all is_inside result) }
{
    [
        word(at, 1), // p_type: PT_LOAD
        word(at + P_FLAGS, segment.flags),
        long(at + P_OFFSET, segment.offset),
        long(at + P_VADDR, segment.address),
        long(at + P_PADDR, segment.address),
        long(at + P_FILESZ, segment.file_size),
        long(at + P_MEMSZ, segment.memory_size),
        long(at + P_ALIGN, PAGE),
    ]
}

/// Initialised data, from 64 KiB on.
pub(crate) fn data_segment(code: u128, init: u128) -> Segment
    requires { code < 2 ^ 64 }
    ensures { result ≡ data_segment code init }
{
    Segment {
        flags: 6,
        offset: data_offset(code),
        address: u128::from(DATA_START),
        file_size: init.min(1 << 25),
        memory_size: u128::from(DATA_END - DATA_START),
    }
}

/// Code, from 1 GiB on.
pub(crate) fn code_segment(code: u128) -> Segment
    ensures { result ≡ code_segment code }
{
    Segment {
        flags: 5,
        offset: PAGE,
        address: u128::from(CODE_START),
        file_size: (code / 4 * 4).min(u128::from(CODE_SIZE)).max(4),
        memory_size: u128::from(CODE_SIZE),
    }
}

/// The shadow stack, of which the file has nothing, in an image of a version.
pub(crate) fn shadow_segment(version: ImageVersion) -> Segment
    ensures { result ≡ shadow_segment version }
{
    Segment {
        flags: 6,
        offset: 0,
        address: u128::from(SHADOW_START),
        file_size: 0,
        memory_size: u128::from(version.shadow_size()),
    }
}
