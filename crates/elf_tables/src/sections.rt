ghost use Rattle.std.specs.Prelude.{◌≡◌, ◌+◌, ◌*◌, ◌≤◌, ◌<◌, length, IfSome, OnSome, IfNone, take, drop, Option};
ghost use Rattle.elf_bytes.specs.declared.places.TheConstants.{ELF_HEADER_SIZE};
ghost use Rattle.elf_tables.specs.Header.{e_shentsize, e_shnum, e_shoff, e_shstrndx, section_headers_end};
ghost use Rattle.elf_tables.specs.Section.{content, section_bytes, section_header};

use crate::field::{half, long};
use crate::header::SectionHeader;
use elf_bytes::places::{E_SHENTSIZE, E_SHNUM, E_SHOFF, E_SHSTRNDX, SECTION_HEADER_SIZE};
use std::marker::Model;

/// A file whose section header table lies in it.
#[derive(Drop)]
pub struct Sections<'a> {
    bytes: &'a [u8],
    at: u64,
    count: u32,
}

impl<'a> Model for Sections<'a> {
    ghost use Rattle.std.specs.Prelude.{List, ℕ};
    ghost use Rattle.elf_tables.specs.Header.{IsTable};

    ghost Value = { List ℕ };

    ghost view = { λ s. s.bytes.now };

    ghost invariant = { λ s. IsTable s.bytes.now s.at s.count };
}

impl<'a> Sections<'a> {
    /// The sections of a file, none where their headers leave it.
    pub fn of(bytes: &'a [u8]) -> Option<Sections<'a>>
        requires { ELF_HEADER_SIZE ≤ length bytes.now }
        ensures file { IfSome result (λ s. s ≡ bytes.now) }
        ensures inside { OnSome result (section_headers_end bytes.now ≤ length bytes.now) }
        ensures outside { IfNone result (length bytes.now < section_headers_end bytes.now) }
    {
        let at = long(bytes, E_SHOFF);
        let count = u32::from(half(bytes, E_SHNUM));
        let size = SECTION_HEADER_SIZE * u64::from(count);
        if (bytes.len() as u128) < u128::from(at) + u128::from(size) {
            return None;
        }
        Some(Sections { bytes, at, count })
    }

    /// How many sections there are.
    pub fn count(&self) -> u32
        ensures { result ≡ e_shnum self.now }
    {
        self.count
    }

    /// The length of the file.
    pub fn len(&self) -> usize
        ensures { result ≡ length self.now }
    {
        self.bytes.len()
    }

    /// Where the section headers begin.
    pub fn offset(&self) -> u64
        ensures { result ≡ e_shoff self.now }
    {
        self.at
    }

    /// The size of a section header, as the file names it.
    pub fn header_size(&self) -> u16
        ensures { result ≡ e_shentsize self.now }
    {
        half(self.bytes, E_SHENTSIZE)
    }

    /// The index of the section with the sections' names.
    pub fn names_index(&self) -> u32
        ensures { result ≡ e_shstrndx self.now }
    {
        u32::from(half(self.bytes, E_SHSTRNDX))
    }

    /// The header of the section with this index.
    pub fn header(&self, index: u32) -> SectionHeader
        requires { index < e_shnum self.now }
        ensures { result ≡ section_header self.now index }
    {
        SectionHeader::read(self.bytes, self.at + SECTION_HEADER_SIZE * u64::from(index))
    }

    /// The bytes of a section in the file.
    pub fn content(&self, header: &SectionHeader) -> &'a [u8]
        ensures { result.now ≡ content self.now header.now }
    {
        content(self.bytes, header)
    }

    /// The bytes of the section with this index, none where there is no such section.
    #[tactic(auto, unfolding(crate::specs::Section::section_bytes))]
    pub fn bytes_of(&self, index: u32) -> &'a [u8]
        ensures { result.now ≡ section_bytes self.now index }
    {
        if index < self.count() {
            let header = self.header(index);
            return self.content(&header);
        }
        &[]
    }
}

/// The bytes of a section with this header in a file.
#[tactic(auto, unfolding(crate::specs::Section::content))]
fn content<'a>(bytes: &'a [u8], header: &SectionHeader) -> &'a [u8]
    ensures { result.now ≡ content bytes.now header.now }
{
    if header.is_in_file() {
        return part(bytes, header.offset, header.size);
    }
    &[]
}

/// As much of the `len` bytes from `at` on as is in the file.
fn part<'a>(bytes: &'a [u8], at: u64, len: u64) -> &'a [u8]
    ensures { result.now ≡ take len (drop at bytes.now) }
{
    let rest = bytes.get(at as usize..).unwrap_or(&[]);
    rest.get(..len as usize).unwrap_or(rest)
}
