//! Sections whose bytes leave the file.

ghost use Rattle.std.specs.Prelude.{◌≡◌, ◌<◌, ◌≤◌, None, Some, IfOk, OnOk, IfErr, length};
ghost use Rattle.rv_word.specs.End.{IsFaultOf};
ghost use Rattle.elf_bytes.specs.declared.places.TheConstants.{ELF_HEADER_SIZE};
ghost use Rattle.elf_tables.specs.Header.{e_shnum};
ghost use Rattle.least.specs.First.{first_below};
ghost use Rattle.elf_object.specs.Fault.{is_cut, cut_section, truncated};

use crate::fault::ObjectFault;
use elf_bytes::places::E_SHOFF;
use elf_tables::{Sections, long};
use least::first_below;
use rv_word::End;

/// Whether the bytes of the section with this index leave the file.
fn is_cut(sections: &Sections, index: u32) -> bool
    requires { index < e_shnum sections.now }
    ensures { result ≡ is_cut sections.now index }
{
    let header = sections.header(index);
    header.is_in_file()
        && (sections.len() as u128) < u128::from(header.offset) + u128::from(header.size)
}

/// The first section whose bytes leave the file.
fn first_cut(sections: &Sections) -> Option<u32>
    ensures { result ≡ first_below (is_cut sections.now) (e_shnum sections.now) }
{
    first_below(sections.count(), |index| is_cut(sections, index))
}

/// The first section whose bytes leave the file, by its offset.
pub(crate) fn cut_section(sections: &Sections) -> Option<ObjectFault>
    ensures { result ≡ cut_section sections.now }
{
    let header = sections.header(first_cut(sections)?);
    Some(ObjectFault::Truncated(header.offset))
}

/// The sections of a file with room for the ELF header, if they and their headers lie in it.
#[tactic(auto, unfolding(crate::specs::Fault::truncated))]
pub(crate) fn whole_sections<'a>(bytes: &'a [u8]) -> Result<Sections<'a>, End<ObjectFault>>
    requires { ELF_HEADER_SIZE ≤ length bytes.now }
    ensures file { IfOk result (λ s. s ≡ bytes.now) }
    ensures whole { OnOk result (truncated bytes.now ≡ None) }
    ensures truncated { IfErr result (IsFaultOf (truncated bytes.now)) }
{
    let Some(sections) = Sections::of(bytes) else {
        return Err(End::Fault(ObjectFault::Truncated(long(bytes, E_SHOFF))));
    };
    match cut_section(&sections) {
        Some(fault) => Err(End::Fault(fault)),
        None => Ok(sections),
    }
}
