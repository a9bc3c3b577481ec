ghost use Rattle.std.specs.Prelude.{◌≡◌, ◌<◌, None, ◌==◌};
ghost use Rattle.elf_object.specs.Header.{is_elf, are_flags_taken};
ghost use Rattle.elf_object.specs.Fault.{header_fault};

use crate::fault::ObjectFault;
use elf_bytes::places::{E_FLAGS, E_MACHINE, E_TYPE, ELF_HEADER_SIZE};
use elf_bytes::values::EM_RISCV;
use elf_tables::constants::{EF_RISCV_TSO, ET_REL};
use elf_tables::{half, word};

/// Whether a file is 64-bit little-endian ELF, with room for its header.
fn is_elf(bytes: &[u8]) -> bool
    ensures { result ≡ is_elf bytes.now }
{
    bytes.len() as u64 >= ELF_HEADER_SIZE && bytes.starts_with(b"\x7fELF\x02\x01\x01")
}

/// Whether these flags are none, or `EF_RISCV_TSO` alone.
fn are_flags_taken(flags: u32) -> bool
    ensures { result ≡ are_flags_taken flags }
{
    flags == 0 || flags == EF_RISCV_TSO
}

/// What is wrong with the ELF header.
#[tactic(auto, unfolding(crate::specs::Fault::header_fault))]
pub(crate) fn header_fault(bytes: &[u8]) -> Option<ObjectFault>
    ensures { result ≡ header_fault bytes.now }
{
    if !is_elf(bytes) {
        return Some(ObjectFault::NotElf);
    }
    let kind = half(bytes, E_TYPE);
    if kind != ET_REL {
        return Some(ObjectFault::NotRelocatable(kind));
    }
    let machine = half(bytes, E_MACHINE);
    if machine != EM_RISCV {
        return Some(ObjectFault::NotRiscv(machine));
    }
    let flags = word(bytes, E_FLAGS);
    if !are_flags_taken(flags) {
        return Some(ObjectFault::Flags(flags));
    }
    None
}
