//! Relocations of generated instructions.

ghost use Rattle.std.specs.Prelude.{◌≡◌, ◌++◌, OnOk, map};
ghost use Rattle.cfi_gen.specs.Lines.{mark_at};

use elf_tables::Reloc;
use std::alloc::AllocError;

/// A relocation of an instruction, wherever the instruction stands: its type by the RISC-V ELF psABI, the
/// number of its symbol, and its addend.
#[derive(Clone, Copy)]
pub struct Mark {
    pub kind: u32,
    pub symbol: u32,
    pub addend: i64,
}

/// Appends the relocations of an instruction at `at`.
pub(crate) fn put_marks(relocs: &mut Vec<Reloc>, at: u64, marks: &[Mark]) -> Result<(), AllocError>
    ensures { OnOk result (relocs.new.items ≡ relocs.old.items ++ map (mark_at at) marks.now) }
{
    for mark in marks {
        relocs.push(Reloc {
            offset: at,
            symbol: mark.symbol,
            kind: mark.kind,
            addend: mark.addend,
        })?;
    }
    Ok(())
}
