//! Code that is being written.

ghost use Rattle.std.specs.Prelude.{◌≡◌, OnOk, map};
ghost use Rattle.cfi_gen.specs.Lines.{marked, plain};
ghost use Rattle.cfi_gen.specs.Writing.{nothing, with_line, with_lines, written_in};

use crate::mark::{Mark, put_marks};
use elf_tables::Reloc;
use rv_code::encode;
use rv_instr::Instr;
use std::alloc::{AllocError, Global};

/// Code that is being written: its bytes and its relocations.
#[derive(Drop)]
pub(crate) struct Text {
    pub(crate) code: Vec<u8>,
    pub(crate) relocs: Vec<Reloc>,
}

impl Text {
    /// No code.
    pub(crate) fn new(alloc: Global) -> Self
        ensures { written_in result ≡ nothing }
    {
        Text {
            code: Vec::new(alloc),
            relocs: Vec::new(alloc),
        }
    }

    /// Puts an instruction with its relocations at the end.
    pub(crate) fn put(&mut self, instr: Instr, marks: &[Mark]) -> Result<(), AllocError>
        ensures { OnOk result (written_in self.new ≡ with_line (written_in self.old) (marked instr marks.now)) }
    {
        put_marks(&mut self.relocs, self.code.len() as u64, marks)?;
        self.code.extend_from_slice(&encode(instr).to_le_bytes())
    }

    /// Puts instructions without relocations at the end.
    pub(crate) fn put_all(&mut self, instrs: &[Instr]) -> Result<(), AllocError>
        ensures { OnOk result (written_in self.new ≡ with_lines (written_in self.old) (map plain instrs.now)) }
    {
        for instr in instrs {
            self.put(*instr, &[])?;
        }
        Ok(())
    }
}
