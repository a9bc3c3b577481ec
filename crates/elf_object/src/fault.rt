ghost use Rattle.std.specs.Prelude.{◌≡◌};
ghost use Rattle.elf_object.specs.FaultText.{fault_number};

use std::{error, fmt};

/// What is wrong with an object: the first of these that is, in this order, at its least index.
#[derive(Clone, Copy, Debug)]
pub enum ObjectFault {
    /// The file is no 64-bit little-endian ELF file.
    NotElf,
    /// It is not relocatable, but has this `e_type`.
    NotRelocatable(u16),
    /// It is not for RISC-V, but for this `e_machine`.
    NotRiscv(u16),
    /// Its `e_flags` ask for more than RV64IM with the soft-float calling convention.
    Flags(u32),
    /// What begins at this offset, the section header table or a section, leaves the file.
    Truncated(u64),
    /// The section with this index is a wrong table, or has a wrong name.
    BadTable(u32),
    /// The section with this index is of a kind that is not taken.
    SectionKind(u32),
    /// The symbol with this number is wrong, or is named by a relocation and not there.
    BadSymbol(u64),
}

impl ObjectFault {
    /// Which of the eight tests failed, from 1.
    pub fn number(&self) -> u8
        ensures { result ≡ fault_number self.now }
    {
        match self {
            ObjectFault::NotElf => 1,
            ObjectFault::NotRelocatable(_) => 2,
            ObjectFault::NotRiscv(_) => 3,
            ObjectFault::Flags(_) => 4,
            ObjectFault::Truncated(_) => 5,
            ObjectFault::BadTable(_) => 6,
            ObjectFault::SectionKind(_) => 7,
            ObjectFault::BadSymbol(_) => 8,
        }
    }
}

impl ObjectFault {
    ghost use Rattle.elf_object.specs.FaultText.{fault_text, told};

    /// What is told of the fault: its name, and a number.
    fn parts(&self) -> (&'static str, Option<u64>)
        ensures { told result.0.now result.1 ≡ fault_text self.now }
    {
        match *self {
            ObjectFault::NotElf => ("NotElf", None),
            ObjectFault::NotRelocatable(kind) => ("NotRelocatable", Some(u64::from(kind))),
            ObjectFault::NotRiscv(machine) => ("NotRiscv", Some(u64::from(machine))),
            ObjectFault::Flags(flags) => ("Flags", Some(u64::from(flags))),
            ObjectFault::Truncated(offset) => ("Truncated", Some(offset)),
            ObjectFault::BadTable(index) => ("BadTable", Some(u64::from(index))),
            ObjectFault::SectionKind(index) => ("SectionKind", Some(u64::from(index))),
            ObjectFault::BadSymbol(number) => ("BadSymbol", Some(number)),
        }
    }
}

impl fmt::Display for ObjectFault {
    ghost use Rattle.std.specs.Prelude.{Some};
    ghost use Rattle.elf_object.specs.FaultText.{fault_text};

    ghost output = { λ fault. Some (fault_text fault) };

    fn fmt<W: fmt::Write>(&self, f: &mut fmt::Formatter<W>) -> fmt::Result {
        let (name, number) = self.parts();
        match number {
            Some(number) => write!(f, "{name} {number}"),
            None => f.write_str(name),
        }
    }
}

impl error::Error for ObjectFault {}
