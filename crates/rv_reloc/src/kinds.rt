ghost use Rattle.std.specs.Prelude.{◌≡◌};
ghost use Rattle.rv_reloc.specs.Data.{size_of};

use thiserror::Error;

/// What a relocation puts into an instruction (RISC-V ELF psABI, "Relocations").
#[derive(Clone, Copy)]
pub enum CodePatch {
    /// `R_RISCV_HI20`: the immediate of a LUI, from an absolute address.
    Hi20,
    /// `R_RISCV_PCREL_HI20`: the immediate of an AUIPC, from the distance to an address.
    PcrelHi20,
    /// `R_RISCV_LO12_I` and `R_RISCV_PCREL_LO12_I`: the immediate of an I form.
    Lo12I,
    /// `R_RISCV_LO12_S` and `R_RISCV_PCREL_LO12_S`: the immediate of a store.
    Lo12S,
}

/// What a relocation puts into data (RISC-V ELF psABI, "Relocations").
#[derive(Clone, Copy)]
pub enum DataPatch {
    /// `R_RISCV_32`: an address of 32 bits.
    Abs32,
    /// `R_RISCV_64`: an address of 64 bits.
    Abs64,
    /// `R_RISCV_ADD8`: a sum of 8 bits.
    Add8,
    /// `R_RISCV_ADD16`: a sum of 16 bits.
    Add16,
    /// `R_RISCV_ADD32`: a sum of 32 bits.
    Add32,
    /// `R_RISCV_ADD64`: a sum of 64 bits.
    Add64,
    /// `R_RISCV_SUB8`: a difference of 8 bits.
    Sub8,
    /// `R_RISCV_SUB16`: a difference of 16 bits.
    Sub16,
    /// `R_RISCV_SUB32`: a difference of 32 bits.
    Sub32,
    /// `R_RISCV_SUB64`: a difference of 64 bits.
    Sub64,
}

impl DataPatch {
    /// How many bytes of data it changes.
    pub fn size(self) -> usize
        ensures { result ≡ size_of self }
    {
        match self {
            DataPatch::Add8 | DataPatch::Sub8 => 1,
            DataPatch::Add16 | DataPatch::Sub16 => 2,
            DataPatch::Abs32 | DataPatch::Add32 | DataPatch::Sub32 => 4,
            DataPatch::Abs64 | DataPatch::Add64 | DataPatch::Sub64 => 8,
        }
    }
}

/// A value leaves the range of its relocation.
#[derive(Clone, Copy, Debug, PartialEq, Eq, Error)]
#[error("relocation out of range")]
pub struct RelocRange;
