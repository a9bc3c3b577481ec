ghost use Rattle.std.specs.Prelude.{◌≡◌};
ghost use Rattle.obj_input.specs.Kinds.{data_kind, is_idle, is_pair_target, is_relative_high, is_relative_low, is_table_high, is_transfer, kind_of, takes_address};

use rv_reloc::DataPatch;
use rv_reloc::types::{
    R_RISCV_32, R_RISCV_64, R_RISCV_ADD8, R_RISCV_ADD16, R_RISCV_ADD32, R_RISCV_ADD64,
    R_RISCV_ALIGN, R_RISCV_BRANCH, R_RISCV_CALL, R_RISCV_CALL_PLT, R_RISCV_GOT_HI20, R_RISCV_HI20,
    R_RISCV_JAL, R_RISCV_LO12_I, R_RISCV_LO12_S, R_RISCV_NONE, R_RISCV_PCREL_HI20,
    R_RISCV_PCREL_LO12_I, R_RISCV_PCREL_LO12_S, R_RISCV_RELAX, R_RISCV_SUB8, R_RISCV_SUB16,
    R_RISCV_SUB32, R_RISCV_SUB64,
};

/// What a relocation does, by its type (RISC-V ELF psABI, "Relocations").
#[derive(Clone, Copy)]
pub enum RelocKind {
    /// `R_RISCV_NONE`: nothing.
    Nothing,
    /// `R_RISCV_ALIGN` and `R_RISCV_RELAX`: marks for a linker that moves code.
    Mark,
    /// `R_RISCV_BRANCH`: names the target of a branch.
    BranchTarget,
    /// `R_RISCV_JAL`: names the target of a JAL.
    JalTarget,
    /// `R_RISCV_CALL` and `R_RISCV_CALL_PLT`: names the target of an AUIPC and the JALR after it.
    PairTarget,
    /// `R_RISCV_PCREL_HI20`: the immediate of an AUIPC.
    RelativeHigh,
    /// `R_RISCV_GOT_HI20`: the immediate of an AUIPC, for the slot that the table of addresses has for the symbol.
    TableHigh,
    /// `R_RISCV_PCREL_LO12_I`: the immediate of an I form, for the AUIPC that its symbol labels.
    RelativeLowI,
    /// `R_RISCV_PCREL_LO12_S`: the same of a store.
    RelativeLowS,
    /// `R_RISCV_HI20`: the immediate of a LUI.
    High,
    /// `R_RISCV_LO12_I`: the immediate of an I form.
    LowI,
    /// `R_RISCV_LO12_S`: the immediate of a store.
    LowS,
    /// A number in data.
    InData(DataPatch),
    /// A type that is not taken.
    Unknown,
}

/// The kind of a relocation of data.
fn data_kind(number: u32) -> RelocKind
    ensures { result ≡ data_kind number }
{
    match number {
        R_RISCV_32 => RelocKind::InData(DataPatch::Abs32),
        R_RISCV_64 => RelocKind::InData(DataPatch::Abs64),
        R_RISCV_ADD8 => RelocKind::InData(DataPatch::Add8),
        R_RISCV_ADD16 => RelocKind::InData(DataPatch::Add16),
        R_RISCV_ADD32 => RelocKind::InData(DataPatch::Add32),
        R_RISCV_ADD64 => RelocKind::InData(DataPatch::Add64),
        R_RISCV_SUB8 => RelocKind::InData(DataPatch::Sub8),
        R_RISCV_SUB16 => RelocKind::InData(DataPatch::Sub16),
        R_RISCV_SUB32 => RelocKind::InData(DataPatch::Sub32),
        R_RISCV_SUB64 => RelocKind::InData(DataPatch::Sub64),
        _ => RelocKind::Unknown,
    }
}

impl RelocKind {
    /// The kind of the relocations of this type, by its number.
    #[tactic(auto, unfolding(crate::specs::Kinds::kind_of))]
    pub fn of(number: u32) -> RelocKind
        ensures { result ≡ kind_of number }
    {
        match number {
            R_RISCV_NONE => RelocKind::Nothing,
            R_RISCV_ALIGN | R_RISCV_RELAX => RelocKind::Mark,
            R_RISCV_BRANCH => RelocKind::BranchTarget,
            R_RISCV_JAL => RelocKind::JalTarget,
            R_RISCV_CALL | R_RISCV_CALL_PLT => RelocKind::PairTarget,
            R_RISCV_GOT_HI20 => RelocKind::TableHigh,
            R_RISCV_PCREL_HI20 => RelocKind::RelativeHigh,
            R_RISCV_PCREL_LO12_I => RelocKind::RelativeLowI,
            R_RISCV_PCREL_LO12_S => RelocKind::RelativeLowS,
            R_RISCV_HI20 => RelocKind::High,
            R_RISCV_LO12_I => RelocKind::LowI,
            R_RISCV_LO12_S => RelocKind::LowS,
            other => data_kind(other),
        }
    }

    /// Whether it does nothing.
    pub fn is_idle(self) -> bool
        ensures { result ≡ is_idle self }
    {
        matches!(self, RelocKind::Nothing | RelocKind::Mark)
    }

    /// Whether it names the target of an AUIPC and the JALR after it.
    pub fn is_pair_target(self) -> bool
        ensures { result ≡ is_pair_target self }
    {
        matches!(self, RelocKind::PairTarget)
    }

    /// Whether it names the target of a transfer.
    pub fn is_transfer(self) -> bool
        ensures { result ≡ is_transfer self }
    {
        matches!(
            self,
            RelocKind::BranchTarget | RelocKind::JalTarget | RelocKind::PairTarget
        )
    }

    /// Whether it is the high part of a distance.
    pub fn is_relative_high(self) -> bool
        ensures { result ≡ is_relative_high self }
    {
        matches!(self, RelocKind::RelativeHigh | RelocKind::TableHigh)
    }

    /// Whether it is the high part of the distance to a slot of the table of addresses.
    pub fn is_table_high(self) -> bool
        ensures { result ≡ is_table_high self }
    {
        matches!(self, RelocKind::TableHigh)
    }

    /// Whether it is the low part of a distance.
    pub fn is_relative_low(self) -> bool
        ensures { result ≡ is_relative_low self }
    {
        matches!(self, RelocKind::RelativeLowI | RelocKind::RelativeLowS)
    }

    /// Whether it puts a whole address somewhere, from where a program may jump to it.
    pub fn takes_address(self) -> bool
        ensures { result ≡ takes_address self }
    {
        match self {
            RelocKind::High | RelocKind::RelativeHigh => true,
            RelocKind::InData(patch) => matches!(
                patch,
                DataPatch::Abs32 | DataPatch::Abs64 | DataPatch::Add32 | DataPatch::Add64
            ),
            _ => false,
        }
    }
}
