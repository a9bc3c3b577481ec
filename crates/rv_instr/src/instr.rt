ghost use Rattle.std.specs.Prelude.{◌≡◌, ◌↔◌, IsSome, IfSome};

use crate::immediate::Immediate;
use crate::reg::Reg;
use std::marker::Model;

/// An instruction of RV64IM (RISC-V unprivileged ISA, "RV32I Base Integer Instruction Set", "RV64I
/// Base Integer Instruction Set" and "M Extension for Integer Multiplication and Division"), one
/// variant for each format. Registers stand in the order of the assembler: destination, sources.
#[derive(Clone, Copy, PartialEq, Eq)]
pub enum Instr {
    /// LUI, AUIPC: rd, bits 31 to 12.
    Upper(UpperOp, Reg, Immediate<20>),
    /// JAL: rd, the offset in multiples of two bytes.
    Jal(Reg, Immediate<20>),
    /// JALR: rd, rs1, the offset in bytes.
    Jalr(Reg, Reg, Immediate<12>),
    /// A conditional branch: rs1, rs2, the offset in multiples of two bytes.
    Branch(BranchOp, Reg, Reg, Immediate<12>),
    /// A load: rd, rs1, the offset in bytes.
    Load(LoadOp, Reg, Reg, Immediate<12>),
    /// A store: the address's register rs1, the value's register rs2, the offset in bytes.
    Store(StoreOp, Reg, Reg, Immediate<12>),
    /// A computation with an immediate: rd, rs1, immediate.
    Immediate(ImmediateOp, Reg, Reg, Immediate<12>),
    /// A shift by a constant: rd, rs1, amount.
    Shift(ShiftOp, Reg, Reg, Immediate<6>),
    /// A shift of the low 32 bits by a constant: rd, rs1, amount.
    ShiftWord(ShiftWordOp, Reg, Reg, Immediate<5>),
    /// A computation on two registers: rd, rs1, rs2.
    Register(RegisterOp, Reg, Reg, Reg),
    /// FENCE, whatever its other fields: the word itself.
    Fence(FenceWord),
    /// ECALL: a system call.
    Ecall,
    /// EBREAK: a stop.
    Ebreak,
}

/// LUI puts its 20 bits above 12 zeros into a register, AUIPC adds the pc to them.
#[derive(Clone, Copy, PartialEq, Eq)]
pub enum UpperOp {
    Lui,
    Auipc,
}

/// What a conditional branch asks: equal, not equal, less, not less; the last two without a sign.
#[derive(Clone, Copy, PartialEq, Eq)]
pub enum BranchOp {
    Beq,
    Bne,
    Blt,
    Bge,
    Bltu,
    Bgeu,
}

/// What a load reads: a byte, a half-word, a word or a double-word; the last three without a sign.
#[derive(Clone, Copy, PartialEq, Eq)]
pub enum LoadOp {
    Lb,
    Lh,
    Lw,
    Ld,
    Lbu,
    Lhu,
    Lwu,
}

/// What a store writes: a byte, a half-word, a word or a double-word.
#[derive(Clone, Copy, PartialEq, Eq)]
pub enum StoreOp {
    Sb,
    Sh,
    Sw,
    Sd,
}

/// A computation with an immediate; ADDIW is on the low 32 bits.
#[derive(Clone, Copy, PartialEq, Eq)]
pub enum ImmediateOp {
    Addi,
    Slti,
    Sltiu,
    Xori,
    Ori,
    Andi,
    Addiw,
}

/// A shift by a constant: left, right, right with the sign.
#[derive(Clone, Copy, PartialEq, Eq)]
pub enum ShiftOp {
    Slli,
    Srli,
    Srai,
}

/// The same on the low 32 bits.
#[derive(Clone, Copy, PartialEq, Eq)]
pub enum ShiftWordOp {
    Slliw,
    Srliw,
    Sraiw,
}

/// A computation on two registers: ten of RV64I and five on the low 32 bits, then eight products,
/// quotients and remainders and five on the low 32 bits.
#[derive(Clone, Copy, PartialEq, Eq)]
pub enum RegisterOp {
    Add,
    Sub,
    Sll,
    Slt,
    Sltu,
    Xor,
    Srl,
    Sra,
    Or,
    And,
    Addw,
    Subw,
    Sllw,
    Srlw,
    Sraw,
    Mul,
    Mulh,
    Mulhsu,
    Mulhu,
    Div,
    Divu,
    Rem,
    Remu,
    Mulw,
    Divw,
    Divuw,
    Remw,
    Remuw,
}

/// A word that is a FENCE: opcode 0Fh with funct3 0.
#[derive(Clone, Copy, PartialEq, Eq)]
pub struct FenceWord {
    word: u32,
}

impl Model for FenceWord {
    ghost use Rattle.std.specs.Prelude.{ℕ};
    ghost use Rattle.rv_instr.specs.Fence.{IsFence};

    ghost Value = { ℕ };

    ghost view = { λ f. f.word };

    ghost invariant = { λ f. IsFence f.word };

    ghost inverse = { λ n. record { word = n } };
}

impl FenceWord {
    ghost use Rattle.rv_instr.specs.Fence.{IsFence};

    /// The FENCE that this word is, if it is one.
    pub fn new(word: u32) -> Option<Self>
        ensures some { IsSome result ↔ IsFence word }
        ensures value { IfSome result (λ fence. fence ≡ word) }
    {
        if word & 0x7f == 0x0f && (word >> 12) & 7 == 0 {
            Some(FenceWord { word })
        } else {
            None
        }
    }

    /// The FENCE that this word is.
    pub fn of(word: u32) -> Self
        requires { IsFence word }
        ensures { result ≡ word }
    {
        FenceWord { word }
    }

    /// The word, all its fields included.
    pub fn word(self) -> u32
        ensures value { result ≡ self }
        ensures fence { IsFence result }
    {
        self.word
    }
}

impl Instr {
    ghost use Rattle.rv_instr.specs.InRange.{IsInstr};
    ghost use Rattle.rv_instr.specs.Operands.{names, written};

    /// Whether rd, rs1 or rs2 of its format is this register.
    pub fn names(&self, reg: Reg) -> bool
        ensures { result ≡ names self.now reg }
    {
        match *self {
            Instr::Upper(_, rd, _) | Instr::Jal(rd, _) => rd == reg,
            Instr::Jalr(rd, rs1, _)
            | Instr::Load(_, rd, rs1, _)
            | Instr::Immediate(_, rd, rs1, _)
            | Instr::Shift(_, rd, rs1, _)
            | Instr::ShiftWord(_, rd, rs1, _) => rd == reg || rs1 == reg,
            Instr::Branch(_, rs1, rs2, _) | Instr::Store(_, rs1, rs2, _) => {
                rs1 == reg || rs2 == reg
            }
            Instr::Register(_, rd, rs1, rs2) => rd == reg || rs1 == reg || rs2 == reg,
            Instr::Fence(_) | Instr::Ecall | Instr::Ebreak => false,
        }
    }

    /// The register rd, where its format has one.
    pub fn writes(&self) -> Option<Reg>
        ensures { result ≡ written self.now }
    {
        match *self {
            Instr::Upper(_, rd, _)
            | Instr::Jal(rd, _)
            | Instr::Jalr(rd, _, _)
            | Instr::Load(_, rd, _, _)
            | Instr::Immediate(_, rd, _, _)
            | Instr::Shift(_, rd, _, _)
            | Instr::ShiftWord(_, rd, _, _)
            | Instr::Register(_, rd, _, _) => Some(rd),
            Instr::Branch(..) | Instr::Store(..) => None,
            Instr::Fence(_) | Instr::Ecall | Instr::Ebreak => None,
        }
    }

    /// Tells a proof that the fields are in range; nothing is computed.
    pub fn in_range(&self)
        ensures { IsInstr self.now }
    {
        match *self {
            Instr::Upper(_, rd, imm) | Instr::Jal(rd, imm) => {
                let _ = (rd.number(), imm.bits());
            }
            Instr::Jalr(first, second, imm)
            | Instr::Branch(_, first, second, imm)
            | Instr::Load(_, first, second, imm)
            | Instr::Store(_, first, second, imm)
            | Instr::Immediate(_, first, second, imm) => {
                let _ = (first.number(), second.number(), imm.bits());
            }
            Instr::Shift(_, rd, rs1, amount) => {
                let _ = (rd.number(), rs1.number(), amount.bits());
            }
            Instr::ShiftWord(_, rd, rs1, amount) => {
                let _ = (rd.number(), rs1.number(), amount.bits());
            }
            Instr::Register(_, rd, rs1, rs2) => {
                let _ = (rd.number(), rs1.number(), rs2.number());
            }
            Instr::Fence(fence) => {
                let _ = fence.word();
            }
            Instr::Ecall | Instr::Ebreak => {}
        }
    }
}
