//! Instructions by their names in the assembler. A register is told by its number, an immediate by its field.
ghost use Rattle.std.specs.Prelude.{◌≡◌, ◌<◌, ◌≤◌, ◌^◌};
ghost use Rattle.cfi_gen.specs.Assembly.{addi, auipc, bne, jalr, ld, lui, minus, sd};

use rv_instr::{BranchOp, Immediate, ImmediateOp, Instr, LoadOp, Reg, StoreOp, UpperOp};

/// The return address.
pub(crate) const RA: u32 = 1;

/// The stack pointer.
pub(crate) const SP: u32 = 2;

/// A register that a call may change: the address of a computed call.
pub(crate) const T0: u32 = 5;

/// A register that a call keeps: where `main` is in the table.
pub(crate) const S0: u32 = 8;

/// Another one: where the table ends.
pub(crate) const S1: u32 = 9;

/// The argument and the answer of a function.
pub(crate) const A0: u32 = 10;

/// `addi rd,rs1,imm`.
pub(crate) fn addi(rd: u32, rs1: u32, imm: u32) -> Instr
    requires registers { (rd < 32) × (rs1 < 32) }
    requires imm { imm < 2 ^ 12 }
    ensures { result ≡ addi rd rs1 imm }
{
    Instr::Immediate(
        ImmediateOp::Addi,
        Reg::of(rd),
        Reg::of(rs1),
        Immediate::of(imm),
    )
}

/// `ld rd,imm(rs1)`.
pub(crate) fn ld(rd: u32, imm: u32, rs1: u32) -> Instr
    requires registers { (rd < 32) × (rs1 < 32) }
    requires imm { imm < 2 ^ 12 }
    ensures { result ≡ ld rd imm rs1 }
{
    Instr::Load(LoadOp::Ld, Reg::of(rd), Reg::of(rs1), Immediate::of(imm))
}

/// `sd rs2,imm(rs1)`.
pub(crate) fn sd(rs2: u32, imm: u32, rs1: u32) -> Instr
    requires registers { (rs2 < 32) × (rs1 < 32) }
    requires imm { imm < 2 ^ 12 }
    ensures { result ≡ sd rs2 imm rs1 }
{
    Instr::Store(StoreOp::Sd, Reg::of(rs1), Reg::of(rs2), Immediate::of(imm))
}

/// `jalr rd,imm(rs1)`, with an immediate of 0.
pub(crate) fn jalr(rd: u32, rs1: u32) -> Instr
    requires registers { (rd < 32) × (rs1 < 32) }
    ensures { result ≡ jalr rd 0 rs1 }
{
    Instr::Jalr(Reg::of(rd), Reg::of(rs1), Immediate::of(0))
}

/// `bne rs1,rs2`, over an offset in multiples of two bytes.
pub(crate) fn bne(rs1: u32, rs2: u32, imm: u32) -> Instr
    requires registers { (rs1 < 32) × (rs2 < 32) }
    requires imm { imm < 2 ^ 12 }
    ensures { result ≡ bne rs1 rs2 imm }
{
    Instr::Branch(
        BranchOp::Bne,
        Reg::of(rs1),
        Reg::of(rs2),
        Immediate::of(imm),
    )
}

/// `lui rd,0`.
pub(crate) fn lui(rd: u32) -> Instr
    requires { rd < 32 }
    ensures { result ≡ lui rd }
{
    Instr::Upper(UpperOp::Lui, Reg::of(rd), Immediate::of(0))
}

/// `auipc rd,0`.
pub(crate) fn auipc(rd: u32) -> Instr
    requires { rd < 32 }
    ensures { result ≡ auipc rd }
{
    Instr::Upper(UpperOp::Auipc, Reg::of(rd), Immediate::of(0))
}

/// The field of 12 bits that says this number below zero.
pub(crate) fn minus(number: u32) -> u32
    requires { number ≤ 2 ^ 12 }
    ensures { result ≡ minus number }
{
    (1 << 12) - number
}
