//! Instructions in the form in which a step takes them.

ghost use Rattle.std.specs.Prelude.{◌≡◌};
ghost use Rattle.rv_instr.specs.declared.instr.Instr.TheVariants as instrs;
ghost use Rattle.rv_machine.specs.Ready.{instr_of};

use rv_instr::{
    BranchOp, Immediate, ImmediateOp, Instr, LoadOp, Reg, RegisterOp, ShiftOp, ShiftWordOp,
    StoreOp, UpperOp,
};

/// An instruction, with a variant for each operation that programs have often, so that a step chooses once what it does.
/// Registers stand in the order of `Instr`.
#[derive(Clone, Copy)]
pub enum Ready {
    Lui(Reg, Immediate<20>),
    Jal(Reg, Immediate<20>),
    Jalr(Reg, Reg, Immediate<12>),
    Beq(Reg, Reg, Immediate<12>),
    Bne(Reg, Reg, Immediate<12>),
    Blt(Reg, Reg, Immediate<12>),
    Bge(Reg, Reg, Immediate<12>),
    Bltu(Reg, Reg, Immediate<12>),
    Bgeu(Reg, Reg, Immediate<12>),
    Lw(Reg, Reg, Immediate<12>),
    Ld(Reg, Reg, Immediate<12>),
    Lbu(Reg, Reg, Immediate<12>),
    Sb(Reg, Reg, Immediate<12>),
    Sw(Reg, Reg, Immediate<12>),
    Sd(Reg, Reg, Immediate<12>),
    Addi(Reg, Reg, Immediate<12>),
    Andi(Reg, Reg, Immediate<12>),
    Addiw(Reg, Reg, Immediate<12>),
    Slli(Reg, Reg, Immediate<6>),
    Srli(Reg, Reg, Immediate<6>),
    Slliw(Reg, Reg, Immediate<5>),
    Srliw(Reg, Reg, Immediate<5>),
    Add(Reg, Reg, Reg),
    Sub(Reg, Reg, Reg),
    Xor(Reg, Reg, Reg),
    Or(Reg, Reg, Reg),
    And(Reg, Reg, Reg),
    Addw(Reg, Reg, Reg),
    Mul(Reg, Reg, Reg),
    /// Another computation on two registers.
    Register(RegisterOp, Reg, Reg, Reg),
    /// Another instruction.
    Other(Instr),
}

impl Ready {
    /// The same instruction.
    pub(crate) fn of(instr: Instr) -> Ready
        ensures { instr_of result ≡ instr }
    {
        match instr {
            Instr::Upper(op, rd, imm) => upper(op, rd, imm),
            Instr::Jal(rd, imm) => Ready::Jal(rd, imm),
            Instr::Jalr(rd, rs1, imm) => Ready::Jalr(rd, rs1, imm),
            Instr::Branch(op, rs1, rs2, imm) => branch(op, rs1, rs2, imm),
            Instr::Load(op, rd, rs1, imm) => load(op, rd, rs1, imm),
            Instr::Store(op, rs1, rs2, imm) => store(op, rs1, rs2, imm),
            Instr::Immediate(op, rd, rs1, imm) => immediate(op, rd, rs1, imm),
            Instr::Shift(op, rd, rs1, amount) => shift(op, rd, rs1, amount),
            Instr::ShiftWord(op, rd, rs1, amount) => shift_word(op, rd, rs1, amount),
            Instr::Register(op, rd, rs1, rs2) => register(op, rd, rs1, rs2),
            Instr::Fence(word) => Ready::Other(Instr::Fence(word)),
            Instr::Ecall => Ready::Other(Instr::Ecall),
            Instr::Ebreak => Ready::Other(Instr::Ebreak),
        }
    }
}

fn upper(op: UpperOp, rd: Reg, imm: Immediate<20>) -> Ready
    ensures { instr_of result ≡ instrs.Upper op rd imm }
{
    match op {
        UpperOp::Lui => Ready::Lui(rd, imm),
        _ => Ready::Other(Instr::Upper(op, rd, imm)),
    }
}

fn branch(op: BranchOp, rs1: Reg, rs2: Reg, imm: Immediate<12>) -> Ready
    ensures { instr_of result ≡ instrs.Branch op rs1 rs2 imm }
{
    match op {
        BranchOp::Beq => Ready::Beq(rs1, rs2, imm),
        BranchOp::Bne => Ready::Bne(rs1, rs2, imm),
        BranchOp::Blt => Ready::Blt(rs1, rs2, imm),
        BranchOp::Bge => Ready::Bge(rs1, rs2, imm),
        BranchOp::Bltu => Ready::Bltu(rs1, rs2, imm),
        BranchOp::Bgeu => Ready::Bgeu(rs1, rs2, imm),
    }
}

fn load(op: LoadOp, rd: Reg, rs1: Reg, imm: Immediate<12>) -> Ready
    ensures { instr_of result ≡ instrs.Load op rd rs1 imm }
{
    match op {
        LoadOp::Lw => Ready::Lw(rd, rs1, imm),
        LoadOp::Ld => Ready::Ld(rd, rs1, imm),
        LoadOp::Lbu => Ready::Lbu(rd, rs1, imm),
        _ => Ready::Other(Instr::Load(op, rd, rs1, imm)),
    }
}

fn store(op: StoreOp, rs1: Reg, rs2: Reg, imm: Immediate<12>) -> Ready
    ensures { instr_of result ≡ instrs.Store op rs1 rs2 imm }
{
    match op {
        StoreOp::Sb => Ready::Sb(rs1, rs2, imm),
        StoreOp::Sw => Ready::Sw(rs1, rs2, imm),
        StoreOp::Sd => Ready::Sd(rs1, rs2, imm),
        _ => Ready::Other(Instr::Store(op, rs1, rs2, imm)),
    }
}

fn immediate(op: ImmediateOp, rd: Reg, rs1: Reg, imm: Immediate<12>) -> Ready
    ensures { instr_of result ≡ instrs.Immediate op rd rs1 imm }
{
    match op {
        ImmediateOp::Addi => Ready::Addi(rd, rs1, imm),
        ImmediateOp::Andi => Ready::Andi(rd, rs1, imm),
        ImmediateOp::Addiw => Ready::Addiw(rd, rs1, imm),
        _ => Ready::Other(Instr::Immediate(op, rd, rs1, imm)),
    }
}

fn shift(op: ShiftOp, rd: Reg, rs1: Reg, amount: Immediate<6>) -> Ready
    ensures { instr_of result ≡ instrs.Shift op rd rs1 amount }
{
    match op {
        ShiftOp::Slli => Ready::Slli(rd, rs1, amount),
        ShiftOp::Srli => Ready::Srli(rd, rs1, amount),
        _ => Ready::Other(Instr::Shift(op, rd, rs1, amount)),
    }
}

fn shift_word(op: ShiftWordOp, rd: Reg, rs1: Reg, amount: Immediate<5>) -> Ready
    ensures { instr_of result ≡ instrs.ShiftWord op rd rs1 amount }
{
    match op {
        ShiftWordOp::Slliw => Ready::Slliw(rd, rs1, amount),
        ShiftWordOp::Srliw => Ready::Srliw(rd, rs1, amount),
        _ => Ready::Other(Instr::ShiftWord(op, rd, rs1, amount)),
    }
}

fn register(op: RegisterOp, rd: Reg, rs1: Reg, rs2: Reg) -> Ready
    ensures { instr_of result ≡ instrs.Register op rd rs1 rs2 }
{
    match op {
        RegisterOp::Add => Ready::Add(rd, rs1, rs2),
        RegisterOp::Sub => Ready::Sub(rd, rs1, rs2),
        RegisterOp::Xor => Ready::Xor(rd, rs1, rs2),
        RegisterOp::Or => Ready::Or(rd, rs1, rs2),
        RegisterOp::And => Ready::And(rd, rs1, rs2),
        RegisterOp::Addw => Ready::Addw(rd, rs1, rs2),
        RegisterOp::Mul => Ready::Mul(rd, rs1, rs2),
        _ => Ready::Register(op, rd, rs1, rs2),
    }
}
