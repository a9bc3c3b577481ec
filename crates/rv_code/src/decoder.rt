ghost use Rattle.std.specs.Prelude.{◌≡◌, IfSome};
ghost use Rattle.rv_code.specs.Encode.{code_of};
ghost use Rattle.rv_code.specs.Fields.{fields_of};
ghost use Rattle.rv_code.specs.Decode.{
  decoded,
  fence_of,
  immediate_of,
  jump_of,
  system_of,
  word_immediate_of,
};

use crate::fields::{
    amount, funct3, function, immediate_b, immediate_i, immediate_j, immediate_s, immediate_u,
    opcode, rd, rs1, rs2, shift_function, word_amount,
};
use crate::operations;
use rv_instr::{FenceWord, ImmediateOp, Instr, UpperOp};

/// The instruction that a word is (RISC-V unprivileged ISA, "RV32/64G Instruction Set Listings",
/// the rows of RV32I, RV64I, RV32M and RV64M); `None` where no row fits.
#[inline(always)]
pub fn decode(word: u32) -> Option<Instr>
    ensures value { result ≡ decoded word }
    ensures spelled { IfSome result (λ i. code_of i ≡ word) }
{
    by_opcode(word)
}

#[inline(always)]
#[tactic(auto, unfolding(crate::specs::Decode::decoded))]
fn by_opcode(word: u32) -> Option<Instr>
    ensures { result ≡ decoded word }
{
    match opcode(word) {
        0x37 => Some(Instr::Upper(UpperOp::Lui, rd(word), immediate_u(word))),
        0x17 => Some(Instr::Upper(UpperOp::Auipc, rd(word), immediate_u(word))),
        0x6f => Some(Instr::Jal(rd(word), immediate_j(word))),
        0x67 => jump_register(word),
        0x63 => {
            let op = operations::branch(funct3(word))?;
            Some(Instr::Branch(op, rs1(word), rs2(word), immediate_b(word)))
        }
        0x03 => {
            let op = operations::load(funct3(word))?;
            Some(Instr::Load(op, rd(word), rs1(word), immediate_i(word)))
        }
        0x23 => {
            let op = operations::store(funct3(word))?;
            Some(Instr::Store(op, rs1(word), rs2(word), immediate_s(word)))
        }
        0x13 => immediate(word),
        0x1b => word_immediate(word),
        0x33 => {
            let op = operations::register(function(word))?;
            Some(Instr::Register(op, rd(word), rs1(word), rs2(word)))
        }
        0x3b => {
            let op = operations::word_register(function(word))?;
            Some(Instr::Register(op, rd(word), rs1(word), rs2(word)))
        }
        0x0f => fence(word),
        0x73 => system(word),
        _ => None,
    }
}

fn jump_register(word: u32) -> Option<Instr>
    ensures { result ≡ jump_of (fields_of word) }
{
    if funct3(word) == 0 {
        Some(Instr::Jalr(rd(word), rs1(word), immediate_i(word)))
    } else {
        None
    }
}

fn immediate(word: u32) -> Option<Instr>
    ensures { result ≡ immediate_of (fields_of word) }
{
    match operations::immediate(funct3(word)) {
        Some(op) => Some(Instr::Immediate(op, rd(word), rs1(word), immediate_i(word))),
        None => {
            let op = operations::shift(shift_function(word))?;
            Some(Instr::Shift(op, rd(word), rs1(word), amount(word)))
        }
    }
}

fn word_immediate(word: u32) -> Option<Instr>
    ensures { result ≡ word_immediate_of (fields_of word) }
{
    if funct3(word) == 0 {
        return Some(Instr::Immediate(ImmediateOp::Addiw, rd(word), rs1(word), immediate_i(word)));
    }
    let op = operations::word_shift(function(word))?;
    Some(Instr::ShiftWord(op, rd(word), rs1(word), word_amount(word)))
}

fn fence(word: u32) -> Option<Instr>
    requires { (fields_of word).opcode ≡ 0x0f }
    ensures { result ≡ fence_of (fields_of word) word }
{
    if funct3(word) == 0 {
        Some(Instr::Fence(FenceWord::of(word)))
    } else {
        None
    }
}

fn system(word: u32) -> Option<Instr>
    ensures { result ≡ system_of word }
{
    match word {
        0x0000_0073 => Some(Instr::Ecall),
        0x0010_0073 => Some(Instr::Ebreak),
        _ => None,
    }
}
