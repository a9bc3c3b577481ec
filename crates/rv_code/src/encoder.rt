ghost use Rattle.std.specs.Prelude.{◌≡◌, ◌+◌, ◌-◌, ◌^◌, ◌≤◌, Some};
ghost use Rattle.rv_code.specs.Decode.{decoded};
ghost use Rattle.rv_code.specs.Encode.{
  at_imm_b,
  at_imm_j,
  at_imm_s,
  at_rd,
  at_rs1,
  at_rs2,
  code_of,
};

use crate::codes;
use rv_instr::{Immediate, Instr, Reg};

/// The word of an instruction (RISC-V unprivileged ISA, "RV32/64G Instruction Set Listings"). Of a
/// FENCE it is the word that it was decoded from.
pub fn encode(instr: Instr) -> u32
    ensures value { result ≡ code_of instr }
    ensures read_back { decoded result ≡ Some instr }
{
    instr.in_range();
    word_of(&instr)
}

#[tactic(auto, unfolding(crate::specs::Encode::code_of))]
fn word_of(instr: &Instr) -> u32
    ensures { result ≡ code_of instr.now }
{
    match *instr {
        Instr::Upper(op, rd, imm) => codes::upper(op) + at_7(rd) + (imm.bits() << 12),
        Instr::Jal(rd, imm) => 0x6f + at_7(rd) + immediate_j(imm),
        Instr::Jalr(rd, rs1, imm) => 0x67 + at_7(rd) + at_15(rs1) + (imm.bits() << 20),
        Instr::Branch(op, rs1, rs2, imm) => {
            codes::branch(op) + at_15(rs1) + at_20(rs2) + immediate_b(imm)
        }
        Instr::Load(op, rd, rs1, imm) => {
            codes::load(op) + at_7(rd) + at_15(rs1) + (imm.bits() << 20)
        }
        Instr::Store(op, rs1, rs2, imm) => {
            codes::store(op) + at_15(rs1) + at_20(rs2) + immediate_s(imm)
        }
        Instr::Immediate(op, rd, rs1, imm) => {
            codes::immediate(op) + at_7(rd) + at_15(rs1) + (imm.bits() << 20)
        }
        Instr::Shift(op, rd, rs1, amount) => {
            codes::shift(op) + at_7(rd) + at_15(rs1) + (amount.bits() << 20)
        }
        Instr::ShiftWord(op, rd, rs1, amount) => {
            codes::word_shift(op) + at_7(rd) + at_15(rs1) + (amount.bits() << 20)
        }
        Instr::Register(op, rd, rs1, rs2) => {
            codes::register(op) + at_7(rd) + at_15(rs1) + at_20(rs2)
        }
        Instr::Fence(fence) => fence.word(),
        Instr::Ecall => 0x0000_0073,
        Instr::Ebreak => 0x0010_0073,
    }
}

fn at_7(reg: Reg) -> u32
    ensures value { result ≡ at_rd reg }
    ensures small { result ≤ 2 ^ 12 - 2 ^ 7 }
{
    u32::from(reg.number()) << 7
}

fn at_15(reg: Reg) -> u32
    ensures value { result ≡ at_rs1 reg }
    ensures small { result ≤ 2 ^ 20 - 2 ^ 15 }
{
    u32::from(reg.number()) << 15
}

fn at_20(reg: Reg) -> u32
    ensures value { result ≡ at_rs2 reg }
    ensures small { result ≤ 2 ^ 25 - 2 ^ 20 }
{
    u32::from(reg.number()) << 20
}

fn immediate_s(imm: Immediate<12>) -> u32
    ensures value { result ≡ at_imm_s imm }
    ensures small { result ≤ 2 ^ 32 - 2 ^ 25 + 2 ^ 12 - 2 ^ 7 }
{
    let bits = imm.bits();
    ((bits & 0x1f) << 7) + ((bits >> 5) << 25)
}

fn immediate_b(imm: Immediate<12>) -> u32
    ensures value { result ≡ at_imm_b imm }
    ensures small { result ≤ 2 ^ 32 - 2 ^ 25 + 2 ^ 12 - 2 ^ 7 }
{
    let bits = imm.bits();
    let bit_11 = ((bits >> 10) & 1) << 7;
    let low = (bits & 0xf) << 8;
    let high = ((bits >> 4) & 0x3f) << 25;
    let sign = (bits >> 11) << 31;
    bit_11 + low + high + sign
}

fn immediate_j(imm: Immediate<20>) -> u32
    ensures value { result ≡ at_imm_j imm }
    ensures small { result ≤ 2 ^ 32 - 2 ^ 12 }
{
    let bits = imm.bits();
    let high = ((bits >> 11) & 0xff) << 12;
    let bit_11 = ((bits >> 10) & 1) << 20;
    let low = (bits & 0x3ff) << 21;
    let sign = (bits >> 19) << 31;
    high + bit_11 + low + sign
}
