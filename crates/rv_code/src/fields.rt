ghost use Rattle.std.specs.Prelude.{◌≡◌, ◌/◌};
ghost use Rattle.rv_code.specs.Fields.{
  fields_of,
  imm_b,
  imm_i,
  imm_j,
  imm_s,
  imm_u,
  shift_amount,
  with_funct3,
};

use rv_instr::{Immediate, Reg};

pub(crate) fn opcode(word: u32) -> u32
    ensures { result ≡ (fields_of word).opcode }
{
    word & 0x7f
}

pub(crate) fn rd(word: u32) -> Reg
    ensures { result ≡ (fields_of word).rd }
{
    Reg::of((word >> 7) & 0x1f)
}

pub(crate) fn rs1(word: u32) -> Reg
    ensures { result ≡ (fields_of word).rs1 }
{
    Reg::of((word >> 15) & 0x1f)
}

pub(crate) fn rs2(word: u32) -> Reg
    ensures { result ≡ (fields_of word).rs2 }
{
    Reg::of((word >> 20) & 0x1f)
}

pub(crate) fn funct3(word: u32) -> u32
    ensures { result ≡ (fields_of word).funct3 }
{
    (word >> 12) & 7
}

/// funct7 and funct3 as one number.
pub(crate) fn function(word: u32) -> u32
    ensures { result ≡ with_funct3 (fields_of word).funct7 (fields_of word).funct3 }
{
    ((word >> 25) << 3) + ((word >> 12) & 7)
}

/// Bits 31 to 26 and funct3 as one number.
pub(crate) fn shift_function(word: u32) -> u32
    ensures { result ≡ with_funct3 ((fields_of word).funct7 / 2) (fields_of word).funct3 }
{
    ((word >> 26) << 3) + ((word >> 12) & 7)
}

pub(crate) fn immediate_i(word: u32) -> Immediate<12>
    ensures { result ≡ imm_i (fields_of word) }
{
    Immediate::of(word >> 20)
}

pub(crate) fn immediate_s(word: u32) -> Immediate<12>
    ensures { result ≡ imm_s (fields_of word) }
{
    Immediate::of(((word >> 25) << 5) + ((word >> 7) & 0x1f))
}

pub(crate) fn immediate_b(word: u32) -> Immediate<12>
    ensures { result ≡ imm_b (fields_of word) }
{
    let sign = (word >> 31) << 11;
    let bit_11 = ((word >> 7) & 1) << 10;
    let high = ((word >> 25) & 0x3f) << 4;
    let low = (word >> 8) & 0xf;
    Immediate::of(sign + bit_11 + high + low)
}

pub(crate) fn immediate_u(word: u32) -> Immediate<20>
    ensures { result ≡ imm_u (fields_of word) }
{
    Immediate::of(word >> 12)
}

pub(crate) fn immediate_j(word: u32) -> Immediate<20>
    ensures { result ≡ imm_j (fields_of word) }
{
    let sign = (word >> 31) << 19;
    let high = ((word >> 12) & 0xff) << 11;
    let bit_11 = ((word >> 20) & 1) << 10;
    let low = (word >> 21) & 0x3ff;
    Immediate::of(sign + high + bit_11 + low)
}

pub(crate) fn amount(word: u32) -> Immediate<6>
    ensures { result ≡ shift_amount (fields_of word) }
{
    Immediate::of((word >> 20) & 0x3f)
}

pub(crate) fn word_amount(word: u32) -> Immediate<5>
    ensures { result ≡ (fields_of word).rs2 }
{
    Immediate::of((word >> 20) & 0x1f)
}
