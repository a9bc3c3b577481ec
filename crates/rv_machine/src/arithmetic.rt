ghost use Rattle.std.specs.Prelude.{◌≡◌, ◌<◌, ◌*◌, ◌%◌, ◌^◌, true};
ghost use Rattle.rv_machine.specs.LongLatency.{is_long_latency};
ghost use Rattle.rv_mem.specs.Access.{IsAccessSize};
ghost use Rattle.rv_word.specs.Bits.{sign_extended};
ghost use Rattle.rv_code.specs.Step.{offset};
ghost use Rattle.rv_code.specs.Arithmetic.{
  branch_taken,
  immediate_result,
  load_result,
  load_size,
  register_result,
  shift_result,
  shift_word_result,
  signed_less,
  store_size,
};

use rv_instr::{
    BranchOp, Immediate, ImmediateOp, LoadOp, RegisterOp, ShiftOp, ShiftWordOp, StoreOp,
};
use rv_word::{div32, div64, low32, mul_high, rem32, rem64, sext};

/// The low 32 bits, sign-extended.
pub(crate) fn word(value: u64) -> u64
    ensures { result ≡ sign_extended value 32 }
{
    i64::from(low32(value).cast_signed()).cast_unsigned()
}

/// The immediate of a computation, a load, a store or a JALR, sign-extended.
pub(crate) fn immediate_value(imm: Immediate<12>) -> u64
    ensures { result ≡ offset 12 imm }
{
    (u64::from(imm.bits()) ^ 0x800).wrapping_sub(0x800)
}

/// How many bytes a branch goes on.
pub(crate) fn branch_offset(imm: Immediate<12>) -> u64
    ensures { result ≡ offset 13 (imm * 2) }
{
    immediate_value(imm).wrapping_mul(2)
}

/// How many bytes a JAL goes on.
pub(crate) fn jump_offset(imm: Immediate<20>) -> u64
    ensures { result ≡ offset 21 (imm * 2) }
{
    let offset = u64::from(imm.bits()) * 2;
    if offset < 0x10_0000 {
        offset
    } else {
        offset.wrapping_sub(0x20_0000)
    }
}

/// A computation with an immediate, which is sign-extended.
pub(crate) fn immediate(op: ImmediateOp, a: u64, i: u64) -> u64
    ensures { result ≡ immediate_result op a i }
{
    match op {
        ImmediateOp::Addi => a.wrapping_add(i),
        ImmediateOp::Slti => u64::from(is_less(a, i)),
        ImmediateOp::Sltiu => u64::from(a < i),
        ImmediateOp::Xori => a ^ i,
        ImmediateOp::Ori => a | i,
        ImmediateOp::Andi => a & i,
        ImmediateOp::Addiw => word(a.wrapping_add(i)),
    }
}

/// A computation on two registers.
#[inline(always)]
pub(crate) fn register(op: RegisterOp, a: u64, b: u64) -> u64
    ensures { result ≡ register_result op a b }
{
    match op {
        RegisterOp::Add => a.wrapping_add(b),
        RegisterOp::Sub => a.wrapping_sub(b),
        RegisterOp::Sll => shift(ShiftOp::Slli, a, amount(b)),
        RegisterOp::Slt => u64::from(is_less(a, b)),
        RegisterOp::Sltu => u64::from(a < b),
        RegisterOp::Xor => a ^ b,
        RegisterOp::Srl => shift(ShiftOp::Srli, a, amount(b)),
        RegisterOp::Sra => shift(ShiftOp::Srai, a, amount(b)),
        RegisterOp::Or => a | b,
        RegisterOp::And => a & b,
        RegisterOp::Addw => word(a.wrapping_add(b)),
        RegisterOp::Subw => word(a.wrapping_sub(b)),
        RegisterOp::Sllw => shift_word(ShiftWordOp::Slliw, a, word_amount(b)),
        RegisterOp::Srlw => shift_word(ShiftWordOp::Srliw, a, word_amount(b)),
        RegisterOp::Sraw => shift_word(ShiftWordOp::Sraiw, a, word_amount(b)),
        RegisterOp::Mul => a.wrapping_mul(b),
        RegisterOp::Mulw => word(a.wrapping_mul(b)),
        RegisterOp::Mulh
        | RegisterOp::Mulhsu
        | RegisterOp::Mulhu
        | RegisterOp::Div
        | RegisterOp::Divu
        | RegisterOp::Rem
        | RegisterOp::Remu
        | RegisterOp::Divw
        | RegisterOp::Divuw
        | RegisterOp::Remw
        | RegisterOp::Remuw => long_latency(op, a, b),
    }
}

/// The upper half of a product, a quotient or a remainder. It is not inlined, which keeps the loop of a
/// run small.
#[inline(never)]
fn long_latency(op: RegisterOp, a: u64, b: u64) -> u64
    requires { is_long_latency op ≡ true }
    ensures { result ≡ register_result op a b }
{
    match op {
        RegisterOp::Mulh => mul_high(a, true, b, true),
        RegisterOp::Mulhsu => mul_high(a, true, b, false),
        RegisterOp::Mulhu => mul_high(a, false, b, false),
        RegisterOp::Div => div64(a, b, true),
        RegisterOp::Divu => div64(a, b, false),
        RegisterOp::Rem => rem64(a, b, true),
        RegisterOp::Remu => rem64(a, b, false),
        RegisterOp::Divw => word(u64::from(div32(low32(a), low32(b), true))),
        RegisterOp::Divuw => word(u64::from(div32(low32(a), low32(b), false))),
        RegisterOp::Remw => word(u64::from(rem32(low32(a), low32(b), true))),
        RegisterOp::Remuw => word(u64::from(rem32(low32(a), low32(b), false))),
        _ => unreachable!(),
    }
}

/// The amount of a shift by a register: its low six bits.
fn amount(b: u64) -> u32
    ensures value { result ≡ b % 2 ^ 6 }
    ensures small { result < 64 }
{
    (b & 0x3f) as u32
}

/// The amount of a shift of a word: its low five bits.
fn word_amount(b: u64) -> u32
    ensures value { result ≡ b % 2 ^ 5 }
    ensures small { result < 32 }
{
    (b & 0x1f) as u32
}

/// A shift of all 64 bits.
pub(crate) fn shift(op: ShiftOp, a: u64, amount: u32) -> u64
    requires { amount < 64 }
    ensures { result ≡ shift_result op a amount }
{
    match op {
        ShiftOp::Slli => a << amount,
        ShiftOp::Srli => a >> amount,
        ShiftOp::Srai => sext(a >> amount, 64 - amount),
    }
}

/// A shift of the low 32 bits.
pub(crate) fn shift_word(op: ShiftWordOp, a: u64, amount: u32) -> u64
    requires { amount < 32 }
    ensures { result ≡ shift_word_result op a amount }
{
    let low = u64::from(low32(a));
    match op {
        ShiftWordOp::Slliw => word(a << amount),
        ShiftWordOp::Srliw => word(low >> amount),
        ShiftWordOp::Sraiw => sext(low >> amount, 32 - amount),
    }
}

/// Whether a is less than b as signed numbers.
fn is_less(a: u64, b: u64) -> bool
    ensures { result ≡ signed_less a b }
{
    a.cast_signed() < b.cast_signed()
}

/// Whether a branch is taken that compares these two values of registers.
pub fn branches(op: BranchOp, a: u64, b: u64) -> bool
    ensures { result ≡ branch_taken op a b }
{
    match op {
        BranchOp::Beq => a == b,
        BranchOp::Bne => a != b,
        BranchOp::Blt => is_less(a, b),
        BranchOp::Bge => !is_less(a, b),
        BranchOp::Bltu => a < b,
        BranchOp::Bgeu => a >= b,
    }
}

/// How many bytes a load reads.
pub(crate) fn loaded_bytes(op: LoadOp) -> u8
    ensures value { result ≡ load_size op }
    ensures size { IsAccessSize result }
{
    match op {
        LoadOp::Lb | LoadOp::Lbu => 1,
        LoadOp::Lh | LoadOp::Lhu => 2,
        LoadOp::Lw | LoadOp::Lwu => 4,
        LoadOp::Ld => 8,
    }
}

/// What a load puts into its register.
pub(crate) fn loaded(op: LoadOp, value: u64) -> u64
    ensures { result ≡ load_result op value }
{
    match op {
        LoadOp::Lb => sext(value, 8),
        LoadOp::Lh => sext(value, 16),
        LoadOp::Lw => word(value),
        LoadOp::Ld | LoadOp::Lbu | LoadOp::Lhu | LoadOp::Lwu => value,
    }
}

/// How many bytes a store writes.
pub(crate) fn stored_bytes(op: StoreOp) -> u8
    ensures value { result ≡ store_size op }
    ensures size { IsAccessSize result }
{
    match op {
        StoreOp::Sb => 1,
        StoreOp::Sh => 2,
        StoreOp::Sw => 4,
        StoreOp::Sd => 8,
    }
}
