//! The fixed bits of each instruction's word.

ghost use Rattle.std.specs.Prelude.{◌≡◌, ◌≤◌};
ghost use Rattle.rv_code.specs.Encode.{
  branch_code,
  immediate_code,
  load_code,
  register_code,
  shift_code,
  store_code,
  upper_code,
  word_shift_code,
};

use rv_instr::{BranchOp, ImmediateOp, LoadOp, RegisterOp, ShiftOp, ShiftWordOp, StoreOp, UpperOp};

pub(crate) fn upper(op: UpperOp) -> u32
    ensures value { result ≡ upper_code op }
    ensures small { result ≤ 0x7f }
{
    match op {
        UpperOp::Lui => 0x37,
        UpperOp::Auipc => 0x17,
    }
}

pub(crate) fn branch(op: BranchOp) -> u32
    ensures value { result ≡ branch_code op }
    ensures small { result ≤ 0x707f }
{
    match op {
        BranchOp::Beq => 0x0063,
        BranchOp::Bne => 0x1063,
        BranchOp::Blt => 0x4063,
        BranchOp::Bge => 0x5063,
        BranchOp::Bltu => 0x6063,
        BranchOp::Bgeu => 0x7063,
    }
}

pub(crate) fn load(op: LoadOp) -> u32
    ensures value { result ≡ load_code op }
    ensures small { result ≤ 0x707f }
{
    match op {
        LoadOp::Lb => 0x0003,
        LoadOp::Lh => 0x1003,
        LoadOp::Lw => 0x2003,
        LoadOp::Ld => 0x3003,
        LoadOp::Lbu => 0x4003,
        LoadOp::Lhu => 0x5003,
        LoadOp::Lwu => 0x6003,
    }
}

pub(crate) fn store(op: StoreOp) -> u32
    ensures value { result ≡ store_code op }
    ensures small { result ≤ 0x707f }
{
    match op {
        StoreOp::Sb => 0x0023,
        StoreOp::Sh => 0x1023,
        StoreOp::Sw => 0x2023,
        StoreOp::Sd => 0x3023,
    }
}

pub(crate) fn immediate(op: ImmediateOp) -> u32
    ensures value { result ≡ immediate_code op }
    ensures small { result ≤ 0x707f }
{
    match op {
        ImmediateOp::Addi => 0x0013,
        ImmediateOp::Slti => 0x2013,
        ImmediateOp::Sltiu => 0x3013,
        ImmediateOp::Xori => 0x4013,
        ImmediateOp::Ori => 0x6013,
        ImmediateOp::Andi => 0x7013,
        ImmediateOp::Addiw => 0x001b,
    }
}

pub(crate) fn shift(op: ShiftOp) -> u32
    ensures value { result ≡ shift_code op }
    ensures small { result ≤ 0x4000_707f }
{
    match op {
        ShiftOp::Slli => 0x1013,
        ShiftOp::Srli => 0x5013,
        ShiftOp::Srai => 0x4000_5013,
    }
}

pub(crate) fn word_shift(op: ShiftWordOp) -> u32
    ensures value { result ≡ word_shift_code op }
    ensures small { result ≤ 0x4000_707f }
{
    match op {
        ShiftWordOp::Slliw => 0x101b,
        ShiftWordOp::Srliw => 0x501b,
        ShiftWordOp::Sraiw => 0x4000_501b,
    }
}

pub(crate) fn register(op: RegisterOp) -> u32
    ensures value { result ≡ register_code op }
    ensures small { result ≤ 0x4000_707f }
{
    match op {
        RegisterOp::Add => 0x0033,
        RegisterOp::Sub => 0x4000_0033,
        RegisterOp::Sll => 0x1033,
        RegisterOp::Slt => 0x2033,
        RegisterOp::Sltu => 0x3033,
        RegisterOp::Xor => 0x4033,
        RegisterOp::Srl => 0x5033,
        RegisterOp::Sra => 0x4000_5033,
        RegisterOp::Or => 0x6033,
        RegisterOp::And => 0x7033,
        RegisterOp::Addw => 0x003b,
        RegisterOp::Subw => 0x4000_003b,
        RegisterOp::Sllw => 0x103b,
        RegisterOp::Srlw => 0x503b,
        RegisterOp::Sraw => 0x4000_503b,
        RegisterOp::Mul => 0x0200_0033,
        RegisterOp::Mulh => 0x0200_1033,
        RegisterOp::Mulhsu => 0x0200_2033,
        RegisterOp::Mulhu => 0x0200_3033,
        RegisterOp::Div => 0x0200_4033,
        RegisterOp::Divu => 0x0200_5033,
        RegisterOp::Rem => 0x0200_6033,
        RegisterOp::Remu => 0x0200_7033,
        RegisterOp::Mulw => 0x0200_003b,
        RegisterOp::Divw => 0x0200_403b,
        RegisterOp::Divuw => 0x0200_503b,
        RegisterOp::Remw => 0x0200_603b,
        RegisterOp::Remuw => 0x0200_703b,
    }
}
