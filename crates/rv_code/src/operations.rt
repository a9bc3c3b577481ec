//! Operations by their function codes.

ghost use Rattle.std.specs.Prelude.{◌≡◌};
ghost use Rattle.rv_code.specs.Tables.{
  branches,
  immediates,
  loads,
  registers,
  row,
  shifts,
  stores,
  word_registers,
  word_shifts,
};

use rv_instr::{BranchOp, ImmediateOp, LoadOp, RegisterOp, ShiftOp, ShiftWordOp, StoreOp};

pub(crate) fn branch(funct3: u32) -> Option<BranchOp>
    ensures { result ≡ row branches funct3 }
{
    match funct3 {
        0 => Some(BranchOp::Beq),
        1 => Some(BranchOp::Bne),
        4 => Some(BranchOp::Blt),
        5 => Some(BranchOp::Bge),
        6 => Some(BranchOp::Bltu),
        7 => Some(BranchOp::Bgeu),
        _ => None,
    }
}

pub(crate) fn load(funct3: u32) -> Option<LoadOp>
    ensures { result ≡ row loads funct3 }
{
    match funct3 {
        0 => Some(LoadOp::Lb),
        1 => Some(LoadOp::Lh),
        2 => Some(LoadOp::Lw),
        3 => Some(LoadOp::Ld),
        4 => Some(LoadOp::Lbu),
        5 => Some(LoadOp::Lhu),
        6 => Some(LoadOp::Lwu),
        _ => None,
    }
}

pub(crate) fn store(funct3: u32) -> Option<StoreOp>
    ensures { result ≡ row stores funct3 }
{
    match funct3 {
        0 => Some(StoreOp::Sb),
        1 => Some(StoreOp::Sh),
        2 => Some(StoreOp::Sw),
        3 => Some(StoreOp::Sd),
        _ => None,
    }
}

pub(crate) fn immediate(funct3: u32) -> Option<ImmediateOp>
    ensures { result ≡ row immediates funct3 }
{
    match funct3 {
        0 => Some(ImmediateOp::Addi),
        2 => Some(ImmediateOp::Slti),
        3 => Some(ImmediateOp::Sltiu),
        4 => Some(ImmediateOp::Xori),
        6 => Some(ImmediateOp::Ori),
        7 => Some(ImmediateOp::Andi),
        _ => None,
    }
}

pub(crate) fn shift(function: u32) -> Option<ShiftOp>
    ensures { result ≡ row shifts function }
{
    match function {
        1 => Some(ShiftOp::Slli),
        5 => Some(ShiftOp::Srli),
        0x85 => Some(ShiftOp::Srai),
        _ => None,
    }
}

pub(crate) fn word_shift(function: u32) -> Option<ShiftWordOp>
    ensures { result ≡ row word_shifts function }
{
    match function {
        1 => Some(ShiftWordOp::Slliw),
        5 => Some(ShiftWordOp::Srliw),
        0x105 => Some(ShiftWordOp::Sraiw),
        _ => None,
    }
}

pub(crate) fn register(function: u32) -> Option<RegisterOp>
    ensures { result ≡ row registers function }
{
    match function {
        0 => Some(RegisterOp::Add),
        1 => Some(RegisterOp::Sll),
        2 => Some(RegisterOp::Slt),
        3 => Some(RegisterOp::Sltu),
        4 => Some(RegisterOp::Xor),
        5 => Some(RegisterOp::Srl),
        6 => Some(RegisterOp::Or),
        7 => Some(RegisterOp::And),
        0x100 => Some(RegisterOp::Sub),
        0x105 => Some(RegisterOp::Sra),
        8 => Some(RegisterOp::Mul),
        9 => Some(RegisterOp::Mulh),
        10 => Some(RegisterOp::Mulhsu),
        11 => Some(RegisterOp::Mulhu),
        12 => Some(RegisterOp::Div),
        13 => Some(RegisterOp::Divu),
        14 => Some(RegisterOp::Rem),
        15 => Some(RegisterOp::Remu),
        _ => None,
    }
}

pub(crate) fn word_register(function: u32) -> Option<RegisterOp>
    ensures { result ≡ row word_registers function }
{
    match function {
        0 => Some(RegisterOp::Addw),
        1 => Some(RegisterOp::Sllw),
        5 => Some(RegisterOp::Srlw),
        0x100 => Some(RegisterOp::Subw),
        0x105 => Some(RegisterOp::Sraw),
        8 => Some(RegisterOp::Mulw),
        12 => Some(RegisterOp::Divw),
        13 => Some(RegisterOp::Divuw),
        14 => Some(RegisterOp::Remw),
        15 => Some(RegisterOp::Remuw),
        _ => None,
    }
}
