//! The instructions of RV64IM as values: registers, immediates, one variant for each format.
#![tactic(auto)]

pub use immediate::Immediate;
pub use instr::{
    BranchOp, FenceWord, ImmediateOp, Instr, LoadOp, RegisterOp, ShiftOp, ShiftWordOp, StoreOp,
    UpperOp,
};
pub use reg::Reg;
pub use registers::Regs;

mod immediate;
mod instr;
mod reg;
mod registers;
