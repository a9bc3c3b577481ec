ghost use Rattle.std.specs.Prelude.{◌≡◌};
ghost use Rattle.rv_instr.specs.Registers.{cleared, get_reg, regs_of, set_reg};

use crate::reg::Reg;
use std::marker::Model;

/// What the 32 integer registers hold (RISC-V unprivileged ISA, "Programmers' Model for Base
/// Integer ISA"). Contracts see the list of the 32 numbers.
#[derive(Drop)]
pub struct Regs {
    values: [u64; 32],
}

impl Model for Regs {
    ghost use Rattle.std.specs.Prelude.{◌≡◌, ℕ, List, slice_index};

    ghost Value = { List ℕ };

    ghost view = { λ r. r.values };

    ghost invariant = { λ r. slice_index r.values 0 ≡ 0 };
}

impl Regs {
    /// Registers that all hold zero.
    pub fn new() -> Self
        ensures { regs_of result ≡ cleared }
    {
        Regs { values: [0; 32] }
    }

    /// What a register holds; x0 holds zero.
    pub fn get(&self, reg: Reg) -> u64
        ensures { result ≡ get_reg (regs_of self.now) reg }
    {
        self.values[usize::from(reg.number())]
    }

    /// Writes a register; a write to x0 changes nothing.
    pub fn set(&mut self, reg: Reg, value: u64)
        ensures { regs_of self.new ≡ set_reg (regs_of self.old) reg value }
    {
        if reg.number() != 0 {
            self.values[usize::from(reg.number())] = value;
        }
    }
}
