ghost use Rattle.std.specs.Prelude.{◌≡◌, ℕ, IfOk, IsTrue, OnErr};
ghost use Rattle.rv_instr.specs.Registers.{get_reg, set_reg};
ghost use Rattle.rv_code.specs.State.{start_hart};
ghost use Rattle.rv_code.specs.SystemCall.{system_call};
ghost use Rattle.rv_mem.specs.Cells.{has_room, memory_of};
ghost use Rattle.rv_sys.specs.Calls.{after_call, shared_of};
ghost use Rattle.rv_machine.specs.Harts.{rest_of};

use rv_image::profile::START;
use rv_instr::{Reg, Regs};
use rv_mem::Memory;
use rv_sys::{SysEnd, System};
use rv_word::NoMemory;
use std::alloc::Global;
use std::marker::Model;

/// A pc and registers.
#[derive(Drop)]
struct State {
    pc: u64,
    regs: Regs,
}

/// A hart. Its state stands apart, so that two harts change places by one word each.
#[derive(Drop)]
pub(crate) struct Hart {
    state: Box<State>,
}

impl Model for Hart {
    ghost use Rattle.rv_machine.specs.Harts.{HartParts};

    ghost Value = { HartParts };

    ghost view = { λ h. record { pc = h.state.value.pc; regs = h.state.value.regs } };
}

impl Hart {
    /// A hart before a run, with its number in x10.
    pub(crate) fn new(alloc: Global, number: u8) -> Result<Hart, NoMemory>
        ensures { IfOk result (λ hart. rest_of hart ≡ start_hart number) }
    {
        let mut regs = Regs::new();
        regs.set(Reg::of(10), u64::from(number));
        let state = Box::new(alloc, State { pc: START, regs })?;
        Ok(Hart { state })
    }

    /// The address of its next instruction.
    pub(crate) fn pc(&self) -> u64
        ensures { result ≡ self.now.pc }
    {
        self.state.pc
    }

    /// Goes to an address.
    pub(crate) fn set_pc(&mut self, pc: u64)
        ensures { self.new ≡ record self.old { pc = pc } }
    {
        self.state.pc = pc;
    }

    /// What a register holds.
    pub(crate) fn reg(&self, reg: Reg) -> u64
        ensures { result ≡ get_reg (rest_of self.now).regs reg }
    {
        self.state.regs.get(reg)
    }

    /// Writes a register; a write to x0 changes nothing.
    pub(crate) fn set_reg(&mut self, reg: Reg, value: u64)
        ensures { rest_of self.new ≡ record (rest_of self.old) { regs = set_reg (rest_of self.old).regs reg value } }
    {
        self.state.regs.set(reg, value);
    }

    /// Makes one system call, as `System::call` does by the registers.
    #[inline(always)]
    pub(crate) fn call(
        &mut self,
        system: &mut System,
        memory: &mut Memory,
    ) -> Result<SysEnd, NoMemory>
        ensures called { IfOk result (λ end. after_call end self.old.pc self.new.regs memory.new system.new ≡ system_call (rest_of self.old) (shared_of memory.old system.old)) }
        ensures pc { self.new.pc ≡ self.old.pc }
        ensures registers { OnErr result (self.new.regs ≡ self.old.regs) }
        ensures memory { OnErr result (memory_of memory.new ≡ memory_of memory.old) }
        ensures version { memory.new.version ≡ memory.old.version }
        ensures kept { (k : ℕ) → IsTrue (has_room memory.old k) → IsTrue (has_room memory.new k) }
        ensures refused { OnErr result (system.new ≡ system.old) }
    {
        system.call(&mut self.state.regs, memory)
    }
}
