ghost use Rattle.std.specs.Prelude.{◌≡◌, ◌+◌, ◌*◌, ◌<◌, ◌≤◌, [], ◌∷◌, is_some, length, None, IfOk, IfSome, OnOk, OnErr, IsTrue};
ghost use Rattle.rv_image.specs.MemoryMap.{can_store, profile_of, CODE_START};
ghost use Rattle.rv_instr.specs.Registers.{get_reg};
ghost use Rattle.rv_code.specs.Run.{disturbed, stepped};
ghost use Rattle.rv_code.specs.State.{last_exit, start_hart, start_shared};
ghost use Rattle.rv_mem.specs.Cells.{HasRoom, has_room};
ghost use Rattle.rv_machine.specs.Harts.{at_pc, harts_in, harts_share, resting_at, run_after};
ghost use Rattle.rv_machine.specs.Parts.{IsFetched, IsNoFetch, MayTakeMemory, hart_in};
ghost use Rattle.rv_machine.specs.Ready.{instr_of};
ghost use Rattle.rv_machine.specs.Room.{KeepsRoom, LacksRoomAtPc};

use crate::hart::Hart;
use crate::processor::Processor;
use crate::ready::Ready;
use rv_code::{Events, Turn};
use rv_image::Image;
use rv_instr::Reg;
use rv_mem::{Change, Memory};
use rv_sys::System;
use rv_word::{Bytes, NoMemory};
use std::alloc::Global;
use std::marker::Model;

/// A machine with one or several harts, in the middle of a run. Each hart has a pc and registers of
/// its own; memory and what system calls keep are shared by all.
#[derive(Drop)]
pub struct Machine {
    processor: Processor,
    current: usize,
    resting: Vec<Hart>,
}

impl Model for Machine {
    ghost use Rattle.rv_machine.specs.Harts.{IsOneOfHarts, MachineParts};

    ghost Value = { MachineParts };

    ghost view = { λ m. record { processor = m.processor; current = m.current; resting = m.resting.items } };

    ghost invariant = { λ m. IsOneOfHarts m.current m.resting.items };
}

impl Machine {
    /// The machine in which a run of an image with so many harts starts; the input is copied, and the
    /// code is decoded.
    pub fn new(alloc: Global, image: &Image, input: &[u8], harts: u8) -> Result<Machine, NoMemory>
        requires { 1 ≤ harts }
        ensures count { IfOk result (λ machine. length machine.resting ≡ harts) }
        ensures harts { IfOk result (λ machine. harts_in machine ≡ start_hart) }
        ensures shared { IfOk result (λ machine. harts_share machine ≡ start_shared image.now input.now) }
        ensures version { IfOk result (λ machine. machine.processor.memory.version ≡ image.now.version) }
    {
        let resting = resting_harts(alloc, harts)?;
        Ok(Machine {
            processor: Processor::new(alloc, image, input)?,
            current: 0,
            resting,
        })
    }

    /// How many harts it has. It has at least one.
    pub fn harts(&self) -> u8
        ensures count { result ≡ length self.now.resting }
        ensures some { 1 ≤ result }
    {
        self.resting.len() as u8
    }

    /// The address of a hart's next instruction.
    pub fn pc(&self, hart: u8) -> u64
        requires { hart < length self.now.resting }
        ensures { result ≡ (harts_in self.now hart).pc }
    {
        let hart = usize::from(hart);
        if hart == self.current {
            self.processor.pc()
        } else {
            self.resting[hart].pc()
        }
    }

    /// What a register of a hart holds.
    pub fn reg(&self, hart: u8, reg: Reg) -> u64
        requires { hart < length self.now.resting }
        ensures { result ≡ get_reg (harts_in self.now hart).regs reg }
    {
        let hart = usize::from(hart);
        if hart == self.current {
            self.processor.reg(reg)
        } else {
            self.resting[hart].reg(reg)
        }
    }

    /// Its memory.
    pub fn mem(&self) -> &Memory
        ensures { result.now ≡ self.now.processor.memory }
    {
        self.processor.mem()
    }

    /// What its system calls keep: the input left, the output and the calls.
    pub fn system(&self) -> &System
        ensures { result.now ≡ self.now.processor.calls }
    {
        self.processor.system()
    }

    /// What the run wrote and the system calls that it made, given back without taking memory.
    pub fn into_results(self) -> (Bytes, Events)
        ensures { result ≡ (self.processor.calls.output, self.processor.calls.events) }
    {
        self.processor.into_results()
    }

    /// One step of a hart. After an exit each step of any hart answers it again. A refusal leaves all
    /// as it was, and comes from a store into data or shadow whose pages were not all made, or from a
    /// system call alone. Pages that were made stay so.
    #[inline(always)]
    pub fn step(&mut self, hart: u8) -> Result<Turn, NoMemory>
        requires { hart < length self.old.resting }
        ensures stepped { IfOk result (λ turn. run_after self.new turn ≡ stepped (profile_of self.old.processor.memory.version) (harts_in self.old) (harts_share self.old) (record { hart = hart; changes = [] })) }
        ensures harts { OnErr result (harts_in self.new ≡ harts_in self.old) }
        ensures shared { OnErr result (harts_share self.new ≡ harts_share self.old) }
        ensures wants { OnErr result (MayTakeMemory (profile_of self.old.processor.memory.version) (harts_in self.old hart) (harts_share self.old)) }
        ensures room { OnErr result (LacksRoomAtPc self.old.processor.memory (harts_in self.old hart)) }
        ensures count { length self.new.resting ≡ length self.old.resting }
        ensures version { self.new.processor.memory.version ≡ self.old.processor.memory.version }
        ensures kept { KeepsRoom self.old.processor self.new.processor }
    {
        let hart = usize::from(hart);
        self.bring(hart);
        self.processor.step()
    }

    /// Selects a hart, of which `pc_of_selected` and `step_selected` are: a run in which one hart steps often
    /// selects it once.
    pub fn select(&mut self, hart: u8)
        requires { hart < length self.old.resting }
        ensures current { self.new.current ≡ hart }
        ensures harts { harts_in self.new ≡ harts_in self.old }
        ensures shared { harts_share self.new ≡ harts_share self.old }
        ensures count { length self.new.resting ≡ length self.old.resting }
        ensures version { self.new.processor.memory.version ≡ self.old.processor.memory.version }
        ensures kept { KeepsRoom self.old.processor self.new.processor }
    {
        self.bring(usize::from(hart));
    }

    /// The address of the next instruction of the selected hart.
    pub fn pc_of_selected(&self) -> u64
        ensures { result ≡ self.now.processor.pc }
    {
        self.processor.pc()
    }

    /// One step of the selected hart, as `step` makes it.
    #[inline(always)]
    pub fn step_selected(&mut self) -> Result<Turn, NoMemory>
        ensures stepped { IfOk result (λ turn. run_after self.new turn ≡ stepped (profile_of self.old.processor.memory.version) (harts_in self.old) (harts_share self.old) (record { hart = self.old.current; changes = [] })) }
        ensures current { self.new.current ≡ self.old.current }
        ensures harts { OnErr result (harts_in self.new ≡ harts_in self.old) }
        ensures shared { OnErr result (harts_share self.new ≡ harts_share self.old) }
        ensures wants { OnErr result (MayTakeMemory (profile_of self.old.processor.memory.version) (hart_in self.old.processor) (harts_share self.old)) }
        ensures room { OnErr result (LacksRoomAtPc self.old.processor.memory (hart_in self.old.processor)) }
        ensures count { length self.new.resting ≡ length self.old.resting }
        ensures version { self.new.processor.memory.version ≡ self.old.processor.memory.version }
        ensures kept { KeepsRoom self.old.processor self.new.processor }
    {
        self.processor.step()
    }

    /// Whether the run has ended.
    #[inline(always)]
    pub fn is_over(&self) -> bool
        ensures { result ≡ is_some (last_exit (harts_share self.now).events) }
    {
        self.processor.is_over()
    }

    /// The number of the word of code at an address and the instruction that stands there, where a step of the selected
    /// hart from there does not end for want of one. So nothing is tested.
    #[inline(always)]
    pub fn fetch_known(&self, pc: u64) -> (usize, Ready)
        requires going { last_exit (harts_share self.now).events ≡ None }
        requires stands { IsNoFetch (stepped (profile_of self.now.processor.memory.version) (harts_in (at_pc self.now pc)) (harts_share self.now) (record { hart = self.now.current; changes = [] })).turn → ⊥ }
        ensures word { pc ≡ CODE_START + 4 * result.0 }
        ensures fetched { IsFetched (harts_share self.now) pc (instr_of result.1) }
    {
        self.processor.fetch_known(pc)
    }

    /// One step of the selected hart as if it stood at an address, with the instruction that stands there, in a run that
    /// goes on. The address goes on in place of its pc, which is neither read nor written: a run in which one hart steps
    /// often keeps it at hand, and gives it back by `go_to`.
    #[inline(always)]
    pub fn step_at(&mut self, pc: &mut u64, ready: &Ready) -> Result<Turn, NoMemory>
        requires going { last_exit (harts_share self.old).events ≡ None }
        requires fetched { IsFetched (harts_share self.old) pc.old (instr_of ready.now) }
        ensures stepped { IfOk result (λ turn. run_after (at_pc self.new pc.new) turn ≡ stepped (profile_of self.old.processor.memory.version) (harts_in (at_pc self.old pc.old)) (harts_share self.old) (record { hart = self.old.current; changes = [] })) }
        ensures going { IfOk result (λ turn. turn ≡ Turn.Ran → last_exit (harts_share self.new).events ≡ None) }
        ensures current { self.new.current ≡ self.old.current }
        ensures resting { self.new.resting ≡ self.old.resting }
        ensures version { self.new.processor.memory.version ≡ self.old.processor.memory.version }
    {
        self.processor.step_at(pc, ready)
    }

    /// Puts the selected hart at an address.
    pub fn go_to(&mut self, pc: u64)
        ensures { self.new ≡ at_pc self.old pc }
    {
        self.processor.set_pc(pc);
    }

    /// Brings a hart into the processor, where it is not there; the one that was there rests.
    #[inline(always)]
    fn bring(&mut self, hart: usize)
        requires { hart < length self.old.resting }
        ensures current { self.new.current ≡ hart }
        ensures harts { harts_in self.new ≡ harts_in self.old }
        ensures count { length self.new.resting ≡ length self.old.resting }
        ensures memory { self.new.processor.memory ≡ self.old.processor.memory }
        ensures calls { self.new.processor.calls ≡ self.old.processor.calls }
    {
        if hart != self.current {
            self.processor.exchange(&mut self.resting[self.current]);
            self.processor.exchange(&mut self.resting[hart]);
            self.current = hart;
        }
    }

    /// Makes the pages of memory of the `len` bytes from `addr` on: no store there wants memory from
    /// then on. Nothing else changes, and it takes time for the pages, not for the bytes.
    pub fn reserve_pages(&mut self, addr: u64, len: u64) -> Result<(), NoMemory>
        requires { IsTrue (can_store (profile_of self.old.processor.memory.version) addr len) }
        ensures harts { harts_in self.new ≡ harts_in self.old }
        ensures shared { harts_share self.new ≡ harts_share self.old }
        ensures room { OnOk result (HasRoom self.new.processor.memory addr len) }
        ensures wants { OnErr result (¬ HasRoom self.old.processor.memory addr len) }
        ensures count { length self.new.resting ≡ length self.old.resting }
        ensures version { self.new.processor.memory.version ≡ self.old.processor.memory.version }
        ensures kept { KeepsRoom self.old.processor self.new.processor }
    {
        self.processor.reserve_pages(addr, len)
    }

    /// Sets one data byte from outside. A refusal leaves all as it was.
    pub fn change(&mut self, change: Change) -> Result<(), NoMemory>
        ensures harts { harts_in self.new ≡ harts_in self.old }
        ensures changed { OnOk result (harts_share self.new ≡ disturbed (harts_share self.old) (record { address = change.0; byte = change.1 } ∷ [])) }
        ensures refused { OnErr result (harts_share self.new ≡ harts_share self.old) }
        ensures room { OnErr result (¬ IsTrue (has_room self.old.processor.memory change.0)) }
        ensures count { length self.new.resting ≡ length self.old.resting }
        ensures version { self.new.processor.memory.version ≡ self.old.processor.memory.version }
        ensures kept { KeepsRoom self.old.processor self.new.processor }
    {
        self.processor.change(change)
    }
}

/// So many harts before a run, by their numbers.
fn resting_harts(alloc: Global, count: u8) -> Result<Vec<Hart>, NoMemory>
    ensures count { IfOk result (λ harts. length harts.items ≡ count) }
    ensures start { IfOk result (λ harts. resting_at harts.items ≡ start_hart) }
{
    let mut harts = Vec::with_capacity(alloc, usize::from(count))?;
    for number in 0..count {
        harts.push_reserved(Hart::new(alloc, number)?);
    }
    Ok(harts)
}
