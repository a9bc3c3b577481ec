ghost use Rattle.std.specs.Prelude.{◌≡◌, ◌+◌, ◌*◌, ◌/◌, ◌<◌, ◌≤◌, ◌^◌, ◌↔◌, [], ◌∷◌, is_some, length, true, false, ℕ, None, IfOk, IfSome, IsSome, IsErr, IsErrAnd, IsErrOf, OnOk, OnErr, IsTrue};
ghost use Rattle.rv_word.specs.End.{IsFault};
ghost use Rattle.rv_image.specs.MemoryMap.{can_load, can_store, profile_of, CODE_START, DATA_START, DATA_END};
ghost use Rattle.rv_word.specs.Memory.{placed, read, write, zeros};
ghost use Rattle.rv_instr.specs.Registers.{get_reg, set_reg};
ghost use Rattle.rv_code.specs.Arithmetic.{load_result, load_size, store_size};
ghost use Rattle.rv_code.specs.Decode.{decoded};
ghost use Rattle.rv_code.specs.Run.{disturbed};
ghost use Rattle.rv_code.specs.State.{last_exit, start_hart, start_shared};
ghost use Rattle.rv_code.specs.Step.{address, can_fetch, exec, offset, puts, ran, step};
ghost use Rattle.rv_mem.specs.Cells.{HasRoom, has_room, memory_of};
ghost use Rattle.rv_machine.specs.Code.{IsCodeOf};
ghost use Rattle.rv_machine.specs.Ready.{instr_of};
ghost use Rattle.rv_machine.specs.Room.{KeepsVersionAndRoom, LacksRoom, LacksRoomAtPc};
ghost use Rattle.rv_machine.specs.Parts.{after_at, after_step, hart_at, hart_in, may_take_memory, shared_in, IsFetched, MayTakeMemory};

use crate::arithmetic;
use crate::code::Code;
use crate::hart::Hart;
use crate::ready::Ready;
use rv_code::{Events, Turn};
use rv_image::memory_map::{CODE_SIZE, CODE_START};
use rv_image::{Image, ImageVersion};
use rv_instr::{
    BranchOp, Immediate, ImmediateOp, Instr, LoadOp, Reg, RegisterOp, ShiftOp, ShiftWordOp,
    StoreOp, UpperOp,
};
use rv_mem::{Change, LoadFault, Memory, StoreFault};
use rv_sys::{SysEnd, System};
use rv_word::{Bytes, End, NoMemory, sext};
use std::alloc::Global;
use std::marker::Model;
use std::mem;

/// The end of code's region.
const CODE_END: u64 = CODE_START + CODE_SIZE;

/// A hart with its memory, its system calls and its code, in the middle of a run.
#[derive(Drop)]
pub struct Processor {
    hart: Hart,
    memory: Memory,
    system: System,
    code: Code,
    ended: Option<u8>,
}

impl Model for Processor {
    ghost use Rattle.rv_mem.specs.Cells.{memory_of};
    ghost use Rattle.rv_machine.specs.Code.{IsKept};
    ghost use Rattle.rv_machine.specs.Parts.{Parts};

    ghost Value = { Parts };

    ghost view = { λ m. record { pc = m.hart.pc; regs = m.hart.regs; memory = m.memory; calls = m.system } };

    ghost invariant = { λ m. IsKept m.code (memory_of m.memory) m.ended m.system.events };
}

impl Processor {
    /// Hart 0 before a run of an image; the input is copied, and the code is decoded.
    pub fn new(alloc: Global, image: &Image, input: &[u8]) -> Result<Processor, NoMemory>
        ensures hart { IfOk result (λ processor. hart_in processor ≡ start_hart 0) }
        ensures shared { IfOk result (λ processor. shared_in processor ≡ start_shared image.now input.now) }
        ensures version { IfOk result (λ processor. processor.memory.version ≡ image.now.version) }
    {
        let memory = Memory::load(alloc, image)?;
        let code = Code::of(alloc, &memory, image.code().len() / 4)?;
        Processor::with_memory(alloc, memory, code, input)
    }

    /// Hart 0 before a run with this memory and its code; the input is copied.
    fn with_memory(
        alloc: Global,
        memory: Memory,
        code: Code,
        input: &[u8],
    ) -> Result<Processor, NoMemory>
        requires { IsCodeOf code (memory_of memory) }
        ensures hart { IfOk result (λ processor. hart_in processor ≡ start_hart 0) }
        ensures shared { IfOk result (λ processor. shared_in processor ≡ record { memory = memory_of memory; left = input.now; output = []; events = [] }) }
        ensures version { IfOk result (λ processor. processor.memory.version ≡ memory.version) }
    {
        let hart = Hart::new(alloc, 0)?;
        let system = System::new(alloc, input)?;
        Ok(Processor {
            hart,
            memory,
            system,
            code,
            ended: None,
        })
    }

    /// Hart 0 before a run with data and no code, in the memory of a version: data from an image's first data address on.
    /// It runs by `execute`, which takes its instructions from elsewhere.
    pub fn with_data(
        alloc: Global,
        version: ImageVersion,
        init: &[u8],
        input: &[u8],
    ) -> Result<Processor, NoMemory>
        requires { DATA_START + length init.now ≤ DATA_END }
        ensures hart { IfOk result (λ processor. hart_in processor ≡ start_hart 0) }
        ensures shared { IfOk result (λ processor. shared_in processor ≡ record { memory = placed zeros DATA_START init.now; left = input.now; output = []; events = [] }) }
        ensures version { IfOk result (λ processor. processor.memory.version ≡ version) }
    {
        let memory = Memory::with_data(alloc, version, init)?;
        Processor::with_memory(alloc, memory, Code::none(alloc), input)
    }

    /// The address of the next instruction.
    pub fn pc(&self) -> u64
        ensures { result ≡ self.now.pc }
    {
        self.hart.pc()
    }

    /// What a register holds.
    pub fn reg(&self, reg: Reg) -> u64
        ensures { result ≡ get_reg (hart_in self.now).regs reg }
    {
        self.hart.reg(reg)
    }

    /// Goes to an address, whatever stands there.
    pub fn set_pc(&mut self, pc: u64)
        ensures { self.new ≡ record self.old { pc = pc } }
    {
        self.hart.set_pc(pc);
    }

    /// Writes a register; a write to x0 changes nothing.
    pub fn set_reg(&mut self, reg: Reg, value: u64)
        ensures hart { hart_in self.new ≡ record (hart_in self.old) { regs = set_reg (hart_in self.old).regs reg value } }
        ensures shared { shared_in self.new ≡ shared_in self.old }
        ensures kept { KeepsVersionAndRoom self.old self.new }
    {
        self.hart.set_reg(reg, value);
    }

    /// Takes a hart that rests in place of its own, which rests from then on.
    pub(crate) fn exchange(&mut self, hart: &mut Hart)
        ensures taken { self.new ≡ record self.old { pc = hart.old.pc; regs = hart.old.regs } }
        ensures rests { hart.new ≡ record { pc = self.old.pc; regs = self.old.regs } }
    {
        mem::swap(&mut self.hart, hart);
    }

    /// Its memory.
    pub fn mem(&self) -> &Memory
        ensures { result.now ≡ self.now.memory }
    {
        &self.memory
    }

    /// What its system calls keep: the input left, the output and the calls.
    pub fn system(&self) -> &System
        ensures { result.now ≡ self.now.calls }
    {
        &self.system
    }

    /// What the run wrote and the system calls that it made, given back without taking memory.
    pub fn into_results(self) -> (Bytes, Events)
        ensures { result ≡ (self.calls.output, self.calls.events) }
    {
        self.system.into_results()
    }

    /// One step: fetches the word at the pc, decodes and executes it. After an exit each step
    /// answers it again. A refusal leaves all as it was, and comes from a store into data or shadow
    /// whose pages were not all made, or from a system call alone. Pages that were made stay so.
    #[tactic(auto, unfolding(rv_code::specs::Step::step))]
    #[inline(always)]
    pub fn step(&mut self) -> Result<Turn, NoMemory>
        ensures stepped { IfOk result (λ turn. after_step self.new turn ≡ step (profile_of self.old.memory.version) (hart_in self.old) (shared_in self.old)) }
        ensures hart { OnErr result (hart_in self.new ≡ hart_in self.old) }
        ensures shared { OnErr result (shared_in self.new ≡ shared_in self.old) }
        ensures wants { OnErr result (MayTakeMemory (profile_of self.old.memory.version) (hart_in self.old) (shared_in self.old)) }
        ensures room { OnErr result (LacksRoomAtPc self.old.memory (hart_in self.old)) }
        ensures kept { KeepsVersionAndRoom self.old self.new }
    {
        if let Some(status) = self.ended() {
            return Ok(Turn::Exit(status));
        }
        let pc = self.pc();
        match self.fetch(pc) {
            Some(instr) => self.execute(&instr),
            None if is_place(pc) => Ok(Turn::Illegal(pc)),
            None => Ok(Turn::FetchFault(pc)),
        }
    }

    /// The status with which the run has ended, if it has.
    #[inline(always)]
    fn ended(&self) -> Option<u8>
        ensures { result ≡ last_exit (shared_in self.now).events }
    {
        self.ended
    }

    /// The instruction that stands at an address, if it is one of code and its word is an instruction.
    #[inline(always)]
    fn fetch(&self, pc: u64) -> Option<Instr>
        ensures place { IsSome result → can_fetch pc ≡ true }
        ensures instr { can_fetch pc ≡ true → result ≡ decoded (read 4 (shared_in self.now).memory pc) }
    {
        let offset = pc.wrapping_sub(CODE_START);
        if offset % 4 == 0 {
            self.code.get((offset / 4) as usize)
        } else {
            None
        }
    }

    /// Whether the run has ended.
    #[inline(always)]
    pub(crate) fn is_over(&self) -> bool
        ensures { result ≡ is_some (last_exit (shared_in self.now).events) }
    {
        self.ended().is_some()
    }

    /// The number of the word of code at an address where an instruction stands, and that instruction. Nothing is tested.
    #[inline(always)]
    pub(crate) fn fetch_known(&self, pc: u64) -> (usize, Ready)
        requires { (instr : Instr) × IsFetched (shared_in self.now) pc instr }
        ensures word { pc ≡ CODE_START + 4 * result.0 }
        ensures fetched { IsFetched (shared_in self.now) pc (instr_of result.1) }
    {
        let word = (pc.wrapping_sub(CODE_START) / 4) as usize;
        (word, self.code.known(word))
    }

    /// The step with an instruction that stands at an address, which takes the place of the pc, in a run that goes on.
    #[tactic(auto, unfolding(rv_code::specs::Step::step))]
    #[inline(always)]
    pub(crate) fn step_at(&mut self, pc: &mut u64, ready: &Ready) -> Result<Turn, NoMemory>
        requires going { last_exit (shared_in self.old).events ≡ None }
        requires fetched { IsFetched (shared_in self.old) pc.old (instr_of ready.now) }
        ensures stepped { IfOk result (λ turn. after_at self.new pc.new turn ≡ step (profile_of self.old.memory.version) (hart_at self.old pc.old) (shared_in self.old)) }
        ensures going { IfOk result (λ turn. turn ≡ Turn.Ran → last_exit (shared_in self.new).events ≡ None) }
        ensures version { self.new.memory.version ≡ self.old.memory.version }
    {
        self.perform(pc, ready)
    }

    /// Makes the pages of memory of the `len` bytes from `addr` on: no store there wants memory from
    /// then on. Nothing else changes, and it takes time for the pages, not for the bytes.
    pub fn reserve_pages(&mut self, addr: u64, len: u64) -> Result<(), NoMemory>
        requires { IsTrue (can_store (profile_of self.old.memory.version) addr len) }
        ensures hart { hart_in self.new ≡ hart_in self.old }
        ensures shared { shared_in self.new ≡ shared_in self.old }
        ensures room { OnOk result (HasRoom self.new.memory addr len) }
        ensures wants { OnErr result (¬ HasRoom self.old.memory addr len) }
        ensures kept { KeepsVersionAndRoom self.old self.new }
    {
        self.memory.reserve_pages(addr, len)
    }

    /// Sets one data byte from outside. A refusal leaves all as it was.
    #[tactic(auto, unfolding(rv_mem::specs::Cells::with_byte))]
    pub fn change(&mut self, change: Change) -> Result<(), NoMemory>
        ensures hart { hart_in self.new ≡ hart_in self.old }
        ensures changed { OnOk result (shared_in self.new ≡ disturbed (shared_in self.old) (record { address = change.0; byte = change.1 } ∷ [])) }
        ensures refused { OnErr result (shared_in self.new ≡ shared_in self.old) }
        ensures room { OnErr result (¬ IsTrue (has_room self.old.memory change.0)) }
        ensures kept { KeepsVersionAndRoom self.old self.new }
    {
        self.memory.change(change)
    }

    /// Executes an instruction as if it stood at the pc, whatever memory holds there and whether or
    /// not the run has ended. A refusal leaves all as it was. The bound on the pc lets the next
    /// instruction's address be a number of 64 bits; every pc in code is below it.
    #[inline(always)]
    pub fn execute(&mut self, instr: &Instr) -> Result<Turn, NoMemory>
        requires { self.old.pc < 2 ^ 63 }
        ensures executed { IfOk result (λ turn. after_step self.new turn ≡ exec (profile_of self.old.memory.version) instr.now (hart_in self.old) (shared_in self.old)) }
        ensures hart { OnErr result (hart_in self.new ≡ hart_in self.old) }
        ensures shared { OnErr result (shared_in self.new ≡ shared_in self.old) }
        ensures wants { OnErr result (may_take_memory (profile_of self.old.memory.version) instr.now (hart_in self.old) ≡ true) }
        ensures room { OnErr result (LacksRoom self.old.memory (hart_in self.old) instr.now) }
        ensures kept { KeepsVersionAndRoom self.old self.new }
    {
        let mut pc = self.pc();
        let turn = self.execute_at(&mut pc, instr)?;
        self.set_pc(pc);
        Ok(turn)
    }

    /// Executes an instruction as if the hart stood at an address, which takes the place of the pc: the pc that is kept
    /// is neither read nor written.
    #[inline(always)]
    fn execute_at(&mut self, pc: &mut u64, instr: &Instr) -> Result<Turn, NoMemory>
        requires { pc.old < 2 ^ 63 }
        ensures executed { IfOk result (λ turn. after_at self.new pc.new turn ≡ exec (profile_of self.old.memory.version) (instr.now) (hart_at self.old pc.old) (shared_in self.old)) }
        ensures hart { OnErr result (hart_in self.new ≡ hart_in self.old) }
        ensures shared { OnErr result (shared_in self.new ≡ shared_in self.old) }
        ensures wants { OnErr result (may_take_memory (profile_of self.old.memory.version) (instr.now) (hart_at self.old pc.old) ≡ true) }
        ensures room { OnErr result (LacksRoom self.old.memory (hart_at self.old pc.old) (instr.now)) }
        ensures kept { KeepsVersionAndRoom self.old self.new }
    {
        Ok(match *instr {
            Instr::Upper(op, rd, imm) => self.upper(pc, op, rd, imm),
            Instr::Jal(rd, imm) => self.jump(pc, rd, imm),
            Instr::Jalr(rd, rs1, imm) => self.jump_register(pc, rd, rs1, imm),
            Instr::Branch(op, rs1, rs2, imm) => self.branch(pc, op, rs1, rs2, imm),
            Instr::Load(op, rd, rs1, imm) => self.load(pc, op, rd, rs1, imm),
            Instr::Store(op, rs1, rs2, imm) => return self.store(pc, op, rs1, rs2, imm),
            Instr::Immediate(op, rd, rs1, imm) => self.immediate(pc, op, rd, rs1, imm),
            Instr::Shift(op, rd, rs1, amount) => self.shift(pc, op, rd, rs1, amount),
            Instr::ShiftWord(op, rd, rs1, amount) => self.shift_word(pc, op, rd, rs1, amount),
            Instr::Register(op, rd, rs1, rs2) => self.register(pc, op, rd, rs1, rs2),
            // Memory is one and in order, so a fence has nothing to do.
            Instr::Fence(_) => {
                *pc += 4;
                Turn::Ran
            }
            Instr::Ecall => return self.environment_call(pc),
            Instr::Ebreak => Turn::Break(*pc),
        })
    }

    /// Executes an instruction as `execute_at` does, in the form in which a step takes it.
    #[inline(always)]
    fn perform(&mut self, pc: &mut u64, ready: &Ready) -> Result<Turn, NoMemory>
        requires { pc.old < 2 ^ 63 }
        ensures executed { IfOk result (λ turn. after_at self.new pc.new turn ≡ exec (profile_of self.old.memory.version) (instr_of ready.now) (hart_at self.old pc.old) (shared_in self.old)) }
        ensures kept { KeepsVersionAndRoom self.old self.new }
    {
        Ok(match *ready {
            Ready::Lui(rd, imm) => self.upper(pc, UpperOp::Lui, rd, imm),
            Ready::Jal(rd, imm) => self.jump(pc, rd, imm),
            Ready::Jalr(rd, rs1, imm) => self.jump_register(pc, rd, rs1, imm),
            Ready::Beq(rs1, rs2, imm) => self.branch(pc, BranchOp::Beq, rs1, rs2, imm),
            Ready::Bne(rs1, rs2, imm) => self.branch(pc, BranchOp::Bne, rs1, rs2, imm),
            Ready::Blt(rs1, rs2, imm) => self.branch(pc, BranchOp::Blt, rs1, rs2, imm),
            Ready::Bge(rs1, rs2, imm) => self.branch(pc, BranchOp::Bge, rs1, rs2, imm),
            Ready::Bltu(rs1, rs2, imm) => self.branch(pc, BranchOp::Bltu, rs1, rs2, imm),
            Ready::Bgeu(rs1, rs2, imm) => self.branch(pc, BranchOp::Bgeu, rs1, rs2, imm),
            Ready::Lw(rd, rs1, imm) => self.load(pc, LoadOp::Lw, rd, rs1, imm),
            Ready::Ld(rd, rs1, imm) => self.load(pc, LoadOp::Ld, rd, rs1, imm),
            Ready::Lbu(rd, rs1, imm) => self.load(pc, LoadOp::Lbu, rd, rs1, imm),
            Ready::Sb(rs1, rs2, imm) => return self.store(pc, StoreOp::Sb, rs1, rs2, imm),
            Ready::Sw(rs1, rs2, imm) => return self.store(pc, StoreOp::Sw, rs1, rs2, imm),
            Ready::Sd(rs1, rs2, imm) => return self.store(pc, StoreOp::Sd, rs1, rs2, imm),
            Ready::Addi(rd, rs1, imm) => self.immediate(pc, ImmediateOp::Addi, rd, rs1, imm),
            Ready::Andi(rd, rs1, imm) => self.immediate(pc, ImmediateOp::Andi, rd, rs1, imm),
            Ready::Addiw(rd, rs1, imm) => self.immediate(pc, ImmediateOp::Addiw, rd, rs1, imm),
            Ready::Slli(rd, rs1, amount) => self.shift(pc, ShiftOp::Slli, rd, rs1, amount),
            Ready::Srli(rd, rs1, amount) => self.shift(pc, ShiftOp::Srli, rd, rs1, amount),
            Ready::Slliw(rd, rs1, imm) => self.shift_word(pc, ShiftWordOp::Slliw, rd, rs1, imm),
            Ready::Srliw(rd, rs1, imm) => self.shift_word(pc, ShiftWordOp::Srliw, rd, rs1, imm),
            Ready::Add(rd, rs1, rs2) => self.register(pc, RegisterOp::Add, rd, rs1, rs2),
            Ready::Sub(rd, rs1, rs2) => self.register(pc, RegisterOp::Sub, rd, rs1, rs2),
            Ready::Xor(rd, rs1, rs2) => self.register(pc, RegisterOp::Xor, rd, rs1, rs2),
            Ready::Or(rd, rs1, rs2) => self.register(pc, RegisterOp::Or, rd, rs1, rs2),
            Ready::And(rd, rs1, rs2) => self.register(pc, RegisterOp::And, rd, rs1, rs2),
            Ready::Addw(rd, rs1, rs2) => self.register(pc, RegisterOp::Addw, rd, rs1, rs2),
            Ready::Mul(rd, rs1, rs2) => self.register(pc, RegisterOp::Mul, rd, rs1, rs2),
            Ready::Register(op, rd, rs1, rs2) => self.register(pc, op, rd, rs1, rs2),
            Ready::Other(instr) => return self.execute_at(pc, &instr),
        })
    }

    /// Puts a value into a register; the next instruction is next.
    #[inline(always)]
    fn put(&mut self, pc: &mut u64, rd: Reg, value: u64)
        requires { pc.old < 2 ^ 63 }
        ensures executed { after_at self.new pc.new Turn.Ran ≡ puts (hart_at self.old pc.old) (shared_in self.old) rd value }
        ensures kept { KeepsVersionAndRoom self.old self.new }
    {
        self.hart.set_reg(rd, value);
        *pc += 4;
    }

    /// Goes to an address, and links to the next instruction.
    #[inline(always)]
    fn link(&mut self, pc: &mut u64, rd: Reg, target: u64)
        requires { pc.old < 2 ^ 63 }
        ensures executed { after_at self.new pc.new Turn.Ran ≡ ran target (set_reg (hart_in self.old).regs rd (pc.old + 4)) (shared_in self.old) }
        ensures kept { KeepsVersionAndRoom self.old self.new }
    {
        self.hart.set_reg(rd, *pc + 4);
        *pc = target;
    }

    /// The address in a register and an offset.
    #[inline(always)]
    fn address_of(&self, rs1: Reg, imm: Immediate<12>) -> u64
        ensures { result ≡ address (hart_in self.now) rs1 imm }
    {
        self.reg(rs1).wrapping_add(arithmetic::immediate_value(imm))
    }

    #[inline(always)]
    fn upper(&mut self, pc: &mut u64, op: UpperOp, rd: Reg, imm: Immediate<20>) -> Turn
        requires { pc.old < 2 ^ 63 }
        ensures executed { after_at self.new pc.new result ≡ exec (profile_of self.old.memory.version) (Instr.Upper op rd imm) (hart_at self.old pc.old) (shared_in self.old) }
        ensures kept { KeepsVersionAndRoom self.old self.new }
    {
        let offset = arithmetic::word(u64::from(imm.bits()) << 12);
        let here = *pc;
        match op {
            UpperOp::Lui => self.put(pc, rd, offset),
            UpperOp::Auipc => self.put(pc, rd, here.wrapping_add(offset)),
        }
        Turn::Ran
    }

    #[inline(always)]
    fn jump(&mut self, pc: &mut u64, rd: Reg, imm: Immediate<20>) -> Turn
        requires { pc.old < 2 ^ 63 }
        ensures executed { after_at self.new pc.new result ≡ exec (profile_of self.old.memory.version) (Instr.Jal rd imm) (hart_at self.old pc.old) (shared_in self.old) }
        ensures kept { KeepsVersionAndRoom self.old self.new }
    {
        let offset = arithmetic::jump_offset(imm);
        let target = (*pc).wrapping_add(offset);
        self.link(pc, rd, target);
        Turn::Ran
    }

    #[inline(always)]
    fn jump_register(&mut self, pc: &mut u64, rd: Reg, rs1: Reg, imm: Immediate<12>) -> Turn
        requires { pc.old < 2 ^ 63 }
        ensures executed { after_at self.new pc.new result ≡ exec (profile_of self.old.memory.version) (Instr.Jalr rd rs1 imm) (hart_at self.old pc.old) (shared_in self.old) }
        ensures kept { KeepsVersionAndRoom self.old self.new }
    {
        let target = self.address_of(rs1, imm);
        self.link(pc, rd, target - target % 2);
        Turn::Ran
    }

    #[inline(always)]
    fn branch(&mut self, pc: &mut u64, op: BranchOp, rs1: Reg, rs2: Reg, imm: Immediate<12>) -> Turn
        requires { pc.old < 2 ^ 63 }
        ensures executed { after_at self.new pc.new result ≡ exec (profile_of self.old.memory.version) (Instr.Branch op rs1 rs2 imm) (hart_at self.old pc.old) (shared_in self.old) }
        ensures kept { KeepsVersionAndRoom self.old self.new }
    {
        let offset = arithmetic::branch_offset(imm);
        if arithmetic::branches(op, self.reg(rs1), self.reg(rs2)) {
            *pc = (*pc).wrapping_add(offset);
        } else {
            *pc += 4;
        }
        Turn::Ran
    }

    #[inline(always)]
    fn load(&mut self, pc: &mut u64, op: LoadOp, rd: Reg, rs1: Reg, imm: Immediate<12>) -> Turn
        requires { pc.old < 2 ^ 63 }
        ensures executed { after_at self.new pc.new result ≡ exec (profile_of self.old.memory.version) (Instr.Load op rd rs1 imm) (hart_at self.old pc.old) (shared_in self.old) }
        ensures kept { KeepsVersionAndRoom self.old self.new }
    {
        let addr = self.address_of(rs1, imm);
        match self.loaded(op, addr) {
            Ok(value) => {
                self.put(pc, rd, value);
                Turn::Ran
            }
            Err(LoadFault) => Turn::LoadFault(*pc, addr),
        }
    }

    /// What a load from an address puts into its register. Each operation asks memory by its own size, which is known
    /// where it is inlined.
    #[inline(always)]
    fn loaded(&self, op: LoadOp, addr: u64) -> Result<u64, LoadFault>
        ensures value { IfOk result (λ value. value ≡ load_result op (read (load_size op) (memory_of self.now.memory) addr)) }
        ensures fault { IsErr result ↔ (can_load (profile_of self.now.memory.version) addr (load_size op) ≡ false) }
    {
        let memory = self.mem();
        match op {
            LoadOp::Lb => Ok(sext(memory.load_byte(addr)?, 8)),
            LoadOp::Lh => Ok(sext(memory.load_half_word(addr)?, 16)),
            LoadOp::Lw => Ok(arithmetic::word(memory.load_word(addr)?)),
            LoadOp::Ld => memory.load_double_word(addr),
            LoadOp::Lbu => memory.load_byte(addr),
            LoadOp::Lhu => memory.load_half_word(addr),
            LoadOp::Lwu => memory.load_word(addr),
        }
    }

    #[inline(always)]
    fn store(
        &mut self,
        pc: &mut u64,
        op: StoreOp,
        rs1: Reg,
        rs2: Reg,
        imm: Immediate<12>,
    ) -> Result<Turn, NoMemory>
        requires { pc.old < 2 ^ 63 }
        ensures executed { IfOk result (λ turn. after_at self.new pc.new turn ≡ exec (profile_of self.old.memory.version) (Instr.Store op rs1 rs2 imm) (hart_at self.old pc.old) (shared_in self.old)) }
        ensures hart { OnErr result (hart_in self.new ≡ hart_in self.old) }
        ensures shared { OnErr result (shared_in self.new ≡ shared_in self.old) }
        ensures wants { OnErr result (may_take_memory (profile_of self.old.memory.version) (Instr.Store op rs1 rs2 imm) (hart_at self.old pc.old) ≡ true) }
        ensures room { OnErr result (LacksRoom self.old.memory (hart_at self.old pc.old) (Instr.Store op rs1 rs2 imm)) }
        ensures kept { KeepsVersionAndRoom self.old self.new }
    {
        let addr = self.address_of(rs1, imm);
        let value = self.reg(rs2);
        match stored(&mut self.memory, op, addr, value) {
            Ok(()) => {
                *pc += 4;
                Ok(Turn::Ran)
            }
            Err(End::Fault(_)) => Ok(Turn::StoreFault(*pc, addr)),
            Err(End::NoMemory) => Err(NoMemory),
        }
    }

    #[inline(always)]
    fn environment_call(&mut self, pc: &mut u64) -> Result<Turn, NoMemory>
        requires { pc.old < 2 ^ 63 }
        ensures executed { IfOk result (λ turn. after_at self.new pc.new turn ≡ exec (profile_of self.old.memory.version) (Instr.Ecall) (hart_at self.old pc.old) (shared_in self.old)) }
        ensures hart { OnErr result (hart_in self.new ≡ hart_in self.old) }
        ensures shared { OnErr result (shared_in self.new ≡ shared_in self.old) }
        ensures kept { KeepsVersionAndRoom self.old self.new }
    {
        match self.hart.call(&mut self.system, &mut self.memory)? {
            SysEnd::Goes => {
                *pc += 4;
                self.ended = None;
                Ok(Turn::Ran)
            }
            SysEnd::Exit(status) => {
                self.ended = Some(status);
                Ok(Turn::Exit(status))
            }
        }
    }

    #[inline(always)]
    fn immediate(
        &mut self,
        pc: &mut u64,
        op: ImmediateOp,
        rd: Reg,
        rs1: Reg,
        imm: Immediate<12>,
    ) -> Turn
        requires { pc.old < 2 ^ 63 }
        ensures executed { after_at self.new pc.new result ≡ exec (profile_of self.old.memory.version) (Instr.Immediate op rd rs1 imm) (hart_at self.old pc.old) (shared_in self.old) }
        ensures kept { KeepsVersionAndRoom self.old self.new }
    {
        let value = arithmetic::immediate(op, self.reg(rs1), arithmetic::immediate_value(imm));
        self.put(pc, rd, value);
        Turn::Ran
    }

    #[inline(always)]
    fn shift(&mut self, pc: &mut u64, op: ShiftOp, rd: Reg, rs1: Reg, amount: Immediate<6>) -> Turn
        requires { pc.old < 2 ^ 63 }
        ensures executed { after_at self.new pc.new result ≡ exec (profile_of self.old.memory.version) (Instr.Shift op rd rs1 amount) (hart_at self.old pc.old) (shared_in self.old) }
        ensures kept { KeepsVersionAndRoom self.old self.new }
    {
        let value = arithmetic::shift(op, self.reg(rs1), amount.bits());
        self.put(pc, rd, value);
        Turn::Ran
    }

    #[inline(always)]
    fn shift_word(
        &mut self,
        pc: &mut u64,
        op: ShiftWordOp,
        rd: Reg,
        rs1: Reg,
        amount: Immediate<5>,
    ) -> Turn
        requires { pc.old < 2 ^ 63 }
        ensures executed { after_at self.new pc.new result ≡ exec (profile_of self.old.memory.version) (Instr.ShiftWord op rd rs1 amount) (hart_at self.old pc.old) (shared_in self.old) }
        ensures kept { KeepsVersionAndRoom self.old self.new }
    {
        let value = arithmetic::shift_word(op, self.reg(rs1), amount.bits());
        self.put(pc, rd, value);
        Turn::Ran
    }

    #[inline(always)]
    fn register(&mut self, pc: &mut u64, op: RegisterOp, rd: Reg, rs1: Reg, rs2: Reg) -> Turn
        requires { pc.old < 2 ^ 63 }
        ensures executed { after_at self.new pc.new result ≡ exec (profile_of self.old.memory.version) (Instr.Register op rd rs1 rs2) (hart_at self.old pc.old) (shared_in self.old) }
        ensures kept { KeepsVersionAndRoom self.old self.new }
    {
        let value = arithmetic::register(op, self.reg(rs1), self.reg(rs2));
        self.put(pc, rd, value);
        Turn::Ran
    }
}

/// Writes what a store writes. Each operation gives memory its own size, which is known where it is inlined.
#[inline(always)]
fn stored(memory: &mut Memory, op: StoreOp, addr: u64, value: u64) -> Result<(), End<StoreFault>>
    ensures written { OnOk result (memory_of memory.new ≡ write (store_size op) (memory_of memory.old) addr value) }
    ensures fault { IsErrAnd result IsFault ↔ (can_store (profile_of memory.old.version) addr (store_size op) ≡ false) }
    ensures wants { IsErrOf result End.NoMemory → can_store (profile_of memory.old.version) addr (store_size op) ≡ true }
    ensures room { IsErrOf result End.NoMemory → ¬ HasRoom memory.old addr (store_size op) }
    ensures refused { OnErr result (memory_of memory.new ≡ memory_of memory.old) }
    ensures version { memory.new.version ≡ memory.old.version }
    ensures kept { (k : ℕ) → IsTrue (has_room memory.old k) → IsTrue (has_room memory.new k) }
{
    match op {
        StoreOp::Sb => memory.write(addr, 1, value),
        StoreOp::Sh => memory.write(addr, 2, value),
        StoreOp::Sw => memory.write(addr, 4, value),
        StoreOp::Sd => memory.write(addr, 8, value),
    }
}

/// Whether an instruction may stand at an address: a multiple of 4 in code.
fn is_place(pc: u64) -> bool
    ensures { result ≡ can_fetch pc }
{
    pc % 4 == 0 && CODE_START <= pc && pc < CODE_END
}
