ghost use Rattle.std.specs.Prelude.{◌≡◌, ◌+◌, ◌^◌, ◌<◌, ◌∷◌, ◌≤◌, [], IfOk, OnOk, OnErr, None, Some, length, slice_get};
ghost use Rattle.rv_image.specs.MemoryMap.{DATA_END, DATA_START, profile_of};
ghost use Rattle.rv_image.specs.Form.{image_version, profile_for};
ghost use Rattle.rv_word.specs.Memory.{placed, zeros};
ghost use Rattle.rv_instr.specs.Registers.{cleared, get_reg, set_reg};
ghost use Rattle.rv_code.specs.Step.{exec};
ghost use Rattle.rv_code.specs.State.{last_exit};
ghost use Rattle.cfi_map.specs.SourceStep.{closes, exits, goes_to, hart_at, leaves, place_after, returns_from, turn_at};
ghost use Rattle.src_machine.specs.State.{source_in};
ghost use Rattle.cfi_map.specs.Untame.{sum_of};
ghost use Rattle.cfi_map.specs.GraphAtMap.{ProgramAtMap};

use rv_code::immediate_value;
use rv_image::Form;
use rv_instr::{Immediate, Instr, Reg};
use rv_machine::{Processor, Turn};
use rv_word::NoMemory;
use std::alloc::Global;
use std::marker::Model;

/// The number of the system call that ends a run (RISC-V Linux, `exit`).
const EXIT: u64 = 93;

/// The end of the window of data, where x2 is as a run starts.
const WINDOW: u64 = 1 << 28;

/// The state of a source machine.
#[derive(Drop)]
pub(crate) struct State {
    place: Option<u64>,
    processor: Processor,
    pending: Vec<u64>,
}

impl Model for State {
    ghost use Rattle.std.specs.Prelude.{reverse};
    ghost use Rattle.src_machine.specs.State.{StateParts};

    ghost Value = { StateParts };

    ghost view = { λ s. record { place = s.place; processor = s.processor; pending = reverse s.pending.items } };
}

/// The following place after an instruction that ran; else the same one.
fn place_after(k: u64, turn: Turn) -> Option<u64>
    requires { k < 2 ^ 63 }
    ensures { result ≡ place_after k turn }
{
    match turn {
        Turn::Ran => Some(k + 1),
        _ => Some(k),
    }
}

impl State {
    /// The state in which a run with these data starts at a place, in the memory of a form's version; it returns to the form's closing.
    pub(crate) fn new(
        alloc: Global,
        form: Form,
        entry: u64,
        init: &[u8],
        input: &[u8],
    ) -> Result<State, NoMemory>
        requires { DATA_START + length init.now ≤ DATA_END }
        ensures state { IfOk result (λ st. source_in st ≡ record {
          place = Some entry;
          regs = set_reg (set_reg cleared 2 (2 ^ 28)) 1 (profile_for form).closing;
          shared = record { memory = placed zeros DATA_START init.now; left = input.now; output = []; events = [] };
          pending = [];
        }) }
        ensures version { IfOk result (λ st. st.processor.memory.version ≡ image_version form) }
    {
        let mut processor = Processor::with_data(alloc, form.image_version(), init, input)?;
        processor.set_reg(Reg::of(2), WINDOW);
        processor.set_reg(Reg::of(1), form.closing());
        Ok(State {
            place: Some(entry),
            processor,
            pending: Vec::new(alloc),
        })
    }

    /// The place of the next instruction; none at the closing.
    pub(crate) fn place(&self) -> Option<u64>
        ensures { result ≡ self.now.place }
    {
        self.place
    }

    /// What a register holds.
    pub(crate) fn reg(&self, reg: Reg) -> u64
        ensures { result ≡ get_reg (source_in self.now).regs reg }
    {
        self.processor.reg(reg)
    }

    /// A register and an offset.
    pub(crate) fn sum(&self, rs1: Reg, imm: Immediate<12>) -> u64
        ensures { result ≡ sum_of (source_in self.now).regs rs1 imm }
    {
        self.reg(rs1).wrapping_add(immediate_value(imm))
    }

    /// The processor on which its instructions run.
    pub(crate) fn processor(&self) -> &Processor
        ensures { result.now ≡ self.now.processor }
    {
        &self.processor
    }

    /// The status with which the run has ended, if it has.
    pub(crate) fn ended(&self) -> Option<u8>
        ensures { result ≡ last_exit (source_in self.now).shared.events }
    {
        self.processor.system().ended()
    }

    /// How many calls are pending.
    pub(crate) fn depth(&self) -> u64
        ensures { result ≡ length self.now.pending }
    {
        self.pending.len() as u64
    }

    /// The place to which the newest pending call returns.
    pub(crate) fn newest(&self) -> Option<u64>
        ensures { result ≡ slice_get self.now.pending 0 }
    {
        self.pending.as_slice().last().copied()
    }

    /// Goes to a place.
    pub(crate) fn go(&mut self, place: Option<u64>)
        ensures version { self.new.processor.memory.version ≡ self.old.processor.memory.version }
        ensures state { source_in self.new ≡ (goes_to (source_in self.old) place).state }
    {
        self.place = place;
    }

    /// Calls a place: x1 links to an address, and the call returns to the place `next`. A refusal leaves all as it was.
    pub(crate) fn call(&mut self, target: u64, next: u64, link: u64) -> Result<(), NoMemory>
        ensures version { self.new.processor.memory.version ≡ self.old.processor.memory.version }
        ensures called { OnOk result (source_in self.new ≡ record (source_in self.old) { place = Some target; regs = set_reg (source_in self.old).regs 1 link; pending = next ∷ self.old.pending }) }
        ensures refused { OnErr result (source_in self.new ≡ source_in self.old) }
    {
        self.pending.push(next)?;
        self.processor.set_reg(Reg::of(1), link);
        self.place = Some(target);
        Ok(())
    }

    /// Returns to the place to which the newest pending call does, or to the closing.
    pub(crate) fn come_back(&mut self)
        ensures version { self.new.processor.memory.version ≡ self.old.processor.memory.version }
        ensures state { source_in self.new ≡ (returns_from self.old.pending (source_in self.old)).state }
    {
        self.place = self.pending.pop();
    }

    /// Executes the instruction of a place, which reads this address as its own. A refusal leaves all as it was.
    pub(crate) fn execute(&mut self, k: u64, word: u64, instr: &Instr) -> Result<Turn, NoMemory>
        requires place { k < 2 ^ 63 }
        requires word { word < 2 ^ 63 }
        ensures version { self.new.processor.memory.version ≡ self.old.processor.memory.version }
        ensures executed { IfOk result (λ turn. record { state = source_in self.new; turn = turn_at k turn } ≡ leaves k (source_in self.old) (exec (profile_of self.old.processor.memory.version) instr.now (hart_at word (source_in self.old).regs) (source_in self.old).shared)) }
        ensures refused { OnErr result (source_in self.new ≡ source_in self.old) }
    {
        self.processor.set_pc(word);
        let turn = self.processor.execute(instr)?;
        self.place = place_after(k, turn);
        Ok(turn)
    }

    /// Makes the system call at the closing, which stands at an address, and tells the status. A refusal leaves all as it was.
    pub(crate) fn close(&mut self, closing: u64) -> Result<u8, NoMemory>
        requires { closing < 2 ^ 63 }
        ensures version { self.new.processor.memory.version ≡ self.old.processor.memory.version }
        ensures closed { IfOk result (λ status. (layout : ProgramAtMap) → layout.profile.closing ≡ closing → record { state = source_in self.new; turn = exits status } ≡ closes layout (source_in self.old)) }
        ensures refused { OnErr result (source_in self.new ≡ source_in self.old) }
    {
        let number = Reg::of(17);
        let before = self.processor.reg(number);
        self.processor.set_reg(number, EXIT);
        self.processor.set_pc(closing);
        let turn = self.processor.execute(&Instr::Ecall);
        self.processor.set_reg(number, before);
        match turn? {
            Turn::Exit(status) => Ok(status),
            _ => unreachable!(),
        }
    }
}
