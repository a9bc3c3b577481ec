//! System calls.

ghost use Rattle.std.specs.Prelude.{◌≡◌, ℕ, ◌+◌, ◌-◌, ◌≤◌, ◌<◌, ◌^◌, ◌++◌, ◌∷◌, [], length, take, drop, nat_le, IfOk, OnOk, OnErr, IsTrue};
ghost use Rattle.rv_instr.specs.Registers.{regs_of};
ghost use Rattle.rv_mem.specs.Cells.{Cells, has_room, memory_of};
ghost use Rattle.rv_code.specs.State.{exit_of, last_exit};
ghost use Rattle.rv_code.specs.SystemCall.{bytes_of, ends, event_of, read_call, reads_input, system_call, write_call, writes_output};
ghost use Rattle.rv_sys.specs.Answered.{IsAnswered};
ghost use Rattle.rv_sys.specs.Calls.{after_call, hart_of, shared_of};
ghost use Rattle.rv_sys.specs.declared.ending.SysEnd.TheVariants as End;

use crate::ending::SysEnd;
use rv_code::{Event, Events};
use rv_instr::{Reg, Regs};
use rv_mem::Memory;
use rv_word::{Bytes, NoMemory};
use std::alloc::Global;
use std::marker::Model;

/// The end of the bytes that a system call may name.
const WINDOW: u64 = 1 << 28;

/// The number of the system call `read` (RISC-V Linux).
const READ: u64 = 63;

/// The number of the system call `write` (RISC-V Linux).
const WRITE: u64 = 64;

/// The number of the system call `exit` (RISC-V Linux).
const EXIT: u64 = 93;

/// The number of the system call `exit_group` (RISC-V Linux).
const EXIT_GROUP: u64 = 94;

/// The answer -9: no such file descriptor.
const BAD_DESCRIPTOR: u64 = u64::MAX - 8;

/// The answer -14: no such address.
const BAD_ADDRESS: u64 = u64::MAX - 13;

/// The answer -38: no such system call.
const NO_SUCH_CALL: u64 = u64::MAX - 37;

/// The system calls of a run: what is left of its input, its output and the record of the calls.
#[derive(Drop)]
pub struct System {
    alloc: Global,
    input: Bytes,
    taken: usize,
    output: Bytes,
    events: Events,
}

impl Model for System {
    ghost use Rattle.std.specs.Prelude.{◌≤◌, ◌<◌, ◌^◌, drop, length};
    ghost use Rattle.rv_sys.specs.Calls.{Calls};

    ghost Value = { Calls };

    ghost view = { λ s. record { left = drop s.taken s.input; output = s.output; events = s.events } };

    ghost invariant = { λ s. (s.taken ≤ length s.input) × (length s.input < 2 ^ 63) };
}

impl System {
    /// Before a run: the whole input, which is copied, is left.
    pub fn new(alloc: Global, input: &[u8]) -> Result<System, NoMemory>
        ensures { IfOk result (λ system. system ≡ record { left = input.now; output = []; events = [] }) }
    {
        Ok(System {
            alloc,
            input: Bytes::of(Vec::from_slice(alloc, input)?),
            taken: 0,
            output: Bytes::of(Vec::new(alloc)),
            events: Events::new(alloc),
        })
    }

    /// What the run wrote.
    pub fn output(&self) -> &Bytes
        ensures { result.now ≡ self.now.output }
    {
        &self.output
    }

    /// The calls that the run made, oldest first.
    pub fn events(&self) -> &Events
        ensures { result.now ≡ self.now.events }
    {
        &self.events
    }

    /// The output and the calls, given back without taking memory.
    pub fn into_results(self) -> (Bytes, Events)
        ensures { result ≡ (self.output, self.events) }
    {
        (self.output, self.events)
    }

    /// The status with which the run has ended, if it has: the last call was an exit.
    pub fn ended(&self) -> Option<u8>
        ensures { result ≡ last_exit self.now.events }
    {
        match self.events.as_slice().last() {
            Some(event) => exit_status(event),
            None => None,
        }
    }

    /// How many bytes of the input are left.
    fn left(&self) -> usize
        ensures { result ≡ length self.now.left }
    {
        self.input.len() - self.taken
    }

    /// The next bytes of the input.
    fn next(&self, count: usize) -> &[u8]
        requires { count ≤ length self.now.left }
        ensures { result.now ≡ take count self.now.left }
    {
        &self.input.as_slice()[self.taken..self.taken + count]
    }

    fn take(&mut self, count: usize)
        requires { count ≤ length self.old.left }
        ensures { self.new ≡ record self.old { left = drop count self.old.left } }
    {
        self.taken += count;
    }

    fn record(&mut self, event: Event) -> Result<(), NoMemory>
        ensures recorded { OnOk result (self.new ≡ record self.old { events = self.old.events ++ event ∷ [] }) }
        ensures refused { OnErr result (self.new ≡ self.old) }
    {
        self.events.push(event)
    }

    fn append(&mut self, bytes: &[u8]) -> Result<(), NoMemory>
        ensures appended { OnOk result (self.new ≡ record self.old { output = self.old.output ++ bytes.now }) }
        ensures refused { OnErr result (self.new ≡ self.old) }
    {
        self.output.extend_from_slice(bytes)
    }

    /// Makes one system call. What it is asked stands in x17 and x10 to x15, its answer goes to
    /// x10. A refusal changes nothing: any call may want memory, since each is recorded. Pages of
    /// memory that were made stay so.
    pub fn call(&mut self, regs: &mut Regs, memory: &mut Memory) -> Result<SysEnd, NoMemory>
        ensures called { IfOk result (λ end. (pc : ℕ) → after_call end pc regs.new memory.new self.new ≡ system_call (hart_of pc regs.old) (shared_of memory.old self.old)) }
        ensures registers { OnErr result (regs.new ≡ regs.old) }
        ensures memory { OnErr result (memory_of memory.new ≡ memory_of memory.old) }
        ensures version { memory.new.version ≡ memory.old.version }
        ensures kept { (k : ℕ) → IsTrue (has_room memory.old k) → IsTrue (has_room memory.new k) }
        ensures refused { OnErr result (self.new ≡ self.old) }
    {
        match regs.get(number_register()) {
            WRITE => self.write_call(regs, memory),
            READ => self.read_call(regs, memory),
            EXIT | EXIT_GROUP => self.exit_call(regs),
            _ => {
                self.answer_only(regs, NO_SUCH_CALL)?;
                Ok(SysEnd::Goes)
            }
        }
    }

    fn write_call(&mut self, regs: &mut Regs, memory: &Memory) -> Result<SysEnd, NoMemory>
        ensures called { IfOk result (λ end. (pc : ℕ) → after_call end pc regs.new memory.now self.new ≡ write_call (hart_of pc regs.old) (shared_of memory.now self.old)) }
        ensures registers { OnErr result (regs.new ≡ regs.old) }
        ensures refused { OnErr result (self.new ≡ self.old) }
    {
        let descriptor = argument(regs, 0);
        if descriptor != 1 && descriptor != 2 {
            self.answer_only(regs, BAD_DESCRIPTOR)?;
            return Ok(SysEnd::Goes);
        }
        if !is_in_window(argument(regs, 1), argument(regs, 2)) {
            self.answer_only(regs, BAD_ADDRESS)?;
            return Ok(SysEnd::Goes);
        }
        self.write_output(regs, memory)
    }

    fn write_output(&mut self, regs: &mut Regs, memory: &Memory) -> Result<SysEnd, NoMemory>
        requires { regs_of regs.old 11 + regs_of regs.old 12 ≤ 2 ^ 28 }
        ensures called { IfOk result (λ end. (pc : ℕ) → after_call end pc regs.new memory.now self.new ≡ writes_output (hart_of pc regs.old) (shared_of memory.now self.old)) }
        ensures registers { OnErr result (regs.new ≡ regs.old) }
        ensures refused { OnErr result (self.new ≡ self.old) }
    {
        let count = argument(regs, 2);
        let bytes = bytes_at(self.alloc, memory, argument(regs, 1), count)?;
        let before = self.output.len();
        self.append(&bytes)?;
        match self.answer(regs, bytes, count) {
            Ok(()) => Ok(SysEnd::Goes),
            Err(refusal) => {
                self.output.truncate(before);
                Err(refusal)
            }
        }
    }

    fn read_call(&mut self, regs: &mut Regs, memory: &mut Memory) -> Result<SysEnd, NoMemory>
        ensures called { IfOk result (λ end. (pc : ℕ) → after_call end pc regs.new memory.new self.new ≡ read_call (hart_of pc regs.old) (shared_of memory.old self.old)) }
        ensures registers { OnErr result (regs.new ≡ regs.old) }
        ensures memory { OnErr result (memory_of memory.new ≡ memory_of memory.old) }
        ensures version { memory.new.version ≡ memory.old.version }
        ensures kept { (k : ℕ) → IsTrue (has_room memory.old k) → IsTrue (has_room memory.new k) }
        ensures refused { OnErr result (self.new ≡ self.old) }
    {
        if argument(regs, 0) != 0 {
            self.answer_only(regs, BAD_DESCRIPTOR)?;
            return Ok(SysEnd::Goes);
        }
        if !is_in_window(argument(regs, 1), argument(regs, 2)) {
            self.answer_only(regs, BAD_ADDRESS)?;
            return Ok(SysEnd::Goes);
        }
        self.read_input(regs, memory)
    }

    fn read_input(&mut self, regs: &mut Regs, memory: &mut Memory) -> Result<SysEnd, NoMemory>
        requires { regs_of regs.old 11 + regs_of regs.old 12 ≤ 2 ^ 28 }
        ensures called { IfOk result (λ end. (pc : ℕ) → after_call end pc regs.new memory.new self.new ≡ reads_input (hart_of pc regs.old) (shared_of memory.old self.old)) }
        ensures registers { OnErr result (regs.new ≡ regs.old) }
        ensures memory { OnErr result (memory_of memory.new ≡ memory_of memory.old) }
        ensures version { memory.new.version ≡ memory.old.version }
        ensures kept { (k : ℕ) → IsTrue (has_room memory.old k) → IsTrue (has_room memory.new k) }
        ensures refused { OnErr result (self.new ≡ self.old) }
    {
        let addr = argument(regs, 1);
        let count = argument(regs, 2).min(self.left() as u64);
        memory.reserve_pages(addr, count)?;
        self.answer_only(regs, count)?;
        memory.set_all(addr, self.next(count as usize));
        self.take(count as usize);
        Ok(SysEnd::Goes)
    }

    fn exit_call(&mut self, regs: &Regs) -> Result<SysEnd, NoMemory>
        ensures called { IfOk result (λ end. (pc : ℕ) (cells : Cells) → after_call end pc regs.now cells self.new ≡ ends (hart_of pc regs.now) (shared_of cells self.old)) }
        ensures refused { OnErr result (self.new ≡ self.old) }
    {
        let none = Vec::new(self.alloc);
        self.record(event(regs, none, 0))?;
        Ok(SysEnd::Exit((argument(regs, 0) & 0xff) as u8))
    }

    /// Records a call that wrote no bytes and puts its answer into x10.
    fn answer_only(&mut self, regs: &mut Regs, answer: u64) -> Result<(), NoMemory>
        ensures answered { OnOk result (IsAnswered regs.old self.old [] answer regs.new self.new) }
        ensures registers { OnErr result (regs.new ≡ regs.old) }
        ensures refused { OnErr result (self.new ≡ self.old) }
    {
        let none = Vec::new(self.alloc);
        self.answer(regs, none, answer)
    }

    /// Records a call and puts its answer into x10.
    fn answer(&mut self, regs: &mut Regs, bytes: Vec<u8>, answer: u64) -> Result<(), NoMemory>
        ensures answered { OnOk result (IsAnswered regs.old self.old bytes.items answer regs.new self.new) }
        ensures registers { OnErr result (regs.new ≡ regs.old) }
        ensures refused { OnErr result (self.new ≡ self.old) }
    {
        self.record(event(regs, bytes, answer))?;
        regs.set(Reg::of(10), answer);
        Ok(())
    }
}

fn exit_status(event: &Event) -> Option<u8>
    ensures { result ≡ exit_of event.now }
{
    match event.number {
        EXIT | EXIT_GROUP => Some((event.a0 & 0xff) as u8),
        _ => None,
    }
}

fn number_register() -> Reg
    ensures { result ≡ 17 }
{
    Reg::of(17)
}

/// An argument of the call: 0 to 5, which x10 to x15 hold.
fn argument(regs: &Regs, index: u32) -> u64
    requires { index < 6 }
    ensures { result ≡ regs_of regs.now (10 + index) }
{
    regs.get(Reg::of(10 + index))
}

fn event(regs: &Regs, bytes: Vec<u8>, answer: u64) -> Event
    ensures { result ≡ event_of (hart_of 0 regs.now) bytes.items answer }
{
    Event {
        number: regs.get(number_register()),
        a0: argument(regs, 0),
        a1: argument(regs, 1),
        a2: argument(regs, 2),
        a3: argument(regs, 3),
        a4: argument(regs, 4),
        a5: argument(regs, 5),
        bytes: Bytes::of(bytes),
        answer,
    }
}

/// Whether the bytes that a call names lie below 2^28.
fn is_in_window(addr: u64, count: u64) -> bool
    ensures { result ≡ nat_le (addr + count) (2 ^ 28) }
{
    addr <= WINDOW && count <= WINDOW - addr
}

/// The `count` bytes of memory from `addr` on.
fn bytes_at(alloc: Global, memory: &Memory, addr: u64, count: u64) -> Result<Vec<u8>, NoMemory>
    requires { addr + count ≤ 2 ^ 28 }
    ensures { IfOk result (λ bytes. bytes.items ≡ bytes_of (memory_of memory.now) addr count) }
{
    let mut bytes = Vec::with_capacity(alloc, count as usize)?;
    for k in addr..addr + count {
        bytes.push(memory.byte(k))?;
    }
    Ok(bytes)
}
