//! Code, decoded once.

ghost use Rattle.std.specs.Prelude.{◌≡◌, ◌+◌, ◌*◌, ◌<◌, ◌≤◌, [], ℕ, Some, IfOk, IsSome, length, slice_get};
ghost use Rattle.rv_image.specs.MemoryMap.{CODE_SIZE, CODE_START};
ghost use Rattle.rv_word.specs.Memory.{read};
ghost use Rattle.rv_mem.specs.Cells.{memory_of};
ghost use Rattle.rv_code.specs.Decode.{decoded};
ghost use Rattle.rv_machine.specs.Code.{instr_in, known_as};
ghost use Rattle.rv_machine.specs.Ready.{instr_of};

use crate::ready::Ready;
use rv_code::decode;
use rv_image::memory_map::CODE_START;
use rv_instr::Instr;
use rv_mem::Memory;
use rv_word::NoMemory;
use std::alloc::Global;
use std::marker::Model;

/// The instructions of code from its first word on, decoded once; a word that is no instruction stays as
/// `None`.
#[derive(Drop)]
pub(crate) struct Code {
    instrs: Vec<Option<Instr>>,
    /// The same words where they are instructions, for a step that knows that its word is one; others say nothing.
    known: Vec<Ready>,
}

impl Model for Code {
    ghost use Rattle.std.specs.Prelude.{List, Option};
    ghost use Rattle.rv_instr.specs.declared.instr.Instr.{Instr};
    ghost use Rattle.rv_machine.specs.Code.{AreKnown};

    ghost Value = { List (Option Instr) };

    ghost view = { λ c. c.instrs.items };

    ghost invariant = { λ c. AreKnown c.instrs.items c.known.items };
}

impl Code {
    /// Code without words. It takes no memory.
    pub(crate) fn none(alloc: Global) -> Code
        ensures { result ≡ [] }
    {
        Code {
            instrs: Vec::new(alloc),
            known: Vec::new(alloc),
        }
    }

    /// The first words of code, as memory holds them.
    pub(crate) fn of(alloc: Global, memory: &Memory, words: usize) -> Result<Code, NoMemory>
        requires { 4 * words ≤ CODE_SIZE }
        ensures len { IfOk result (λ code. length code ≡ words) }
        ensures each { IfOk result (λ code. (k : ℕ) → k < words →
            slice_get code k ≡ Some (decoded (read 4 (memory_of memory.now) (CODE_START + 4 * k)))) }
    {
        let mut instrs = Vec::with_capacity(alloc, words)?;
        let mut known = Vec::with_capacity(alloc, words)?;
        for k in 0..words {
            let instr = decode(memory.word(CODE_START + 4 * k as u64));
            known.push_reserved(ready_as(&instr));
            instrs.push_reserved(instr);
        }
        Ok(Code { instrs, known })
    }

    /// The instruction with an index.
    pub(crate) fn get(&self, index: usize) -> Option<Instr>
        ensures { result ≡ instr_in self.now index }
    {
        *self.instrs.get(index)?
    }

    /// The instruction with an index, where there is one. Nothing is tested.
    #[inline(always)]
    pub(crate) fn known(&self, index: usize) -> Ready
        requires { IsSome (instr_in self.now index) }
        ensures { instr_in self.now index ≡ Some (instr_of result) }
    {
        self.known[index]
    }
}

/// The instruction, and any other one where there is none.
fn ready_as(instr: &Option<Instr>) -> Ready
    ensures { instr_of result ≡ known_as instr.now }
{
    match *instr {
        Some(instr) => Ready::of(instr),
        None => Ready::Other(Instr::Ebreak),
    }
}
