//! Whether a word is as a pattern says.

ghost use Rattle.std.specs.Prelude.{◌≡◌, ℕ, true};
ghost use Rattle.rv_code.specs.Encode.{code_of};
ghost use Rattle.cfi_unit.specs.Opens.{InCode};
ghost use Rattle.cfi_unit.specs.Patterns.{matches};
ghost use Rattle.cfi_unit.specs.UnitWords.{jump};
ghost use Rattle.cfi_unit.specs.declared.pattern.Pattern.TheVariants as P;
ghost use Rattle.cfi_reader.specs.Nodes.{is_later};

use cfi_unit::{Pattern, jump_between};
use rv_code::{decode, encode};
use rv_instr::{ImmediateOp, Instr, UpperOp};

/// Whether a word, which stands at an address, is as a pattern says that stands behind the first of a unit. From each place
/// in code a handler is reached, so a jump to it is told by its word.
#[tactic(auto, using(crate::proofs::Halts::halt_by))]
#[inline(always)]
pub(crate) fn matches(pattern: Pattern, word: u32, here: u64) -> bool
    requires later { is_later pattern ≡ true }
    requires place { InCode here 1 }
    ensures { result ≡ matches pattern word here }
{
    match pattern {
        Pattern::Is(code) => word == code,
        Pattern::Halt(to) => word == jump_code(here, to),
        Pattern::Number => is_number(word),
        Pattern::Jump => is_jump(word),
        Pattern::Link => is_link(word),
        Pattern::Label => is_label(word),
        Pattern::Member => is_member(word),
        Pattern::Gate
        | Pattern::Plain
        | Pattern::Skip
        | Pattern::Near
        | Pattern::Goto
        | Pattern::Address
        | Pattern::Masked => false,
    }
}

/// The word of `jal x0` from an address to another.
pub(crate) fn jump_code(here: u64, to: u64) -> u32
    ensures { result ≡ code_of (jump here to) }
{
    encode(jump_between(here, to))
}

/// Whether a word is `jal x0`.
fn is_jump(word: u32) -> bool
    ensures { (here : ℕ) → result ≡ matches P.Jump word here }
{
    let Some(instr) = decode(word) else {
        return false;
    };
    match instr {
        Instr::Jal(rd, _) => rd.number() == 0,
        _ => false,
    }
}

/// Whether it is `jal x1`.
fn is_link(word: u32) -> bool
    ensures { (here : ℕ) → result ≡ matches P.Link word here }
{
    let Some(instr) = decode(word) else {
        return false;
    };
    match instr {
        Instr::Jal(rd, _) => rd.number() == 1,
        _ => false,
    }
}

/// Whether it is `lui x4`.
fn is_label(word: u32) -> bool
    ensures { (here : ℕ) → result ≡ matches P.Label word here }
{
    let Some(instr) = decode(word) else {
        return false;
    };
    match instr {
        Instr::Upper(op, rd, _) => op == UpperOp::Lui && rd.number() == 4,
        _ => false,
    }
}

/// Whether it is a store behind a mask.
pub(crate) fn is_member(word: u32) -> bool
    ensures { (here : ℕ) → result ≡ matches P.Member word here }
{
    let Some(instr) = decode(word) else {
        return false;
    };
    match instr {
        Instr::Store(_, base, _, offset) => base.number() == 31 && offset.bits() < 2048,
        _ => false,
    }
}

/// Whether it puts a number into x31 that may be a system call's.
fn is_number(word: u32) -> bool
    ensures { (here : ℕ) → result ≡ matches P.Number word here }
{
    let Some(instr) = decode(word) else {
        return false;
    };
    match instr {
        Instr::Immediate(op, rd, rs1, imm) => {
            op == ImmediateOp::Addi && rd.number() == 31 && rs1.number() == 0 && imm.bits() < 2048
        }
        _ => false,
    }
}
