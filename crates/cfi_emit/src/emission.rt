//! A unit to its words, its size, and where it may stand.

ghost use Rattle.std.specs.Prelude.{◌≡◌, ◌+◌, ◌*◌, ◌<◌, ◌↔◌, ◌++◌, IfOk, IsTrue, List, Some, length, ℕ};
ghost use Rattle.rv_image.specs.MemoryMap.{CODE_START, CODE_SIZE};
ghost use Rattle.cfi_unit.specs.Recognise.{recognised};
ghost use Rattle.cfi_unit.specs.UnitWords.{BAD_TARGET, Fits, MaskFits, Reaches, is_plain, mask_words, may_precede, word_count, words_of};

use crate::template::unit_code;
use cfi_unit::handlers::{BAD_RETURN, BAD_TARGET, DEEP};
use cfi_unit::{Mask, Unit, is_close, is_reached};
use rv_image::unit_words::{
    BRANCH_WORDS, CALL_WORDS, ENTER_WORDS, ICALL_WORDS, IJUMP_WORDS, LEAN_TRANSFER_WORDS,
    RETURN_WORDS,
};
use rv_instr::{Immediate, Instr, UpperOp};
use rv_word::{NoMemory, Numbers};
use std::alloc::Global;

/// The words of a unit at an address.
pub fn emit(alloc: Global, unit: &Unit, at: u64) -> Result<Vec<u32>, NoMemory>
    requires place { at < CODE_START + CODE_SIZE }
    requires fits { Fits unit.now at }
    ensures words { IfOk result (λ v. v.items ≡ words_of unit.now at) }
    ensures found { IfOk result (λ v. (rest : List ℕ) → IsTrue (may_precede unit.now at rest) → recognised (v.items ++ rest) at ≡ Some unit.now) }
{
    let code = unit_code(unit, at);
    Ok(code.as_slice().to_vec(alloc)?)
}

/// How many bytes a unit has.
#[tactic(auto, using(cfi_unit::proofs::UnitInList::words_counted))]
pub fn size(unit: &Unit) -> u32
    ensures value { result ≡ 4 * word_count unit.now }
    ensures words { (at : ℕ) → result ≡ 4 * length (words_of unit.now at) }
{
    4 * count(unit)
}

/// How many words a unit has.
pub(crate) fn count(unit: &Unit) -> u32
    ensures value { result ≡ word_count unit.now }
    ensures small { result < 21 }
{
    match unit {
        Unit::Gate(_)
        | Unit::Plain(_)
        | Unit::Near(..)
        | Unit::Jump(_)
        | Unit::Stop
        | Unit::System(_)
        | Unit::LinkCall(_)
        | Unit::LeafReturn => 1,
        Unit::Branch(..) => BRANCH_WORDS,
        Unit::Guarded(numbers) => 2 + 2 * numbers.len() as u32,
        Unit::Stores(mask, _, _, members) => mask_words(*mask) + members.len() as u32,
        Unit::Return => RETURN_WORDS,
        Unit::Call(_) => CALL_WORDS,
        Unit::Ijump(..) => IJUMP_WORDS,
        Unit::Icall(..) => ICALL_WORDS,
        Unit::Enter => ENTER_WORDS,
        Unit::LeanIjump(..) | Unit::LeanIcall(..) => LEAN_TRANSFER_WORDS,
    }
}

/// How many words a mask has.
pub(crate) fn mask_words(mask: Mask) -> u32
    ensures value { result ≡ mask_words mask }
    ensures small { result < 4 }
{
    match mask {
        Mask::Shifts => 3,
        Mask::Short => 1,
        Mask::Long => 2,
    }
}

/// Whether a unit may stand at an address: a plain unit's instruction may stand alone, every jump reaches its target, there is a
/// number or a store where these are listed, and a short mask has no offset.
pub fn fits(unit: &Unit, at: u64) -> bool
    requires { at < CODE_START + CODE_SIZE }
    ensures { IsTrue result ↔ Fits unit.now at }
{
    unit.in_range();
    match *unit {
        Unit::Gate(_) | Unit::System(_) | Unit::LeafReturn => true,
        Unit::Guarded(numbers) => guards_reach(&numbers, at),
        Unit::Stores(mask, _, imm, members) => members.len() > 0 && may_offset(mask, imm),
        Unit::Plain(instr) => may_stand_alone(&instr),
        Unit::Branch(_, _, _, target) => is_reached(at + 4, target),
        Unit::Near(_, _, _, target) => is_close(at, target),
        Unit::Jump(target) => target != BAD_TARGET && is_reached(at, target),
        Unit::LinkCall(target) => is_reached(at, target),
        Unit::Enter => is_reached(at + 8, DEEP),
        Unit::Stop => is_reached(at, BAD_TARGET),
        Unit::Call(target) => is_reached(at + 8, DEEP) && is_reached(at + 28, target),
        Unit::Ijump(..) | Unit::LeanIjump(..) | Unit::LeanIcall(..) => halts_reach(at),
        Unit::Icall(..) => halts_reach(at) && is_reached(at + 56, DEEP),
        Unit::Return => is_reached(at + 12, BAD_RETURN),
    }
}

/// Whether a mask has room for an offset: a short one has none.
fn may_offset(mask: Mask, imm: Immediate<12>) -> bool
    ensures { IsTrue result ↔ MaskFits mask imm }
{
    match mask {
        Mask::Shifts | Mask::Long => true,
        Mask::Short => imm.bits() == 0,
    }
}

/// Whether there is a number to test, and the jump behind the tests reaches its handler.
#[inline(never)]
fn guards_reach(numbers: &Numbers, at: u64) -> bool
    requires { at < CODE_START + CODE_SIZE }
    ensures { IsTrue result ↔ ((0 < length numbers.now) × Reaches (at + 8 * length numbers.now) BAD_TARGET) }
{
    let count = numbers.len();
    count > 0 && is_reached(at + 8 * count as u64, BAD_TARGET)
}

/// Whether the jumps of a check reach their handler.
fn halts_reach(at: u64) -> bool
    requires { at < CODE_START + CODE_SIZE }
    ensures { IsTrue result ↔ (Reaches (at + 24) BAD_TARGET × Reaches (at + 44) BAD_TARGET) }
{
    is_reached(at + 24, BAD_TARGET) && is_reached(at + 44, BAD_TARGET)
}

/// Whether an instruction may be a unit of its own.
fn may_stand_alone(instr: &Instr) -> bool
    ensures { result ≡ is_plain instr.now }
{
    match *instr {
        Instr::Upper(UpperOp::Lui, rd, _) => !rd.is_reserved() && rd.number() != 0,
        Instr::Upper(UpperOp::Auipc, rd, _)
        | Instr::Load(_, rd, _, _)
        | Instr::Immediate(_, rd, _, _)
        | Instr::Shift(_, rd, _, _)
        | Instr::ShiftWord(_, rd, _, _)
        | Instr::Register(_, rd, _, _) => !rd.is_reserved(),
        Instr::Fence(_) => true,
        Instr::Jal(..)
        | Instr::Jalr(..)
        | Instr::Branch(..)
        | Instr::Store(..)
        | Instr::Ecall
        | Instr::Ebreak => false,
    }
}
