//! The unit that begins a list of words.

ghost use Rattle.std.specs.Prelude.{◌≡◌, ◌↔◌, ◌+◌, ◌<◌, ◌≤◌, ◌||◌, None, Some, drop, if◌then◌else◌, is_none, nat_le, nat_lt, option_map, IfSome, IsNone, IsTrue};
ghost use Rattle.std.specs.List.{All};
ghost use Rattle.rv_image.specs.MemoryMap.{CODE_START, CODE_SIZE};
ghost use Rattle.rv_word.specs.Numbers.{IsNumber};
ghost use Rattle.cfi_unit.specs.Members.{MOST_MEMBERS, member_of};
ghost use Rattle.cfi_unit.specs.UnitWords.{Begins, instr_at, is_jump, mask_words, may_precede, skips_jump, word_count};
ghost use Rattle.cfi_unit.specs.Reach.{target_in};
ghost use Rattle.cfi_unit.specs.Recognise.{
  address_in,
  base_in,
  branch_in,
  label_in,
  masked_in,
  members_in,
  near_in,
  number_in,
  numbers_in,
  recognised,
  stores_in,
  transfer_in,
  unit_of,
};
ghost use Rattle.cfi_unit.specs.NoneBegins.{NoneBegins};
ghost use Rattle.cfi_unit.specs.declared.unit.Unit as U;

use crate::emission::{count, fits, mask_words};
use crate::template::unit_code;
use cfi_unit::{
    End, MOST_MEMBERS, Mask, Member, Members, SystemOp, TargetWord, Unit, led, led_near,
    near_between,
};
use rv_code::decode;
use rv_instr::{Immediate, Instr, Reg, StoreOp};
use rv_word::Numbers;

/// The kinds of units.
const KINDS: [End; 27] = [
    End::Gate,
    End::Plain,
    End::Stop,
    End::Jump,
    End::Ecall,
    End::Ebreak,
    End::Near,
    End::Branch,
    End::Over,
    End::Call,
    End::Ijump(TargetWord::First),
    End::Ijump(TargetWord::Second),
    End::Ijump(TargetWord::Third),
    End::Icall,
    End::Return,
    End::Guarded,
    End::Full(Mask::Shifts),
    End::Stores(Mask::Shifts),
    End::Full(Mask::Short),
    End::Stores(Mask::Short),
    End::Full(Mask::Long),
    End::Stores(Mask::Long),
    End::LinkCall,
    End::Enter,
    End::LeanIjump,
    End::LeanIcall,
    End::LeafReturn,
];

/// The unit that begins a list of words at an address, and how many words it has. A branch, and fewer than sixteen stores, are read
/// with the word after them, so a list that ends before the code does may give another unit at its end.
pub fn recognise(words: &[u32], at: u64) -> Option<(Unit, u32)>
    requires { at < CODE_START + CODE_SIZE }
    ensures value { result ≡ option_map (λ u. (u, word_count u)) (recognised words.now at) }
    ensures begins { IfSome result (λ found. Begins words.now at found.0) }
    ensures count { IfSome result (λ found. found.1 ≡ word_count found.0) }
    ensures none { IsNone result → (unit : U.Unit) → Begins words.now at unit → ⊥ }
{
    let unit = unit_of_kinds(&KINDS, words, at)?;
    let words = count(&unit);
    Some((unit, words))
}

/// The unit of one of some kinds that begins the list.
fn unit_of_kinds(kinds: &[End], words: &[u32], at: u64) -> Option<Unit>
    requires { at < CODE_START + CODE_SIZE }
    ensures found { IfSome result (Begins words.now at) }
    ensures none { IsNone result → All (λ end. NoneBegins end words.now at) kinds.now }
{
    for end in kinds {
        if let Some(unit) = unit_of_kind(*end, words, at) {
            return Some(unit);
        }
    }
    None
}

/// The unit of a kind that begins the list.
fn unit_of_kind(end: End, words: &[u32], at: u64) -> Option<Unit>
    requires { at < CODE_START + CODE_SIZE }
    ensures found { IfSome result (Begins words.now at) }
    ensures none { IsNone result → NoneBegins end words.now at }
{
    let unit = read(end, words, at)?;
    if begins(&unit, words, at) {
        Some(unit)
    } else {
        None
    }
}

/// Whether a unit begins the list.
fn begins(unit: &Unit, words: &[u32], at: u64) -> bool
    requires { at < CODE_START + CODE_SIZE }
    ensures { IsTrue result ↔ Begins words.now at unit.now }
{
    if fits(unit, at) {
        let code = unit_code(unit, at);
        words.starts_with(code.as_slice()) && is_kept(unit, at, words)
    } else {
        false
    }
}

/// The instruction that a word of the list is.
fn instr(words: &[u32], index: usize) -> Option<Instr>
    ensures { result ≡ instr_at words.now index }
{
    decode(*words.get(index)?)
}

/// A unit of a kind, its fields read from the words in which it would keep them.
fn read(end: End, words: &[u32], at: u64) -> Option<Unit>
    requires { at < CODE_START + CODE_SIZE }
    ensures { result ≡ unit_of end words.now at }
{
    match end {
        End::Gate => Some(Unit::Gate(label(instr(words, 0))?)),
        End::Plain => Some(Unit::Plain(instr(words, 0)?)),
        End::Stop => Some(Unit::Stop),
        End::Jump => Some(Unit::Jump(target(at, instr(words, 0))?)),
        End::Ecall => Some(Unit::System(SystemOp::Ecall)),
        End::Ebreak => Some(Unit::System(SystemOp::Ebreak)),
        End::Near | End::Over => near(at, instr(words, 0)),
        End::Branch => branch(instr(words, 0), target(at + 4, instr(words, 1))?),
        End::Call => Some(Unit::Call(target(at + 28, instr(words, 7))?)),
        End::Ijump(which) => {
            let (rs1, imm, label) = transfer(words)?;
            Some(Unit::Ijump(which, rs1, imm, label))
        }
        End::Icall => {
            let (rs1, imm, label) = transfer(words)?;
            Some(Unit::Icall(rs1, imm, label))
        }
        End::Return => Some(Unit::Return),
        End::Guarded => Some(Unit::Guarded(numbers_tested(words))),
        End::Stores(mask) | End::Full(mask) => stores(mask, words),
        End::LinkCall => Some(Unit::LinkCall(target(at, instr(words, 0))?)),
        End::Enter => Some(Unit::Enter),
        End::LeanIjump => {
            let (rs1, imm, label) = transfer(words)?;
            Some(Unit::LeanIjump(rs1, imm, label))
        }
        End::LeanIcall => {
            let (rs1, imm, label) = transfer(words)?;
            Some(Unit::LeanIcall(rs1, imm, label))
        }
        End::LeafReturn => Some(Unit::LeafReturn),
    }
}

/// Whether the words after a unit that begins the list leave it that unit.
#[tactic(auto, using(cfi_unit::proofs::UnitInList::next_instr))]
fn is_kept(unit: &Unit, at: u64, words: &[u32]) -> bool
    ensures { result ≡ may_precede unit.now at (drop (word_count unit.now) words.now) }
{
    match *unit {
        Unit::Near(_, _, _, target) => !skips(near_between(at, target), instr(words, 1)),
        Unit::Stores(mask, _, _, members) => is_whole(mask, members.len(), words),
        _ => true,
    }
}

/// Whether no more stores belong to so many that begin the list behind their mask.
#[tactic(auto, using(cfi_unit::proofs::UnitInList::next_instr))]
fn is_whole(mask: Mask, count: usize, words: &[u32]) -> bool
    requires { count ≤ MOST_MEMBERS }
    ensures { result ≡ (nat_le MOST_MEMBERS count || is_none (member_of (instr_at (drop (mask_words mask + count) words.now) 0))) }
{
    count >= MOST_MEMBERS || member(instr(words, mask_words(mask) as usize + count)).is_none()
}

/// Whether a branch leads over the next instruction, and that is a jump.
fn skips(field: Immediate<12>, next: Option<Instr>) -> bool
    ensures { result ≡ skips_jump field next }
{
    field.bits() == 4 && is_jump(next)
}

/// Whether an instruction is `jal x0`.
fn is_jump(instr: Option<Instr>) -> bool
    ensures { result ≡ is_jump instr }
{
    let Some(instr) = instr else { return false };
    match instr {
        Instr::Jal(rd, _) => rd.number() == 0,
        _ => false,
    }
}

/// A branch that stands alone.
fn near(at: u64, branch: Option<Instr>) -> Option<Unit>
    ensures { result ≡ near_in at branch }
{
    match branch? {
        Instr::Branch(op, rs1, rs2, field) => Some(Unit::Near(op, rs1, rs2, led_near(at, field))),
        _ => None,
    }
}

/// A branch over a jump.
fn branch(branch: Option<Instr>, target: u64) -> Option<Unit>
    ensures { result ≡ branch_in branch target }
{
    match branch? {
        Instr::Branch(op, rs1, rs2, _) => Some(Unit::Branch(op, rs1, rs2, target)),
        _ => None,
    }
}

/// The register, the offset and the label of a computed transfer.
fn transfer(words: &[u32]) -> Option<(Reg, Immediate<12>, Immediate<20>)>
    ensures { result ≡ transfer_in words.now }
{
    let label = label(instr(words, 8))?;
    let (rs1, imm) = address(instr(words, 0))?;
    Some((rs1, imm, label))
}

/// Stores behind a mask.
fn stores(mask: Mask, words: &[u32]) -> Option<Unit>
    ensures { result ≡ stores_in mask words.now }
{
    let (rs1, imm) = masked(mask, instr(words, 0))?;
    Some(Unit::Stores(mask, rs1, imm, members_behind(mask, words)))
}

/// The register and the offset that a mask begins with.
fn masked(mask: Mask, first: Option<Instr>) -> Option<(Reg, Immediate<12>)>
    ensures { result ≡ masked_in mask first }
{
    match mask {
        Mask::Shifts | Mask::Long => address(first),
        Mask::Short => Some((base(first)?, Immediate::of(0))),
    }
}

/// The first operand of an instruction on two registers.
fn base(and: Option<Instr>) -> Option<Reg>
    ensures { result ≡ base_in and }
{
    match and? {
        Instr::Register(_, _, rs1, _) => Some(rs1),
        _ => None,
    }
}

/// The register and the offset of an address.
fn address(addi: Option<Instr>) -> Option<(Reg, Immediate<12>)>
    ensures { result ≡ address_in addi }
{
    match addi? {
        Instr::Immediate(_, _, rs1, imm) => Some((rs1, imm)),
        _ => None,
    }
}

/// The target of a `jal` at an address.
fn target(at: u64, jump: Option<Instr>) -> Option<u64>
    ensures { result ≡ target_in at jump }
{
    match jump? {
        Instr::Jal(_, field) => Some(led(at, field)),
        _ => None,
    }
}

/// The stores behind a mask that begins the list: as many as follow, up to sixteen.
fn members_behind(mask: Mask, words: &[u32]) -> Members
    ensures { result ≡ members_in mask words.now }
{
    let first = mask_words(mask) as usize;
    let mut members = Members::new();
    for index in 0..16 {
        match member(instr(words, first + index)) {
            Some(member) => members.push(member),
            None => return members,
        }
    }
    members
}

/// The numbers that the list begins by testing, up to eight. Not inlined: other units would pay for its
/// locals.
#[inline(never)]
fn numbers_tested(words: &[u32]) -> Numbers
    ensures { result ≡ numbers_in words.now }
{
    let mut numbers = Numbers::new();
    for index in 0..8 {
        match number(instr(words, 2 * index)) {
            Some(number) => numbers.push(number),
            None => return numbers,
        }
    }
    numbers
}

/// The number that a test loads.
fn number(load: Option<Instr>) -> Option<u16>
    ensures value { result ≡ number_in load }
    ensures small { IfSome result IsNumber }
{
    match load? {
        Instr::Immediate(_, _, _, field) => small(field),
        _ => None,
    }
}

/// A number of a system call, where the field is one.
fn small(field: Immediate<12>) -> Option<u16>
    ensures value { result ≡ (if nat_lt field 2048 then Some field else None) }
    ensures small { IfSome result IsNumber }
{
    let bits = field.bits();
    if bits < 2048 { Some(bits as u16) } else { None }
}

/// The member that an instruction is: a store off x31 at a distance that is not negative.
fn member(instr: Option<Instr>) -> Option<Member>
    ensures { result ≡ member_of instr }
{
    match instr? {
        Instr::Store(op, base, value, offset) => stored(op, base, value, offset),
        _ => None,
    }
}

/// The same of a store.
fn stored(op: StoreOp, base: Reg, value: Reg, offset: Immediate<12>) -> Option<Member>
    ensures { result ≡ member_of (Some (Instr.Store op base value offset)) }
{
    if base.number() == 31 && offset.bits() < 2048 {
        let distance = Immediate::of(offset.bits());
        Some(Member {
            op,
            value,
            distance,
        })
    } else {
        None
    }
}

/// The label of a `lui`.
fn label(lui: Option<Instr>) -> Option<Immediate<20>>
    ensures { result ≡ label_in lui }
{
    match lui? {
        Instr::Upper(_, _, imm) => Some(imm),
        _ => None,
    }
}
