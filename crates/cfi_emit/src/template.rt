//! The instructions of each unit.

ghost use Rattle.std.specs.Prelude.{◌≡◌, ◌+◌, ◌*◌, ◌<◌, ◌≤◌, ◌^◌, ◌++◌, length, map};
ghost use Rattle.std.specs.List.{AllByRecursion};
ghost use Rattle.rv_code.specs.Encode.{code_of};
ghost use Rattle.rv_image.specs.MemoryMap.{CODE_START, CODE_SIZE};
ghost use Rattle.rv_word.specs.Numbers.{IsNumber, MOST_NUMBERS};
ghost use Rattle.cfi_unit.specs.Guarded.{guards};
ghost use Rattle.cfi_unit.specs.Members.{member_instr};
ghost use Rattle.cfi_unit.specs.UnitWords.{check, gate, instrs_of, mask_instrs, mask_made, past, push, system_instr, words_of};
ghost use Rattle.cfi_unit.specs.declared.unit.Unit.TheVariants as V;

use crate::words::UnitCode;
use cfi_unit::handlers::{BAD_RETURN, BAD_TARGET, DEEP};
use cfi_unit::{
    Mask, Member, SystemOp, TargetWord, Unit, field_between, jump_between, near_between,
};
use rv_code::encode;
use rv_instr::{
    BranchOp, Immediate, ImmediateOp, Instr, LoadOp, Reg, RegisterOp, ShiftOp, StoreOp, UpperOp,
};
use rv_word::Numbers;

/// The words of a unit at an address.
#[tactic(auto, unfolding(cfi_unit::specs::UnitWords::words_of))]
pub(crate) fn unit_code(unit: &Unit, at: u64) -> UnitCode
    requires { at < CODE_START + CODE_SIZE }
    ensures { result ≡ words_of unit.now at }
{
    let mut code = UnitCode::new();
    match *unit {
        Unit::Gate(label) => code.put(&[gate_instr(label)]),
        Unit::Plain(instr) => code.put(&[instr]),
        Unit::Branch(op, rs1, rs2, target) => {
            code.put(&[skip(op, rs1, rs2), jump_between(at + 4, target)]);
        }
        Unit::Near(op, rs1, rs2, target) => {
            code.put(&[Instr::Branch(op, rs1, rs2, near_between(at, target))]);
        }
        Unit::Jump(target) => code.put(&[jump_between(at, target)]),
        Unit::Stop => code.put(&[jump_between(at, BAD_TARGET)]),
        Unit::System(op) => code.put(&[system(op)]),
        Unit::Guarded(numbers) => put_guarded(&mut code, &numbers, at),
        Unit::Stores(mask, rs1, imm, members) => {
            put_mask(&mut code, mask, rs1, imm);
            put_members(&mut code, members.as_slice());
        }
        Unit::Call(target) => {
            code.put(&pushes(at));
            code.put(&[Instr::Jal(Reg::of(1), field_between(at + 28, target))]);
        }
        Unit::Ijump(which, rs1, imm, label) => {
            code.put(&checks(at, rs1, imm, label, which));
            code.put(&[transfer(0)]);
        }
        Unit::Icall(rs1, imm, label) => {
            code.put(&checks(at, rs1, imm, label, TargetWord::First));
            code.put(&pushes(at + 48));
            code.put(&[transfer(1)]);
        }
        Unit::Return => code.put(&returns(at)),
        Unit::LinkCall(target) => {
            code.put(&[Instr::Jal(Reg::of(1), field_between(at, target))]);
        }
        Unit::Enter => code.put(&enters(at)),
        Unit::LeanIjump(rs1, imm, label) => {
            put_lean_check(&mut code, at, rs1, imm, label, TargetWord::First);
            code.put(&[transfer(0)]);
        }
        Unit::LeanIcall(rs1, imm, label) => {
            put_lean_check(&mut code, at, rs1, imm, label, TargetWord::Third);
            code.put(&[jump_past(1, 8)]);
        }
        Unit::LeafReturn => code.put(&[Instr::Jalr(Reg::of(0), Reg::of(1), Immediate::of(0))]),
    }
    code
}

/// `lui x0,label`.
fn gate_instr(label: Immediate<20>) -> Instr
    ensures { result ≡ gate label }
{
    Instr::Upper(UpperOp::Lui, Reg::of(0), label)
}

/// A branch over the next word.
fn skip(op: BranchOp, rs1: Reg, rs2: Reg) -> Instr
    ensures { result ≡ Instr.Branch op rs1 rs2 4 }
{
    Instr::Branch(op, rs1, rs2, Immediate::of(4))
}

fn system(op: SystemOp) -> Instr
    ensures { result ≡ system_instr op }
{
    match op {
        SystemOp::Ecall => Instr::Ecall,
        SystemOp::Ebreak => Instr::Ebreak,
    }
}

/// `jalr rd,0(x31)`.
fn transfer(rd: u32) -> Instr
    requires { rd < 32 }
    ensures { result ≡ Instr.Jalr rd 31 0 }
{
    jump_past(rd, 0)
}

/// `jalr rd,imm(x31)`.
fn jump_past(rd: u32, imm: u32) -> Instr
    requires register { rd < 32 }
    requires field { imm < 2 ^ 12 }
    ensures { result ≡ Instr.Jalr rd 31 imm }
{
    Instr::Jalr(Reg::of(rd), Reg::of(31), Immediate::of(imm))
}

fn addi(rd: u32, rs1: u32, imm: u32) -> Instr
    requires destination { rd < 32 }
    requires source { rs1 < 32 }
    requires field { imm < 2 ^ 12 }
    ensures { result ≡ Instr.Immediate ImmediateOp.Addi rd rs1 imm }
{
    Instr::Immediate(
        ImmediateOp::Addi,
        Reg::of(rd),
        Reg::of(rs1),
        Immediate::of(imm),
    )
}

fn shift(op: ShiftOp, rd: u32, rs1: u32, amount: u32) -> Instr
    requires destination { rd < 32 }
    requires source { rs1 < 32 }
    requires field { amount < 2 ^ 6 }
    ensures { result ≡ Instr.Shift op rd rs1 amount }
{
    Instr::Shift(op, Reg::of(rd), Reg::of(rs1), Immediate::of(amount))
}

/// `addi x31,rs1,imm`: the address of a store, or a computed destination.
fn address(rs1: Reg, imm: Immediate<12>) -> Instr
    ensures { result ≡ Instr.Immediate ImmediateOp.Addi 31 rs1 imm }
{
    Instr::Immediate(ImmediateOp::Addi, Reg::of(31), rs1, imm)
}

/// `and x31,rs1,x4`.
fn masked(rs1: Reg) -> Instr
    ensures { result ≡ Instr.Register RegisterOp.And 31 rs1 4 }
{
    Instr::Register(RegisterOp::And, Reg::of(31), rs1, Reg::of(4))
}

/// Puts the words at the end that put an address modulo 2^28 into x31.
fn put_mask(code: &mut UnitCode, mask: Mask, rs1: Reg, imm: Immediate<12>)
    requires { length code.old ≡ 0 }
    ensures { code.new ≡ code.old ++ map code_of (mask_instrs mask rs1 imm) }
{
    match mask {
        Mask::Shifts => code.put(&[
            address(rs1, imm),
            shift(ShiftOp::Slli, 31, 31, 36),
            shift(ShiftOp::Srli, 31, 31, 36),
        ]),
        Mask::Short => code.put(&[masked(rs1)]),
        Mask::Long => code.put(&[address(rs1, imm), masked(Reg::of(31))]),
    }
}

/// Puts the words of a check at the end that makes the mask of stores again.
fn put_lean_check(
    code: &mut UnitCode,
    at: u64,
    rs1: Reg,
    imm: Immediate<12>,
    label: Immediate<20>,
    which: TargetWord,
)
    requires place { at < CODE_START + CODE_SIZE }
    requires room { length code.old ≡ 0 }
    ensures { code.new ≡ code.old ++ map code_of (check at rs1 imm label which ++ mask_made) }
{
    code.put(&checks(at, rs1, imm, label, which));
    code.put(&mask_made());
}

/// The words that put 2^28 - 1 into x4.
fn mask_made() -> [Instr; 2]
    ensures { result ≡ mask_made }
{
    [
        Instr::Upper(UpperOp::Lui, Reg::of(4), Immediate::of(0x1_0000)),
        addi(4, 4, 0xfff),
    ]
}

/// The store that a member is.
fn member_instr(member: Member) -> Instr
    ensures { result ≡ member_instr member }
{
    let distance = Immediate::of(member.distance.bits());
    Instr::Store(member.op, Reg::of(31), member.value, distance)
}

/// Puts the words of members at the end.
fn put_members(code: &mut UnitCode, members: &[Member])
    requires { length code.old + length members.now ≤ 20 }
    ensures { code.new ≡ code.old ++ map code_of (map member_instr members.now) }
{
    for member in members {
        code.push(encode(member_instr(*member)));
    }
}

/// Puts the words of a system call behind tests of its number at the end. Not inlined: other units would
/// pay for its locals.
#[inline(never)]
fn put_guarded(code: &mut UnitCode, numbers: &Numbers, at: u64)
    requires place { at < CODE_START + CODE_SIZE }
    requires room { length code.old ≡ 0 }
    ensures { code.new ≡ code.old ++ words_of (V.Guarded numbers.now) at }
{
    let count = numbers.len();
    put_guards(code, numbers.as_slice());
    code.put(&[
        jump_between(at + 8 * count as u64, BAD_TARGET),
        Instr::Ecall,
    ]);
}

/// Puts the tests of numbers at the end.
fn put_guards(code: &mut UnitCode, numbers: &[u16])
    requires room { length code.old ≡ 0 }
    requires most { length numbers.now ≤ MOST_NUMBERS }
    requires each { AllByRecursion IsNumber numbers.now }
    ensures { code.new ≡ code.old ++ map code_of (guards numbers.now) }
{
    for (index, number) in numbers.iter().enumerate() {
        let left = (numbers.len() - index) as u32;
        code.push(encode(addi(31, 0, u32::from(*number))));
        code.push(encode(test(left)));
    }
}

/// A branch over so many tests, and the jump behind them, where x31 and x17 are the same.
fn test(left: u32) -> Instr
    requires { left ≤ MOST_NUMBERS }
    ensures { result ≡ Instr.Branch BranchOp.Beq 31 17 (4 * left) }
{
    Instr::Branch(
        BranchOp::Beq,
        Reg::of(31),
        Reg::of(17),
        Immediate::of(4 * left),
    )
}

/// The words of a call before its transfer.
fn pushes(at: u64) -> [Instr; 7]
    requires { at < CODE_START + CODE_SIZE + 48 }
    ensures { result ≡ push at }
{
    [
        shift(ShiftOp::Slli, 30, 3, 48),
        skip(BranchOp::Bne, Reg::of(30), Reg::of(0)),
        jump_between(at + 8, DEEP),
        Instr::Upper(UpperOp::Auipc, Reg::of(30), Immediate::of(0)),
        addi(30, 30, 20),
        Instr::Store(StoreOp::Sd, Reg::of(3), Reg::of(30), Immediate::of(0)),
        addi(3, 3, 8),
    ]
}

/// How far behind its destination a check reads.
fn past(which: TargetWord) -> Immediate<12>
    ensures { result ≡ past which }
{
    match which {
        TargetWord::First => Immediate::of(0),
        TargetWord::Second => Immediate::of(4),
        TargetWord::Third => Immediate::of(8),
    }
}

/// The words of a computed transfer that test its destination.
fn checks(
    at: u64,
    rs1: Reg,
    imm: Immediate<12>,
    label: Immediate<20>,
    which: TargetWord,
) -> [Instr; 12]
    requires { at < CODE_START + CODE_SIZE }
    ensures { result ≡ check at rs1 imm label which }
{
    let (x0, x4, x30, x31) = (Reg::of(0), Reg::of(4), Reg::of(30), Reg::of(31));
    [
        address(rs1, imm),
        Instr::Immediate(ImmediateOp::Andi, x31, x31, Immediate::of(0xffc)),
        Instr::Upper(UpperOp::Lui, x30, Immediate::of(0x4_0000)),
        Instr::Register(RegisterOp::Sub, x30, x31, x30),
        shift(ShiftOp::Srli, 30, 30, 20),
        skip(BranchOp::Beq, x30, x0),
        jump_between(at + 24, BAD_TARGET),
        Instr::Load(LoadOp::Lw, x30, x31, past(which)),
        Instr::Upper(UpperOp::Lui, x4, label),
        addi(4, 4, 55),
        skip(BranchOp::Beq, x30, x4),
        jump_between(at + 44, BAD_TARGET),
    ]
}

fn returns(at: u64) -> [Instr; 5]
    requires { at < CODE_START + CODE_SIZE }
    ensures { result ≡ instrs_of V.Return at }
{
    let (x1, x3, x31) = (Reg::of(1), Reg::of(3), Reg::of(31));
    [
        Instr::Load(LoadOp::Ld, x31, x3, Immediate::of(0xff8)),
        addi(3, 3, 0xff8),
        skip(BranchOp::Beq, x31, x1),
        jump_between(at + 12, BAD_RETURN),
        transfer(0),
    ]
}

/// The words that put the site in x1 onto the shadow stack.
fn enters(at: u64) -> [Instr; 5]
    requires { at < CODE_START + CODE_SIZE }
    ensures { result ≡ instrs_of V.Enter at }
{
    let (x0, x1, x3, x30) = (Reg::of(0), Reg::of(1), Reg::of(3), Reg::of(30));
    [
        shift(ShiftOp::Slli, 30, 3, 48),
        skip(BranchOp::Bne, x30, x0),
        jump_between(at + 8, DEEP),
        Instr::Store(StoreOp::Sd, x3, x1, Immediate::of(0)),
        addi(3, 3, 8),
    ]
}
