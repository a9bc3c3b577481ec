//! The first word of a unit: which unit it can begin.

ghost use Rattle.std.specs.Prelude.{◌≡◌};
ghost use Rattle.cfi_unit.specs.Opens.{InCode};
ghost use Rattle.cfi_reader.specs.FirstStep.{
  address_step,
  at_node,
  branch_step,
  first_step,
  is_leaf_return,
  is_number,
  jump_step,
  opens_address,
  opens_call,
  opens_return,
  opens_stores,
  plain_step,
  upper_step,
};
ghost use Rattle.cfi_reader.specs.Reading.{Opened};

use crate::entry::Entry;
use crate::kept::count_on;
use crate::reader::Reader;
use cfi_unit::handlers::BAD_TARGET;
use rv_code::decode;
use rv_instr::{Immediate, ImmediateOp, Instr, LoadOp, Reg, RegisterOp, ShiftOp, UpperOp};
use rv_word::{Numbers, sext};

/// Where the first word of a unit leads.
#[derive(Clone, Copy)]
pub enum First {
    /// The unit is read further.
    More(Reader),
    /// The word is a unit.
    Done(Entry),
}

/// Reads the first word of a unit, under a list of system calls.
pub fn first_word(calls: &Numbers, word: u32, here: u64) -> First
    requires place { InCode here 1 }
    ensures { Opened calls.now word here result }
{
    match decode(word) {
        Some(instr) => first_instr(calls, instr, here),
        None => at_node(0),
    }
}

/// The unit is read further, from a node on, and nothing is kept.
#[inline(always)]
fn at_node(node: u8) -> First
    ensures { result ≡ at_node node }
{
    First::More(Reader {
        node,
        numbers: 0,
        label: Immediate::of(0),
    })
}

/// Where the first instruction of a unit leads.
fn first_instr(calls: &Numbers, instr: Instr, here: u64) -> First
    ensures { result ≡ first_step calls.now instr here }
{
    match instr {
        Instr::Upper(op, rd, imm) => upper(op, rd, imm),
        Instr::ShiftWord(_, rd, _, _) => plain(rd),
        Instr::Register(op, rd, _, rs2) => {
            if opens_stores(op, rd, rs2) {
                at_node(99)
            } else {
                plain(rd)
            }
        }
        Instr::Jal(rd, field) => jump(rd, field, here),
        Instr::Branch(_, _, _, field) => branch(field),
        Instr::Immediate(op, rd, rs1, imm) => {
            if opens_address(op, rd) {
                address(calls, rs1, imm)
            } else {
                plain(rd)
            }
        }
        Instr::Shift(op, rd, rs1, amount) => {
            if opens_call(op, rd, rs1, amount) {
                at_node(46)
            } else {
                plain(rd)
            }
        }
        Instr::Load(op, rd, rs1, imm) => {
            if opens_return(op, rd, rs1, imm) {
                at_node(78)
            } else {
                plain(rd)
            }
        }
        Instr::Ecall => First::Done(Entry::Ecall),
        Instr::Fence(_) => First::Done(Entry::Other),
        Instr::Ebreak => First::Done(Entry::Break),
        Instr::Jalr(rd, rs1, imm) => {
            if is_leaf_return(rd, rs1, imm) {
                First::Done(Entry::LeafReturn)
            } else {
                at_node(0)
            }
        }
        Instr::Store(..) => at_node(0),
    }
}

/// A plain unit, unless it writes a register that units keep for themselves.
fn plain(rd: Reg) -> First
    ensures { result ≡ plain_step rd }
{
    if rd.is_reserved() {
        at_node(0)
    } else if rd.number() == 1 {
        First::Done(Entry::WritesLink)
    } else {
        First::Done(Entry::Other)
    }
}

/// A gate, which is `lui x0`, or a plain unit.
fn upper(op: UpperOp, rd: Reg, imm: Immediate<20>) -> First
    ensures { result ≡ upper_step op rd imm }
{
    if op == UpperOp::Lui && rd.number() == 0 {
        First::Done(Entry::Gate(imm))
    } else {
        plain(rd)
    }
}

/// A near branch, unless it leads over the next word: then that decides.
fn branch(field: Immediate<12>) -> First
    ensures { result ≡ branch_step field }
{
    if field.bits() == 4 {
        at_node(2)
    } else {
        First::Done(Entry::Near(field))
    }
}

/// A jump, a stop or a call that leaves its site in x1.
fn jump(rd: Reg, field: Immediate<20>, here: u64) -> First
    ensures { result ≡ jump_step rd field here }
{
    if rd.number() == 1 {
        First::Done(Entry::LinkCall(field))
    } else if rd.number() != 0 {
        at_node(0)
    } else if here.wrapping_add(sext(u64::from(field.bits()) * 2, 21)) == BAD_TARGET {
        First::Done(Entry::Stop)
    } else {
        First::Done(Entry::Jump(field))
    }
}

/// A number of a system call, of which it is kept whether the list begins with it, or an address.
fn address(calls: &Numbers, rs1: Reg, imm: Immediate<12>) -> First
    ensures { result ≡ address_step calls.now rs1 imm }
{
    if is_number(rs1, imm) {
        First::More(Reader {
            node: 3,
            numbers: count_on(calls, 0, imm.bits()),
            label: Immediate::of(0),
        })
    } else {
        at_node(11)
    }
}

/// Whether it is `addi x31`, with which a mask, a computed transfer or a test begins.
fn opens_address(op: ImmediateOp, rd: Reg) -> bool
    ensures { result ≡ opens_address op rd }
{
    op == ImmediateOp::Addi && rd.number() == 31
}

/// Whether what it puts there is a number that may be a system call's.
fn is_number(rs1: Reg, imm: Immediate<12>) -> bool
    ensures { result ≡ is_number rs1 imm }
{
    rs1.number() == 0 && imm.bits() < 2048
}

/// Whether it is `slli x30,x3,48`, with which a call or an enter begins.
fn opens_call(op: ShiftOp, rd: Reg, rs1: Reg, amount: Immediate<6>) -> bool
    ensures { result ≡ opens_call op rd rs1 amount }
{
    op == ShiftOp::Slli && rd.number() == 30 && rs1.number() == 3 && amount.bits() == 48
}

/// Whether it is `and x31,rs1,x4`, a mask by x4.
fn opens_stores(op: RegisterOp, rd: Reg, rs2: Reg) -> bool
    ensures { result ≡ opens_stores op rd rs2 }
{
    op == RegisterOp::And && rd.number() == 31 && rs2.number() == 4
}

/// Whether it is `jalr x0,0(x1)`, a return to the site in x1.
fn is_leaf_return(rd: Reg, rs1: Reg, imm: Immediate<12>) -> bool
    ensures { result ≡ is_leaf_return rd rs1 imm }
{
    rd.number() == 0 && rs1.number() == 1 && imm.bits() == 0
}

/// Whether it is `ld x31,-8(x3)`, with which a return begins.
fn opens_return(op: LoadOp, rd: Reg, rs1: Reg, imm: Immediate<12>) -> bool
    ensures { result ≡ opens_return op rd rs1 imm }
{
    op == LoadOp::Ld && rd.number() == 31 && rs1.number() == 3 && imm.bits() == 0xff8
}
