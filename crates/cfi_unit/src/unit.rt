use crate::mask::Mask;
use crate::members::Members;
use crate::target_word::TargetWord;
use rv_instr::{BranchOp, Immediate, Instr, Reg};
use rv_word::Numbers;

/// A unit of hardened code. Targets are addresses in bytes, labels are 20-bit numbers.
#[derive(Clone, Copy, PartialEq, Eq)]
pub enum Unit {
    /// `lui x0,label`: where a computed jump or call of a class may arrive.
    Gate(Immediate<20>),
    /// One instruction that is no transfer, store, ECALL, EBREAK or gate, and writes no reserved register.
    Plain(Instr),
    /// A branch over the jump that follows it; the jump's target.
    Branch(BranchOp, Reg, Reg, u64),
    /// A branch to a near target. Where that is eight bytes on, a jump that stands between belongs to
    /// the branch over it instead, so none may.
    Near(BranchOp, Reg, Reg, u64),
    /// A jump to a target that is not the handler of bad targets.
    Jump(u64),
    /// A jump to the handler of bad targets.
    Stop,
    /// A system call or a break.
    System(SystemOp),
    /// A system call behind tests of its number: the numbers, in the order in which they are tested,
    /// with which it is made. With any other the handler of bad targets is next.
    Guarded(Numbers),
    /// Stores behind one address, which is masked to lie below 2^28: how, the address's register, its
    /// offset (0 behind a short mask), and the stores, which are one to sixteen and as many as follow.
    Stores(Mask, Reg, Immediate<12>, Members),
    /// A call that puts its site onto the shadow stack; its target.
    Call(u64),
    /// A computed jump: the word of its target that its check reads (in no image the third), register,
    /// offset, and the label that this word must bear.
    Ijump(TargetWord, Reg, Immediate<12>, Immediate<20>),
    /// A computed call, whose check reads the first word: register, offset, label.
    Icall(Reg, Immediate<12>, Immediate<20>),
    /// A return to the newest site on the shadow stack.
    Return,
    /// A call that leaves its site in x1 alone; its target.
    LinkCall(u64),
    /// Where a function is entered that puts its site, which stands in x1, onto the shadow stack.
    Enter,
    /// A computed jump whose check makes the mask of stores again: register, offset, label.
    LeanIjump(Reg, Immediate<12>, Immediate<20>),
    /// A computed call of the enter past its destination, whose check reads the third word and makes the
    /// mask of stores again. It leaves its site in x1: register, offset, label.
    LeanIcall(Reg, Immediate<12>, Immediate<20>),
    /// A return to the site in x1.
    LeafReturn,
}

/// What a system unit does.
#[derive(Clone, Copy, PartialEq, Eq)]
pub enum SystemOp {
    /// A system call.
    Ecall,
    /// A break, which ends the run.
    Ebreak,
}

impl Unit {
    ghost use Rattle.cfi_unit.specs.InRange.{IsInRange};

    /// Tells a proof that the fields are in range; nothing is computed.
    pub fn in_range(&self)
        ensures { IsInRange self.now }
    {
        match *self {
            Unit::Gate(label) => {
                let _ = label.bits();
            }
            Unit::Plain(instr) => instr.in_range(),
            Unit::Branch(_, rs1, rs2, _) | Unit::Near(_, rs1, rs2, _) => {
                let _ = rs1.number();
                let _ = rs2.number();
            }
            Unit::Stores(_, rs1, imm, members) => {
                let _ = rs1.number();
                let _ = imm.bits();
                members.in_range();
            }
            Unit::Guarded(numbers) => {
                let _ = numbers.as_slice();
            }
            Unit::Ijump(_, rs1, imm, label)
            | Unit::Icall(rs1, imm, label)
            | Unit::LeanIjump(rs1, imm, label)
            | Unit::LeanIcall(rs1, imm, label) => {
                let _ = rs1.number();
                let _ = imm.bits();
                let _ = label.bits();
            }
            Unit::Jump(_)
            | Unit::Stop
            | Unit::System(_)
            | Unit::Call(_)
            | Unit::Return
            | Unit::LinkCall(_)
            | Unit::Enter
            | Unit::LeafReturn => {}
        }
    }
}
