use cfi_unit::TargetWord;
use rv_instr::Immediate;

/// What is kept of a word of code: that a unit starts there, of which kind, and its label or the offset
/// field of its jump or branch, in multiples of two bytes.
#[derive(Clone, Copy, PartialEq, Eq)]
pub enum Entry {
    /// No unit starts there.
    Inside,
    /// A near branch.
    Near(Immediate<12>),
    /// A branch over the jump that follows it, which has the field.
    Branch(Immediate<20>),
    /// A jump to a target that is not the handler of bad targets.
    Jump(Immediate<20>),
    /// A jump to the handler of bad targets.
    Stop,
    /// A call, whose last word has the field.
    Call(Immediate<20>),
    /// A computed jump; the word of its target that its check reads, and its label.
    Ijump(TargetWord, Immediate<20>),
    /// A computed call; its label.
    Icall(Immediate<20>),
    /// A gate; its label.
    Gate(Immediate<20>),
    /// A system call that tests nothing.
    Ecall,
    /// A system call behind tests of its number; whether the numbers are the list's, in its order.
    Guarded(bool),
    /// A call that leaves its site in x1, which has the field.
    LinkCall(Immediate<20>),
    /// An enter.
    Enter,
    /// A computed jump that makes the mask of stores again; its label.
    LeanIjump(Immediate<20>),
    /// A computed call that leaves its site in x1; its label.
    LeanIcall(Immediate<20>),
    /// A return to the site in x1.
    LeafReturn,
    /// Stores behind a mask by shifts.
    Stores,
    /// Stores behind a mask by x4.
    LeanStores,
    /// A return.
    Return,
    /// An ebreak.
    Break,
    /// A plain unit whose instruction writes x1.
    WritesLink,
    /// Any other plain unit.
    Other,
}
