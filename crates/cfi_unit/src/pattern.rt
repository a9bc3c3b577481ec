//! What a word of a unit may be, and of which kind a unit is that ends.

use crate::mask::Mask;
use crate::target_word::TargetWord;

/// What a word of a unit may be, at its address.
#[derive(Clone, Copy)]
pub enum Pattern {
    /// One word.
    Is(u32),
    /// A jump that reaches a handler.
    Halt(u64),
    /// A gate: `lui x0`.
    Gate,
    /// An instruction that may stand alone.
    Plain,
    /// A branch over one instruction.
    Skip,
    /// Any other branch.
    Near,
    /// A jump to where the handler of bad targets is not.
    Goto,
    /// `addi x31`: an address.
    Address,
    /// `addi x31,x0`: a number of a system call, below 2^11.
    Number,
    /// A jump.
    Jump,
    /// `jal x1`: a call.
    Link,
    /// `lui x4`: a label that is asked for.
    Label,
    /// A store off x31, at a distance below 2^11.
    Member,
    /// `and x31,rs1,x4`: a short mask.
    Masked,
}

/// Of which kind a unit is.
#[derive(Clone, Copy)]
pub enum End {
    /// A near branch.
    Near,
    /// A near branch over the next word: with a jump there it would be the first word of a branch.
    Over,
    /// A branch over a jump.
    Branch,
    /// A jump.
    Jump,
    /// A jump to the handler of bad targets.
    Stop,
    /// A call.
    Call,
    /// A computed jump, whose check reads this word of its target.
    Ijump(TargetWord),
    /// A computed call.
    Icall,
    /// A gate.
    Gate,
    /// A plain instruction.
    Plain,
    /// A system call.
    Ecall,
    /// A break.
    Ebreak,
    /// A system call behind tests of its number.
    Guarded,
    /// Stores of which there may be more, behind such a mask.
    Stores(Mask),
    /// As many stores as there may be.
    Full(Mask),
    /// A return.
    Return,
    /// A call that leaves its site in x1.
    LinkCall,
    /// An enter.
    Enter,
    /// A computed jump that makes the mask of stores again.
    LeanIjump,
    /// A computed call that leaves its site in x1.
    LeanIcall,
    /// A return to the site in x1.
    LeafReturn,
}
