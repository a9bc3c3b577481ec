/// What a place is: an instruction of one of the kinds that are done differently, or the end of a section of code.
#[derive(Clone, Copy, PartialEq, Eq)]
pub enum ItemKind {
    /// `lui x0`, whose number may be taken for a label.
    Gate,
    /// An instruction that goes to the next one and writes no memory.
    Plain,
    /// A store.
    Store,
    /// ECALL, EBREAK.
    System,
    /// A conditional branch.
    Branch,
    /// A direct jump.
    Jump,
    /// A direct call.
    Call,
    /// A return.
    Return,
    /// A jump to a computed address.
    Ijump,
    /// A call of a computed address.
    Icall,
    /// The end of a section.
    End,
}
