/// What a symbol is to its name. None has two ranks.
#[derive(Clone, Copy, PartialEq, Eq)]
pub enum Rank {
    /// It is a global definition.
    Strong,
    /// It is a common block.
    Common,
    /// It is a weak definition.
    Weak,
    /// It is neither global nor weak: its name is its object's own.
    Private,
}
