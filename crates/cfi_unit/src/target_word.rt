//! Which word of its destination a check reads.

/// Which word of its destination the check of a computed transfer reads.
#[derive(Clone, Copy, PartialEq, Eq)]
pub enum TargetWord {
    /// The word at the destination.
    First,
    /// The word after that.
    Second,
    /// The word after that one, behind a jump over the enter.
    Third,
}
