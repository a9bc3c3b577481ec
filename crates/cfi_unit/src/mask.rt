//! How the address of stores is masked.

/// How the address of stores is masked to lie below 2^28, into x31.
#[derive(Clone, Copy, PartialEq, Eq)]
pub enum Mask {
    /// A sum, shifted to the left and back to the right.
    Shifts,
    /// A register and x4, which holds the mask.
    Short,
    /// A sum and x4.
    Long,
}
