use cfi_map::Reason;

/// How a step of the source machine ended. A place is told by the index of its section and its offset there, in bytes.
#[derive(Clone, Copy, PartialEq, Eq)]
pub enum SourceTurn {
    /// The instruction ran, and the next one may.
    Ran,
    /// The program ended itself with this status.
    Exit(u8),
    /// An EBREAK at this place.
    Break(u32, u64),
    /// Why the step at this place was not taken.
    Untame(Reason, u32, u64),
}
