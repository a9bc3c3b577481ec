/// How a step of the machine ended. Addresses are in bytes.
#[derive(Clone, Copy, PartialEq, Eq)]
pub enum Turn {
    /// The instruction ran, and the next one may.
    Ran,
    /// The program ended itself with this status.
    Exit(u8),
    /// An EBREAK at this pc.
    Break(u64),
    /// A load at this pc from this address left the regions that may be loaded.
    LoadFault(u64, u64),
    /// A store at this pc to this address left the regions that may be stored to.
    StoreFault(u64, u64),
    /// This pc is no instruction's place in code.
    FetchFault(u64),
    /// The word at this pc is no instruction.
    Illegal(u64),
}
