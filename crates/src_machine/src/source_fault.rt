use thiserror::Error;

/// What is wrong with a map, so that no run of a source machine begins at it.
#[derive(Clone, Copy, Debug, Error)]
pub enum SourceFault {
    /// The line with this number, from 1, is the first that is no legal placement's; that of `end` where lines are missing.
    #[error("line {0} of the map")]
    BadMap(u64),
    /// A value leaves the range of the relocation at this section and offset, in bytes, the first that does.
    #[error("relocation out of range at {0} {1}")]
    RelocRange(u32, u64),
}
