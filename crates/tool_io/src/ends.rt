//! How a read and a write may fail.

ghost use Rattle.std.specs.Prelude.{◌≡◌};
ghost use Rattle.tool_io.specs.declared.ends.ReadEnd.TheVariants.{NoMemory as NoReadMemory};
ghost use Rattle.tool_io.specs.declared.ends.OutEnd.TheVariants.{NoMemory as NoOutMemory};

use std::alloc::AllocError;
use thiserror::Error;

/// Why a read gave no bytes.
#[derive(Clone, Copy, Debug, PartialEq, Eq, Error)]
pub enum ReadEnd {
    /// The read failed, or the opening before it.
    #[error("the read failed")]
    Failed,
    /// The file has more bytes than the limit.
    #[error("the file is longer than the limit")]
    TooLong,
    /// There was no memory.
    #[error("out of memory")]
    NoMemory,
}

impl From<AllocError> for ReadEnd {
    ghost from_gives = { λ _ e. e ≡ NoReadMemory };

    fn from(_: AllocError) -> Self {
        ReadEnd::NoMemory
    }
}

/// Why a write or a put was not done.
#[derive(Clone, Copy, Debug, PartialEq, Eq, Error)]
pub enum OutEnd {
    /// The write failed, or the opening before it.
    #[error("the write failed")]
    Failed,
    /// There was no memory.
    #[error("out of memory")]
    NoMemory,
}

impl From<AllocError> for OutEnd {
    ghost from_gives = { λ _ e. e ≡ NoOutMemory };

    fn from(_: AllocError) -> Self {
        OutEnd::NoMemory
    }
}
