//! Why a call gives no result.

use crate::no_memory::NoMemory;
use std::alloc::AllocFailed;
use std::{error, fmt};

/// Why a call gives no result: a fault of what it was given, or want of memory.
#[derive(Clone, Copy, Debug, PartialEq, Eq)]
pub enum End<E> {
    /// This is wrong with what was given.
    Fault(E),
    /// Memory could not be had.
    NoMemory,
}

impl<E> From<NoMemory> for End<E> {
    ghost use Rattle.std.specs.Prelude.{◌≡◌};
    ghost use Rattle.rv_word.specs.declared.end.End.TheVariants as ends;

    ghost from_gives = { λ _ e. e ≡ ends.NoMemory };

    fn from(_: NoMemory) -> Self {
        End::NoMemory
    }
}

impl<E, T: Drop> From<AllocFailed<T>> for End<E> {
    ghost use Rattle.std.specs.Prelude.{◌≡◌};
    ghost use Rattle.rv_word.specs.declared.end.End.TheVariants as ends;

    ghost from_gives = { λ _ e. e ≡ ends.NoMemory };

    fn from(_: AllocFailed<T>) -> Self {
        End::NoMemory
    }
}

impl<E: fmt::Display> fmt::Display for End<E> {
    fn fmt<W: fmt::Write>(&self, f: &mut fmt::Formatter<W>) -> fmt::Result {
        match self {
            End::Fault(fault) => write!(f, "{fault}"),
            End::NoMemory => f.write_str("out of memory"),
        }
    }
}

impl<E: error::Error> error::Error for End<E> {}
