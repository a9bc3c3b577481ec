//! Why there is no command: help, the version, or words that are not taken.

ghost use Rattle.std.specs.Prelude.{◌≡◌};

use std::alloc::AllocError;

/// Why the words of a command line ask for no command.
#[derive(Drop)]
pub enum WordsEnd {
    /// They ask for help: its text.
    Help(String),
    /// They ask for the version: its text.
    Version(String),
    /// They are not taken.
    Refused,
    NoMemory,
}

impl From<AllocError> for WordsEnd {
    ghost use Rattle.tool_words.specs.declared.end.WordsEnd.TheVariants.{NoMemory};

    ghost from_gives = { λ _ e. e ≡ NoMemory };

    fn from(_error: AllocError) -> WordsEnd {
        WordsEnd::NoMemory
    }
}
