use std::{error, fmt};

/// The code has this many bytes, which are more than its region has.
#[derive(Clone, Copy, Debug, PartialEq, Eq)]
pub struct CodeTooLarge {
    pub bytes: u128,
}

impl fmt::Display for CodeTooLarge {
    ghost use Rattle.std.specs.Prelude.{◌++◌, Some, codes};
    ghost use Rattle.std.specs.Fmt.{decimal};

    ghost output = { λ fault. Some (codes "CodeTooLarge " ++ decimal fault.bytes) };

    fn fmt<W: fmt::Write>(&self, f: &mut fmt::Formatter<W>) -> fmt::Result {
        let bytes = self.bytes;
        write!(f, "CodeTooLarge {bytes}")
    }
}

impl error::Error for CodeTooLarge {}
