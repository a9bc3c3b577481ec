use std::error::Error;
use std::fmt;

/// Why a file is no image.
#[derive(Clone, Copy, Debug, PartialEq, Eq)]
pub enum ImageRefusal {
    /// The file ends before its headers or its data do. It has this many bytes.
    Short(u64),
    /// The field or the byte of padding at this offset is wrong.
    Byte(u64),
    /// The file goes on after its data. It has this many bytes.
    Long(u64),
}

impl fmt::Display for ImageRefusal {
    ghost use Rattle.std.specs.Prelude.{Some};
    ghost use Rattle.elf_image.specs.RefusalText.{refusal_text};

    ghost output = { λ refusal. Some (refusal_text refusal) };

    fn fmt<W: fmt::Write>(&self, f: &mut fmt::Formatter<W>) -> fmt::Result {
        match self {
            ImageRefusal::Short(len) => write!(f, "Short {len}"),
            ImageRefusal::Byte(offset) => write!(f, "Byte {offset}"),
            ImageRefusal::Long(len) => write!(f, "Long {len}"),
        }
    }
}

impl Error for ImageRefusal {}
