//! System calls as text.

ghost use Rattle.std.specs.Prelude.{◌≡◌, ◌<◌, ◌^◌};

use rv_sys::Event;
use rv_word::Bytes;
use std::fmt;
use text_lines::LongAddress;

/// A byte as it is printed: two hexadecimal digits in lower case.
#[derive(Clone, Copy)]
struct ByteText(u8);

/// Bytes as they are printed, one after the other.
#[derive(Clone, Copy)]
struct Digits<'a>(&'a [u8]);

/// The same with `-` where there are none.
#[derive(Clone, Copy)]
struct BytesText<'a>(&'a Bytes);

/// Two numbers with a space between them.
#[derive(Clone, Copy)]
struct Pair(u64, u64);

/// Two such pairs.
#[derive(Clone, Copy)]
struct Four(Pair, Pair);

/// A system call as it is printed.
#[derive(Clone, Copy)]
pub(crate) struct CallText<'a>(pub(crate) &'a Event);

impl fmt::Display for ByteText {
    ghost use Rattle.std.specs.Prelude.{Some};
    ghost use Rattle.text_lines.specs.Hex.{hex_text};

    ghost output = { λ byte. Some (hex_text 2 byte.0) };

    fn fmt<W: fmt::Write>(&self, f: &mut fmt::Formatter<W>) -> fmt::Result {
        let byte = self.number();
        write!(f, "{byte:02x}")
    }
}

impl ByteText {
    fn number(self) -> u8
        ensures value { result ≡ self.0 }
        ensures small { result < 2 ^ 8 }
    {
        self.0
    }
}

impl<'a> fmt::Display for Digits<'a> {
    ghost use Rattle.std.specs.Prelude.{Some};
    ghost use Rattle.std.specs.List.{flat_map};
    ghost use Rattle.text_lines.specs.Hex.{hex_text};

    ghost output = { λ digits. Some (flat_map (hex_text 2) digits.0.now) };

    fn fmt<W: fmt::Write>(&self, f: &mut fmt::Formatter<W>) -> fmt::Result {
        for byte in self.0 {
            let byte = ByteText(*byte);
            write!(f, "{byte}")?;
        }
        Ok(())
    }
}

impl<'a> fmt::Display for BytesText<'a> {
    ghost use Rattle.std.specs.Prelude.{Some};
    ghost use Rattle.cfi_compare.specs.Text.{bytes_text};

    ghost output = { λ bytes. Some (bytes_text bytes.0.now) };

    fn fmt<W: fmt::Write>(&self, f: &mut fmt::Formatter<W>) -> fmt::Result {
        if self.0.is_empty() {
            write!(f, "-")
        } else {
            let digits = Digits(self.0.as_slice());
            write!(f, "{digits}")
        }
    }
}

impl fmt::Display for Pair {
    ghost use Rattle.std.specs.Prelude.{Some};
    ghost use Rattle.cfi_compare.specs.Text.{pair_text};

    ghost output = { λ pair. Some (pair_text pair.0 pair.1) };

    fn fmt<W: fmt::Write>(&self, f: &mut fmt::Formatter<W>) -> fmt::Result {
        let first = LongAddress(self.0);
        let second = LongAddress(self.1);
        write!(f, "{first} {second}")
    }
}

impl fmt::Display for Four {
    ghost use Rattle.std.specs.Prelude.{Some};
    ghost use Rattle.cfi_compare.specs.Text.{four_text};

    ghost output = { λ four. Some (four_text four.0.0 four.0.1 four.1.0 four.1.1) };

    fn fmt<W: fmt::Write>(&self, f: &mut fmt::Formatter<W>) -> fmt::Result {
        let first = self.0;
        let second = self.1;
        write!(f, "{first} {second}")
    }
}

impl<'a> fmt::Display for CallText<'a> {
    ghost use Rattle.std.specs.Prelude.{Some};
    ghost use Rattle.cfi_compare.specs.Text.{event_text};

    ghost output = { λ call. Some (event_text call.0.now) };

    fn fmt<W: fmt::Write>(&self, f: &mut fmt::Formatter<W>) -> fmt::Result {
        let event = self.0;
        let first = Four(Pair(event.number, event.a0), Pair(event.a1, event.a2));
        let second = Four(Pair(event.a3, event.a4), Pair(event.a5, event.answer));
        let bytes = BytesText(&event.bytes);
        write!(f, "{first} {second} {bytes}")
    }
}
