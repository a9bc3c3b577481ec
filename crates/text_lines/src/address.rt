ghost use Rattle.std.specs.Prelude.{◌≡◌, ◌<◌, ◌^◌};

use rv_word::low32;
use std::fmt;

/// An address as it is printed: eight hexadecimal digits in lower case.
#[derive(Clone, Copy)]
pub struct Address(pub u64);

impl fmt::Display for Address {
    ghost use Rattle.std.specs.Prelude.{Some};
    ghost use Rattle.text_lines.specs.Hex.{hex_text};

    ghost output = { λ address. Some (hex_text 8 address.0) };

    fn fmt<W: fmt::Write>(&self, f: &mut fmt::Formatter<W>) -> fmt::Result {
        let address = low32(self.0);
        write!(f, "{address:08x}")
    }
}

/// A number of 64 bits as it is printed: sixteen hexadecimal digits in lower case.
#[derive(Clone, Copy)]
pub struct LongAddress(pub u64);

impl LongAddress {
    fn number(self) -> u64
        ensures value { result ≡ self.0 }
        ensures small { result < 2 ^ 64 }
    {
        self.0
    }
}

impl fmt::Display for LongAddress {
    ghost use Rattle.std.specs.Prelude.{Some};
    ghost use Rattle.text_lines.specs.Hex.{hex_text};

    ghost output = { λ address. Some (hex_text 16 address.0) };

    fn fmt<W: fmt::Write>(&self, f: &mut fmt::Formatter<W>) -> fmt::Result {
        let address = self.number();
        write!(f, "{address:016x}")
    }
}
