ghost use Rattle.std.specs.Prelude.{◌≡◌, ◌<◌, ◌^◌};

use std::marker::Model;

/// An immediate of an instruction as its word holds it: a field of `BITS` bits. Where the standard
/// says that it is sign-extended, its highest bit is the sign (`rv_code::immediate_value`).
#[derive(Clone, Copy, PartialEq, Eq)]
pub struct Immediate<const BITS: u32> {
    bits: u32,
}

impl<const BITS: u32> Model for Immediate<BITS> {
    ghost use Rattle.std.specs.Prelude.{ℕ, ◌<◌, ◌^◌};

    ghost Value = { ℕ };

    ghost view = { λ i. i.bits };

    ghost invariant = { λ i. i.bits < 2 ^ BITS };

    ghost inverse = { λ n. record { bits = n } };
}

impl<const BITS: u32> Immediate<BITS> {
    /// The immediate with this field.
    pub fn of(bits: u32) -> Self
        requires { bits < 2 ^ BITS }
        ensures { result ≡ bits }
    {
        Immediate { bits }
    }

    /// The field.
    pub fn bits(self) -> u32
        ensures value { result ≡ self.entry }
        ensures small { result < 2 ^ BITS }
    {
        self.bits
    }
}
