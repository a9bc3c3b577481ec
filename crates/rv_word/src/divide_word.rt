//! The same quotients and remainders of 32 bits.
ghost use Rattle.std.specs.Prelude.{◌≡◌};
ghost use Rattle.std.specs.Int.{w32};
ghost use Rattle.rv_word.specs.Divide.{quotient, remainder};

/// The quotient of two numbers of 32 bits, with their signs or without.
pub fn div32(a: u32, b: u32, signed: bool) -> u32
    ensures { result ≡ quotient w32 signed a b }
{
    if b == 0 {
        u32::MAX
    } else if signed {
        a.cast_signed()
            .wrapping_div(b.cast_signed())
            .cast_unsigned()
    } else {
        a / b
    }
}

/// The remainder of two numbers of 32 bits, with their signs or without.
pub fn rem32(a: u32, b: u32, signed: bool) -> u32
    ensures { result ≡ remainder w32 signed a b }
{
    if b == 0 {
        a
    } else if signed {
        a.cast_signed()
            .wrapping_rem(b.cast_signed())
            .cast_unsigned()
    } else {
        a % b
    }
}
