//! Quotients, which are rounded towards zero, and remainders, which have the dividend's sign, of 64
//! bits (RISC-V unprivileged ISA, "M Extension for Integer Multiplication and Division"). A divisor of
//! 0 gives a quotient whose bits are all ones, and the dividend as the remainder.
ghost use Rattle.std.specs.Prelude.{◌≡◌};
ghost use Rattle.std.specs.Int.{w64};
ghost use Rattle.rv_word.specs.Divide.{quotient, remainder};

/// The quotient of two numbers of 64 bits, with their signs or without.
pub fn div64(a: u64, b: u64, signed: bool) -> u64
    ensures { result ≡ quotient w64 signed a b }
{
    if b == 0 {
        u64::MAX
    } else if signed {
        a.cast_signed()
            .wrapping_div(b.cast_signed())
            .cast_unsigned()
    } else {
        a / b
    }
}

/// The remainder of two numbers of 64 bits, with their signs or without.
pub fn rem64(a: u64, b: u64, signed: bool) -> u64
    ensures { result ≡ remainder w64 signed a b }
{
    if b == 0 {
        a
    } else if signed {
        a.cast_signed()
            .wrapping_rem(b.cast_signed())
            .cast_unsigned()
    } else {
        a % b
    }
}
