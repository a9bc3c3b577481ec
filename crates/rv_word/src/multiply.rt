//! The upper half of a product, which a product of 64 bits leaves out.
ghost use Rattle.std.specs.Prelude.{◌≡◌, ◌*ℤ◌};
ghost use Rattle.std.specs.Int.{cast_unsigned, w64, w128};
ghost use Rattle.rv_word.specs.Multiply.{high_bits, whole};

/// The upper 64 of the 128 bits of a product (RISC-V unprivileged ISA, "M Extension for Integer
/// Multiplication and Division"); each factor is taken with its sign or without one.
pub fn mul_high(a: u64, a_signed: bool, b: u64, b_signed: bool) -> u64
    ensures { result ≡ high_bits (whole w64 a_signed a *ℤ whole w64 b_signed b) }
{
    (wide(a, a_signed).wrapping_mul(wide(b, b_signed)) >> 64) as u64
}

/// The same number in 128 bits.
fn wide(value: u64, signed: bool) -> u128
    ensures { result ≡ cast_unsigned w128 (whole w64 signed value) }
{
    if signed {
        i128::from(value.cast_signed()).cast_unsigned()
    } else {
        u128::from(value)
    }
}
