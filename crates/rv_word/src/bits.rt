ghost use Rattle.std.specs.Prelude.{◌≡◌, ◌+◌, ◌%◌, ◌^◌, ◌≤◌};
ghost use Rattle.std.specs.Int.{cast_unsigned, w64};
ghost use Rattle.rv_word.specs.Bits.{bits_from, sign_extended};

/// The low `bits` bits of `value`, sign-extended to 64 bits.
pub fn sext(value: u64, bits: u32) -> u64
    requires low { 1 ≤ bits }
    requires high { bits ≤ 64 }
    ensures { result ≡ sign_extended value bits }
{
    let mask = u64::MAX >> (64 - bits);
    let low = value & mask;
    if low >> (bits - 1) == 0 {
        low
    } else {
        low | !mask
    }
}

/// The `len` bits of `word` that begin at bit `lo`, as a number.
pub fn field(word: u32, lo: u32, len: u32) -> u32
    requires { lo + len ≤ 32 }
    ensures { result ≡ bits_from word lo len }
{
    ((u64::from(word) >> lo) & ((1 << len) - 1)) as u32
}

/// The sum of a 64-bit number and a signed one, modulo 2^64.
pub fn add64(a: u64, b: i64) -> u64
    ensures { result ≡ (a + cast_unsigned w64 b) % 2 ^ 64 }
{
    a.wrapping_add_signed(b)
}

/// The low 32 bits of a 64-bit number.
pub fn low32(value: u64) -> u32
    ensures { result ≡ value % 2 ^ 32 }
{
    (value & 0xffff_ffff) as u32
}
