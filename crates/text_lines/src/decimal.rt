ghost use Rattle.std.specs.Prelude.{◌≡◌, ◌<◌, IfSome, option_map};
ghost use Rattle.text_lines.specs.Decimal.{capped, decimal, decimal_digit, decimal_from};

use crate::hexadecimal::has_leading_zero;

/// The largest number of steps that a run may be asked for, or a script's line have before it.
pub const MAX_STEP: u64 = 1_000_000_000;

fn decimal_digit(byte: u8) -> Option<u64>
    ensures value { result ≡ decimal_digit byte }
    ensures small { IfSome result (λ d. d < 10) }
{
    match byte {
        b'0'..=b'9' => Some(u64::from(byte - b'0')),
        _ => None,
    }
}

/// The number that digits spell in decimal; each that is too large is given as `MAX_STEP + 1`.
pub fn capped_number(word: &[u8]) -> Option<u64>
    ensures { result ≡ option_map capped (decimal_from 0 word.now) }
{
    let mut number = 0u64;
    for byte in word {
        number = (10 * number + decimal_digit(*byte)?).min(MAX_STEP + 1);
    }
    Some(number)
}

/// The number that a word spells in decimal, without a leading zero; each that is too large is given as
/// `MAX_STEP + 1`.
pub fn decimal_of(word: &[u8]) -> Option<u64>
    ensures { result ≡ option_map capped (decimal word.now) }
{
    if word.is_empty() {
        return None;
    }
    if has_leading_zero(word) {
        return None;
    }
    capped_number(word)
}
