ghost use Rattle.std.specs.Prelude.{◌≡◌, ◌≤◌, ◌^◌, length};
ghost use Rattle.std.specs.Option.{unwrap_or};
ghost use Rattle.text_lines.specs.Hex.{digit_of, digit_value, has_leading_zero, hex, hex_from, short_hex};

/// Which letters may stand as digits.
#[derive(Clone, Copy)]
pub enum Case {
    /// `a` to `f`.
    Lower,
    /// These, and `A` to `F`.
    Either,
}

/// What stands for a byte that is no digit: more than each number of eight digits.
const NO: u64 = 0x1_0000_0000;

/// The value of each byte as a hexadecimal digit in lower case, or `NO`.
const DIGITS: [u64; 256] = [
    NO, NO, NO, NO, NO, NO, NO, NO, NO, NO, NO, NO, NO, NO, NO, NO, NO, NO, NO, NO, NO, NO, NO, NO,
    NO, NO, NO, NO, NO, NO, NO, NO, NO, NO, NO, NO, NO, NO, NO, NO, NO, NO, NO, NO, NO, NO, NO, NO,
    0, 1, 2, 3, 4, 5, 6, 7, 8, 9, NO, NO, NO, NO, NO, NO, NO, NO, NO, NO, NO, NO, NO, NO, NO, NO,
    NO, NO, NO, NO, NO, NO, NO, NO, NO, NO, NO, NO, NO, NO, NO, NO, NO, NO, NO, NO, NO, NO, NO, 10,
    11, 12, 13, 14, 15, NO, NO, NO, NO, NO, NO, NO, NO, NO, NO, NO, NO, NO, NO, NO, NO, NO, NO, NO,
    NO, NO, NO, NO, NO, NO, NO, NO, NO, NO, NO, NO, NO, NO, NO, NO, NO, NO, NO, NO, NO, NO, NO, NO,
    NO, NO, NO, NO, NO, NO, NO, NO, NO, NO, NO, NO, NO, NO, NO, NO, NO, NO, NO, NO, NO, NO, NO, NO,
    NO, NO, NO, NO, NO, NO, NO, NO, NO, NO, NO, NO, NO, NO, NO, NO, NO, NO, NO, NO, NO, NO, NO, NO,
    NO, NO, NO, NO, NO, NO, NO, NO, NO, NO, NO, NO, NO, NO, NO, NO, NO, NO, NO, NO, NO, NO, NO, NO,
    NO, NO, NO, NO, NO, NO, NO, NO, NO, NO, NO, NO, NO, NO, NO, NO, NO, NO, NO, NO, NO, NO, NO, NO,
    NO, NO, NO, NO, NO, NO, NO, NO, NO, NO, NO, NO, NO, NO,
];

/// The value of a hexadecimal digit in lower case, or `NO`.
fn digit_value(byte: u8) -> u64
    ensures { result ≡ unwrap_or (digit_value byte) (2 ^ 32) }
{
    DIGITS[byte as usize]
}

/// The value of a hexadecimal digit, or `NO`.
fn digit_of(case: Case, byte: u8) -> u64
    ensures { result ≡ unwrap_or (digit_of case byte) (2 ^ 32) }
{
    match case {
        Case::Lower => digit_value(byte),
        Case::Either => match byte {
            b'A'..=b'F' => u64::from(byte - b'A' + 10),
            _ => digit_value(byte),
        },
    }
}

/// The number that a word of digits spells. A byte that is no digit makes the sum too large, so that one
/// test at the end finds it.
fn number_of(case: Case, word: &[u8]) -> Option<u32>
    requires { length word.now ≤ 8 }
    ensures { result ≡ hex_from case 0 word.now }
{
    let mut number = 0u64;
    for byte in word {
        number = 16 * number + digit_of(case, *byte);
    }
    if number >= NO {
        return None;
    }
    Some(number as u32)
}

/// The number that a word of just `count` hexadecimal digits in lower case spells.
pub fn hex_of(word: &[u8], count: usize) -> Option<u32>
    requires { count ≤ 8 }
    ensures { result ≡ hex count word.now }
{
    if word.len() != count {
        return None;
    }
    number_of(Case::Lower, word)
}

/// Whether a zero stands before other digits.
pub(crate) fn has_leading_zero(word: &[u8]) -> bool
    ensures { result ≡ has_leading_zero word.now }
{
    word.len() > 1 && word[0] == b'0'
}

/// The number that a word of 1 to 8 hexadecimal digits spells, whose first is a zero only where it is
/// alone.
pub fn short_hex_of(word: &[u8], case: Case) -> Option<u32>
    ensures { result ≡ short_hex case word.now }
{
    if word.is_empty() || word.len() > 8 || has_leading_zero(word) {
        return None;
    }
    number_of(case, word)
}
