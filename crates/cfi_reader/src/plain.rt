ghost use Rattle.std.specs.Prelude.{◌≡◌, ◌+◌, ◌*◌, ◌<◌, true, get_or};
ghost use Rattle.cfi_reader.specs.PlainWord.{IsPlainWord, is_ordinary};

/// What is asked of a funct7: `SPREAD * funct7 + ASKED` has it in bits 6 to 0, a one in bit 7, a one in bit 8
/// where it is even, and a one in bit 15 where it is above 20h.
const SPREAD: u32 = 0x101;

/// See `SPREAD`.
const ASKED: u32 = 0x5f80;

/// Bits of that which are 0 for no funct7.
const NONE: u32 = 0x80;

/// Bits that are 0 for 1 alone, which products and quotients have.
const ONE: u32 = 0x017e;

/// Bits that are 0 for 0, 1 and 20h alone.
const ANY: u32 = 0x805e;

/// The bits of what is asked of funct7 that are 0 in the instructions that compute or load a register, by
/// bits 5 to 2 of the opcode (a row) and funct3 (a column); `NONE` where there are none (RISC-V unprivileged
/// ISA, "RV32/64G Instruction Set Listings").
const UNSET: [u32; 128] = [
    // loads
    0, 0, 0, 0, 0, 0, 0, NONE, //
    NONE, NONE, NONE, NONE, NONE, NONE, NONE, NONE, //
    NONE, NONE, NONE, NONE, NONE, NONE, NONE, NONE, //
    NONE, NONE, NONE, NONE, NONE, NONE, NONE, NONE, //
    // computations with an immediate, auipc, computations with an immediate on 32 bits
    0, 0x7e, 0, 0, 0, 0x5e, 0, 0, //
    0, 0, 0, 0, 0, 0, 0, 0, //
    0, 0x7f, NONE, NONE, NONE, 0x5f, NONE, NONE, //
    NONE, NONE, NONE, NONE, NONE, NONE, NONE, NONE, //
    NONE, NONE, NONE, NONE, NONE, NONE, NONE, NONE, //
    NONE, NONE, NONE, NONE, NONE, NONE, NONE, NONE, //
    NONE, NONE, NONE, NONE, NONE, NONE, NONE, NONE, //
    NONE, NONE, NONE, NONE, NONE, NONE, NONE, NONE, //
    // computations with registers, lui, computations with registers on 32 bits
    ANY, 0x7e, 0x7e, 0x7e, 0x7e, ANY, 0x7e, 0x7e, //
    0, 0, 0, 0, 0, 0, 0, 0, //
    ANY, 0x7f, NONE, NONE, ONE, ANY, ONE, ONE, //
    NONE, NONE, NONE, NONE, NONE, NONE, NONE, NONE,
];

/// The bits of the registers that programs may not name, of x0, which holds nothing, and of x1.
const SPECIAL: u32 = 0xc000_001b;

/// Whether a word is surely a plain unit that does not write x1: an instruction that computes or loads a
/// register, which is neither x0 nor x1 nor one that units keep for themselves. It decodes nothing.
pub fn is_plain_word(word: u32) -> bool
    ensures { result ≡ true → IsPlainWord word }
{
    let asked = (word >> 25) * SPREAD + ASKED;
    if word & 3 == 3
        && (word >> 6) & 1 == 0
        && unset((word >> 2) & 0xf, (word >> 12) & 7) & asked == 0
    {
        is_ordinary((word >> 7) & 0x1f)
    } else {
        false
    }
}

/// What the table has in a row and a column.
fn unset(row: u32, column: u32) -> u32
    requires row { row < 16 }
    requires column { column < 8 }
    ensures { result ≡ get_or UNSET (8 * row + column) 0 }
{
    UNSET[(8 * row + column) as usize]
}

/// Whether programs may name the register, and it is neither x0 nor x1.
fn is_ordinary(number: u32) -> bool
    requires { number < 32 }
    ensures { result ≡ is_ordinary number }
{
    (SPECIAL >> number) & 1 == 0
}
