ghost use Rattle.std.specs.Prelude.{◌≡◌, ◌<◌, ◌≤◌, ◌∷◌, ◌++◌, OnOk, OnErr};
ghost use Rattle.text_lines.specs.Hex.{hex_digit, hex_text};

use rv_word::NoMemory;

fn hex_digit(digit: u8) -> u8
    requires { digit < 16 }
    ensures { result ≡ hex_digit digit }
{
    if digit < 10 {
        b'0' + digit
    } else {
        b'a' - 10 + digit
    }
}

/// Adds a space and the last `count` hexadecimal digits of a number; a refusal leaves `out` as it was.
pub fn push_number(out: &mut Vec<u8>, number: u64, count: u32) -> Result<(), NoMemory>
    requires { count ≤ 16 }
    ensures pushed { OnOk result (out.new.items ≡ out.old.items ++ 32 ∷ hex_text count number) }
    ensures refused { OnErr result (out.new.items ≡ out.old.items) }
{
    out.reserve(1 + count as usize)?;
    out.push_reserved(b' ');
    let mut left = count;
    while left > 0 {
        left -= 1;
        out.push_reserved(hex_digit((number >> (4 * left) & 0xf) as u8));
    }
    Ok(())
}
