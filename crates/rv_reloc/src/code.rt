ghost use Rattle.std.specs.Prelude.{◌≡◌, ◌<◌, ◌^◌, IfOk, OnOk, OnErr, IsTrue, IsFalse};
ghost use Rattle.rv_reloc.specs.Value.{hi20, lo12, low_bits};
ghost use Rattle.rv_reloc.specs.Word.{patched, is_high_in_range, takes, with_i, with_s, with_u};

use super::kinds::{CodePatch, RelocRange};

/// The word of an instruction after a relocation (RISC-V ELF psABI, "Relocations"). `value` is an
/// address, or the distance from the AUIPC for a relative kind. The immediate that stood there is
/// not read. `RelocRange` comes from the two high parts alone.
pub fn patch(kind: CodePatch, word: u32, value: i128) -> Result<u32, RelocRange>
    ensures value { IfOk result (λ w. w ≡ patched kind value word) }
    ensures taken { OnOk result (IsTrue (takes kind value)) }
    ensures refused { OnErr result (IsFalse (takes kind value)) }
{
    match kind {
        CodePatch::Hi20 | CodePatch::PcrelHi20 => Ok(put_u(word, high(value)?)),
        CodePatch::Lo12I => Ok(put_i(word, low(value))),
        CodePatch::Lo12S => Ok(put_s(word, low(value))),
    }
}

/// The 20 bits of the high part of a value, as a LUI or an AUIPC has them (RISC-V ELF psABI, "Absolute Addresses").
pub fn high(value: i128) -> Result<u32, RelocRange>
    ensures value { IfOk result (λ bits. bits ≡ low_bits 20 (hi20 value)) }
    ensures small { IfOk result (λ bits. bits < 2 ^ 20) }
    ensures taken { OnOk result (IsTrue (is_high_in_range value)) }
    ensures refused { OnErr result (IsFalse (is_high_in_range value)) }
{
    if value < -0x8000_0800 || value > 0x7fff_f7ff {
        return Err(RelocRange);
    }
    let part = (value + 0x800).div_euclid(0x1000);
    Ok(part.rem_euclid(1 << 20) as u32)
}

/// The 12 bits of the low part of a value, as the instruction after a LUI or an AUIPC has them.
pub fn low(value: i128) -> u32
    ensures value { result ≡ low_bits 12 (lo12 value) }
    ensures small { result < 2 ^ 12 }
{
    value.rem_euclid(1 << 12) as u32
}

fn put_u(word: u32, imm: u32) -> u32
    requires { imm < 2 ^ 20 }
    ensures { result ≡ with_u imm word }
{
    (imm << 12) + (word & 0xfff)
}

fn put_i(word: u32, imm: u32) -> u32
    requires { imm < 2 ^ 12 }
    ensures { result ≡ with_i imm word }
{
    (imm << 20) + (word & 0xf_ffff)
}

fn put_s(word: u32, imm: u32) -> u32
    requires { imm < 2 ^ 12 }
    ensures { result ≡ with_s imm word }
{
    let registers = (word >> 12) & 0x1fff;
    ((imm >> 5) << 25) + (registers << 12) + ((imm & 0x1f) << 7) + (word & 0x7f)
}
