ghost use Rattle.std.specs.Prelude.{◌≡◌, ◌≤◌};
ghost use Rattle.rv_word.specs.Bits.{sign_extended};

use rv_instr::Immediate;
use rv_word::sext;

/// An immediate sign-extended to 64 bits. Of a branch or a jump the offset in bytes is twice this.
pub fn immediate_value<const BITS: u32>(imm: Immediate<BITS>) -> u64
    requires low { 1 ≤ BITS }
    requires high { BITS ≤ 64 }
    ensures { result ≡ sign_extended imm.entry BITS }
{
    sext(u64::from(imm.bits()), BITS)
}
