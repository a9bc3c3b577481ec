//! What relocations mean for what a program computes. Each function states one law; nothing is
//! computed.
ghost use Rattle.rv_reloc.specs.Pair.{HighAndLow, LowIsSmall, PartsAddUp};

/// A LUI or AUIPC and the instruction after it, patched with one value, add up to that value.
pub fn high_and_low()
    ensures { HighAndLow }
{}

/// The low part of a value is a signed number of 12 bits.
#[tactic(auto, using(crate::proofs::Pair::low_is_small))]
pub fn low_is_small()
    ensures { LowIsSmall }
{}

/// The high part of a value, as a LUI or an AUIPC takes it, and its low part add up to it modulo 2^64.
#[tactic(auto, using(crate::proofs::Pair::parts_add_up))]
pub fn parts_add_up()
    ensures { PartsAddUp }
{}
