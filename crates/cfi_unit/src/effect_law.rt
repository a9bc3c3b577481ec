//! What units, the opening and the closing do. Each function states one law; nothing is computed.
ghost use Rattle.cfi_unit.specs.EffectLaw.{UnitEffect, UnitKeepsRegisters};
ghost use Rattle.cfi_unit.specs.PrologueEffect.{
  ClosingEffect,
  ClosingKeepsRegisters,
  OpeningEffect,
  OpeningKeepsRegisters,
};

/// What a unit does where nothing is changed between its words: within as many steps as it has words
/// it is left as its row says, or has ended the run; of x4, x30 and x31 those are as before that no
/// instruction of the unit writes, and x4 holds the mask of stores behind a check that makes it again.
pub fn unit_effect()
    ensures { UnitEffect }
{}

/// The same under any changes of data between its words: so no word of a unit writes a register of
/// the program but its own instruction's, and where the unit leads depends on no data.
pub fn unit_keeps_registers()
    ensures { UnitKeepsRegisters }
{}

/// What the opening does that saves its own call's site: it is left to the entry, with the closing's address in x1 and on the
/// shadow stack. (Of lean images: cfi_runs.)
pub fn opening_effect()
    ensures { OpeningEffect }
{}

/// The same under any changes of data between its words: what x1 and x2 are then depends on no data.
pub fn opening_keeps_registers()
    ensures { OpeningKeepsRegisters }
{}

/// What the closing does: it makes system call 93.
pub fn closing_effect()
    ensures { ClosingEffect }
{}

/// The same under any changes of data between its words: its call sees all registers but x17 as they
/// were.
pub fn closing_keeps_registers()
    ensures { ClosingKeepsRegisters }
{}
