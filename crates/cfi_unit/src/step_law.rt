ghost use Rattle.cfi_unit.specs.EventLaw.{EventLaw};
ghost use Rattle.cfi_unit.specs.MaskLaw.{MaskStays};
ghost use Rattle.cfi_unit.specs.Results.{RegistersStay};
ghost use Rattle.cfi_unit.specs.UnitLaw.{UnitLaw};

/// The unit law, as the contract of a function that computes nothing: a step from a word of a unit, a handler, the closing or an
/// opening that saves its own call's site stays in it, or leaves it where that leads, or ends as it may end.
pub fn unit_law()
    ensures { UnitLaw }
{}

/// What a step from a word of a unit adds to the events: none, or one with the number in x17, where
/// the unit may call. Nothing is computed.
pub fn unit_events()
    ensures { EventLaw }
{}

/// A step from a word of a unit leaves the program's registers as they were, but the one into which
/// that word puts its result. Nothing is computed.
pub fn registers_stay()
    ensures { RegistersStay }
{}

/// A step from a word of a unit that tests no computed destination leaves x4 as it was, so what it masks
/// stores by. Nothing is computed.
pub fn mask_stays()
    ensures { MaskStays }
{}
