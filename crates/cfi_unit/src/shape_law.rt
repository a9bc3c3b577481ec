//! The table of shapes says what the units are. Each function states one law; nothing is computed.
ghost use Rattle.cfi_unit.specs.ShapeLaw.{ShapesApart, ShapesMade, ShapesUsed, UnitsShaped};

/// The words of a unit that fits are as its shape says, which is one of the table and as long as the unit.
pub fn units_shaped()
    ensures { UnitsShaped }
{}

/// Words that are as a shape of the table says are those of a unit with this shape.
#[tactic(auto, using(crate::proofs::MadeUnits::made))]
pub fn shapes_made()
    ensures { ShapesMade }
{}

/// No words are as two shapes of the table say.
#[tactic(auto, using(crate::proofs::ShapesApart::apart))]
pub fn shapes_apart()
    ensures { ShapesApart }
{}

/// Each shape of the table is one of a unit.
pub fn shapes_used()
    ensures { ShapesUsed }
{}
