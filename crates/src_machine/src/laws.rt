//! What holds of maps and their first wrong lines. Each function states one law; nothing is computed.
ghost use Rattle.src_machine.specs.Laws.{BeginsAsLegal, OneIsFirst, WrongIsNotLegal};

/// A map with a wrong line is not legal.
pub fn wrong_is_not_legal()
    ensures { WrongIsNotLegal }
{}

/// The first wrong line of a map is one.
pub fn one_is_first()
    ensures { OneIsFirst }
{}

/// The lines before the first wrong one are those of a legal map, and with that line they are no legal map's.
pub fn begins_as_legal()
    ensures { BeginsAsLegal }
{}
