//! Each function states one law; nothing is computed.
ghost use Rattle.cfi_single.specs.OneWay.{GivenInOneWay, HardenedInOneWay, HardenedIsNotRefused, PreparedInOneWay, RefusedInOneWay};

/// A request of a program is prepared in one way.
pub fn prepared_in_one_way()
    ensures { PreparedInOneWay }
{}

/// It is hardened in one way: its image, its graph and its map are determined by it.
pub fn hardened_in_one_way()
    ensures { HardenedInOneWay }
{}

/// Where it is hardened no refusal stands of it.
pub fn hardened_is_not_refused()
    ensures { HardenedIsNotRefused }
{}

/// One refusal is the first that stands of it.
pub fn refused_in_one_way()
    ensures { RefusedInOneWay }
{}

/// All of this holds of a request whose program is given, as an object or as several that are joined.
pub fn given_in_one_way()
    ensures { GivenInOneWay }
{}
