//! What holds of the nearest of what is found. Each function states one law; nothing is computed.
ghost use Rattle.least.specs.Laws.{NearerInAnyGrouping, NearestIsFirst, NearestOfParts};

/// The nearest of a list is the first of the members whose place is the least.
#[tactic(auto, using(crate::proofs::Nearests::nearest_first))]
pub fn nearest_is_first<T>()
    ensures { NearestIsFirst T }
{}

/// The nearest of the nearest of each part is the nearest of all.
#[tactic(auto, using(crate::proofs::Nearests::nearest_of_parts))]
pub fn nearest_of_parts<T>()
    ensures { NearestOfParts T }
{}

/// Three findings may be compared in any grouping.
#[tactic(auto, using(crate::proofs::Nearests::nearer_in_any_grouping))]
pub fn nearer_in_any_grouping<T>()
    ensures { NearerInAnyGrouping T }
{}
