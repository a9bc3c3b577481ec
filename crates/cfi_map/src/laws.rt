//! What holds of placements. Each function states one law; nothing is computed.
ghost use Rattle.cfi_map.specs.PlacingLaws.{PlacementsFit};

/// The code of a placement has room as it is, with every branch long it is shorter by the masks that later members of groups would have,
/// and each branch that is not long reaches its target.
pub fn placements_fit()
    ensures { PlacementsFit }
{}
