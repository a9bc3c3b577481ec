//! What holds of the steps of a walk. Each function states one law; nothing is computed.
ghost use Rattle.cfi_walk.specs.Laws.{StepIsUnique, StepKeepsSites};

/// From where nothing but sites is pending, two steps to one address are the same.
pub fn step_is_unique()
    ensures { StepIsUnique }
{}

/// After a step nothing but sites is pending, where that was so before.
pub fn step_keeps_sites()
    ensures { StepKeepsSites }
{}
