//! What holds of the long set. Each function states one law; nothing is computed.
ghost use Rattle.cfi_layout.specs.Laws.{LeastCode};

/// No closed set gives less code than the long set.
#[tactic(auto, using(crate::proofs::Lengthening::least_code))]
pub fn least_code()
    ensures { LeastCode }
{}
