//! What holds of all runs. Each function states one law; nothing is computed.
ghost use Rattle.rv_code.specs.Continue.{EventsAdded, RunInParts};

/// A run is its first part, gone on with the rest of its changes.
#[tactic(auto, using(crate::proofs::Continued::run_in_parts))]
pub fn run_in_parts()
    ensures { RunInParts }
{}

/// A run only adds to the system calls made.
#[tactic(auto, using(crate::proofs::Continued::events_added))]
pub fn events_added()
    ensures { EventsAdded }
{}
