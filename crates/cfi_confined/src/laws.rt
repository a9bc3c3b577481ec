//! What is confined, and what follows from it. Each function states one law; nothing is computed.
ghost use Rattle.cfi_confined.specs.Laws.{ConfinedIsListed, ConfinedKeepsCode, PendingIsTold, WellFormedIsConfined};
ghost use Rattle.cfi_confined.specs.Unconfined.{FaultsAreUnconfined};

/// An image and a graph that meet the rules are confined, whatever the profile and however many harts run.
pub fn well_formed_is_confined()
    ensures { WellFormedIsConfined }
{}

/// What is confined by a graph with a list of system calls makes no others.
pub fn confined_is_listed()
    ensures { ConfinedIsListed }
{}

/// In each run of what is confined the code in memory stays the image's.
pub fn confined_keeps_code()
    ensures { ConfinedKeepsCode }
{}

/// Which calls are pending after an instruction is told by it and by where it leads: a jump is never a return.
pub fn pending_is_told()
    ensures { PendingIsTold }
{}

/// An image and a graph of which one instruction leads, writes, calls or stops as it may not are not confined.
pub fn faults_are_unconfined()
    ensures { FaultsAreUnconfined }
{}
