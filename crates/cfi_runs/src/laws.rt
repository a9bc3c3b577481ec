//! Each function states one law; nothing is computed.
ghost use Rattle.cfi_runs.specs.Laws.{ClosingRuns, OpeningRuns, UnitRuns};
ghost use Rattle.cfi_runs.specs.Openings.{LeanOpeningRuns};
ghost use Rattle.cfi_runs.specs.MatchLaws.{ClosingKeepsMatch, OpeningKeepsMatch, PathKeepsMatch, UnitKeepsMatch};
ghost use Rattle.cfi_runs.specs.WholeRun.{RunKeepsMatch};
ghost use Rattle.cfi_runs.specs.GroupLaws.{GroupIsOneStep, GroupsAreMasked, OffsetsArePast, PlacesWalked};

/// Where nothing is disturbed a unit does, within as many steps as it has words, what its flow says, and writes of the scratch registers
/// those alone that some word of it writes.
pub fn unit_runs()
    ensures { UnitRuns }
{}

/// The opening is left to the entry.
pub fn opening_runs()
    ensures { OpeningRuns }
{}

/// So is a lean one, with the mask of stores in x4, its own site in x1 and none on the shadow stack.
pub fn lean_opening_runs()
    ensures { LeanOpeningRuns }
{}

/// The closing makes system call 93.
pub fn closing_runs()
    ensures { ClosingRuns }
{}

/// A tame step of the program's own is matched: within as many steps as the unit has words the machine
/// has the same registers, data, input, output and system calls, and stands where the program does.
pub fn unit_keeps_match()
    ensures { UnitKeepsMatch }
{}

/// So is a path of tame steps.
pub fn path_keeps_match()
    ensures { PathKeepsMatch }
{}

/// After the opening the machine matches the program's own start.
pub fn opening_keeps_match()
    ensures { OpeningKeepsMatch }
{}

/// The closing ends the run as the program's own end does.
pub fn closing_keeps_match()
    ensures { ClosingKeepsMatch }
{}

/// The whole undisturbed run of an image keeps the program's own run along a path of tame steps.
pub fn run_keeps_match()
    ensures { RunKeepsMatch }
{}

/// A run by places is a run along units: a place that holds no store has units of its own, and the stores of a whole group are one.
pub fn places_walked()
    ensures { PlacesWalked }
{}

/// A unit of stores, with any mask, does what the stores of its group do one after the other, where each of them is made in the window of
/// data, and the address that is masked lies there, as one of them or the base register tells.
pub fn group_is_one_step()
    ensures { GroupIsOneStep }
{}

/// From the address that the least offset of a group leads to each of its stores lies a member's distance, if no two offsets lie more
/// than 2047 apart.
pub fn groups_are_masked()
    ensures { GroupsAreMasked }
{}

/// From the base register alone to a store lies its offset, where that is not negative.
pub fn offsets_are_past()
    ensures { OffsetsArePast }
{}
