//! Each function states one law; nothing is computed.
ghost use Rattle.cfi_meaning.specs.Hardened.{HardenedKeepsMeaning, HardenedNeverDiffers};
ghost use Rattle.cfi_meaning.specs.Matches.{MatchesIsOwn};
ghost use Rattle.cfi_meaning.specs.Meaning.{MeaningKept};
ghost use Rattle.cfi_meaning.specs.NeverDiffers.{NeverDiffers};
ghost use Rattle.cfi_meaning.specs.PlaceLaws.{EntryRuns, GroupRuns, NextGate, PlaceRuns, StepGoesOn, StepOfKind, TargetBears, WrittenPrologue};
ghost use Rattle.cfi_meaning.specs.PlacesKept.{PlacesKept};
ghost use Rattle.cfi_meaning.specs.StepLaws.{HardenedKeepsSteps, HardenedPastFirst, StepKept};

/// The opening and the closing stand in an image of what is written.
pub fn written_prologue()
    ensures { WrittenPrologue }
{}

/// The opening leads to the state at the entry, over what saves the closing's address there, if that does.
pub fn entry_runs()
    ensures { EntryRuns }
{}

/// From the state at a place that holds no store the words before its unit, if any are to be passed, lead to that, whose step is tame.
pub fn place_runs()
    ensures { PlaceRuns }
{}

/// The steps of the stores of a whole group are the one step of its unit.
pub fn group_runs()
    ensures { GroupRuns }
{}

/// Behind the unit of a place that is no section's end stands the gate of the next place that has a unit.
pub fn next_gate()
    ensures { NextGate }
{}

/// The gates of a computed transfer's targets bear its label, at the word that its check reads.
pub fn target_bears()
    ensures { TargetBears }
{}

/// The own step of a tame place that holds no store ends as that of its instruction's kind does, whatever unit stands for it.
pub fn step_of_kind()
    ensures { StepOfKind }
{}

/// Where the step of such a place goes on, its unit leads to the state at the place that is next, over what saves the site of a call
/// there, or to the closing.
pub fn step_goes_on()
    ensures { StepGoesOn }
{}

/// The undisturbed run of an image of what is written keeps the program's own run: after n tame steps of
/// the program the machine is at a matching state within 21 n steps, or 22 n with a graph of version 2, and 13
/// more in version 1 of images or 17 in version 2.
pub fn places_kept()
    ensures { PlacesKept }
{}

/// Meaning kept.
pub fn meaning_kept()
    ensures { MeaningKept }
{}

/// A state matches just where it is one that a run of the program's own, by addresses, comes to.
pub fn matches_is_own()
    ensures { MatchesIsOwn }
{}

/// From any state that matches, the next step of the program, with those over later stores, is kept within 21 of the image, or
/// 22 with a graph of version 2.
pub fn step_kept()
    ensures { StepKept }
{}

/// Compared with its image, no run differs.
pub fn never_differs()
    ensures { NeverDiffers }
{}

/// The hardened program of a request keeps the meaning of the request's program.
pub fn hardened_keeps_meaning()
    ensures { HardenedKeepsMeaning }
{}

/// From any state of its image that matches, the next step of a request's program is kept, as `step_kept` says.
pub fn hardened_keeps_steps()
    ensures { HardenedKeepsSteps }
{}

/// At a later store of a group a request's program is fewer than sixteen steps past a state at none, with the same input left, output and
/// system calls.
pub fn hardened_past_first()
    ensures { HardenedPastFirst }
{}

/// Compared with its image, no run of a request's program differs.
pub fn hardened_never_differs()
    ensures { HardenedNeverDiffers }
{}
