//! What holds of accepted pairs and of their runs, and of units placed one after another. Each function
//! states one law; nothing is computed.
ghost use Rattle.cfi_rules.specs.Laws.{CodeIsSplit, MachineMayStart, ReadUnits, RunIsReached, SafeAsRecognised, WellFormedIsSafe, SafeStaysInPlace, SafeWalksGraph};
ghost use Rattle.cfi_rules.specs.Listed.{WellFormedIsListed};
ghost use Rattle.cfi_rules.specs.PlacedLaws.{PlacedAreSplit, PlacedEntry, PlacedIsGraph, PlacedIsWellFormed, PlacedUnits, SplitUnits};
ghost use Rattle.cfi_rules.specs.Unsafe.{MiddleIsUnsafe, BareReturnIsUnsafe, BareStoreIsUnsafe, MovedPointerIsUnsafe, WrongStopsAreUnsafe, WrongTransfersAreUnsafe, WrongShadowsAreUnsafe, SharedPartsAreUnsafe, WrongLeanPairsAreUnsafe, BareCallIsNotListed, WrongDeedsAreUnsafe};

/// An image and a graph that meet the rules are safe, whatever the profile and however many harts run.
pub fn well_formed_is_safe()
    ensures { WellFormedIsSafe }
{}

/// An image and a graph with a list of system calls that meet the rules make no others, whatever the
/// profile and however many harts run.
pub fn well_formed_is_listed()
    ensures { WellFormedIsListed }
{}

/// The code of an image that meets the rules is split into units, and a unit starts at an address
/// exactly where one of the split does.
pub fn code_is_split()
    ensures { CodeIsSplit }
{}

/// The units that a code's words decode to are those that are recognised: so a code is read in one way alone.
pub fn read_units()
    ensures { ReadUnits }
{}

/// The runs of a safe pair go along the graph with what is recognised at each address.
pub fn safe_as_recognised()
    ensures { SafeAsRecognised }
{}

/// A run is where the steps that it takes lead, of which safety and confinement speak.
pub fn run_is_reached()
    ensures { RunIsReached }
{}

/// A run of the machine starts where runs may start, of which safety speaks: whoever runs an image otherwise may
/// leave other registers, data and words on the shadow stack.
pub fn machine_may_start()
    ensures { MachineMayStart }
{}

/// The walk of each hart in each run of a safe pair is a list of steps of the graph walk.
pub fn safe_walks_graph()
    ensures { SafeWalksGraph }
{}

/// Each begun instruction of each hart in each run of a safe pair is a word of what stands at the newest
/// address of the hart's walk, and ends as it may there.
pub fn safe_stays_in_place()
    ensures { SafeStaysInPlace }
{}

/// Units that fit one after another, each before words that may follow it, are the split of their words.
pub fn placed_are_split()
    ensures { PlacedAreSplit }
{}

/// A unit starts at an address of a code exactly where one of the code's split does, and it is that unit.
pub fn split_units()
    ensures { SplitUnits }
{}

/// In a code that is the prologue and placed units, these units start and no others.
pub fn placed_units()
    ensures { PlacedUnits }
{}

/// The opening of such a code calls the entry, where its call reaches the entry.
pub fn placed_entry()
    ensures { PlacedEntry }
{}

/// The lines of sound units and their classes, with the opening's call, are a graph's where the lines of
/// the classes alone are.
pub fn placed_is_graph()
    ensures { PlacedIsGraph }
{}

/// An image whose code is the prologue and placed units that are sound meets the rules with the lines of
/// these units.
pub fn placed_is_well_formed()
    ensures { PlacedIsWellFormed }
{}

/// An image with a jump into the middle of a store unit is not safe.
pub fn middle_is_unsafe()
    ensures { MiddleIsUnsafe }
{}

/// An image with a return through x1 without its check is not safe.
pub fn bare_return_is_unsafe()
    ensures { BareReturnIsUnsafe }
{}

/// An image with a store without its mask is not safe.
pub fn bare_store_is_unsafe()
    ensures { BareStoreIsUnsafe }
{}

/// An image with a plain instruction that writes x3 is not safe.
pub fn moved_pointer_is_unsafe()
    ensures { MovedPointerIsUnsafe }
{}

/// An image that exits, faults or meets no instruction in a handler, or breaks in the closing, is not
/// safe.
pub fn wrong_stops_are_unsafe()
    ensures { WrongStopsAreUnsafe }
{}

/// An image whose computed call goes to a gate that is no target of its class is not safe, nor is one
/// whose computed jump halts where its destination is a target.
pub fn wrong_transfers_are_unsafe()
    ensures { WrongTransfersAreUnsafe }
{}

/// An image whose opening leaves x3 one slot too high, or another word in the site's slot, is not safe.
pub fn wrong_shadows_are_unsafe()
    ensures { WrongShadowsAreUnsafe }
{}

/// An image for several harts whose opening gives each hart the shadow pointer of hart 0 is not safe.
pub fn shared_parts_are_unsafe()
    ensures { SharedPartsAreUnsafe }
{}

/// An image whose opening stores into the part of another hart, or makes a system call, is not safe.
pub fn wrong_deeds_are_unsafe()
    ensures { WrongDeedsAreUnsafe }
{}

/// A lean image is not safe whose opening leaves another number than the mask of stores in x4, or its site
/// in another register than x1, or calls what neither saves that site nor is a leaf; nor is one with an
/// enter or a call of other images in a leaf, nor one with a leaf return behind a change of x1.
pub fn wrong_lean_pairs_are_unsafe()
    ensures { WrongLeanPairsAreUnsafe }
{}

/// An image with a bare system call whose number is not in a list is not listed by it, nor is one that
/// exits so outside the closing, nor one whose second hart alone makes the call, nor one whose closing
/// makes it.
pub fn bare_call_is_not_listed()
    ensures { BareCallIsNotListed }
{}
