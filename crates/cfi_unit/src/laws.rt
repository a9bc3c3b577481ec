//! What holds of all units and their words. Each function states one law; nothing is computed.
ghost use Rattle.cfi_unit.specs.Laws.{
  BeginsRecognised,
  BranchBegins,
  BranchReached,
  EmittedRecognised,
  NearReached,
  NoPrefix,
  OthersKeep,
  RecognisedBegins,
  SplitUnique,
  WordsDetermine,
};
ghost use Rattle.cfi_unit.specs.Results.{ResultsListed};

/// The unit that is recognised begins the list.
#[tactic(auto, using(crate::proofs::Told::recognised_begins))]
pub fn recognised_begins()
    ensures { RecognisedBegins }
{}

/// A unit that begins a list is recognised there, so at most one unit does.
#[tactic(auto, using(crate::proofs::Found::begins_recognised))]
pub fn begins_recognised()
    ensures { BeginsRecognised }
{}

/// What is emitted is recognised, whatever follows it that may.
#[tactic(auto, using(crate::proofs::Found::found))]
pub fn emitted_recognised()
    ensures { EmittedRecognised }
{}

/// No unit's words are a prefix of another's, but those of a near branch over the next word, and those
/// of fewer than sixteen stores.
#[tactic(auto, using(crate::proofs::Splits::no_prefix))]
pub fn no_prefix()
    ensures { NoPrefix }
{}

/// A unit's words determine the unit.
#[tactic(auto, using(crate::proofs::Splits::words_determine))]
pub fn words_determine()
    ensures { WordsDetermine }
{}

/// A list of words has at most one split into units.
#[tactic(auto, using(crate::proofs::Splits::split_unique))]
pub fn split_unique()
    ensures { SplitUnique }
{}

/// A jump reaches every address at an even distance that is less than 2^20 bytes ahead of it, or at
/// most 2^20 bytes behind it.
#[tactic(auto, using(crate::proofs::Near::near_reached))]
pub fn near_reached()
    ensures { NearReached }
{}

/// A branch reaches every address at an even distance that is less than 2^12 bytes ahead of it, or at
/// most 2^12 bytes behind it.
#[tactic(auto, using(crate::proofs::Near::branch_reached))]
pub fn branch_reached()
    ensures { BranchReached }
{}

/// Each branch that does not lead over a jump is a unit, whatever its offset.
pub fn branch_begins()
    ensures { BranchBegins }
{}

/// Changes outside of code and of a hart's own part of the shadow, as the other harts make them, keep
/// what the unit law asks at each word of the hart's code.
pub fn others_keep()
    ensures { OthersKeep }
{}

/// No word of a unit but its last puts a result into a register of the program, and the last into the
/// one that is listed; so do the words of the prologue.
pub fn results_listed()
    ensures { ResultsListed }
{}
