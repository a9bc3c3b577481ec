//! What holds of each object without a fault. Each function states one law; nothing is computed.
ghost use Rattle.elf_object.specs.Laws.{
  KeptSectionsAreRight,
  RelocationsNameSymbols,
  SectionsAreNamed,
  SectionsAreWhole,
  SymbolsAreRight,
};

/// Each section has a name.
#[tactic(auto, using(crate::proofs::Right::sections_named))]
pub fn sections_are_named()
    ensures { SectionsAreNamed }
{}

/// A section's bytes have its size, where it is in the file.
#[tactic(auto, using(crate::proofs::Right::sections_whole))]
pub fn sections_are_whole()
    ensures { SectionsAreWhole }
{}

/// A kept section is of a kind, an alignment and a size that are taken.
#[tactic(auto, using(crate::proofs::Right::kept_right))]
pub fn kept_sections_are_right()
    ensures { KeptSectionsAreRight }
{}

/// Each relocation of a kept section names a symbol that is there.
#[tactic(auto, using(crate::proofs::Right::relocations_named))]
pub fn relocations_name_symbols()
    ensures { RelocationsNameSymbols }
{}

/// Each symbol but number 0 has a name and a place that are taken.
#[tactic(auto, using(crate::proofs::Right::symbols_right))]
pub fn symbols_are_right()
    ensures { SymbolsAreRight }
{}
