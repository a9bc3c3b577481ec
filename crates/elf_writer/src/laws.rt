//! What holds of each object that is written. The function states a law; nothing is computed.
ghost use Rattle.elf_writer.specs.Size.{ObjectsAreSmall};

/// How many bytes the file of an object has at most, by its parts.
#[tactic(auto, using(crate::proofs::Sizes::objects_small))]
pub fn objects_are_small()
    ensures { ObjectsAreSmall }
{}
