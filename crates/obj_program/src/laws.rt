//! What holds of programs at maps. Each function states one law; nothing is computed.
ghost use Rattle.obj_program.specs.Laws.{NoneOutOfRange};
ghost use Rattle.obj_program.specs.LinkedWord.{LinkedIsDecoded};

/// No place is out of range where each instruction and the data have a value, and nowhere else.
#[tactic(auto, using(crate::proofs::Exact::none_out_of_range))]
pub fn none_out_of_range()
    ensures { NoneOutOfRange }
{}

/// The instruction at a place of a map is the one to which the place's word decodes after its relocation, as a linker does it.
#[tactic(auto, using(crate::proofs::Linked::linked_is_decoded))]
pub fn linked_is_decoded()
    ensures { LinkedIsDecoded }
{}
