ghost use Rattle.std.specs.Prelude.{◌≡◌};
ghost use Rattle.cfi_rules.specs.Lines.{jump_word};

use cfi_graph::SiteKind;
use cfi_unit::TargetWord;
use rv_image::GraphVersion;

/// What a computed transfer asks for: a class with a label that serves transfers of its kind whose
/// checks read this word of their destinations.
#[derive(Clone, Copy)]
pub struct Asks {
    /// The transfer's kind.
    pub kind: SiteKind,
    /// Which word of its destination its check reads.
    pub which: TargetWord,
    /// The label that this word must bear.
    pub label: u32,
}

/// Which word of its destination a computed jump's check reads, in code whose graph has this version.
pub fn jump_word(version: GraphVersion) -> TargetWord
    ensures { result ≡ jump_word version }
{
    match version {
        GraphVersion::OneLabel | GraphVersion::CalleeSaves => TargetWord::First,
        GraphVersion::TwoLabels => TargetWord::Second,
    }
}
