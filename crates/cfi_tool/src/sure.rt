//! The top call where files and output never fail.

ghost use Rattle.std.specs.Prelude.{◌≡◌, ◌≢◌, [], None};
ghost use Rattle.std.specs.Io.KnownBytes.{Appends};
ghost use Rattle.tool_words.specs.Reading.{spelled};
ghost use Rattle.tool_common.specs.Writes.{Wrote};
ghost use Rattle.cfi_tool.specs.Explains.{Explains};
ghost use Rattle.cfi_tool.specs.Outcomes.{outcome_outputs, outcome_status, outcome_text};
ghost use Rattle.cfi_tool.specs.declared.outcome.Outcome.{Outcome};

use crate::command::rvcfi;
use std::alloc::Global;
use tool_io::{Files, Sink, SureFiles, SureSink};

/// Does what `rvcfi` does, over files and an output that never fail: it ends with neither 3 nor 4, whose causes are counted
/// faults.
#[tactic(auto, using(crate::proofs::Faultless::never_rose))]
pub fn rvcfi_over_sure_files(
    alloc: Global,
    words: &[String],
    files: &mut SureFiles,
    out: &mut SureSink,
) -> u8
    ensures no_read_fault { result ≢ 3 }
    ensures no_write_fault { result ≢ 4 }
    // All but 5: the status and the text of an outcome that has its cause, and its files, if it has any.
    ensures told { result ≢ 5 → (outcome : Outcome)
        × (result ≡ outcome_status outcome)
        × Explains (⟦<SureFiles as Files>⟧.content files.old) [] (spelled words.now) outcome
        × Wrote ⟦<SureFiles as Files>⟧ files.old files.new (outcome_outputs outcome) None
        × Appends (⟦<SureSink as Sink>⟧.written out.old) (⟦<SureSink as Sink>⟧.written out.new) (outcome_text outcome) }
{
    rvcfi(alloc, words, files, out)
}
