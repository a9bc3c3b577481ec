ghost use Rattle.std.specs.Prelude.{◌≡◌, [], None, Err, IfOk, OnOk};
ghost use Rattle.tool_io.specs.Faults.{Counts};
ghost use Rattle.tool_io.specs.Reading.{IsOnlyRead};
ghost use Rattle.tool_io.specs.declared.ends.OutEnd.TheVariants as OutEnd;
ghost use Rattle.cfi_tool.specs.Outcomes.{outcome_outputs, outcome_status, outcome_text};
ghost use Rattle.tool_common.specs.Writes.{AreApart, IsCut, IsTorn, KeepsReads, Wrote};

use rv_word::NoMemory;
use std::alloc::Global;
use tool_common::{Unread, line, status};
use tool_images::{RunOutcome, Verdict};
use tool_io::{Files, OutEnd};
use tool_objects::{CompareOutcome, DemoOutcome, RewriteOutcome};
use tool_words::usage;

/// What a command line comes to.
#[derive(Drop)]
pub(crate) enum Outcome<'a> {
    /// The words are none that are taken.
    Usage,
    /// Help was asked for: its text.
    Help(String),
    /// The version was asked for: its text.
    Version(String),
    /// A file of the command was not read.
    Unread(Unread<'a>),
    Rewrite(RewriteOutcome<'a>),
    Verify(Verdict),
    Run(RunOutcome),
    Compare(CompareOutcome),
    Demo(DemoOutcome),
}

impl Outcome<'_> {
    /// The status with which the program ends, where the text was put.
    pub(crate) fn status(&self) -> u8
        ensures { result ≡ outcome_status self.now }
    {
        match self {
            Outcome::Usage => status::USAGE,
            Outcome::Help(_) | Outcome::Version(_) => status::WELL,
            Outcome::Unread(unread) => unread.status(),
            Outcome::Rewrite(outcome) => outcome.status(),
            Outcome::Verify(verdict) => verdict.status(),
            Outcome::Run(outcome) => outcome.status(),
            Outcome::Compare(outcome) => outcome.status(),
            Outcome::Demo(outcome) => outcome.status(),
        }
    }

    /// Writes the files of the outcome, if there are any, in their order.
    pub(crate) fn write<F: Files>(&self, files: &mut F) -> Result<(), OutEnd>
        requires apart { AreApart (outcome_outputs self.now) }
        ensures whole { OnOk result (Wrote F.Files files.old files.new (outcome_outputs self.now) None) }
        ensures torn { result ≡ Err OutEnd.Failed → IsTorn F.Files files.old files.new (outcome_outputs self.now) }
        ensures cut { result ≡ Err OutEnd.NoMemory → IsCut F.Files files.old files.new (outcome_outputs self.now) }
        ensures faults { Counts (result ≡ Err OutEnd.Failed) (F.write_faults files.old) (F.write_faults files.new) }
        ensures reads { KeepsReads F.Files files.old files.new }
        ensures unwritten { outcome_outputs self.now ≡ [] → IsOnlyRead F.Files files.old files.new }
    {
        match self {
            Outcome::Rewrite(outcome) => outcome.write(files),
            Outcome::Usage
            | Outcome::Help(_)
            | Outcome::Version(_)
            | Outcome::Unread(_)
            | Outcome::Verify(_)
            | Outcome::Run(_)
            | Outcome::Compare(_)
            | Outcome::Demo(_) => Ok(()),
        }
    }

    /// The text that is put.
    pub(crate) fn text(&self, alloc: Global) -> Result<Vec<u8>, NoMemory>
        ensures { IfOk result (λ text. text.items ≡ outcome_text self.now) }
    {
        match self {
            Outcome::Usage => line(alloc, &usage()),
            Outcome::Help(text) | Outcome::Version(text) => Ok(Vec::from_slice(
                alloc,
                text.as_bytes(),
            )?),
            Outcome::Unread(unread) => line(alloc, unread),
            Outcome::Rewrite(outcome) => outcome.text(alloc),
            Outcome::Verify(verdict) => verdict.text(alloc),
            Outcome::Run(outcome) => outcome.text(alloc),
            Outcome::Compare(outcome) => outcome.text(alloc),
            Outcome::Demo(outcome) => outcome.text(alloc),
        }
    }
}
