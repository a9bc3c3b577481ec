ghost use Rattle.std.specs.Prelude.{◌≡◌, IfOk, IfErr, IsOk, option_map, ◌∷◌, []};
ghost use Rattle.tool_io.specs.Names.{AreRead};
ghost use Rattle.tool_io.specs.Reading.{CountsReads, IsOnlyRead};
ghost use Rattle.tool_common.specs.Reads.{IsFault, IsStop, IsTooLong, file_names};
ghost use Rattle.tool_images.specs.Run.{ExplainsRun, IsRunOf, run_asked, run_names, run_status, run_text, run_words};

use crate::refused::refusal_of;
use crate::verify::rejected_line;
use cfi_launch::{Launched, launch};
use cfi_step::RunReport;
use cfi_verify::Reject;
use refusals::Refusal;
use rv_image::ImageVersion;
use rv_word::{End, NoMemory};
use std::alloc::Global;
use tool_common::{Stop, file_word, read_all, refusal_line, status, steps, text_named};
use tool_io::Files;
use tool_report::{end_status, report_text};
use tool_words::RunWords;

/// What a run is asked for: its files, and how many steps it takes at most.
#[derive(Clone, Copy)]
pub struct RunRequest<'a> {
    image: &'a str,
    graph: &'a str,
    script: Option<&'a str>,
    input: Option<&'a str>,
    limit: u64,
}

impl<'a> RunRequest<'a> {
    /// What the words after the command ask for, if they are taken.
    pub fn of(words: RunWords<'a>) -> Option<Self>
        ensures { option_map run_asked result
            ≡ run_words (words.entry.image.now ∷ words.entry.graph.now ∷ words.entry.script.now ∷ words.entry.input.now ∷ words.entry.steps.now ∷ []) }
    {
        Some(RunRequest {
            image: words.image,
            graph: words.graph,
            script: file_word(words.script),
            input: file_word(words.input),
            limit: steps(words.steps)?,
        })
    }
}

/// What a run comes to.
#[derive(Drop)]
pub enum RunOutcome {
    /// One of the files is not what it should be: the image, else the graph, else the script. Or the script is for several harts
    /// and the image for one.
    Refused(Refusal),
    /// The image breaks a rule: the first that fails.
    Rejected(Reject),
    /// The version of the image, and the report.
    Ran(ImageVersion, RunReport),
}

impl RunOutcome {
    /// The status with which the program ends.
    pub fn status(&self) -> u8
        ensures { result ≡ run_status self.now }
    {
        match self {
            RunOutcome::Refused(_) | RunOutcome::Rejected(_) => status::REFUSED,
            RunOutcome::Ran(_, report) => end_status(report.end),
        }
    }

    /// The text that is put.
    pub fn text(&self, alloc: Global) -> Result<Vec<u8>, NoMemory>
        ensures { IfOk result (λ text. text.items ≡ run_text self.now) }
    {
        match self {
            RunOutcome::Refused(refusal) => refusal_line(alloc, refusal),
            RunOutcome::Rejected(reject) => rejected_line(alloc, reject),
            RunOutcome::Ran(version, report) => report_text(alloc, *version, report),
        }
    }
}

/// Runs the image that some bytes spell, if others spell its graph and a script.
fn run_bytes(
    alloc: Global,
    image: &[u8],
    graph: &[u8],
    script: Option<&[u8]>,
    input: &[u8],
    limit: u64,
) -> Result<RunOutcome, NoMemory>
    ensures { IfOk result (IsRunOf image.now graph.now (option_map (λ t. t.now) script.entry) input.now limit) }
{
    match launch(alloc, image, graph, script, input, limit) {
        Ok(Launched::Rejected(reject)) => Ok(RunOutcome::Rejected(reject)),
        Ok(Launched::Ran(version, report)) => Ok(RunOutcome::Ran(version, report)),
        Err(End::Fault(fault)) => Ok(RunOutcome::Refused(refusal_of(fault))),
        Err(End::NoMemory) => Err(NoMemory),
    }
}

/// Reads the files of a run and runs the image.
pub fn run_files<'a, F: Files>(
    alloc: Global,
    request: &RunRequest<'a>,
    files: &mut F,
) -> Result<RunOutcome, Stop<'a>>
    ensures explained { IfOk result (ExplainsRun (F.content files.old) (run_asked request.now)) }
    ensures stopped { IfErr result
        (IsStop (F.content files.old) (F.failed_name files.new) (run_names (run_asked request.now))) }
    ensures only_read { IsOnlyRead F.Files files.old files.new }
    ensures counted { CountsReads F.Files files.old files.new (IsFault result) (IsTooLong result) }
    ensures in_order { AreRead (F.reads files.old) (F.reads files.new) (file_names (run_names (run_asked request.now))) (IsOk result) }
{
    let names = [
        Some(request.image),
        Some(request.graph),
        request.script,
        request.input,
    ];
    let bytes = read_all(alloc, &names, files)?;
    let script = text_named(request.script, &bytes[2]);
    Ok(run_bytes(
        alloc,
        &bytes[0],
        &bytes[1],
        script,
        &bytes[3],
        request.limit,
    )?)
}
