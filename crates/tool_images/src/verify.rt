ghost use Rattle.std.specs.Prelude.{◌≡◌, ℕ, List, IfOk, IfErr, IsOk};
ghost use Rattle.tool_io.specs.Names.{AreRead};
ghost use Rattle.tool_io.specs.Reading.{CountsReads, IsOnlyRead};
ghost use Rattle.tool_common.specs.Lines.{with_newline};
ghost use Rattle.tool_common.specs.Reads.{IsFault, IsStop, IsTooLong, file_names};
ghost use Rattle.cfi_pair.specs.Opening.{IsPairEnd};
ghost use Rattle.cfi_pair.specs.Spelled.{Spell};
ghost use Rattle.tool_images.specs.Verify.{ExplainsVerdict, IsJudgement, IsVerdictOf, rejected_line, verdict_line, verdict_status, verify_asked, verify_names};

use crate::refused::pair_refusal;
use cfi_pair::{Pair, PairFault, Verdict as Judgement, judge, open_pair};
use cfi_verify::Reject;
use refusals::Refusal;
use rv_word::{End, NoMemory};
use std::alloc::Global;
use tool_common::{Stop, read_all, refusal_line, status};
use tool_io::Files;
use tool_words::VerifyWords;

/// What is said of a file that should be an image and one that should be its graph.
#[derive(Drop)]
pub enum Verdict {
    /// They are an image and its graph, and the image meets every rule.
    Accepted,
    /// One of them is not what it should be: the image, or else the graph.
    Refused(Refusal),
    /// The image breaks a rule: the first that fails.
    Rejected(Reject),
}

impl Verdict {
    /// The status with which the program ends.
    pub fn status(&self) -> u8
        ensures { result ≡ verdict_status self.now }
    {
        match self {
            Verdict::Accepted => status::WELL,
            Verdict::Refused(_) | Verdict::Rejected(_) => status::REFUSED,
        }
    }

    /// The line that is put.
    pub fn text(&self, alloc: Global) -> Result<Vec<u8>, NoMemory>
        ensures { IfOk result (λ text. text.items ≡ with_newline (verdict_line self.now)) }
    {
        match self {
            Verdict::Accepted => Ok(Vec::from_slice(alloc, b"accepted\n")?),
            Verdict::Refused(refusal) => refusal_line(alloc, refusal),
            Verdict::Rejected(reject) => rejected_line(alloc, reject),
        }
    }
}

/// The line of an image that breaks a rule.
pub(crate) fn rejected_line(alloc: Global, reject: &Reject) -> Result<Vec<u8>, NoMemory>
    ensures { IfOk result (λ line. line.items ≡ with_newline (rejected_line reject.now)) }
{
    Ok(format!(in alloc; "rejected {reject}\n")?.into_bytes())
}

/// The verdict on an image and its graph.
fn judged(alloc: Global, pair: &Pair<'_>) -> Result<Verdict, NoMemory>
    ensures { IfOk result (IsJudgement pair.now.image pair.now.graph) }
{
    match judge(alloc, pair) {
        Ok(Judgement::Accepted) => Ok(Verdict::Accepted),
        Ok(Judgement::Rejected(reject)) => Ok(Verdict::Rejected(reject)),
        Err(NoMemory) => Err(NoMemory),
    }
}

/// An image and its graph, whose text is let go once it is read.
fn opened<'a>(alloc: Global, image: &'a [u8], graph: Vec<u8>) -> Result<Pair<'a>, End<PairFault>>
    ensures spelled { IfOk result (λ pair. Spell image.now graph.items pair.image pair.graph) }
    ensures refused { IfErr result (IsPairEnd image.now graph.items) }
{
    open_pair(alloc, image, &graph)
}

/// The verdict on texts that are not read.
fn unread(end: End<PairFault>) -> Result<Verdict, NoMemory>
    ensures { (image graph : List ℕ) → IsPairEnd image graph end → IfOk result (IsVerdictOf image graph) }
{
    match end {
        End::Fault(fault) => Ok(Verdict::Refused(pair_refusal(fault))),
        End::NoMemory => Err(NoMemory),
    }
}

/// The verdict on the bytes of an image and of its graph.
fn verdict_of(alloc: Global, image: &[u8], graph: Vec<u8>) -> Result<Verdict, NoMemory>
    ensures { IfOk result (IsVerdictOf image.now graph.items) }
{
    match opened(alloc, image, graph) {
        Ok(pair) => judged(alloc, &pair),
        Err(end) => unread(end),
    }
}

/// Reads an image and its graph, and says whether they go together.
pub fn verify_files<'a, F: Files>(
    alloc: Global,
    request: &VerifyWords<'a>,
    files: &mut F,
) -> Result<Verdict, Stop<'a>>
    ensures explained { IfOk result (ExplainsVerdict (F.content files.old) (verify_asked request.now)) }
    ensures stopped { IfErr result
        (IsStop (F.content files.old) (F.failed_name files.new) (verify_names (verify_asked request.now))) }
    ensures only_read { IsOnlyRead F.Files files.old files.new }
    ensures counted { CountsReads F.Files files.old files.new (IsFault result) (IsTooLong result) }
    ensures in_order { AreRead (F.reads files.old) (F.reads files.new) (file_names (verify_names (verify_asked request.now))) (IsOk result) }
{
    let names = [Some(request.image), Some(request.graph)];
    let mut bytes = read_all(alloc, &names, files)?;
    let graph = bytes.remove(1);
    Ok(verdict_of(alloc, &bytes[0], graph)?)
}
