//! The top call: words to an outcome, and an outcome to text and status.

ghost use Rattle.std.specs.Prelude.{◌≡◌, ◌≢◌, ◌⊎◌, ◌<◌, ◌≤◌, ℕ, List, [], Err, None, IfOk, OnOk};
ghost use Rattle.std.specs.Io.KnownBytes.{Appends, Keeps};
ghost use Rattle.tool_io.specs.Faults.{Counts, Rose};
ghost use Rattle.tool_io.specs.Names.{AreRead};
ghost use Rattle.tool_io.specs.Reading.{CountsReads, IsOnlyRead};
ghost use Rattle.tool_objects.specs.Compare.{CompareWords, IsTold};
ghost use Rattle.tool_objects.specs.Demo.{IsDemonstrated};
ghost use Rattle.tool_objects.specs.Rewrite.{IsRewritten, RewriteWords};
ghost use Rattle.tool_images.specs.Run.{IsRan, RunWords};
ghost use Rattle.tool_images.specs.Verify.{IsAccepted, VerifyWords};
ghost use Rattle.cfi_tool.specs.Complete.{IsComplete};
ghost use Rattle.cfi_tool.specs.Explains.{Explains, IsPart, IsRead, IsReadFault, IsTooLongFile};
ghost use Rattle.cfi_tool.specs.Finishing.{IsShort, IsStopped};
ghost use Rattle.tool_words.specs.Reading.{spelled};
ghost use Rattle.cfi_tool.specs.Outcomes.{outcome_outputs, outcome_status, outcome_text};
ghost use Rattle.cfi_tool.specs.Request.{Request, TakenMarked, TakenPlainly, Verifies, WritesNone, asks, compare, demo, read_names, rewrite, run, taken, untaken, verify};
ghost use Rattle.tool_common.specs.Writes.{AreApart, KeepsReads, Wrote};
ghost use Rattle.cfi_tool.specs.declared.outcome.Outcome.{Outcome};

use crate::outcome::Outcome;
use crate::request::requested;
use rv_word::NoMemory;
use std::alloc::Global;
use tool_common::{Stop, status};
use tool_io::{Files, OutEnd, Sink};
use tool_words::WordsEnd;

/// What the words come to.
#[tactic(auto, using(crate::proofs::Explained::explained_apart, crate::proofs::Explained::explained_unwritten))]
fn command<'a, F: Files>(
    alloc: Global,
    words: &'a [String],
    files: &mut F,
) -> Result<Outcome<'a>, NoMemory>
    ensures explained { IfOk result
        (Explains (F.content files.old) (F.failed_name files.new) (spelled words.now)) }
    ensures only_read { IsOnlyRead F.Files files.old files.new }
    ensures counted { CountsReads F.Files files.old files.new (IsReadFault result) (IsTooLongFile result) }
    ensures in_order { AreRead (F.reads files.old) (F.reads files.new) (read_names (taken (spelled words.now))) (IsRead result) }
    ensures apart { IfOk result (λ outcome. AreApart (outcome_outputs outcome)) }
    ensures plain { TakenPlainly (spelled words.now) }
    ensures marked { TakenMarked (spelled words.now) }
    ensures unwritten { WritesNone (taken (spelled words.now)) → IfOk result (λ outcome. outcome_outputs outcome ≡ []) }
{
    let request = match requested(alloc, words) {
        Ok(request) => request,
        Err(WordsEnd::Help(text)) => return Ok(Outcome::Help(text)),
        Err(WordsEnd::Version(text)) => return Ok(Outcome::Version(text)),
        Err(WordsEnd::Refused) => return Ok(Outcome::Usage),
        Err(WordsEnd::NoMemory) => return Err(NoMemory),
    };
    match request.answer(alloc, files) {
        Ok(outcome) => Ok(outcome),
        Err(Stop::Unread(unread)) => Ok(Outcome::Unread(unread)),
        Err(Stop::NoMemory) => Err(NoMemory),
    }
}

/// Puts the text of an outcome.
fn put_text<K: Sink>(alloc: Global, outcome: &Outcome<'_>, out: &mut K) -> Result<(), OutEnd>
    ensures whole { OnOk result
        (Appends (K.written out.old) (K.written out.new) (outcome_text outcome.now)) }
    ensures part { result ≡ Err OutEnd.Failed
        → IsPart (K.written out.old) (K.written out.new) (outcome_text outcome.now) }
    ensures unchanged { result ≡ Err OutEnd.NoMemory → Keeps (K.written out.old) (K.written out.new) }
    ensures faults { Counts (result ≡ Err OutEnd.Failed) (K.faults out.old) (K.faults out.new) }
{
    let Ok(text) = outcome.text(alloc) else {
        return Err(OutEnd::NoMemory);
    };
    out.put(&text)
}

/// Writes the files of an outcome, puts its text, and answers its status.
fn finish<F: Files, K: Sink>(
    alloc: Global,
    outcome: &Outcome<'_>,
    files: &mut F,
    out: &mut K,
) -> Result<u8, OutEnd>
    requires apart { AreApart (outcome_outputs outcome.now) }
    ensures status { IfOk result (λ status. status ≡ outcome_status outcome.now) }
    ensures wrote { OnOk result (Wrote F.Files files.old files.new (outcome_outputs outcome.now) None) }
    ensures whole { OnOk result (Appends (K.written out.old) (K.written out.new) (outcome_text outcome.now)) }
    ensures failed { result ≡ Err OutEnd.Failed
        → IsStopped F.Files files.old files.new (K.written out.old) (K.written out.new) outcome.now }
    ensures short { result ≡ Err OutEnd.NoMemory → IsShort F.Files files.old files.new outcome.now }
    ensures nothing_put { result ≡ Err OutEnd.NoMemory → Keeps (K.written out.old) (K.written out.new) }
    ensures unwritten { outcome_outputs outcome.now ≡ [] → IsOnlyRead F.Files files.old files.new }
    ensures reads { KeepsReads F.Files files.old files.new }
    ensures file_faults_later { F.write_faults files.old ≤ F.write_faults files.new }
    ensures faults_later { K.faults out.old ≤ K.faults out.new }
    ensures rose { result ≡ Err OutEnd.Failed
        → Rose (F.write_faults files.old) (F.write_faults files.new) ⊎ Rose (K.faults out.old) (K.faults out.new) }
    ensures file_faults { ¬ (result ≡ Err OutEnd.Failed) → F.write_faults files.new ≡ F.write_faults files.old }
    ensures faults { ¬ (result ≡ Err OutEnd.Failed) → K.faults out.new ≡ K.faults out.old }
{
    outcome.write(files)?;
    put_text(alloc, outcome, out)?;
    Ok(outcome.status())
}

/// Does what the words of a command line ask for, the program's name first, and answers the status
/// with which the program ends: 0 where all is well, 1 where a file is refused or the image rejected,
/// 2 where the words are not taken, 3 where a read failed, 4 where a write or the output failed, 5 where
/// there was no memory, and 6 where a file has more than 2^26 bytes; for a run also 10 where it came to a
/// handler, 11 where it broke or a load failed; for a run and a comparison 12 where as many steps were taken as
/// may be, and for a comparison 13 where the program takes no such step. 1 is also where they differ. All files
/// are read first, then `rewrite`, `harden` or `link` writes its three, and the text is put last, in one piece.
#[tactic(auto, using(crate::proofs::Since::wrote_since, crate::proofs::Since::short_since, crate::proofs::Since::stopped_since, crate::proofs::Since::status_unwritten))]
pub fn rvcfi<F: Files, K: Sink>(alloc: Global, words: &[String], files: &mut F, out: &mut K) -> u8
    // Where no file is to be written each is as before, none is made or removed, and no count of faults falls.
    ensures only_read { WritesNone (taken (spelled words.now)) → IsOnlyRead F.Files files.old files.new }
    ensures refused_writes_none { (result ≡ 1) ⊎ (result ≡ 2) ⊎ (result ≡ 3) ⊎ (result ≡ 6)
        → IsOnlyRead F.Files files.old files.new }
    ensures read_faults_later { F.read_faults files.old ≤ F.read_faults files.new }
    ensures long_reads_later { F.long_reads files.old ≤ F.long_reads files.new }
    ensures file_faults_later { F.write_faults files.old ≤ F.write_faults files.new }
    ensures write_faults_later { K.faults out.old ≤ K.faults out.new }

    // To understand this contract read first, in this order: `Files` and `Sink` of tool_io, what is told of files and of an output; in specs/
    // `taken` of Request, what the words ask for, and `names_of`, the files that are read for it; `Outcome` of outcome.rt, what a command line
    // comes to, and of Outcomes its `outcome_status`, `outcome_text` and `outcome_outputs`; `Explains`, an outcome's cause, which for a command's
    // own is `ExplainsVerdict` or `ExplainsRun` of tool_images, `ExplainsRewrite`, `ExplainsCompare` or `ExplainsDemo` of tool_objects; `Wrote` of
    // tool_common and `Appends` of std, what is written and put. Then the next clause says it all, but for 4 and 5; those after it say what
    // follows of single statuses, and when each may come.

    // All but 4 and 5: the status and the text of an outcome that has its cause, and its files, if it has any.
    ensures told { result ≢ 4 → result ≢ 5 → (outcome : Outcome)
        × (result ≡ outcome_status outcome)
        × Explains (F.content files.old) (F.failed_name files.new) (spelled words.now) outcome
        × Wrote F.Files files.old files.new (outcome_outputs outcome) None
        × Appends (K.written out.old) (K.written out.new) (outcome_text outcome) }

    // The files that the words name are read in their order, each once, and no other: some first ones where the status is one of 3 to 6, else all.
    // So `demo`, help and the version read none.
    ensures in_order { AreRead (F.reads files.old) (F.reads files.new) (read_names (taken (spelled words.now)))
        ((result < 3) ⊎ (6 < result)) }

    // 0 of `rewrite`, of `harden` and of `link`: the files hold the program of the objects, hardened in the form, and the text tells its
    // sizes.
    ensures rewritten { result ≡ 0 → (given : RewriteWords) → taken (spelled words.now) ≡ asks (rewrite given)
        → (text : List ℕ) × IsRewritten F.Files files.old files.new given text × Appends (K.written out.old) (K.written out.new) text }

    // 0 of `verify`: the files spell an image and a graph that are safe.
    ensures accepted { result ≡ 0 → (given : VerifyWords) → taken (spelled words.now) ≡ asks (verify given)
        → (text : List ℕ) × IsAccepted (F.content files.old) given text × Appends (K.written out.old) (K.written out.new) text }

    // 0 where two names stand after `verify`, or after `verify --`: so it is of the files of these names, and nothing else was asked for.
    ensures verified { result ≡ 0 → (given : VerifyWords) → Verifies (spelled words.now) given
        → (text : List ℕ) × IsAccepted (F.content files.old) given text × Appends (K.written out.old) (K.written out.new) text }

    // 0 and from 10 on of `run`: the files spell such a pair, and the text is the report of its run.
    ensures ran { (result ≡ 0) ⊎ (10 ≤ result) → (given : RunWords) → taken (spelled words.now) ≡ asks (run given)
        → (text : List ℕ) × IsRan (F.content files.old) given result text × Appends (K.written out.old) (K.written out.new) text }

    // 0, 12 and 13 of `compare` and of `compare-link`: the files spell objects, an image and a map, and the text tells how they compare.
    ensures compared { (result ≡ 0) ⊎ (10 ≤ result) → (given : CompareWords) → taken (spelled words.now) ≡ asks (compare given)
        → (text : List ℕ) × IsTold (F.content files.old) given result text × Appends (K.written out.old) (K.written out.new) text }

    // 0 and from 10 on of `demo`: the number's object is hardened, its image is safe and is run, and compared where the run exits.
    ensures demonstrated { (result ≡ 0) ⊎ (10 ≤ result) → (number : ℕ) → taken (spelled words.now) ≡ asks (demo number)
        → (text : List ℕ) × IsDemonstrated number result text × Appends (K.written out.old) (K.written out.new) text }

    // No other but 4 and 5, since nothing is refused of a number's object, its image is accepted and nothing differs.
    ensures demo_never_refused { (number : ℕ) → taken (spelled words.now) ≡ asks (demo number)
        → (result ≡ 0) ⊎ (result ≡ 4) ⊎ (result ≡ 5) ⊎ (10 ≤ result) }

    // Complete: where no fault is counted and there is memory, what the words ask for is done wherever the files allow it.
    ensures complete { result ≢ 5 → ¬ Rose (F.read_faults files.old) (F.read_faults files.new)
        → ¬ Rose (F.write_faults files.old) (F.write_faults files.new) → ¬ Rose (K.faults out.old) (K.faults out.new)
        → (request : Request) → taken (spelled words.now) ≡ asks request → IsComplete (F.content files.old) request result }

    // A program's name, a command's name and exactly its words, none empty and none with a hyphen first, are always taken.
    ensures plain { TakenPlainly (spelled words.now) }

    // So are they with a `--` among or around these words: those behind it may be empty or have a hyphen first.
    ensures marked { TakenMarked (spelled words.now) }

    // 2, and no other, where the words are not taken.
    ensures usage { result ≡ 2 → taken (spelled words.now) ≡ untaken }
    ensures usage_when { taken (spelled words.now) ≡ untaken
        → (result ≡ 2) ⊎ (result ≡ 4) ⊎ (result ≡ 5) }

    // 3: a read failed.
    ensures read_fault { result ≡ 3 → Rose (F.read_faults files.old) (F.read_faults files.new) }
    ensures read_fault_told { F.read_faults files.old < F.read_faults files.new
        → (result ≡ 3) ⊎ (result ≡ 4) ⊎ (result ≡ 5) }

    // 4: a write or the output failed.
    ensures write_fault { result ≡ 4
        → Rose (F.write_faults files.old) (F.write_faults files.new) ⊎ Rose (K.faults out.old) (K.faults out.new) }
    ensures write_fault_text { result ≡ 4 → (outcome : Outcome)
        × Explains (F.content files.old) (F.failed_name files.new) (spelled words.now) outcome
        × IsStopped F.Files files.old files.new (K.written out.old) (K.written out.new) outcome }
    ensures file_fault_told { F.write_faults files.old < F.write_faults files.new → result ≡ 4 }
    ensures write_fault_told { K.faults out.old < K.faults out.new → result ≡ 4 }

    // 5: there was no memory.
    ensures nothing_put { result ≡ 5 → Keeps (K.written out.old) (K.written out.new) }
    ensures first_written { result ≡ 5 → IsOnlyRead F.Files files.old files.new ⊎ ((outcome : Outcome)
        × Explains (F.content files.old) (F.failed_name files.new) (spelled words.now) outcome
        × IsShort F.Files files.old files.new outcome) }

    // 6: a file is longer than it may be.
    ensures too_long { result ≡ 6 → Rose (F.long_reads files.old) (F.long_reads files.new) }
    ensures too_long_told { F.long_reads files.old < F.long_reads files.new
        → (result ≡ 6) ⊎ (result ≡ 4) ⊎ (result ≡ 5) }
{
    let Ok(outcome) = command(alloc, words, files) else {
        return status::NO_MEMORY;
    };
    let end = finish(alloc, &outcome, files, out);
    drop(outcome);
    match end {
        Ok(status) => status,
        Err(OutEnd::Failed) => status::WRITE_FAULT,
        Err(OutEnd::NoMemory) => status::NO_MEMORY,
    }
}
