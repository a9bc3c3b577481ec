ghost use Rattle.std.specs.Prelude.{◌≡◌, ◌≤◌, ℕ, List, Ok, Some, Err, IfOk, IfErr, IfSome, IsOk, length, option_copied, option_map, map, ◌∷◌, []};
ghost use Rattle.tool_common.specs.Lines.{with_newline};
ghost use Rattle.text_lines.specs.Decimal.{MAX_STEP};
ghost use Rattle.text_lines.specs.Answers.{line_fault};
ghost use Rattle.tool_io.specs.Names.{AreRead};
ghost use Rattle.tool_io.specs.Reading.{CountsReads, IsOnlyRead};
ghost use Rattle.tool_common.specs.Reads.{Content, GaveAll, IsFault, IsStop, IsTooLong, file_names};
ghost use Rattle.cfi_map_text.specs.Map.{MapParts};
ghost use Rattle.cfi_map_text.specs.MapText.{map_of};
ghost use Rattle.rv_image.specs.Form.{graph_version};
ghost use Rattle.rv_word.specs.declared.end.End.TheVariants.{Fault};
ghost use Rattle.cfi_flow.specs.Entry.{entry_place};
ghost use Rattle.cfi_harden.specs.Given.{Given};
ghost use Rattle.cfi_harden.specs.Room.{HasDataRoom};
ghost use Rattle.cfi_harden.specs.Prepared.{PreparedParts};
ghost use Rattle.cfi_harden.specs.Preparing.{Reads};
ghost use Rattle.cfi_harden.specs.Request.{Request};
ghost use Rattle.src_machine.specs.Beginning.{Ends};
ghost use Rattle.tool_objects.specs.Compare.{ExplainsCompare, IsCompareOf, IsCompareRefused, IsRoomy, answer_status, asked_at, compare_asked, compare_line, compare_link_words, compare_names, compare_status, compare_words};
ghost use Rattle.tool_objects.specs.Comparing.{IsAfterImage, IsFresh, IsImageCompared, IsRoomyEnd};
ghost use Rattle.tool_objects.specs.GivenBytes.{given_by};

use crate::objects::{ObjectBytes, Objects, program_given};
use crate::source::{roomy, source_on};
use cfi_compare::{Compared, compare};
use cfi_harden::Prepared;
use cfi_map_text::{Map, read_map};
use elf_image::read_image;
use obj_program::Items;
use refusals::{MapReason, Refusal};
use rv_image::Form;
use rv_word::{End, NoMemory};
use src_machine::laws::wrong_is_not_legal;
use src_machine::{SourceFault, SourceRun};
use std::alloc::Global;
use text_lines::{LineFault, Reason};
use tool_common::{Stop, file_word, line, read_all, refusal_line, status, steps, text_named};
use tool_io::Files;
use tool_words::{CompareLinkWords, CompareWords};

/// What `compare` or `compare-link` is asked for: the names of the objects, of their entry, of a policy, an image, a map and an
/// input, and how many steps the program takes at most.
#[derive(Drop)]
pub struct CompareRequest<'a> {
    objects: Objects<'a>,
    entry: &'a str,
    policy: Option<&'a str>,
    image: &'a str,
    map: &'a str,
    input: Option<&'a str>,
    limit: u64,
}

impl<'a> CompareRequest<'a> {
    /// What the words after `compare` ask for, if they are taken.
    pub fn of(words: CompareWords<'a>) -> Option<Self>
        ensures asked { option_map compare_asked result
            ≡ compare_words (words.entry.object.now ∷ words.entry.entry.now ∷ words.entry.policy.now ∷ words.entry.image.now ∷ words.entry.map.now ∷ words.entry.input.now ∷ words.entry.steps.now ∷ []) }
        ensures few { IfSome result (λ request. request.limit ≤ MAX_STEP) }
    {
        Some(CompareRequest {
            objects: Objects::Alone(words.object),
            entry: words.entry,
            policy: file_word(words.policy),
            image: words.image,
            map: words.map,
            input: file_word(words.input),
            limit: steps(words.steps)?,
        })
    }

    /// What the words after `compare-link` ask for, if they are taken: those after the number of steps name objects.
    pub fn linking(words: CompareLinkWords<'a>) -> Option<Self>
        ensures asked { option_map compare_asked result
            ≡ compare_link_words (words.entry.entry.now ∷ words.entry.policy.now ∷ words.entry.image.now ∷ words.entry.map.now ∷ words.entry.input.now ∷ words.entry.steps.now ∷ map (λ n. n.now) words.entry.objects.items) }
        ensures few { IfSome result (λ request. request.limit ≤ MAX_STEP) }
    {
        Some(CompareRequest {
            objects: Objects::Joined(words.objects),
            entry: words.entry,
            policy: file_word(words.policy),
            image: words.image,
            map: words.map,
            input: file_word(words.input),
            limit: steps(words.steps)?,
        })
    }
}

/// What a comparison comes to.
#[derive(Drop)]
pub enum CompareOutcome {
    /// An object, the entry, the policy, the image or the map is not what it should be.
    Refused(Refusal),
    Compared(Compared),
}

/// The status with which the program ends after a comparison that came to this.
pub(crate) fn answer_status(compared: &Compared) -> u8
    ensures { result ≡ answer_status compared.now }
{
    match compared {
        Compared::Same(_) => status::WELL,
        Compared::Differs(..) => status::REFUSED,
        Compared::Untame(..) => status::UNTAME,
        Compared::Limit => status::STEP_LIMIT,
    }
}

impl CompareOutcome {
    /// The status with which the program ends.
    pub fn status(&self) -> u8
        ensures { result ≡ compare_status self.now }
    {
        match self {
            CompareOutcome::Refused(_) => status::REFUSED,
            CompareOutcome::Compared(compared) => answer_status(compared),
        }
    }

    /// The line that is put.
    pub fn text(&self, alloc: Global) -> Result<Vec<u8>, NoMemory>
        ensures { IfOk result (λ text. text.items ≡ with_newline (compare_line self.now)) }
    {
        match self {
            CompareOutcome::Refused(refusal) => refusal_line(alloc, refusal),
            CompareOutcome::Compared(compared) => line(alloc, compared),
        }
    }
}

/// What is told of a map that is none, where an image's own refusal goes first.
fn after_the_image(image: &[u8], map: Refusal) -> Refusal
    ensures { IsAfterImage image.now map result }
{
    match read_image(image) {
        Ok(_) => map,
        Err(refusal) => Refusal::Image(refusal),
    }
}

/// Compares a program at a map, at its start, with a file that should be an image.
fn compare_image(
    alloc: Global,
    source: &mut SourceRun<'_, '_>,
    image: &[u8],
    input: &[u8],
    limit: u64,
) -> Result<CompareOutcome, NoMemory>
    requires fresh { IsFresh input.now source.old }
    requires few { limit ≤ MAX_STEP }
    ensures { IfOk result (IsImageCompared source.old image.now input.now limit) }
{
    let image = match read_image(image) {
        Ok(image) => image,
        Err(refusal) => return Ok(CompareOutcome::Refused(Refusal::Image(refusal))),
    };
    // Computes nothing: it tells the proof the sizes of the image.
    let _code = image.code();
    let compared = compare(alloc, source, &image, input, limit)?;
    Ok(CompareOutcome::Compared(compared))
}

/// What is told where no run of a program begins at a map.
fn not_at_the_map(image: &[u8], fault: SourceFault) -> Refusal
    ensures { (asked : Request) (p : PreparedParts) (text : List ℕ) (m : MapParts) → IsRoomy asked p → map_of text ≡ Ok m
        → Ends p.program p.closed p.entry m (Fault fault) → IsCompareRefused asked image.now text result }
{
    wrong_is_not_legal();
    match fault {
        SourceFault::RelocRange(section, offset) => Refusal::RelocRange(section, offset),
        SourceFault::BadMap(line) => after_the_image(image, Refusal::Map(line, MapReason::Place)),
    }
}

/// Compares a prepared program at a map with a file that should be an image.
fn compare_at(
    alloc: Global,
    request: &CompareRequest<'_>,
    prepared: &Prepared<'_, '_>,
    image: &[u8],
    map: &Map,
    input: &[u8],
) -> Result<CompareOutcome, NoMemory>
    requires version { prepared.now.closed.version ≡ graph_version map.now.form }
    requires room { HasDataRoom prepared.now.program }
    requires entry { entry_place prepared.now.program request.now.entry.now ≡ Some prepared.now.entry }
    requires few { request.now.limit ≤ MAX_STEP }
    ensures { (asked : Request) (text : List ℕ) → IsRoomy asked prepared.now → map_of text ≡ Ok map.now
        → IfOk result (IsCompareOf asked image.now text input.now request.now.limit) }
{
    match source_on(alloc, prepared, request.entry, map, input) {
        Ok(mut source) => compare_image(alloc, &mut source, image, input, request.limit),
        Err(End::Fault(fault)) => Ok(CompareOutcome::Refused(not_at_the_map(image, fault))),
        Err(End::NoMemory) => Err(NoMemory),
    }
}

/// What is told where there is no program that could be run at a map.
fn not_run(end: End<Refusal>) -> Result<CompareOutcome, NoMemory>
    ensures { (asked : Request) (image text input : List ℕ) (limit : ℕ) → IsRoomyEnd asked end
        → IfOk result (IsCompareOf asked image text input limit) }
{
    match end {
        End::Fault(refusal) => Ok(CompareOutcome::Refused(refusal)),
        End::NoMemory => Err(NoMemory),
    }
}

/// Compares a program, under a policy and at a map, with a file that should be an image.
fn compare_program(
    alloc: Global,
    request: &CompareRequest<'_>,
    items: &Items<'_>,
    policy: Option<&[u8]>,
    image: &[u8],
    map: &Map,
    input: &[u8],
) -> Result<CompareOutcome, NoMemory>
    requires read { (given : Given) × Reads given (Ok items.now) }
    requires few { request.now.limit ≤ MAX_STEP }
    ensures { (given : Given) (text : List ℕ) → Reads given (Ok items.now) → map_of text ≡ Ok map.now
        → IfOk result (IsCompareOf (asked_at text given request.now.entry.now (option_copied policy.entry))
        image.now text input.now request.now.limit) }
{
    match roomy(alloc, map.form(), items, request.entry, policy) {
        Ok(prepared) => compare_at(alloc, request, &prepared, image, map, input),
        Err(end) => not_run(end),
    }
}

/// What is told of a map's text that is none, where the refusals of the program's entry, the policy and the image go first.
fn after_the_program(
    alloc: Global,
    request: &CompareRequest<'_>,
    items: &Items<'_>,
    policy: Option<&[u8]>,
    image: &[u8],
    line: u64,
    reason: Reason,
) -> Result<CompareOutcome, NoMemory>
    ensures { (given : Given) (text input : List ℕ) → Reads given (Ok items.now) → map_of text ≡ Err (line_fault line reason)
        → IfOk result (IsCompareOf (asked_at text given request.now.entry.now (option_copied policy.entry))
        image.now text input request.now.limit) }
{
    match roomy(alloc, Form::Plain, items, request.entry, policy) {
        Ok(_prepared) => {
            let refusal = after_the_image(image, Refusal::Map(line, MapReason::Text(reason)));
            Ok(CompareOutcome::Refused(refusal))
        }
        Err(end) => not_run(end),
    }
}

/// Compares a program, under a policy and at a map, with an image, as bytes spell them. The map is read first, for its form.
fn compare_spelled(
    alloc: Global,
    request: &CompareRequest<'_>,
    items: &Items<'_>,
    policy: Option<&[u8]>,
    image: &[u8],
    map: &[u8],
    input: &[u8],
) -> Result<CompareOutcome, NoMemory>
    requires read { (given : Given) × Reads given (Ok items.now) }
    requires few { request.now.limit ≤ MAX_STEP }
    ensures { (given : Given) → Reads given (Ok items.now)
        → IfOk result (IsCompareOf (asked_at map.now given request.now.entry.now (option_copied policy.entry))
        image.now map.now input.now request.now.limit) }
{
    match read_map(alloc, map) {
        Ok(map) => compare_program(alloc, request, items, policy, image, &map, input),
        Err(End::Fault(LineFault(line, reason))) => {
            after_the_program(alloc, request, items, policy, image, line, reason)
        }
        Err(End::NoMemory) => Err(NoMemory),
    }
}

/// The same of the program of objects.
fn compare_bytes(
    alloc: Global,
    request: &CompareRequest<'_>,
    given: ObjectBytes,
    policy: Option<&[u8]>,
    image: &[u8],
    map: &[u8],
    input: &[u8],
) -> Result<CompareOutcome, NoMemory>
    requires few { request.now.limit ≤ MAX_STEP }
    ensures { IfOk result (IsCompareOf (asked_at map.now (given_by given.entry) request.now.entry.now (option_copied policy.entry))
        image.now map.now input.now request.now.limit) }
{
    match program_given(alloc, given) {
        Ok(items) => compare_spelled(alloc, request, &items, policy, image, map, input),
        Err(end) => not_run(end),
    }
}

/// Compares, where the files of a comparison gave these bytes.
fn compare_read(
    alloc: Global,
    request: &CompareRequest<'_>,
    bytes: &[Vec<u8>],
) -> Result<CompareOutcome, NoMemory>
    requires few { request.now.limit ≤ MAX_STEP }
    requires number { length bytes.now ≡ length (compare_names (compare_asked request.now)) }
    ensures { (content : Content) → GaveAll content (compare_names (compare_asked request.now)) (map (λ b. b.items) bytes.now)
        → IfOk result (ExplainsCompare content (compare_asked request.now)) }
{
    let (given, others) = request.objects.split(bytes, 4);
    let policy = text_named(request.policy, &others[0]);
    compare_bytes(
        alloc, request, given, policy, &others[1], &others[2], &others[3],
    )
}

/// Reads the files of a comparison and compares.
pub fn compare_files<'a, F: Files>(
    alloc: Global,
    request: &CompareRequest<'a>,
    files: &mut F,
) -> Result<CompareOutcome, Stop<'a>>
    requires few { request.now.limit ≤ MAX_STEP }
    ensures explained { IfOk result (ExplainsCompare (F.content files.old) (compare_asked request.now)) }
    ensures stopped { IfErr result
        (IsStop (F.content files.old) (F.failed_name files.new) (compare_names (compare_asked request.now))) }
    ensures only_read { IsOnlyRead F.Files files.old files.new }
    ensures counted { CountsReads F.Files files.old files.new (IsFault result) (IsTooLong result) }
    ensures in_order { AreRead (F.reads files.old) (F.reads files.new) (file_names (compare_names (compare_asked request.now))) (IsOk result) }
{
    let others = [
        request.policy,
        Some(request.image),
        Some(request.map),
        request.input,
    ];
    let names = request.objects.names_with(alloc, &others)?;
    let bytes = read_all(alloc, &names, files)?;
    Ok(compare_read(alloc, request, &bytes)?)
}
