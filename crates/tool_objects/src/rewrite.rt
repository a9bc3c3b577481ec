ghost use Rattle.std.specs.Prelude.{◌≡◌, ◌≤◌, ◌^◌, [], None, Ok, Err, IfOk, IfErr, IfSome, IsOk, OnOk, length, option_copied, option_map, map, ◌∷◌};
ghost use Rattle.tool_io.specs.Faults.{Counts};
ghost use Rattle.tool_io.specs.Names.{AreRead};
ghost use Rattle.tool_io.specs.Reading.{CountsReads, IsOnlyRead};
ghost use Rattle.tool_io.specs.declared.ends.OutEnd.TheVariants as OutEnd;
ghost use Rattle.elf_image.specs.Header.{data_start};
ghost use Rattle.cfi_harden.specs.Given.{Given};
ghost use Rattle.cfi_harden.specs.Preparing.{Reads};
ghost use Rattle.tool_common.specs.Lines.{with_newline};
ghost use Rattle.tool_common.specs.Reads.{Content, GaveAll, IsFault, IsStop, IsTooLong, file_names};
ghost use Rattle.tool_common.specs.Words.{text_named};
ghost use Rattle.tool_common.specs.Writes.{AreApart, IsCut, IsTorn, KeepsReads, Wrote};
ghost use Rattle.tool_objects.specs.GivenBytes.{given_by};
ghost use Rattle.tool_objects.specs.Objects.{objects_asked};
ghost use Rattle.tool_objects.specs.Rewrite.{AreNamedApart, ExplainsRewrite, HasSizes, IsRewriteOf, IsSpelledOut, harden_words, link_words, outputs_of, rewrite_asked, rewrite_line, rewrite_names, rewrite_outputs, rewrite_status, rewrite_words, words_alone, words_in};
ghost use Rattle.tool_objects.specs.Spelled.{IsSpelledWith};

use crate::objects::{ObjectBytes, Objects, program_given};
use cfi_graph::{Graph, write_graph};
use cfi_map_text::{Map, write_map};
use cfi_rewrite::{Hardened, rewrite_joined};
use obj_program::Items;
use refusals::Refusal;
use rv_image::Form;
use rv_word::{Bytes, End, NoMemory};
use std::alloc::Global;
use std::fmt;
use tool_common::{Output, Stop, file_word, line, read_all, refusal_line, status, text_named};
use tool_io::{Files, OutEnd};
use tool_words::{HardenWords, LinkWords, RewriteWords};

/// What `rewrite`, `harden` or `link` is asked for: the form, the names of the objects, of their entry and of a policy, and
/// those of the image, the graph and the map that it writes.
#[derive(Drop)]
pub struct RewriteRequest<'a> {
    form: Form,
    objects: Objects<'a>,
    entry: &'a str,
    policy: Option<&'a str>,
    image: &'a str,
    graph: &'a str,
    map: &'a str,
}

impl<'a> RewriteRequest<'a> {
    /// What is asked for, if it is taken: no two of the names of files to write are equal.
    fn in_form(
        form: Form,
        objects: Objects<'a>,
        entry: &'a str,
        policy: &'a str,
        image: &'a str,
        graph: &'a str,
        map: &'a str,
    ) -> Option<Self>
        ensures asked { option_map rewrite_asked result
            ≡ words_in form (objects_asked objects.entry) entry.now policy.now image.now graph.now map.now }
        ensures apart { IfSome result (λ request. AreNamedApart (rewrite_asked request)) }
    {
        if image == graph || image == map || graph == map {
            return None;
        }
        Some(RewriteRequest {
            form,
            objects,
            entry,
            policy: file_word(policy),
            image,
            graph,
            map,
        })
    }

    /// What the words after `rewrite` ask for in a form, if they are taken.
    fn alone(form: Form, words: RewriteWords<'a>) -> Option<Self>
        ensures asked { option_map rewrite_asked result
            ≡ words_alone form (words.entry.object.now ∷ words.entry.entry.now ∷ words.entry.policy.now ∷ words.entry.image.now ∷ words.entry.graph.now ∷ words.entry.map.now ∷ []) }
        ensures apart { IfSome result (λ request. AreNamedApart (rewrite_asked request)) }
    {
        let RewriteWords {
            object,
            entry,
            policy,
            image,
            graph,
            map,
        } = words;
        RewriteRequest::in_form(
            form,
            Objects::Alone(object),
            entry,
            policy,
            image,
            graph,
            map,
        )
    }

    /// What the words after `rewrite` ask for, if they are taken.
    pub fn of(words: RewriteWords<'a>) -> Option<Self>
        ensures asked { option_map rewrite_asked result
            ≡ rewrite_words (words.entry.object.now ∷ words.entry.entry.now ∷ words.entry.policy.now ∷ words.entry.image.now ∷ words.entry.graph.now ∷ words.entry.map.now ∷ []) }
        ensures apart { IfSome result (λ request. AreNamedApart (rewrite_asked request)) }
    {
        RewriteRequest::alone(Form::Plain, words)
    }

    /// What the words after `harden` ask for, if they are taken: the first is a form's name.
    pub fn hardening(words: HardenWords<'a>) -> Option<Self>
        ensures asked { option_map rewrite_asked result
            ≡ harden_words (words.entry.form.now ∷ words.entry.rewrite.object.now ∷ words.entry.rewrite.entry.now ∷ words.entry.rewrite.policy.now ∷ words.entry.rewrite.image.now ∷ words.entry.rewrite.graph.now ∷ words.entry.rewrite.map.now ∷ []) }
        ensures apart { IfSome result (λ request. AreNamedApart (rewrite_asked request)) }
    {
        let form = Form::named(words.form)?;
        RewriteRequest::alone(form, words.rewrite)
    }

    /// What the words after `link` ask for, if they are taken: the first is a form's name, and those after the map's name
    /// objects.
    pub fn linking(words: LinkWords<'a>) -> Option<Self>
        ensures asked { option_map rewrite_asked result
            ≡ link_words (words.entry.form.now ∷ words.entry.entry.now ∷ words.entry.policy.now ∷ words.entry.image.now ∷ words.entry.graph.now ∷ words.entry.map.now ∷ map (λ n. n.now) words.entry.objects.items) }
        ensures apart { IfSome result (λ request. AreNamedApart (rewrite_asked request)) }
    {
        let LinkWords {
            form,
            entry,
            policy,
            image,
            graph,
            map,
            objects,
        } = words;
        let form = Form::named(form)?;
        RewriteRequest::in_form(
            form,
            Objects::Joined(objects),
            entry,
            policy,
            image,
            graph,
            map,
        )
    }
}

/// A hardened program as it is written: three files, and the sizes that are told of it.
#[derive(Drop)]
pub struct Rewritten<'a> {
    image: Output<'a>,
    graph: Output<'a>,
    map: Output<'a>,
    sizes: Sizes,
}

/// How many bytes of code and of initialised data an image has, and how many classes and sites its graph has.
#[derive(Clone, Copy)]
pub struct Sizes {
    code: usize,
    data: usize,
    classes: u64,
    sites: u64,
}

/// What `rewrite`, `harden` or `link` comes to.
#[derive(Drop)]
pub enum RewriteOutcome<'a> {
    /// The program is not hardened.
    Refused(Refusal),
    Rewritten(Rewritten<'a>),
}

impl fmt::Display for Sizes {
    ghost use Rattle.std.specs.Prelude.{Some};
    ghost use Rattle.tool_objects.specs.Rewrite.{rewritten_line};

    ghost output = { λ sizes. Some (rewritten_line sizes) };

    fn fmt<W: fmt::Write>(&self, f: &mut fmt::Formatter<W>) -> fmt::Result {
        let Sizes {
            code,
            data,
            classes,
            sites,
        } = *self;
        write!(
            f,
            "rewritten code {code} data {data} classes {classes} sites {sites}"
        )
    }
}

impl Rewritten<'_> {
    /// Writes the image, the graph and the map, in this order.
    #[tactic(auto, using(crate::proofs::Writing::three_whole))]
    fn write<F: Files>(&self, files: &mut F) -> Result<(), OutEnd>
        requires apart { AreApart (outputs_of self.now) }
        ensures whole { OnOk result (Wrote F.Files files.old files.new (outputs_of self.now) None) }
        ensures torn { result ≡ Err OutEnd.Failed → IsTorn F.Files files.old files.new (outputs_of self.now) }
        ensures cut { result ≡ Err OutEnd.NoMemory → IsCut F.Files files.old files.new (outputs_of self.now) }
        ensures faults { Counts (result ≡ Err OutEnd.Failed) (F.write_faults files.old) (F.write_faults files.new) }
        ensures reads { KeepsReads F.Files files.old files.new }
    {
        self.image.write(files)?;
        self.graph.write(files)?;
        self.map.write(files)
    }
}

impl RewriteOutcome<'_> {
    /// The status with which the program ends.
    pub fn status(&self) -> u8
        ensures { result ≡ rewrite_status self.now }
    {
        match self {
            RewriteOutcome::Refused(_) => status::REFUSED,
            RewriteOutcome::Rewritten(_) => status::WELL,
        }
    }

    /// The line that is put.
    pub fn text(&self, alloc: Global) -> Result<Vec<u8>, NoMemory>
        ensures { IfOk result (λ text. text.items ≡ with_newline (rewrite_line self.now)) }
    {
        match self {
            RewriteOutcome::Refused(refusal) => refusal_line(alloc, refusal),
            RewriteOutcome::Rewritten(written) => line(alloc, &written.sizes),
        }
    }

    /// Writes the files, if there are any.
    pub fn write<F: Files>(&self, files: &mut F) -> Result<(), OutEnd>
        requires apart { AreApart (rewrite_outputs self.now) }
        ensures whole { OnOk result (Wrote F.Files files.old files.new (rewrite_outputs self.now) None) }
        ensures torn { result ≡ Err OutEnd.Failed → IsTorn F.Files files.old files.new (rewrite_outputs self.now) }
        ensures cut { result ≡ Err OutEnd.NoMemory → IsCut F.Files files.old files.new (rewrite_outputs self.now) }
        ensures faults { Counts (result ≡ Err OutEnd.Failed) (F.write_faults files.old) (F.write_faults files.new) }
        ensures reads { KeepsReads F.Files files.old files.new }
        ensures unwritten { rewrite_outputs self.now ≡ [] → IsOnlyRead F.Files files.old files.new }
    {
        match self {
            RewriteOutcome::Refused(_) => Ok(()),
            RewriteOutcome::Rewritten(written) => written.write(files),
        }
    }
}

/// Where the data of an image with so many bytes of code begin: on the page after the code.
fn data_start(code: u32) -> usize
    requires { code ≤ 2 ^ 20 }
    ensures { result ≡ data_start code }
{
    0x1000 + (code as usize + 0xfff) / 0x1000 * 0x1000
}

/// What is told of an image and its graph.
#[tactic(auto, using(crate::proofs::ImageSizes::few_code, crate::proofs::ImageSizes::data_inside, crate::proofs::ImageSizes::sizes_are))]
fn sizes_of(image: &[u8], graph: &Graph) -> Sizes
    requires { IsSpelledWith image.now graph.now }
    ensures { HasSizes image.now graph.now result }
{
    let code = graph.code();
    Sizes {
        code: code as usize,
        data: image.len() - data_start(code),
        classes: graph.classes(),
        sites: graph.sites(),
    }
}

/// An image, with the texts of its graph and its map, as they are to be written.
fn with_texts<'a>(
    alloc: Global,
    request: &RewriteRequest<'a>,
    image: Bytes,
    graph: &Graph,
    map: &Map,
) -> Result<Rewritten<'a>, NoMemory>
    requires { IsSpelledWith image graph.now }
    ensures { IfOk result (IsSpelledOut (rewrite_asked request.now) (record { image = image; graph = graph.now; map = map.now })) }
{
    let sizes = sizes_of(image.as_slice(), graph);
    let graph = write_graph(alloc, graph)?;
    let map = write_map(alloc, map)?;
    Ok(Rewritten {
        image: Output {
            name: request.image,
            bytes: image,
        },
        graph: Output {
            name: request.graph,
            bytes: Bytes::of(graph),
        },
        map: Output {
            name: request.map,
            bytes: Bytes::of(map),
        },
        sizes,
    })
}

/// A hardened program as it is to be written.
fn spelled_out<'a>(
    alloc: Global,
    request: &RewriteRequest<'a>,
    hardened: Hardened,
) -> Result<Rewritten<'a>, NoMemory>
    requires { IsSpelledWith hardened.image hardened.graph }
    ensures { IfOk result (IsSpelledOut (rewrite_asked request.now) hardened) }
{
    let Hardened { image, graph, map } = hardened;
    with_texts(alloc, request, image, &graph, &map)
}

/// Hardens a program that is given.
fn rewrite_items<'a>(
    alloc: Global,
    request: &RewriteRequest<'a>,
    items: &Items<'_>,
    policy: Option<&[u8]>,
) -> Result<RewriteOutcome<'a>, NoMemory>
    ensures { (given : Given) → Reads given (Ok items.now)
        → IfOk result (IsRewriteOf (rewrite_asked request.now) given (option_copied policy.entry)) }
{
    match rewrite_joined(alloc, request.form, items, request.entry, policy) {
        Ok(hardened) => Ok(RewriteOutcome::Rewritten(spelled_out(alloc, request, hardened)?)),
        Err(End::Fault(refusal)) => Ok(RewriteOutcome::Refused(refusal)),
        Err(End::NoMemory) => Err(NoMemory),
    }
}

/// Hardens the program of objects, under a policy that some bytes spell.
fn rewrite_given<'a>(
    alloc: Global,
    request: &RewriteRequest<'a>,
    given: ObjectBytes,
    policy: Option<&[u8]>,
) -> Result<RewriteOutcome<'a>, NoMemory>
    ensures { IfOk result (IsRewriteOf (rewrite_asked request.now) (given_by given.entry) (option_copied policy.entry)) }
{
    match program_given(alloc, given) {
        Ok(items) => rewrite_items(alloc, request, &items, policy),
        Err(End::Fault(refusal)) => Ok(RewriteOutcome::Refused(refusal)),
        Err(End::NoMemory) => Err(NoMemory),
    }
}

/// Hardens the program of the objects, where the files that are asked for gave these bytes.
fn rewrite_read<'a>(
    alloc: Global,
    request: &RewriteRequest<'a>,
    bytes: &[Vec<u8>],
) -> Result<RewriteOutcome<'a>, NoMemory>
    requires apart { AreNamedApart (rewrite_asked request.now) }
    requires number { length bytes.now ≡ length (rewrite_names (rewrite_asked request.now)) }
    ensures { (content : Content) → GaveAll content (rewrite_names (rewrite_asked request.now)) (map (λ b. b.items) bytes.now)
        → IfOk result (ExplainsRewrite content (rewrite_asked request.now)) }
{
    let (given, others) = request.objects.split(bytes, 1);
    let policy = text_named(request.policy, &others[0]);
    rewrite_given(alloc, request, given, policy)
}

/// Reads the objects and the policy and hardens the program of the objects.
pub fn rewrite_files<'a, F: Files>(
    alloc: Global,
    request: &RewriteRequest<'a>,
    files: &mut F,
) -> Result<RewriteOutcome<'a>, Stop<'a>>
    requires apart { AreNamedApart (rewrite_asked request.now) }
    ensures explained { IfOk result (ExplainsRewrite (F.content files.old) (rewrite_asked request.now)) }
    ensures stopped { IfErr result
        (IsStop (F.content files.old) (F.failed_name files.new) (rewrite_names (rewrite_asked request.now))) }
    ensures only_read { IsOnlyRead F.Files files.old files.new }
    ensures counted { CountsReads F.Files files.old files.new (IsFault result) (IsTooLong result) }
    ensures in_order { AreRead (F.reads files.old) (F.reads files.new) (file_names (rewrite_names (rewrite_asked request.now))) (IsOk result) }
{
    let names = request.objects.names_with(alloc, &[request.policy])?;
    let bytes = read_all(alloc, &names, files)?;
    Ok(rewrite_read(alloc, request, &bytes)?)
}
