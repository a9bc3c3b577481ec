//! What `demo` does, in steps: an object is made, hardened, verified, run and compared.

ghost use Rattle.std.specs.Prelude.{◌≡◌, ℕ, List, [], IfOk, Ok, Some, codes};
ghost use Rattle.rv_image.specs.declared.version.ImageVersion.TheVariants.{OneHart};
ghost use Rattle.cfi_rules.specs.Rules.{IsWellFormed, pair_profile};
ghost use Rattle.cfi_flow.specs.Entry.{entry_place};
ghost use Rattle.cfi_harden.specs.Given.{alone};
ghost use Rattle.cfi_harden.specs.Hardened.{IsWrittenOf};
ghost use Rattle.cfi_harden.specs.Prepared.{IsPrepared};
ghost use Rattle.cfi_harden.specs.Preparing.{Reads};
ghost use Rattle.cfi_harden.specs.Request.{Request};
ghost use Rattle.cfi_meaning.specs.Hardened.{NeverDiffersOf};
ghost use Rattle.cfi_launch.specs.SafeRun.{IsSafeRun, undisturbed_script};
ghost use Rattle.tool_objects.specs.Demo.{STEP_LIMIT};
ghost use Rattle.tool_objects.specs.Demonstration.{CanRunAt, IsAnswerAt, IsDemoPrepared, IsDrawn, IsImageIn, IsSourceOn};
ghost use Rattle.tool_objects.specs.Rewrite.{IsMade};
ghost use Rattle.tool_objects.specs.Spelled.{IsSpelled};

use crate::source::source_on;
use cfi_compare::{Compared, compare};
use cfi_graph::Graph;
use cfi_harden::{Prepared, prepare_program, program_of};
use cfi_map_text::Map;
use cfi_rewrite::{Hardened, rewrite_prepared};
use cfi_script::Script;
use cfi_step::{RunReport, run};
use cfi_verify::verify;
use elf_image::read_image;
use gen_hardened::laws::demo_is_never_refused;
use obj_program::Items;
use rv_image::{Form, Image};
use rv_word::{End, NoMemory};
use src_machine::SourceRun;
use src_machine::laws::wrong_is_not_legal;
use std::alloc::Global;

/// How many steps a run, and the program's in a comparison, takes at most.
const STEP_LIMIT: u64 = 10_000_000;

/// The symbol at which a program is entered.
const ENTRY: &str = "main";

/// The program of a generated object.
pub(crate) fn program(alloc: Global, object: &[u8]) -> Result<Items<'_>, NoMemory>
    requires { IsDrawn object.now }
    ensures { IfOk result (λ items. Reads (alone object.now) (Ok items)) }
{
    demo_is_never_refused();
    match program_of(alloc, object) {
        Ok(items) => Ok(items),
        Err(End::NoMemory) => Err(NoMemory),
        Err(End::Fault(_)) => unreachable!(),
    }
}

/// That of an object, prepared.
pub(crate) fn prepared<'a, 'b>(
    alloc: Global,
    items: &'a Items<'b>,
) -> Result<Prepared<'a, 'b>, NoMemory>
    requires { (object : List ℕ) × IsDrawn object × Reads (alone object) (Ok items.now) }
    ensures { (object : List ℕ) → IsDrawn object → Reads (alone object) (Ok items.now) → IfOk result (IsDemoPrepared object) }
{
    demo_is_never_refused();
    match prepare_program(alloc, Form::Plain, items, ENTRY, None) {
        Ok(prepared) => Ok(prepared),
        Err(End::NoMemory) => Err(NoMemory),
        Err(End::Fault(_)) => unreachable!(),
    }
}

/// A generated object that is prepared, hardened.
pub(crate) fn made(alloc: Global, prepared: &Prepared<'_, '_>) -> Result<Hardened, NoMemory>
    requires { (object : List ℕ) × IsDemoPrepared object prepared.now }
    ensures written { IfOk result (IsWrittenOf prepared.now) }
    ensures same { IfOk result (NeverDiffersOf prepared.now) }
    ensures made { (request : Request) → IsPrepared request prepared.now → IfOk result (IsMade request) }
{
    demo_is_never_refused();
    match rewrite_prepared(alloc, prepared) {
        Ok(hardened) => Ok(hardened),
        Err(End::NoMemory) => Err(NoMemory),
        Err(End::Fault(_)) => unreachable!(),
    }
}

/// The image for one hart that a file spells.
pub(crate) fn image_in(bytes: &[u8]) -> Image<'_>
    requires { IsSpelled OneHart bytes.now }
    ensures only { IsImageIn bytes.now result }
    ensures version { result.version ≡ OneHart }
{
    match read_image(bytes) {
        Ok(image) => image,
        Err(_) => unreachable!(),
    }
}

/// The report of a run of one hart of an image that meets the rules with a graph.
pub(crate) fn run_accepted(
    alloc: Global,
    image: &Image<'_>,
    graph: &Graph,
) -> Result<RunReport, NoMemory>
    requires { IsWellFormed (pair_profile image.now graph.now) image.now graph.now }
    ensures { IfOk result (IsSafeRun image.now graph.now undisturbed_script [] STEP_LIMIT) }
{
    match verify(alloc, image, graph) {
        Ok(checked) => run(
            alloc,
            &checked,
            &[],
            1,
            &mut Script::none(alloc),
            STEP_LIMIT,
        ),
        Err(End::Fault(_)) => unreachable!(),
        Err(End::NoMemory) => Err(NoMemory),
    }
}

/// The run of a generated object's program at a map, from its start.
fn begun<'a, 'b>(
    alloc: Global,
    prepared: &'a Prepared<'a, 'b>,
    map: &Map,
) -> Result<SourceRun<'a, 'b>, NoMemory>
    requires entry { entry_place prepared.now.program (codes "main") ≡ Some prepared.now.entry }
    requires fits { CanRunAt prepared.now map.now }
    ensures { IfOk result (IsSourceOn prepared.now map.now []) }
{
    wrong_is_not_legal();
    match source_on(alloc, prepared, ENTRY, map, &[]) {
        Ok(source) => Ok(source),
        Err(End::NoMemory) => Err(NoMemory),
        Err(End::Fault(_)) => unreachable!(),
    }
}

/// Compares the run of a generated object's program at a map with that of an image.
pub(crate) fn compare_at(
    alloc: Global,
    prepared: &Prepared<'_, '_>,
    map: &Map,
    image: &Image<'_>,
) -> Result<Compared, NoMemory>
    requires entry { entry_place prepared.now.program (codes "main") ≡ Some prepared.now.entry }
    requires fits { CanRunAt prepared.now map.now }
    ensures { IfOk result (IsAnswerAt prepared.now map.now image.now) }
{
    let mut source = begun(alloc, prepared, map)?;
    compare(alloc, &mut source, image, &[], STEP_LIMIT)
}
