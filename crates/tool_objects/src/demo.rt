ghost use Rattle.std.specs.Prelude.{◌≡◌, ℕ, IfOk, Ok, option_map, ◌∷◌, []};
ghost use Rattle.elf_writer.specs.Object.{object_bytes};
ghost use Rattle.cfi_gen.specs.Demo.{demo_parts};
ghost use Rattle.cfi_step.specs.declared.report.RunEnd.TheVariants as ends;
ghost use Rattle.gen_hardened.specs.Laws.{entered};
ghost use Rattle.cfi_harden.specs.Given.{alone};
ghost use Rattle.cfi_harden.specs.Hardened.{IsWrittenOf};
ghost use Rattle.cfi_harden.specs.Preparing.{Reads};
ghost use Rattle.cfi_meaning.specs.Hardened.{NeverDiffersOf};
ghost use Rattle.tool_objects.specs.Demonstration.{IsComparable, IsDemoPrepared, IsDifference, IsDrawn};
ghost use Rattle.tool_objects.specs.Rewrite.{IsMade};
ghost use Rattle.tool_objects.specs.Demo.{ExplainsDemo, IsDemoCompared, IsDemoRun, demo_asked, demo_status, demo_text, demo_words, first_walk};

use crate::compare::answer_status;
use crate::demonstration::{compare_at, image_in, made, prepared, program, run_accepted};
use cfi_compare::Compared;
use cfi_gen::object_of;
use cfi_harden::Prepared;
use cfi_rewrite::Hardened;
use cfi_step::{RunEnd, RunReport};
use obj_program::Items;
use rv_image::{Image, ImageVersion};
use rv_word::NoMemory;
use std::alloc::Global;
use std::fmt;
use tool_common::{line, status, steps};
use tool_report::{end_status, report_text};
use tool_words::DemoWords;

/// What `demo` is asked for: the number that an object is made from.
#[derive(Clone, Copy)]
pub struct DemoRequest {
    number: u32,
}

impl DemoRequest {
    /// What the words after the command ask for, if they are taken.
    pub fn of(words: DemoWords<'_>) -> Option<Self>
        ensures { option_map demo_asked result ≡ demo_words (words.entry.number.now ∷ []) }
    {
        Some(DemoRequest {
            number: steps(words.number)? as u32,
        })
    }
}

/// What is told where all went well: the bytes of the object, of the image and of its code, how many classes and sites the graph
/// has, how the run ended and how long it and its walk were, and how many system calls were compared.
#[derive(Clone, Copy)]
pub struct Shown {
    object: usize,
    image: usize,
    code: usize,
    classes: u64,
    sites: u64,
    exit: u8,
    steps: u64,
    walk: u64,
    calls: u64,
}

/// What a demonstration comes to.
#[derive(Drop)]
pub enum DemoOutcome {
    /// The run did not come to an exit.
    Ran(RunReport),
    /// It did, and the comparison came to no end.
    Compared(Compared),
    /// It did, and the program's run has the same system calls and the same end.
    Shown(Shown),
}

/// What is told of the image, and of the run.
#[derive(Clone, Copy)]
struct ImageLine(Shown);

#[derive(Clone, Copy)]
struct RunLine(Shown);

impl fmt::Display for ImageLine {
    ghost use Rattle.std.specs.Prelude.{Some};
    ghost use Rattle.tool_objects.specs.Demo.{image_line};

    ghost output = { λ line. Some (image_line line.0) };

    fn fmt<W: fmt::Write>(&self, f: &mut fmt::Formatter<W>) -> fmt::Result {
        let Shown {
            image,
            code,
            classes,
            sites,
            ..
        } = self.0;
        write!(
            f,
            "image {image} code {code} classes {classes} sites {sites}"
        )
    }
}

impl fmt::Display for RunLine {
    ghost use Rattle.std.specs.Prelude.{Some};
    ghost use Rattle.tool_objects.specs.Demo.{run_line};

    ghost output = { λ line. Some (run_line line.0) };

    fn fmt<W: fmt::Write>(&self, f: &mut fmt::Formatter<W>) -> fmt::Result {
        let Shown {
            exit,
            steps,
            walk,
            ..
        } = self.0;
        write!(f, "run exit {exit} steps {steps} walk {walk}")
    }
}

impl fmt::Display for Shown {
    ghost use Rattle.std.specs.Prelude.{Some};
    ghost use Rattle.tool_objects.specs.Demo.{shown_text};

    ghost output = { λ shown. Some (shown_text shown) };

    fn fmt<W: fmt::Write>(&self, f: &mut fmt::Formatter<W>) -> fmt::Result {
        let Shown { object, calls, .. } = *self;
        let image = ImageLine(*self);
        let run = RunLine(*self);
        write!(
            f,
            "object {object} functions 2000\n{image}\n{run}\ncompare same {calls}"
        )
    }
}

impl DemoOutcome {
    /// The status with which the program ends.
    pub fn status(&self) -> u8
        ensures { result ≡ demo_status self.now }
    {
        match self {
            DemoOutcome::Ran(report) => end_status(report.end),
            DemoOutcome::Compared(compared) => answer_status(compared),
            DemoOutcome::Shown(_) => status::WELL,
        }
    }

    /// The text that is put.
    pub fn text(&self, alloc: Global) -> Result<Vec<u8>, NoMemory>
        ensures { IfOk result (λ text. text.items ≡ demo_text self.now) }
    {
        match self {
            DemoOutcome::Ran(report) => report_text(alloc, ImageVersion::OneHart, report),
            DemoOutcome::Compared(compared) => line(alloc, compared),
            DemoOutcome::Shown(shown) => line(alloc, shown),
        }
    }
}

/// How many addresses the walk of the first hart has.
fn first_walk(report: &RunReport) -> u64
    ensures { result ≡ first_walk report.now.walks }
{
    match report.walks.as_slice().first() {
        Some(told) => told.walk,
        None => 0,
    }
}

/// What is told of a comparison that finds no difference, after a run that exits.
fn told(
    object: &[u8],
    hardened: &Hardened,
    image: &Image<'_>,
    report: &RunReport,
    exit: u8,
    compared: &Compared,
) -> DemoOutcome
    requires { ¬ IsDifference compared.now }
    ensures { (number : ℕ) → object.now ≡ object_bytes (demo_parts number)
        → IsDemoCompared number hardened.now image.now report.now exit compared.now → ExplainsDemo number result }
{
    match compared {
        Compared::Same(calls) => DemoOutcome::Shown(Shown {
            object: object.len(),
            image: hardened.image.len(),
            code: image.code().len(),
            classes: hardened.graph.classes(),
            sites: hardened.graph.sites(),
            exit,
            steps: report.steps,
            walk: first_walk(report),
            calls: *calls,
        }),
        Compared::Differs(..) => unreachable!(),
        Compared::Untame(reason, section, offset) => {
            DemoOutcome::Compared(Compared::Untame(*reason, *section, *offset))
        }
        Compared::Limit => DemoOutcome::Compared(Compared::Limit),
    }
}

/// Compares the program's run with a run of the image that exits.
fn after_exit(
    alloc: Global,
    object: &[u8],
    prepared: &Prepared<'_, '_>,
    hardened: &Hardened,
    image: &Image<'_>,
    report: &RunReport,
    exit: u8,
) -> Result<DemoOutcome, NoMemory>
    requires { IsComparable object.now prepared.now hardened.now.map image.now }
    ensures { (number : ℕ) → object.now ≡ object_bytes (demo_parts number)
        → IsDemoRun number hardened.now image.now report.now → report.now.end ≡ ends.Exit exit → IfOk result (ExplainsDemo number) }
{
    let compared = compare_at(alloc, prepared, &hardened.map, image)?;
    Ok(told(object, hardened, image, report, exit, &compared))
}

/// Compares the program's run with a run of the image, if that exits.
fn after_run(
    alloc: Global,
    object: &[u8],
    prepared: &Prepared<'_, '_>,
    hardened: &Hardened,
    image: &Image<'_>,
    report: RunReport,
) -> Result<DemoOutcome, NoMemory>
    requires { IsComparable object.now prepared.now hardened.now.map image.now }
    ensures { (number : ℕ) → object.now ≡ object_bytes (demo_parts number)
        → IsDemoRun number hardened.now image.now report → IfOk result (ExplainsDemo number) }
{
    let RunEnd::Exit(exit) = report.end else {
        return Ok(DemoOutcome::Ran(report));
    };
    after_exit(alloc, object, prepared, hardened, image, &report, exit)
}

/// Verifies and runs the image of a generated object that is hardened, and compares the program's run with it.
fn of_hardened(
    alloc: Global,
    object: &[u8],
    prepared: &Prepared<'_, '_>,
    hardened: &Hardened,
) -> Result<DemoOutcome, NoMemory>
    requires ready { IsDemoPrepared object.now prepared.now }
    requires made { IsMade (entered object.now) hardened.now }
    requires written { IsWrittenOf prepared.now hardened.now }
    requires same { NeverDiffersOf prepared.now hardened.now }
    ensures { (number : ℕ) → object.now ≡ object_bytes (demo_parts number) → IfOk result (ExplainsDemo number) }
{
    let image = image_in(hardened.image.as_slice());
    let report = run_accepted(alloc, &image, &hardened.graph)?;
    after_run(alloc, object, prepared, hardened, &image, report)
}

/// Hardens a generated object that is prepared, verifies its image, runs it, and compares the program's run with it.
fn of_prepared(
    alloc: Global,
    object: &[u8],
    prepared: &Prepared<'_, '_>,
) -> Result<DemoOutcome, NoMemory>
    requires { IsDemoPrepared object.now prepared.now }
    ensures { (number : ℕ) → object.now ≡ object_bytes (demo_parts number) → IfOk result (ExplainsDemo number) }
{
    let hardened = made(alloc, prepared)?;
    of_hardened(alloc, object, prepared, &hardened)
}

/// Prepares the program of a generated object, hardens it, verifies its image, runs it, and compares the program's run with it.
fn of_program(alloc: Global, object: &[u8], items: &Items<'_>) -> Result<DemoOutcome, NoMemory>
    requires drawn { IsDrawn object.now }
    requires read { Reads (alone object.now) (Ok items.now) }
    ensures { (number : ℕ) → object.now ≡ object_bytes (demo_parts number) → IfOk result (ExplainsDemo number) }
{
    let prepared = prepared(alloc, items)?;
    of_prepared(alloc, object, &prepared)
}

/// Prepares a generated object, hardens it, verifies its image, runs it, and compares the program's run with it.
fn of_object(alloc: Global, object: &[u8]) -> Result<DemoOutcome, NoMemory>
    requires { IsDrawn object.now }
    ensures { (number : ℕ) → object.now ≡ object_bytes (demo_parts number) → IfOk result (ExplainsDemo number) }
{
    let items = program(alloc, object)?;
    of_program(alloc, object, &items)
}

/// Hardens the object of a number, verifies its image, runs it, and compares the program's run with it.
pub fn demonstrate(alloc: Global, request: &DemoRequest) -> Result<DemoOutcome, NoMemory>
    ensures { IfOk result (ExplainsDemo request.now.number) }
{
    let file = object_of(alloc, request.number)?;
    of_object(alloc, &file)
}
