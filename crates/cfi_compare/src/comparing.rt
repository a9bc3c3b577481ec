//! The comparison of two runs, from both to the answer.

ghost use Rattle.std.specs.Prelude.{◌≡◌, ◌+◌, ◌*◌, ◌≤◌, ◌^◌, [], IfOk, is_some, option_map, replicate, slice_get};
ghost use Rattle.rv_image.specs.Image.{image_profile};
ghost use Rattle.rv_image.specs.Form.{graph_version, profile_for};
ghost use Rattle.rv_image.specs.MemoryMap.{profile_of};
ghost use Rattle.rv_code.specs.Run.{run_alone};
ghost use Rattle.rv_machine.specs.Parts.{hart_in, shared_in};
ghost use Rattle.src_machine.specs.Running.{source_of};
ghost use Rattle.cfi_map.specs.Source.{source_start};
ghost use Rattle.cfi_meaning.specs.Compared.{compared, compared_from, image_end};
ghost use Rattle.cfi_compare.specs.Followed.{IsAnswered, end_told, item_or, settled, settled_items};
ghost use Rattle.cfi_compare.specs.Told.{IsOwnState, told_answer, told_item};
ghost use Rattle.cfi_meaning.specs.Bounds.{entry_words_by, last_words, most_words_by};
ghost use Rattle.cfi_runs.specs.WholeRun.{undisturbed};

use crate::answer::Compared;
use crate::follow::follow;
use crate::item::{SideItem, image_end, item_at, same_item, source_end};
use crate::source::finish;
use rv_code::Events;
use rv_image::profile::START;
use rv_image::unit_words::ENTER_WORDS;
use rv_image::{Form, GraphVersion, Image};
use rv_machine::{Processor, Turn};
use rv_word::NoMemory;
use src_machine::{SourceRun, SourceTurn};
use std::alloc::Global;

/// The answer at an index where both lists have an item.
fn settle_items(index: u64, ours: SideItem, theirs: SideItem) -> Compared
    ensures { result ≡ settled_items index ours theirs }
{
    if same_item(&ours, &theirs) {
        Compared::Same(index)
    } else {
        Compared::Differs(index, ours, theirs)
    }
}

/// The answer where both lists are the same before an index.
fn settle(index: u64, has_ended: bool, ours: Option<SideItem>, theirs: Option<SideItem>) -> Compared
    ensures { result ≡ settled index has_ended ours theirs }
{
    let Some(ours) = ours else {
        return Compared::Limit;
    };
    match theirs {
        Some(theirs) => settle_items(index, ours, theirs),
        None if has_ended => Compared::Differs(index, ours, SideItem::Running),
        None => Compared::Limit,
    }
}

/// The answer for two runs that are alike before an index, by their system calls and how their last steps ended.
fn answer_at(
    alloc: Global,
    index: usize,
    ours: &Events,
    ours_end: SourceTurn,
    theirs: &Events,
    theirs_end: Turn,
) -> Result<Compared, NoMemory>
    ensures { IfOk result (λ answer. answer ≡ settled index (is_some (end_told ours_end))
        (item_or (slice_get ours.now index) (end_told ours_end))
        (item_or (slice_get theirs.now index) (option_map told_item (slice_get (image_end theirs_end) 0)))) }
{
    let end = source_end(ours_end);
    let has_ended = end.is_some();
    let ours = item_at(alloc, ours, index, end)?;
    let theirs = item_at(alloc, theirs, index, image_end(theirs_end))?;
    Ok(settle(index as u64, has_ended, ours, theirs))
}

/// How many steps an image takes at most for one of its program's, by its form and the sides of its graph.
fn most_words(form: Form, sides: u64) -> u64
    requires few { sides ≤ 2 }
    ensures value { result ≡ most_words_by (graph_version form) sides }
    ensures most { result ≤ 22 }
{
    match form.graph_version() {
        GraphVersion::OneLabel | GraphVersion::TwoLabels => 20 + sides,
        GraphVersion::CalleeSaves => 21,
    }
}

/// How many steps save the closing's address at the entry.
fn entry_words(form: Form) -> u64
    ensures value { result ≡ entry_words_by (graph_version form) }
    ensures most { result ≤ 5 }
{
    match form.graph_version() {
        GraphVersion::OneLabel | GraphVersion::TwoLabels => 0,
        GraphVersion::CalleeSaves => u64::from(ENTER_WORDS),
    }
}

/// How many steps an image takes at most for so many of its program's.
fn most_steps(form: Form, sides: u64, steps: u64) -> u64
    requires few { sides ≤ 2 }
    requires steps { steps ≤ 2 ^ 58 }
    ensures { result ≡ most_words_by (graph_version form) sides * steps + (last_words (profile_for form) + entry_words_by (graph_version form)) }
{
    most_words(form, sides) * steps + ((form.units_from() - START) / 4 + entry_words(form))
}

/// The answer for a program's run that made these system calls in some steps, the last of which was not untame, and a
/// processor at the start of its image, which takes so many steps at most.
fn with_processor(
    alloc: Global,
    events: &Events,
    turn: SourceTurn,
    most: u64,
    processor: &mut Processor,
) -> Result<Compared, NoMemory>
    requires none { (shared_in processor.old).events ≡ [] }
    ensures { IfOk result (λ answer. IsAnswered events.now turn
        (run_alone (profile_of processor.old.memory.version) (hart_in processor.old) (shared_in processor.old) (replicate most [])) answer) }
{
    let (end, index) = follow(processor, events, most)?;
    let answer = answer_at(alloc, index, events, turn, processor.system().events(), end)?;
    Ok(answer)
}

/// The same, by the image.
fn with_image(
    alloc: Global,
    events: &Events,
    turn: SourceTurn,
    most: u64,
    image: &Image,
    input: &[u8],
) -> Result<Compared, NoMemory>
    ensures { IfOk result (λ answer. IsAnswered events.now turn (undisturbed (image_profile image.now) image.now input.now most) answer) }
{
    let mut processor = Processor::new(alloc, image, input)?;
    with_processor(alloc, events, turn, most, &mut processor)
}

/// Runs a program, from the state in which its run is, until it ends, is untame or has taken `limit` steps, and an image with an
/// input, of whose harts one runs alone, for 21 steps for each of those and 13 more at most; for 22 where the program is closed for
/// graphs of version 2, and 17 more where its map is for images of version 2. Tells the first item at which they differ.
pub fn compare(
    alloc: Global,
    source: &mut SourceRun,
    image: &Image,
    input: &[u8],
    limit: u64,
) -> Result<Compared, NoMemory>
    requires fresh { source.old.steps ≡ 0 }
    requires limit { limit ≤ 2 ^ 58 }

    // The answer is that of the definition, from the run's own state.
    ensures compared { IfOk result (λ answer. answer
        ≡ told_answer source.old.layout.program (compared_from (image_profile image.now) source.old.layout (source_of source.old) image.now input.now limit)) }

    // So it is the comparison of a program and an image where the run is at its start, with the same input.
    ensures from_start { source_of source.old ≡ source_start source.old.layout input.now
        → IfOk result (λ answer. answer ≡ told_answer source.old.layout.program (compared (image_profile image.now) source.old.layout image.now input.now limit)) }

    // The program's run is where its own steps have led it, also where there was no memory.
    ensures own { IsOwnState source.old limit source.new }
{
    match finish(source, limit)? {
        SourceTurn::Untame(because, section, offset) => Ok(Compared::Untame(
            because, section, offset,
        )),
        turn => {
            let most = most_steps(source.form(), source.sides(), source.steps());
            let events = source.processor().system().events();
            let answer = with_image(alloc, events, turn, most, image, input)?;
            Ok(answer)
        }
    }
}
