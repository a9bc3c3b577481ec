//! The calls that harden a program, to what is written.

ghost use Rattle.std.specs.Prelude.{◌<◌, IfOk, option_copied, sum};
ghost use Rattle.rv_image.specs.MemoryMap.{CODE_SIZE};
ghost use Rattle.cfi_writer.specs.GraphOf.{IsGraphOf};
ghost use Rattle.cfi_writer.specs.Hardened.{AreGiven};
ghost use Rattle.cfi_harden.specs.Prepared.{IsOfRequest, IsPreparedOf, entered_of};
ghost use Rattle.cfi_harden.specs.Refused.{HardensPrepared, HardensProgram};
ghost use Rattle.cfi_harden.specs.Request.{ProgramRequest};
ghost use Rattle.cfi_map.specs.Sizes.{whole_sizes};
ghost use Rattle.cfi_harden.specs.Ready.{IsReady};

use crate::prepared::{Prepared, prepare_program};
use crate::room::spaced_in_room;
use crate::word_range::words_fit_in;
use cfi_writer::{Hardened, class_labels, written};
use obj_program::Items;
use refusals::Refusal;
use rv_image::Form;
use rv_word::{End, NoMemory};
use std::alloc::Global;

/// The labels of a prepared program's classes.
fn labels_of(alloc: Global, prepared: &Prepared) -> Result<Vec<u32>, NoMemory>
    requires graph { IsGraphOf prepared.now.program prepared.now.closed }
    requires room { sum (whole_sizes (entered_of prepared.now)) < CODE_SIZE }
    ensures { IfOk result (λ v. AreGiven prepared.now.program prepared.now.closed v.items) }
{
    class_labels(alloc, prepared.items, &prepared.closed)
}

/// Places a prepared program, with labels, and writes it.
#[tactic(auto, using(crate::proofs::Ready::written_of))]
fn placed_and_written(alloc: Global, prepared: &Prepared) -> Result<Hardened, End<Refusal>>
    requires { IsReady prepared.now }
    ensures { HardensPrepared prepared.now result }
{
    let spacing = spaced_in_room(alloc, prepared)?;
    let labels = labels_of(alloc, prepared)?;
    let hardened = written(alloc, prepared.form, &spacing, labels.as_slice())?;
    Ok(hardened)
}

/// Hardens a program that `prepare_program` gave: its image, its graph and its map, or the first that stands against placing it.
pub fn harden_prepared(alloc: Global, prepared: &Prepared) -> Result<Hardened, End<Refusal>>
    requires { IsOfRequest prepared.now }
    ensures placed { HardensPrepared prepared.now result }
    // This is what each request comes to of which it is the prepared program.
    ensures hardens { (request : ProgramRequest) → IsPreparedOf request prepared.now → HardensProgram request result }
{
    words_fit_in(prepared);
    placed_and_written(alloc, prepared)
}

/// Hardens a program in a form: its image, its graph and its map, or the first that stands against that. The program is entered at the first
/// symbol with the entry's name. A policy is a text that narrows what computed transfers may go to.
pub fn harden_program(
    alloc: Global,
    form: Form,
    items: &Items,
    entry: &str,
    policy: Option<&[u8]>,
) -> Result<Hardened, End<Refusal>>
    ensures { HardensProgram (record { form = form; program = items.now; entry = entry.now; policy = option_copied policy.entry }) result }
{
    let prepared = prepare_program(alloc, form, items, entry, policy)?;
    harden_prepared(alloc, &prepared)
}
