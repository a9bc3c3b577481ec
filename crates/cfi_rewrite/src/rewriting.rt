ghost use Rattle.std.specs.Prelude.{IfOk, option_copied};
ghost use Rattle.rv_image.specs.declared.form.Form.TheVariants as Form;
ghost use Rattle.cfi_harden.specs.Given.{alone};
ghost use Rattle.cfi_harden.specs.Prepared.{IsOfRequest, IsPreparedOf};
ghost use Rattle.cfi_harden.specs.Refused.{Hardens, HardensPrepared, HardensProgram};
ghost use Rattle.cfi_harden.specs.Request.{ProgramRequest, program_request};
ghost use Rattle.cfi_meaning.specs.Hardened.{KeepsMeaningAtMap, KeepsMeaningOf, NeverDiffersAtMap, NeverDiffersOf};

use cfi_harden::{Prepared, harden_prepared, harden_program, program_of};
use cfi_meaning::laws::{hardened_keeps_meaning, hardened_never_differs};
use cfi_writer::Hardened;
use obj_program::Items;
use refusals::Refusal;
use rv_image::Form;
use rv_word::End;
use std::alloc::Global;

/// Hardens an object (System V gABI, "Object Files"; RISC-V ELF psABI) in a form: its image, its graph and its map, or the first
/// that stands against that. The program is entered at the first symbol with the entry's name. A policy is a text that narrows
/// what computed transfers may go to.
#[tactic(auto, using(crate::proofs::OfHardened::not_read))]
pub fn rewrite_as(
    alloc: Global,
    form: Form,
    object: &[u8],
    entry: &str,
    policy: Option<&[u8]>,
) -> Result<Hardened, End<Refusal>>
    // What is written meets the verifier's rules, and is that of the program at a legal map; a refusal stands, and none before it
    // does.
    ensures hardens { Hardens (record { form = form; given = alone object.now; entry = entry.now; policy = option_copied policy.entry }) result }
    // With each input: when the program at the map has run n tame steps, goes on and is at no later store of a group, the image,
    // whose hart 0 runs alone and which nothing disturbs, is within 21 n + 13 steps, or 21 n + 17 in the forms for several harts,
    // at a state that matches; where the program's next step ends it, the image has ended alike within that of n + 1, with the
    // same events. In the forms `split` and `harts-split` it is 22 in place of 21. That from any state that matches the next tame
    // step is kept, and how near a later store stands to one that is none, are laws of `cfi_meaning`: `hardened_keeps_steps` and
    // `hardened_past_first`.
    ensures meaning_kept { IfOk result (λ h. KeepsMeaningAtMap (program_request (record { form = form; given = alone object.now; entry = entry.now; policy = option_copied policy.entry })) h) }
    // With each input and each limit: comparing the events and the end of the program's run with those of the image's tells no
    // difference.
    ensures never_differs { IfOk result (λ h. NeverDiffersAtMap (program_request (record { form = form; given = alone object.now; entry = entry.now; policy = option_copied policy.entry })) h) }
{
    let items = program_of(alloc, object)?;
    rewrite_joined(alloc, form, &items, entry, policy)
}

/// Hardens an object for one hart.
pub fn rewrite(
    alloc: Global,
    object: &[u8],
    entry: &str,
    policy: Option<&[u8]>,
) -> Result<Hardened, End<Refusal>>
    ensures hardens { Hardens (record { form = Form.Plain; given = alone object.now; entry = entry.now; policy = option_copied policy.entry }) result }
    ensures meaning_kept { IfOk result (λ h. KeepsMeaningAtMap (program_request (record { form = Form.Plain; given = alone object.now; entry = entry.now; policy = option_copied policy.entry })) h) }
    ensures never_differs { IfOk result (λ h. NeverDiffersAtMap (program_request (record { form = Form.Plain; given = alone object.now; entry = entry.now; policy = option_copied policy.entry })) h) }
{
    rewrite_as(alloc, Form::Plain, object, entry, policy)
}

/// Hardens a program in a form: that of one object, as `rewrite_as` does (`cfi_harden::program_of`), or of several that are joined
/// (`cfi_harden::joined_program`). It is lent, so that the same one can be hardened in several forms.
pub fn rewrite_joined(
    alloc: Global,
    form: Form,
    items: &Items<'_>,
    entry: &str,
    policy: Option<&[u8]>,
) -> Result<Hardened, End<Refusal>>
    ensures hardens { HardensProgram (record { form = form; program = items.now; entry = entry.now; policy = option_copied policy.entry }) result }
    ensures meaning_kept { IfOk result (λ h. KeepsMeaningAtMap (record { form = form; program = items.now; entry = entry.now; policy = option_copied policy.entry }) h) }
    ensures never_differs { IfOk result (λ h. NeverDiffersAtMap (record { form = form; program = items.now; entry = entry.now; policy = option_copied policy.entry }) h) }
{
    hardened_keeps_meaning();
    hardened_never_differs();
    harden_program(alloc, form, items, entry, policy)
}

/// Hardens a program that `cfi_harden::prepare_program` gave: its image, its graph and its map, or the first that stands against
/// placing it.
pub fn rewrite_prepared(
    alloc: Global,
    prepared: &Prepared<'_, '_>,
) -> Result<Hardened, End<Refusal>>
    requires { IsOfRequest prepared.now }
    ensures placed { HardensPrepared prepared.now result }
    // For each request of which it is the prepared program, this is what `rewrite_joined` promises.
    ensures hardens { (request : ProgramRequest) → IsPreparedOf request prepared.now → HardensProgram request result }
    ensures meaning_kept { IfOk result (λ h. KeepsMeaningOf prepared.now h) }
    ensures never_differs { IfOk result (λ h. NeverDiffersOf prepared.now h) }
{
    hardened_keeps_meaning();
    hardened_never_differs();
    harden_prepared(alloc, prepared)
}
