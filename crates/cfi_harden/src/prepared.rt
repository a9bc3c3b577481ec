ghost use Rattle.std.specs.Prelude.{option_copied};
ghost use Rattle.rv_image.specs.Form.{graph_version};
ghost use Rattle.cfi_harden.specs.Given.{alone};
ghost use Rattle.cfi_harden.specs.Preparing.{Enters, Reads};
ghost use Rattle.cfi_harden.specs.Refused.{PreparesProgram};
ghost use Rattle.cfi_harden.specs.Request.{ProgramRequest};

use crate::closing::closed_under;
use cfi_closed::Closed;
use cfi_flow::entry_place;
use elf_object::Object;
use obj_items::items;
use obj_program::Items;
use refusals::Refusal;
use rv_image::Form;
use rv_word::End;
use std::alloc::Global;
use std::marker::Model;

/// A program, which is lent, with its closed graph under a policy and the place where it is entered, and the form in which it is
/// to be written.
#[derive(Drop)]
pub struct Prepared<'a, 'b> {
    pub form: Form,
    pub items: &'a Items<'b>,
    pub closed: Closed,
    pub entry: u64,
}

impl<'a, 'b> Model for Prepared<'a, 'b> {
    ghost use Rattle.cfi_harden.specs.Prepared.{PreparedParts};

    ghost Value = { PreparedParts };

    ghost view = { λ p. record { form = p.form; program = p.items.now; closed = p.closed; entry = p.entry } };
}

/// The program of an object, or what is wrong with the object.
pub fn program_of<'a>(alloc: Global, object: &'a [u8]) -> Result<Items<'a>, End<Refusal>>
    ensures { Reads (alone object.now) result }
{
    let object = match Object::read(alloc, object) {
        Ok(object) => object,
        Err(End::Fault(fault)) => return Err(End::Fault(Refusal::Object(fault))),
        Err(End::NoMemory) => return Err(End::NoMemory),
    };
    match items(alloc, &object) {
        Ok(items) => Ok(items),
        Err(End::Fault(fault)) => Err(End::Fault(Refusal::Items(fault))),
        Err(End::NoMemory) => Err(End::NoMemory),
    }
}

/// The place where a program is entered, at the first symbol of a name, and its closed graph under a policy, if there is
/// one, to be written in a form.
fn entered(
    alloc: Global,
    form: Form,
    items: &Items,
    entry: &str,
    policy: Option<&[u8]>,
) -> Result<(u64, Closed), End<Refusal>>
    ensures { Enters (graph_version form) items.now entry.now (option_copied policy.entry) result }
{
    let Some(entry) = entry_place(items, entry.as_bytes()) else {
        return Err(End::Fault(Refusal::NoEntry));
    };
    let closed = closed_under(alloc, form, items, policy)?;
    Ok((entry, closed))
}

/// A program with its closed graph under a policy, if there is one, entered at the first symbol of a name, to be written in a
/// form.
#[tactic(auto, using(crate::proofs::Preparing::is_prepared, crate::proofs::Preparing::not_entered))]
pub fn prepare_program<'a, 'b>(
    alloc: Global,
    form: Form,
    items: &'a Items<'b>,
    entry: &str,
    policy: Option<&[u8]>,
) -> Result<Prepared<'a, 'b>, End<Refusal>>
    ensures { PreparesProgram (record { form = form; program = items.now; entry = entry.now; policy = option_copied policy.entry }) result }
{
    let (entry, closed) = entered(alloc, form, items, entry, policy)?;
    Ok(Prepared {
        form,
        items,
        closed,
        entry,
    })
}
