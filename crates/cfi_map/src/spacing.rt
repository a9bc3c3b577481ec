//! Where each place's gate and unit stand.

ghost use Rattle.std.specs.Prelude.{◌≡◌, ℕ, ◌<◌, ◌≤◌, ◌^◌, false, IfOk, MatchResult};
ghost use Rattle.rv_image.specs.Form.{graph_version};
ghost use Rattle.rv_image.specs.MemoryMap.{CODE_SIZE};
ghost use Rattle.obj_program.specs.Program.{count};
ghost use Rattle.cfi_layout.specs.Starts.{flag};
ghost use Rattle.cfi_leads.specs.Entered.{entered_at};
ghost use Rattle.cfi_map.specs.Groups.{AreFirstStores};
ghost use Rattle.cfi_map.specs.Placement.{whole_at};
ghost use Rattle.cfi_map.specs.Placing.{IsPlacementOf, PlaceEnds};
ghost use Rattle.cfi_map.specs.Shortening.{IsShortened, joined};
ghost use Rattle.cfi_map.specs.Sizes.{whole_size};

use crate::groups::{Grouping, is_store};
use crate::mapped::Mapped;
use crate::shorts::shorts;
use crate::sizes::{flag_at, grouped_sizes};
use cfi_closed::Closed;
use cfi_layout::{CodeTooLarge, Placement, code_size, shorten};
use cfi_leads::Leads;
use obj_program::Items;
use rv_image::Form;
use rv_image::memory_map::CODE_SIZE;
use rv_word::{End, NoMemory};
use std::alloc::Global;
use std::marker::Model;

/// A program at a placement.
#[derive(Drop)]
pub struct Spacing<'a, 'b> {
    mapped: Mapped<'a, 'b>,
    whole: Vec<bool>,
}

impl<'a, 'b> Model for Spacing<'a, 'b> {
    ghost use Rattle.cfi_map.specs.Placing.{Spaced};

    ghost Value = { Spaced };

    ghost view = { λ s. record { layout = s.mapped; whole = s.whole.items } };
}

impl<'a, 'b> Spacing<'a, 'b> {
    /// The program at the map.
    pub fn mapped(&self) -> &Mapped<'a, 'b>
        ensures { result.now ≡ self.now.layout }
    {
        &self.mapped
    }

    /// Of each place, whether its unit has its whole size: a branch that is written as one word and a store that is a later member of
    /// its group have not.
    pub fn whole(&self) -> &[bool]
        ensures { result.now ≡ self.now.whole }
    {
        self.whole.as_slice()
    }
}

/// Whether the code of a program has room in a form with every branch long and no group.
fn has_room(alloc: Global, form: Form, leads: &Leads) -> Result<(), End<CodeTooLarge>>
    ensures { MatchResult result
        (λ _. whole_size form leads.now ≤ CODE_SIZE)
        (λ e. PlaceEnds form leads.now e) }
{
    let sizes = grouped_sizes(alloc, leads, &[])?;
    let bytes = code_size(form, sizes.as_slice());
    if bytes > u128::from(CODE_SIZE) {
        return Err(End::Fault(CodeTooLarge { bytes }));
    }
    Ok(())
}

/// Which stores begin a group, where each that may join the one before it does.
fn first_stores(alloc: Global, leads: &Leads) -> Result<Vec<bool>, NoMemory>
    ensures { IfOk result (λ v. AreFirstStores leads.now v.items) }
{
    let grouping = Grouping::of(alloc, leads)?;
    let firsts = grouping.first_stores(alloc)?;
    Ok(firsts)
}

/// The placement of a program's parts, where these flags say which stores begin a group, with each branch short that can be.
fn shortened(
    alloc: Global,
    form: Form,
    leads: &Leads,
    firsts: &[bool],
) -> Result<Placement, NoMemory>
    requires { whole_size form leads.now ≤ CODE_SIZE }
    ensures { IfOk result (λ p. IsShortened form leads.now firsts.now p) }
{
    let sizes = grouped_sizes(alloc, leads, firsts)?;
    let branches = shorts(alloc, leads)?;
    let placement = shorten(alloc, form, sizes.as_slice(), branches.as_slice())?;
    Ok(placement)
}

/// Whether a part has its whole size.
fn is_whole(leads: &Leads, firsts: &[bool], placement: &Placement, k: u64) -> bool
    requires { k < count leads.now.program }
    ensures { result ≡ joined leads.now.program firsts.now placement.now.long k }
{
    if is_store(leads.item(k).kind) {
        flag_at(firsts, k)
    } else {
        placement.is_long(k as usize)
    }
}

/// Which parts have their whole size.
fn whole_parts(
    alloc: Global,
    leads: &Leads,
    firsts: &[bool],
    placement: &Placement,
) -> Result<Vec<bool>, NoMemory>
    requires { (k : ℕ) → flag placement.now.long k ≡ false → k < count leads.now.program }
    ensures { IfOk result (λ v. (k : ℕ) → whole_at v.items k ≡ joined leads.now.program firsts.now placement.now.long k) }
{
    let mut whole = Vec::new(alloc);
    for k in 0..leads.count() {
        whole.push(is_whole(leads, firsts, placement, k))?;
    }
    Ok(whole)
}

/// A program at the starts of its parts.
fn spaced<'a, 'b>(
    alloc: Global,
    form: Form,
    leads: Leads<'a, 'b>,
    firsts: &[bool],
    placement: &Placement,
) -> Result<Spacing<'a, 'b>, NoMemory>
    requires version { leads.closed.version ≡ graph_version form }
    requires firsts { AreFirstStores leads firsts.now }
    requires shortened { IsShortened form leads firsts.now placement.now }
    requires entry { leads.entry < count leads.program }
    ensures { IfOk result (λ s. IsPlacementOf form leads.entry.program leads.entry.closed leads.entry.entry s) }
{
    let count = leads.count() as usize;
    let whole = whole_parts(alloc, &leads, firsts, placement)?;
    let gates = Vec::from_slice(alloc, &placement.starts()[..count])?;
    let mapped = Mapped::of(alloc, form, leads, gates)?;
    Ok(Spacing { mapped, whole })
}

/// Places the code of a program in a form, which is entered at a place, with each store in the group before it that may join it, and each
/// branch short that can be: no fewer may be long. `CodeTooLarge` tells how many bytes the code would have with every branch long and no
/// group, where these are more than its region has.
pub fn place_program<'a, 'b>(
    alloc: Global,
    form: Form,
    items: &'a Items<'b>,
    closed: &'a Closed,
    entry: u64,
) -> Result<Spacing<'a, 'b>, End<CodeTooLarge>>
    requires version { closed.now.version ≡ graph_version form }
    requires entry { entry < count items.now }
    ensures { MatchResult result
        (λ s. IsPlacementOf form items.now closed.now entry s)
        (λ e. PlaceEnds form (entered_at items.now closed.now entry) e) }
{
    let leads = Leads::of(alloc, items, closed, entry)?;
    has_room(alloc, form, &leads)?;
    let firsts = first_stores(alloc, &leads)?;
    let firsts = firsts.as_slice();
    let placement = shortened(alloc, form, &leads, firsts)?;
    let spacing = spaced(alloc, form, leads, firsts, &placement)?;
    Ok(spacing)
}
