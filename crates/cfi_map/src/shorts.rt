//! Which branches may be short, as parts of a placement.

ghost use Rattle.std.specs.Prelude.{◌≡◌, ◌<◌, ◌≤◌, ◌^◌, Bool, IfOk, List, OnOk, sum};
ghost use Rattle.rv_image.specs.MemoryMap.{CODE_SIZE};
ghost use Rattle.obj_program.specs.Program.{count};
ghost use Rattle.cfi_layout.specs.LongSet.{AreShorts};
ghost use Rattle.cfi_map.specs.Shorts.{short_at, shorts_of, with_short, is_branch, is_kept, is_skipped};
ghost use Rattle.cfi_map.specs.Sizes.{grouped_parts, whole_sizes};

use cfi_layout::Short;
use cfi_leads::Leads;
use obj_input::ItemKind;
use rv_word::NoMemory;
use std::alloc::Global;

/// Whether a kind of place is a branch's.
fn is_branch(kind: ItemKind) -> bool
    ensures { result ≡ is_branch kind }
{
    kind == ItemKind::Branch
}

/// Whether the unit of a kind of place begins with a JAL that links nothing, behind a lead of so many bytes.
fn is_skipped(kind: ItemKind, lead: u32) -> bool
    ensures { result ≡ is_skipped kind lead }
{
    match kind {
        ItemKind::Jump => lead == 0,
        ItemKind::End => true,
        _ => false,
    }
}

/// Whether a branch is long wherever it stands: it leads over one such place.
fn is_kept(leads: &Leads, place: u64, target: u64) -> bool
    requires place { place < count leads.now.program }
    requires target { target < count leads.now.program }
    ensures { result ≡ is_kept leads.now place target }
{
    let _sound = leads.count();
    target == place + 2 && is_skipped(leads.item(place + 1).kind, leads.size(place + 1))
}

/// The branch at a place, if there is one.
fn short_at(leads: &Leads, place: u64) -> Option<Short>
    requires place { place < count leads.now.program }
    requires few { count leads.now.program < 2 ^ 32 }
    ensures { result ≡ short_at leads.now place }
{
    let _sound = leads.count();
    let item = leads.item(place);
    match item.target {
        Some(target) if is_branch(item.kind) => Some(Short {
            at: place as u32,
            target: target as u32,
            lead: leads.size(place),
            keep: is_kept(leads, place, target),
        }),
        _ => None,
    }
}

/// Puts a branch at the end of a list, if there is one.
fn push_some(shorts: &mut Vec<Short>, short: Option<Short>) -> Result<(), NoMemory>
    ensures { OnOk result (shorts.new.items ≡ with_short shorts.old.items short) }
{
    if let Some(short) = short {
        shorts.push(short)?;
    }
    Ok(())
}

/// The branches of a program, in the order of places, as `shorten` takes them.
pub(crate) fn shorts(alloc: Global, leads: &Leads) -> Result<Vec<Short>, NoMemory>
    requires { sum (whole_sizes leads.now) ≤ CODE_SIZE }
    ensures value { IfOk result (λ v. v.items ≡ shorts_of leads.now) }
    ensures fit { IfOk result (λ v. (firsts : List Bool) → AreShorts v.items (grouped_parts leads.now firsts)) }
{
    let mut shorts = Vec::new(alloc);
    for k in 0..leads.count() {
        push_some(&mut shorts, short_at(leads, k))?;
    }
    Ok(shorts)
}
