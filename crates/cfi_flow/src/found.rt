//! The classes of sites, found by their first targets.

ghost use Rattle.std.specs.Prelude.{◌≡◌, ◌<◌, Bool, List, IfOk, IfSome, length, map, option_and_then, slice_get};
ghost use Rattle.std.specs.List.Sorted.{IsStrictlyIncreasing};
ghost use Rattle.cfi_flow.specs.Found.{by_table};
ghost use Rattle.cfi_flow.specs.Kept.{AreKept, IsAimed, sites_of, targets_of};
ghost use Rattle.cfi_flow.specs.Pointed.{ArePoints};
ghost use Rattle.cfi_class.specs.Tables.{entry};

use crate::draw::{Aim, Drawing};
use crate::points::{Points, first, points_of};
use cfi_class::Entry;
use cfi_closed::Site;
use rv_word::{NoMemory, Places};
use std::alloc::Global;

/// The first target of a site.
fn first_target(points: &Points, lists: &[Places], aim: Aim) -> Option<u64>
    requires rising { IsStrictlyIncreasing points.now.taken.items }
    requires aimed { IsAimed (length lists.now) aim }
    ensures { (taken begun : List Bool) → ArePoints taken begun points.now
        → result ≡ slice_get (targets_of lists.now taken begun aim) 0 }
{
    match aim {
        Aim::Listed(j) => first(lists[j as usize].as_slice()),
        Aim::Open(span) => points.first_open(span),
    }
}

/// What a table has for a place.
fn entry_of(table: &[Entry], place: Option<u64>) -> Option<u64>
    requires { IfSome place (λ t. t < length table.now) }
    ensures { result ≡ option_and_then (entry table.now) place }
{
    match place {
        Some(t) => table[t as usize].number(),
        None => None,
    }
}

/// The sites, each with what a table has for the first of its targets.
pub(crate) fn sites_by(
    alloc: Global,
    drawing: &Drawing,
    table: &[Entry],
) -> Result<Vec<Site>, NoMemory>
    requires kept { AreKept drawing.now }
    requires table { length table.now ≡ length drawing.now.taken.items }
    ensures { IfOk result (λ v. v.items ≡ map (by_table table.now) (sites_of drawing.now)) }
{
    let points = points_of(alloc, drawing.taken.as_slice(), drawing.begun.as_slice())?;
    let mut sites = Vec::new(alloc);
    for site in &drawing.sites {
        let first = first_target(&points, drawing.lists.as_slice(), site.aim);
        let class = entry_of(table, first);
        sites.push(Site {
            place: site.place,
            class,
        })?;
    }
    Ok(sites)
}
