ghost use Rattle.std.specs.Prelude.{◌≡◌, ◌<◌, IfOk, length, map};
ghost use Rattle.std.specs.List.{All};
ghost use Rattle.cfi_closed.specs.declared.side.Site.{Site};
ghost use Rattle.cfi_closed.specs.Closed as closed;
ghost use Rattle.cfi_closed.specs.Closed.{IsSideInside, sorts_of};
ghost use Rattle.cfi_closed.specs.Found.{site_with};
ghost use Rattle.cfi_flow.specs.Closing.{AreClasses, IsClosed, IsSide, sets_of, with_class};
ghost use Rattle.cfi_class.specs.Tables.{IsTable};

use crate::raw::Raw;
use cfi_class::{Entry, blank, note, table_of};
use cfi_closed::{Closed, Side, Site, sorts_of};
use cfi_graph::Sort;
use rv_image::GraphVersion;
use rv_word::NoMemory;
use std::alloc::Global;

/// The table of the sites that stand at the places.
fn site_table(alloc: Global, places: u64, sites: &[Site]) -> Result<Vec<Entry>, NoMemory>
    requires { All (λ (s : Site). s.place < places) sites.now }
    ensures { IfOk result (λ v. IsTable (site_with sites.now) places v.items) }
{
    let mut table = blank(alloc, places)?;
    for i in 0..sites.len() {
        note(&mut table, sites[i].place, i as u64)?;
    }
    Ok(table)
}

/// All sites with the classes of their targets, as a side of a sort: targets are of one class where a chain of sites
/// joins them, and each site reaches the whole class of its targets.
fn side_of(alloc: Global, sort: Sort, raw: &Raw) -> Result<Side, NoMemory>
    ensures sort { IfOk result (λ s. s.sort ≡ sort) }
    ensures classes { IfOk result (λ s. AreClasses (sets_of raw.now.sites) s.classes) }
    ensures sites { IfOk result (λ s. s.sites ≡ map (with_class s.classes) raw.now.sites) }
    ensures inside { IfOk result (λ s. IsSideInside (length raw.now.taken) s) }
{
    let places = raw.places();
    let classes = raw.classes(alloc)?;
    let class_at = table_of(alloc, places, classes.as_slice())?;
    let sites = raw.sites_by(alloc, class_at.as_slice())?;
    let site_at = site_table(alloc, places, sites.as_slice())?;
    Ok(Side::of(sort, classes, sites, class_at, site_at))
}

/// The side of a sort.
fn close_side(alloc: Global, sort: Sort, raw: &Raw) -> Result<Side, NoMemory>
    ensures sort { IfOk result (λ s. s.sort ≡ sort) }
    ensures right { IfOk result (λ s. IsSide raw.now s) }
    ensures inside { IfOk result (λ s. IsSideInside (length raw.now.taken) s) }
{
    match sort {
        Sort::Both => side_of(alloc, sort, raw),
        Sort::Calls | Sort::Jumps => {
            let own = raw.for_sort(alloc, sort)?;
            side_of(alloc, sort, &own)
        }
    }
}

/// The sides under a version of graphs.
fn close_sides(alloc: Global, version: GraphVersion, raw: &Raw) -> Result<Vec<Side>, NoMemory>
    ensures sorts { IfOk result (λ v. map (λ (s : closed.Side). s.sort) v.items ≡ sorts_of version) }
    ensures right { IfOk result (λ v. All (IsSide raw.now) v.items) }
    ensures inside { IfOk result (λ v. All (IsSideInside (length raw.now.taken)) v.items) }
{
    let mut sides = Vec::new(alloc);
    for sort in sorts_of(version) {
        sides.push(close_side(alloc, *sort, raw)?)?;
    }
    Ok(sides)
}

/// The closed graph for a version of graphs. Each side is closed by its own sites alone.
pub fn close(alloc: Global, version: GraphVersion, raw: &Raw) -> Result<Closed, NoMemory>
    ensures { IfOk result (λ c. IsClosed version raw.now c) }
{
    let sides = close_sides(alloc, version, raw)?;
    let taken = Vec::from_slice(alloc, raw.marks())?;
    Ok(Closed::of(version, sides, taken, raw.calls()))
}
