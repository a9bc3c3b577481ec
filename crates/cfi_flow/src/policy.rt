ghost use Rattle.std.specs.Prelude.{◌≡◌, ◌↔◌, ◌<◌, ◌≤◌, ℕ, IfOk, IfSome, None, length, MatchResult};
ghost use Rattle.std.specs.List.{All, Contains, filter_map};
ghost use Rattle.std.specs.List.Sorted.{IsStrictlyIncreasing};
ghost use Rattle.obj_program.specs.Program.{count};
ghost use Rattle.cfi_flow.specs.Drawn.{free_site, line_for};
ghost use Rattle.cfi_flow.specs.Policy.{EndsFrom, allowed, misses_target, place_named, wrong_from};
ghost use Rattle.cfi_class.specs.Tables.{IsTable};

use crate::kind::site_kind;
use crate::named::place_named;
use crate::wrong_line::WrongLine;
use cfi_class::{Entry, blank, note};
use cfi_policy::PolicyLine;
use obj_program::Items;
use rv_word::{End, NoMemory, Places};
use std::alloc::Global;

/// Whether a line has a target that names no instruction.
fn misses_target(items: &Items, line: &PolicyLine) -> bool
    ensures { result ≡ misses_target items.now line.now }
{
    line.targets
        .as_slice()
        .iter()
        .any(|name| place_named(items, name).is_none())
}

/// The site of a line that is not wrong, where a table has the lines before it.
fn free_site(items: &Items, table: &[Entry], line: &PolicyLine) -> Option<u64>
    requires { length table.now ≡ count items.now }
    ensures value { result ≡ free_site items.now table.now line.now }
    ensures there { IfSome result (λ k. k < count items.now) }
{
    let k = place_named(items, &line.site)?;
    if site_kind(items.item(k).kind).is_some()
        && table[k as usize].number().is_none()
        && !misses_target(items, line)
    {
        Some(k)
    } else {
        None
    }
}

/// The table of the lines that name the sites, where the first line has this number; or the first wrong line.
pub(crate) fn lines_by_site(
    alloc: Global,
    items: &Items,
    lines: &[PolicyLine],
    first: u64,
) -> Result<Vec<Entry>, End<WrongLine>>
    requires { first ≤ 3 }
    ensures { MatchResult result
        (λ v. (wrong_from first items.now lines.now ≡ None) × IsTable (line_for items.now lines.now) (count items.now) v.items)
        (λ e. EndsFrom first items.now lines.now e) }
{
    let mut table = blank(alloc, items.count())?;
    for j in 0..lines.len() {
        match free_site(items, table.as_slice(), &lines[j]) {
            Some(k) => note(&mut table, k, j as u64)?,
            None => return Err(End::Fault(WrongLine {
                number: j as u64 + first,
            })),
        }
    }
    Ok(table)
}

/// Puts places in rising order, each once.
fn drop_doubles(places: &mut Vec<u64>)
    ensures rising { IsStrictlyIncreasing places.new.items }
    ensures members { (a : ℕ) → Contains places.new.items a ↔ Contains places.old.items a }
{
    places.sort_unstable();
    places.dedup();
}

/// What a line allows: its targets by their places, rising, each once.
pub(crate) fn allowed(alloc: Global, items: &Items, line: &PolicyLine) -> Result<Places, NoMemory>
    ensures value { IfOk result (λ v. v ≡ allowed items.now line.now) }
    ensures there { IfOk result (λ v. All (λ t. t < count items.now) v) }
{
    let mut targets = named_places(alloc, items, line)?;
    drop_doubles(&mut targets);
    Ok(Places::of(targets))
}

/// The places that the targets of a line name, in their order.
fn named_places(alloc: Global, items: &Items, line: &PolicyLine) -> Result<Vec<u64>, NoMemory>
    ensures { IfOk result (λ v. v.items ≡ filter_map (place_named items.now) line.now.targets) }
{
    let places = line
        .targets
        .as_slice()
        .iter()
        .filter_map(|name| place_named(items, name))
        .collect(alloc)?;
    Ok(places)
}
