//! The raw graph of a program: its sites, and where each may go.

ghost use Rattle.std.specs.Prelude.{◌≡◌, ◌+◌, ◌++◌, ◌∷◌, ◌<◌, [], IfOk, MatchResult, map};
ghost use Rattle.obj_program.specs.declared.item.Item.{Item};
ghost use Rattle.obj_program.specs.Program.{count};
ghost use Rattle.cfi_flow.specs.Drawn.{IsDrawn, IsOf, line_for};
ghost use Rattle.cfi_flow.specs.Kept.{sites_of, site_with};
ghost use Rattle.cfi_flow.specs.Policy.{Ends, IsRaw, targets_under};
ghost use Rattle.cfi_flow.specs.Spans.{IsReach};
ghost use Rattle.cfi_class.specs.Tables.{IsTable};

use crate::begin::begun;
use crate::draw::Drawing;
use crate::kind::site_kind;
use crate::policy::{allowed, lines_by_site};
use crate::raw::Raw;
use crate::span::{reach, span_into};
use crate::wrong_line::WrongLine;
use cfi_class::Entry;
use cfi_graph::SiteKind;
use cfi_policy::{Policy, PolicyLine};
use obj_program::Items;
use rv_word::{End, NoMemory};
use std::alloc::Global;

/// Of each place, whether a relocation takes its address.
fn taken_places(alloc: Global, items: &Items) -> Result<Vec<bool>, NoMemory>
    ensures { IfOk result (λ v. v.items ≡ map (λ (i : Item). i.taken) items.now.items) }
{
    let taken = items
        .places()
        .iter()
        .map(|place| place.is_taken())
        .collect(alloc)?;
    Ok(taken)
}

/// The drawing with the site at a place.
fn with_site(
    alloc: Global,
    items: &Items,
    lines: &[PolicyLine],
    line: Option<u64>,
    reach: &[u64],
    drawing: Drawing,
    k: u64,
    kind: SiteKind,
) -> Result<Drawing, NoMemory>
    requires of { IsOf items.now drawing }
    requires place { k < count items.now }
    requires line { line ≡ line_for items.now lines.now k }
    requires reach { IsReach items.now reach.now }
    ensures sites { IfOk result (λ d. sites_of d ≡ sites_of drawing ++ site_with k kind (targets_under items.now lines.now kind k) ∷ []) }
    ensures of { IfOk result (λ d. IsOf items.now d) }
{
    match line {
        Some(j) => {
            let targets = allowed(alloc, items, &lines[j as usize])?;
            drawing.with_listed(k, kind, targets)
        }
        None => drawing.with_open(k, kind, span_into(reach, k, kind)),
    }
}

/// The drawing with what stands at a place.
fn with_place(
    alloc: Global,
    items: &Items,
    lines: &[PolicyLine],
    table: &[Entry],
    reach: &[u64],
    drawing: Drawing,
    k: u64,
) -> Result<Drawing, NoMemory>
    requires drawn { IsDrawn items.now lines.now k drawing }
    requires place { k < count items.now }
    requires table { IsTable (line_for items.now lines.now) (count items.now) table.now }
    requires reach { IsReach items.now reach.now }
    ensures { IfOk result (λ d. IsDrawn items.now lines.now (k + 1) d) }
{
    match site_kind(items.item(k).kind) {
        Some(kind) => {
            let line = table[k as usize].number();
            let drawing = with_site(alloc, items, lines, line, reach, drawing, k, kind)?;
            Ok(drawing)
        }
        None => Ok(drawing),
    }
}

/// The drawing without sites.
fn without_sites(alloc: Global, items: &Items) -> Result<Drawing, NoMemory>
    ensures sites { IfOk result (λ d. sites_of d ≡ []) }
    ensures of { IfOk result (λ d. IsOf items.now d) }
{
    let taken = taken_places(alloc, items)?;
    let begun = begun(alloc, items)?;
    Ok(Drawing {
        sites: Vec::new(alloc),
        lists: Vec::new(alloc),
        taken,
        begun,
    })
}

/// All sites of a program, where a table has the lines of the policy that name them.
fn drawn(
    alloc: Global,
    items: &Items,
    lines: &[PolicyLine],
    table: &[Entry],
) -> Result<Drawing, NoMemory>
    requires { IsTable (line_for items.now lines.now) (count items.now) table.now }
    ensures { IfOk result (λ d. IsDrawn items.now lines.now (count items.now) d) }
{
    let reach = reach(alloc, items)?;
    let mut drawing = without_sites(alloc, items)?;
    for k in 0..items.count() {
        drawing = with_place(alloc, items, lines, table, reach.as_slice(), drawing, k)?;
    }
    Ok(drawing)
}

/// The raw graph of a program under a policy: its computed calls and jumps with the places that each may go to. A line of
/// the policy gives one site its targets in place of those that the program gives it.
pub fn raw_graph(alloc: Global, items: &Items, policy: &Policy) -> Result<Raw, End<WrongLine>>
    ensures { MatchResult result (λ r. IsRaw items.now policy.now r) (λ e. Ends items.now policy.now e) }
{
    let lines = policy.as_slice();
    let table = lines_by_site(alloc, items, lines, policy.first_line())?;
    let drawing = drawn(alloc, items, lines, table.as_slice())?;
    Ok(Raw::of(drawing, policy.calls()))
}
