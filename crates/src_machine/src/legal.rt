//! Whether a map is a placement's.

ghost use Rattle.std.specs.Prelude.{◌≡◌, ◌==◌, ◌<◌, ◌≤◌, ◌+◌, ◌-◌, ◌^◌, IfSome, MatchResult, length};
ghost use Rattle.least.specs.First.{first_below};
ghost use Rattle.obj_program.specs.Program.{count, item_of};
ghost use Rattle.cfi_map.specs.Groups.{members_after};
ghost use Rattle.cfi_map.specs.LegalMap.{IsLegalMap};
ghost use Rattle.src_machine.specs.Beginning.{Ends};
ghost use Rattle.src_machine.specs.MapLine.{follows_at, has_whole, is_named, is_past_whole, is_wrong, may_be_short, stands, stores_before};

use crate::source_fault::SourceFault;
use cfi_leads::Leads;
use cfi_map::{Grouping, unit_size};
use cfi_map_text::{Map, MapLine};
use obj_input::ItemKind;
use obj_program::Item;
use rv_image::Form;
use rv_word::End;
use std::alloc::Global;

/// Whether an address is so many bytes behind another.
fn is_behind(address: u64, next: u64, bytes: u32) -> bool
    ensures { result ≡ (next == address + bytes) }
{
    address <= next && next - address == u64::from(bytes)
}

/// Whether a gate stands behind the unit of the place `k`, where that has its whole size.
fn is_past_whole(leads: &Leads, item: &Item, k: u64, gate: u64, next: u64) -> bool
    requires { k < count leads.now.program }
    ensures { result ≡ is_past_whole leads.now item.now k gate next }
{
    is_behind(gate, next, leads.size(k) + unit_size(leads, k, item, true))
}

/// Whether the unit of the place `k` has its whole size, by the gates; that of the last line has it.
fn has_whole(grouping: &Grouping, lines: &[MapLine], k: u64) -> bool
    requires line { k < length lines.now }
    requires place { k < count grouping.now.program }
    ensures { result ≡ has_whole grouping.now lines.now k }
{
    if lines.len() as u64 <= k + 1 {
        return true;
    }
    let leads = grouping.leads();
    let gate = lines[k as usize].gate;
    let next = lines[k as usize + 1].gate;
    is_past_whole(leads, &leads.item(k), k, gate, next)
}

/// How many stores the group has that ends with the place `k`, where so many end right before it.
fn members_past(grouping: &Grouping, lines: &[MapLine], k: u64, before: u64) -> u64
    requires line { k < length lines.now }
    requires place { k < count grouping.now.program }
    requires inside { before ≤ k }
    ensures { result ≡ members_after (item_of grouping.now.program k).kind (has_whole grouping.now lines.now k) before }
{
    match grouping.leads().item(k).kind {
        ItemKind::Store => {
            if has_whole(grouping, lines, k) {
                1
            } else {
                before + 1
            }
        }
        _ => 0,
    }
}

/// How many stores the group has that ends right before a place, where it is so many before the place before that.
fn stores_before(grouping: &Grouping, lines: &[MapLine], j: u64, before: u64) -> u64
    requires line { j ≤ length lines.now }
    requires place { 0 < j → j - 1 < count grouping.now.program }
    requires before { before ≡ stores_before grouping.now lines.now (j - 1) }
    ensures { result ≡ stores_before grouping.now lines.now j }
{
    if j == 0 {
        before
    } else {
        members_past(grouping, lines, j - 1, before)
    }
}

/// Whether the unit of the place `k` may be one word, where a group of so many stores ends right before it: a store has to join that.
fn may_be_short(grouping: &Grouping, kind: ItemKind, k: u64, before: u64) -> bool
    requires place { k < count grouping.now.program }
    requires inside { before ≤ k }
    ensures { result ≡ may_be_short grouping.now kind k before }
{
    match kind {
        ItemKind::Store => grouping.may_join(k, before),
        _ => true,
    }
}

/// Whether the gate of the line after that of the place `k` is where this lets it be.
fn follows_at(grouping: &Grouping, lines: &[MapLine], k: u64, before: u64) -> bool
    requires line { k + 1 < length lines.now }
    requires place { k < count grouping.now.program }
    requires inside { before ≤ k }
    ensures { result ≡ follows_at grouping.now lines.now k before }
{
    let leads = grouping.leads();
    let item = leads.item(k);
    let gate = lines[k as usize].gate;
    let next = lines[k as usize + 1].gate;
    is_past_whole(leads, &item, k, gate, next)
        || is_behind(
            gate,
            next,
            leads.size(k) + unit_size(leads, k, &item, false),
        ) && may_be_short(grouping, item.kind, k, before)
}

/// Whether the gate of a line is where the line before it lets it be.
fn stands(form: Form, grouping: &Grouping, lines: &[MapLine], j: u64, before: u64) -> bool
    requires line { j < length lines.now }
    requires place { j < count grouping.now.program }
    requires before { before ≡ stores_before grouping.now lines.now (j - 1) }
    ensures { result ≡ stands form grouping.now lines.now j }
{
    if j == 0 {
        lines[0].gate == form.units_from()
    } else {
        follows_at(grouping, lines, j - 1, before)
    }
}

/// Whether a line is that of its place, but for its gate.
fn is_named(grouping: &Grouping, lines: &[MapLine], j: u64) -> bool
    requires line { j < length lines.now }
    requires place { j < count grouping.now.program }
    ensures { result ≡ is_named grouping.now lines.now j }
{
    let line = lines[j as usize];
    grouping.leads().item(j).is_at(line.section, line.offset)
}

/// Whether a line is wrong; past the last one, whether lines are missing.
fn is_wrong(form: Form, grouping: &Grouping, lines: &[MapLine], j: u64, before: u64) -> bool
    requires line { j ≤ length lines.now }
    requires before { before ≡ stores_before grouping.now lines.now (j - 1) }
    ensures { result ≡ is_wrong form grouping.now lines.now j }
{
    let count = grouping.leads().count();
    if j < lines.len() as u64 {
        !(j < count && is_named(grouping, lines, j) && stands(form, grouping, lines, j, before))
    } else {
        j < count
    }
}

/// The index of the first wrong line.
fn first_wrong(form: Form, grouping: &Grouping, lines: &[MapLine]) -> Option<u64>
    ensures small { IfSome result (λ j. j < 2 ^ 63) }
    ensures value { result ≡ first_below (is_wrong form grouping.now lines.now) (length lines.now + 1) }
{
    let mut before = 0;
    for j in 0..lines.len() as u64 + 1 {
        if is_wrong(form, grouping, lines, j, before) {
            return Some(j);
        }
        before = stores_before(grouping, lines, j, before);
    }
    None
}

/// Refuses a map that is no legal placement's by the number of its first wrong line; by that of its line `end` where lines are missing.
pub(crate) fn check_map(alloc: Global, leads: &Leads, map: &Map) -> Result<(), End<SourceFault>>
    ensures { MatchResult result
        (λ done. IsLegalMap leads.now.program leads.now.closed leads.now.entry map.now)
        (λ e. Ends leads.now.program leads.now.closed leads.now.entry map.now e) }
{
    let grouping = Grouping::of(alloc, leads)?;
    match first_wrong(map.form(), &grouping, map.as_slice()) {
        Some(j) => Err(End::Fault(SourceFault::BadMap(j + 2))),
        None => Ok(()),
    }
}
