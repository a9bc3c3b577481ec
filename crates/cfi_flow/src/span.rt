//! The spans of places that functions cover.

ghost use Rattle.std.specs.Prelude.{◌≡◌, ◌+◌, ◌||◌, ◌<◌, ◌≤◌, nat_lt, ℕ, IfOk, length, slice_index};
ghost use Rattle.obj_program.specs.Program.{Program, count, item_of};
ghost use Rattle.cfi_flow.specs.Sites.{are_in_one, covers};
ghost use Rattle.cfi_flow.specs.Spans.{AreEnds, AreFarthest, AreSpans, IsReach, begins_past, goes_inside, in_span, IsRising};

use crate::named::count_before;
use cfi_graph::SiteKind;
use obj_input::Func;
use obj_program::Items;
use rv_word::NoMemory;
use std::alloc::Global;

/// The places from an index on, up to another.
#[derive(Clone, Copy)]
pub(crate) struct Span {
    pub(crate) from: u64,
    pub(crate) to: u64,
}

/// The places that a function covers.
fn covered(items: &Items, func: Func) -> Span
    ensures { (k : ℕ) → k < count items.now → in_span result k ≡ covers (item_of items.now k) func }
{
    let places = items.places();
    let start = u128::from(func.offset);
    let end = start + u128::from(func.size);
    let from = count_before(places, func.section, start) as u64;
    let to = count_before(places, func.section, end) as u64;
    Span { from, to }
}

/// The places that each function covers.
fn covered_by_each(alloc: Global, items: &Items) -> Result<Vec<Span>, NoMemory>
    ensures { IfOk result (λ v. AreSpans items.now items.now.funcs v.items) }
{
    let mut spans = Vec::new(alloc);
    for j in 0..items.funcs() {
        spans.push(covered(items, items.func(j)))?;
    }
    Ok(spans)
}

/// Raises what a table has for the first place of a span to its end.
fn raise(table: &mut Vec<u64>, span: Span)
    ensures size { length table.new.items ≡ length table.old.items }
    ensures each { (k t : ℕ) → k < length table.old.items
        → nat_lt t (slice_index table.new.items k) ≡ (nat_lt t (slice_index table.old.items k) || begins_past k t span) }
{
    let from = span.from as usize;
    if from < table.len() && table[from] < span.to {
        table[from] = span.to;
    }
}

/// Of each place the farthest end of the spans that begin there.
fn ends(alloc: Global, places: u64, spans: &[Span]) -> Result<Vec<u64>, NoMemory>
    ensures { IfOk result (λ v. AreEnds places spans.now v.items) }
{
    let mut table = vec![in alloc; 0u64; places as usize]?;
    for span in spans {
        raise(&mut table, *span);
    }
    Ok(table)
}

/// The greater of two numbers.
fn greater(a: u64, b: u64) -> u64
    ensures first { a ≤ result }
    ensures second { b ≤ result }
    ensures least { a < result → result ≤ b }
{
    a.max(b)
}

/// Of each number the greatest up to it, in its place.
fn farthest(mut ends: Vec<u64>) -> Vec<u64>
    ensures { AreFarthest ends.items result.items }
{
    let mut end = 0;
    for k in 0..ends.len() {
        end = greater(end, ends[k]);
        ends[k] = end;
    }
    ends
}

/// Of each place how far the functions reach that cover it, or begin before it.
pub(crate) fn reach(alloc: Global, items: &Items) -> Result<Vec<u64>, NoMemory>
    ensures { IfOk result (λ v. IsReach items.now v.items) }
{
    let spans = covered_by_each(alloc, items)?;
    let ends = ends(alloc, items.count(), spans.as_slice())?;
    Ok(farthest(ends))
}

/// How many of some rising numbers are not past a place.
fn count_up_to(reach: &[u64], place: u64) -> usize
    requires { IsRising reach.now }
    ensures bound { result ≤ length reach.now }
    ensures before { (k : ℕ) → k < result → slice_index reach.now k ≤ place }
    ensures from { (k : ℕ) → result ≤ k → k < length reach.now → place < slice_index reach.now k }
{
    reach.partition_point(|end| *end <= place)
}

/// The places that functions cover that cover this one as well.
pub(crate) fn span_of(reach: &[u64], place: u64) -> Span
    requires rising { IsRising reach.now }
    requires place { place < length reach.now }
    ensures { (program : Program) → IsReach program reach.now → (t : ℕ) → t < count program
        → in_span result t ≡ are_in_one program (item_of program place) (item_of program t) }
{
    let from = count_up_to(reach, place) as u64;
    Span {
        from,
        to: reach[place as usize],
    }
}

/// The places into which a site may go beside the starts of functions: a jump to those that functions cover with it, a
/// call to none.
pub(crate) fn span_into(reach: &[u64], place: u64, kind: SiteKind) -> Span
    requires rising { IsRising reach.now }
    requires place { place < length reach.now }
    ensures { (program : Program) → IsReach program reach.now → (t : ℕ) → t < count program
        → in_span result t ≡ goes_inside program kind place t }
{
    match kind {
        SiteKind::Call => Span { from: 0, to: 0 },
        SiteKind::Jump => span_of(reach, place),
    }
}
