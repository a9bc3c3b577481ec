//! Sets that join what the spans of sites join, so that classes are found without each site's whole list.

ghost use Rattle.std.specs.Prelude.{◌≡◌, ◌+◌, ◌<◌, ◌≤◌, ℕ, Bool, List, [], IfOk, Some, length, slice_index_or};
ghost use Rattle.std.specs.Bool.{OnTrue};
ghost use Rattle.std.specs.List.Sorted.{IsStrictlyIncreasing};
ghost use Rattle.cfi_flow.specs.Closing.{sets_of};
ghost use Rattle.cfi_flow.specs.Joins.{HaveCommon, IsJoining, JoinAs};
ghost use Rattle.cfi_flow.specs.Kept.{AreKept, IsAimed, open_targets, sites_of, targets_of};
ghost use Rattle.cfi_flow.specs.Pointed.{ArePoints};

use crate::draw::{Aim, Drawing, copied};
use crate::points::{Points, points_of};
use crate::span::Span;
use rv_word::{NoMemory, Places};
use std::alloc::Global;

/// Lists that join what the targets of some sites join. The last one still grows: it has all targets of the last site
/// that goes into a span, so that of the next such site only what is new is put into it.
#[derive(Drop)]
pub(crate) struct Joining {
    lists: Vec<Places>,
    group: Vec<u64>,
    last: Option<Span>,
}

/// What two spans have in common, where the second begins no earlier.
fn common(last: Span, span: Span) -> Span
    ensures from { result.from ≡ span.from }
    ensures to { (t : ℕ) → t < result.to → (t < span.to) × (t < last.to) }
{
    let to = span.to.min(last.to);
    Span {
        from: span.from,
        to,
    }
}

/// Whether two sites have a target in common, of which the second goes into a span that begins no earlier.
fn is_linked(points: &Points, last: Span, span: Span) -> bool
    requires order { last.from ≤ span.from }
    requires rising { IsStrictlyIncreasing points.now.taken.items }
    ensures { (taken begun : List Bool) → ArePoints taken begun points.now
        → OnTrue result (HaveCommon (open_targets taken begun last) (open_targets taken begun span)) }
{
    !points.starts().is_empty() || !points.within(common(last, span)).is_empty()
}

/// What a span has past the end of another.
fn past(last: Span, span: Span) -> Span
    ensures lower { span.from ≤ result.from }
    ensures least { (t : ℕ) → span.from ≤ t → last.to ≤ t → result.from ≤ t }
    ensures to { result.to ≡ span.to }
{
    let from = span.from.max(last.to);
    Span { from, to: span.to }
}

impl Joining {
    /// No lists.
    fn none(alloc: Global) -> Joining
        ensures { (sets : List (List ℕ)) (taken begun : List Bool) → IsJoining sets taken begun 0 result }
    {
        Joining {
            lists: Vec::new(alloc),
            group: Vec::new(alloc),
            last: None,
        }
    }

    /// With the list of a site.
    fn with_list(mut self, list: Places) -> Result<Joining, NoMemory>
        ensures { IfOk result (λ j. (sets : List (List ℕ)) (taken begun : List Bool) (k : ℕ)
            → IsJoining sets taken begun k self → slice_index_or sets k [] ≡ list → IsJoining sets taken begun (k + 1) j) }
    {
        self.lists.push(list)?;
        Ok(self)
    }

    /// With what is new of a site that has a target in common with the last one.
    fn with_more(mut self, points: &Points, last: Span, span: Span) -> Result<Joining, NoMemory>
        requires order { last.from ≤ span.from }
        requires rising { IsStrictlyIncreasing points.now.taken.items }
        requires last { self.last ≡ Some last }
        ensures { IfOk result (λ j. (sets : List (List ℕ)) (taken begun : List Bool) (k : ℕ)
            → ArePoints taken begun points.now → HaveCommon (open_targets taken begun last) (open_targets taken begun span)
            → IsJoining sets taken begun k self → slice_index_or sets k [] ≡ open_targets taken begun span
            → IsJoining sets taken begun (k + 1) j) }
    {
        self.group
            .extend_from_slice(points.within(past(last, span)))?;
        self.last = Some(span);
        Ok(self)
    }

    /// With a new list of what a site may go to.
    fn with_new(self, alloc: Global, points: &Points, span: Span) -> Result<Joining, NoMemory>
        requires { IsStrictlyIncreasing points.now.taken.items }
        ensures { IfOk result (λ j. (sets : List (List ℕ)) (taken begun : List Bool) (k : ℕ)
            → ArePoints taken begun points.now
            → IsJoining sets taken begun k self → slice_index_or sets k [] ≡ open_targets taken begun span
            → IsJoining sets taken begun (k + 1) j) }
    {
        let mut lists = self.lists;
        lists.push(Places::of(self.group))?;
        let mut group = Vec::from_slice(alloc, points.starts())?;
        group.extend_from_slice(points.within(span))?;
        Ok(Joining {
            lists,
            group,
            last: Some(span),
        })
    }

    /// With a site that goes to the starts of functions and into a span.
    fn with_open(self, alloc: Global, points: &Points, span: Span) -> Result<Joining, NoMemory>
        requires { IsStrictlyIncreasing points.now.taken.items }
        ensures { IfOk result (λ j. (sets : List (List ℕ)) (taken begun : List Bool) (k : ℕ)
            → ArePoints taken begun points.now
            → IsJoining sets taken begun k self → slice_index_or sets k [] ≡ open_targets taken begun span
            → IsJoining sets taken begun (k + 1) j) }
    {
        match self.last {
            Some(_) if span.to <= span.from => Ok(self),
            Some(last) if last.from <= span.from && is_linked(points, last, span) => {
                let joining = self.with_more(points, last, span)?;
                Ok(joining)
            }
            _ => self.with_new(alloc, points, span),
        }
    }

    /// With one site more.
    fn with_site(
        self,
        alloc: Global,
        lists: &[Places],
        points: &Points,
        aim: Aim,
    ) -> Result<Joining, NoMemory>
        requires rising { IsStrictlyIncreasing points.now.taken.items }
        requires aimed { IsAimed (length lists.now) aim }
        ensures { IfOk result (λ j. (sets : List (List ℕ)) (taken begun : List Bool) (k : ℕ)
            → ArePoints taken begun points.now
            → IsJoining sets taken begun k self → slice_index_or sets k [] ≡ targets_of lists.now taken begun aim
            → IsJoining sets taken begun (k + 1) j) }
    {
        match aim {
            Aim::Listed(j) => {
                let list = copied(alloc, lists[j as usize].as_slice())?;
                let joining = self.with_list(list)?;
                Ok(joining)
            }
            Aim::Open(span) => self.with_open(alloc, points, span),
        }
    }

    /// The lists.
    fn into_lists(self) -> Result<Vec<Places>, NoMemory>
        ensures { IfOk result (λ v. (sets : List (List ℕ)) (taken begun : List Bool)
            → IsJoining sets taken begun (length sets) self → JoinAs sets v.items) }
    {
        let mut lists = self.lists;
        lists.push(Places::of(self.group))?;
        Ok(lists)
    }
}

/// Lists that join the same targets as the sites' sets, and have together about as many members as there are places and names in
/// the policy.
pub(crate) fn joined(alloc: Global, drawing: &Drawing) -> Result<Vec<Places>, NoMemory>
    requires { AreKept drawing.now }
    ensures { IfOk result (λ v. JoinAs (sets_of (sites_of drawing.now)) v.items) }
{
    let points = points_of(alloc, drawing.taken.as_slice(), drawing.begun.as_slice())?;
    let mut joining = Joining::none(alloc);
    for site in &drawing.sites {
        joining = joining.with_site(alloc, drawing.lists.as_slice(), &points, site.aim)?;
    }
    let lists = joining.into_lists()?;
    Ok(lists)
}
