//! Taken places as rising lists, searched by bounds.

ghost use Rattle.std.specs.Prelude.{◌≡◌, ◌<◌, ◌≤◌, ◌-◌, ◌&&◌, ℕ, Bool, IfOk, length, slice_index, slice_get, take, drop, List};
ghost use Rattle.std.specs.List.Sorted.{IsStrictlyIncreasing};
ghost use Rattle.cfi_flow.specs.Below.{where_below};
ghost use Rattle.cfi_flow.specs.Kept.{open_targets};
ghost use Rattle.cfi_flow.specs.Pointed.{ArePoints, is_start};
ghost use Rattle.cfi_flow.specs.Spans.{in_span};

use crate::below::where_below;
use crate::span::Span;
use least::lesser;
use rv_word::NoMemory;
use std::alloc::Global;

/// The taken places of a program, rising: those at which functions begin, and all.
#[derive(Drop)]
pub(crate) struct Points {
    starts: Vec<u64>,
    taken: Vec<u64>,
}

/// Whether a taken place is one at which a function begins.
fn is_start(taken: &[bool], begun: &[bool], t: u64) -> bool
    requires taken { t < length taken.now }
    requires begun { t < length begun.now }
    ensures { result ≡ is_start taken.now begun.now t }
{
    taken[t as usize] && begun[t as usize]
}

/// The taken places, by the marks of all places.
pub(crate) fn points_of(alloc: Global, taken: &[bool], begun: &[bool]) -> Result<Points, NoMemory>
    requires { length begun.now ≡ length taken.now }
    ensures { IfOk result (λ p. ArePoints taken.now begun.now p) }
{
    let places = taken.len() as u64;
    let starts = where_below(alloc, places, |t| is_start(taken, begun, t))?;
    let taken = where_below(alloc, places, |t| taken[t as usize])?;
    Ok(Points { starts, taken })
}

/// How many of some rising places are before another.
fn count_below(places: &[u64], place: u64) -> usize
    requires { IsStrictlyIncreasing places.now }
    ensures bound { result ≤ length places.now }
    ensures before { (k : ℕ) → k < result → slice_index places.now k < place }
    ensures from { (k : ℕ) → result ≤ k → k < length places.now → place ≤ slice_index places.now k }
{
    places.partition_point(|at| *at < place)
}

/// From which on and up to which of some rising places are in a span.
fn bounds(places: &[u64], span: Span) -> (usize, usize)
    requires { IsStrictlyIncreasing places.now }
    ensures order { result.0 ≤ result.1 }
    ensures inside { result.1 ≤ length places.now }
    ensures part { (p : ℕ → Bool) (n : ℕ) → places.now ≡ where_below p n
        → take (result.1 - result.0) (drop result.0 places.now) ≡ where_below (λ t. p t && in_span span t) n }
{
    if span.from < span.to {
        (count_below(places, span.from), count_below(places, span.to))
    } else {
        (0, 0)
    }
}

/// Those of some rising places that are in a span.
fn within(places: &[u64], span: Span) -> &[u64]
    requires { IsStrictlyIncreasing places.now }
    ensures { (p : ℕ → Bool) (n : ℕ) → places.now ≡ where_below p n
        → result.now ≡ where_below (λ t. p t && in_span span t) n }
{
    let (from, to) = bounds(places, span);
    &places[from..to]
}

/// The first place of a list.
pub(crate) fn first(places: &[u64]) -> Option<u64>
    ensures { result ≡ slice_get places.now 0 }
{
    match places {
        [] => None,
        [first, ..] => Some(*first),
    }
}

impl Points {
    /// The taken places at which functions begin.
    pub(crate) fn starts(&self) -> &[u64]
        ensures { result.now ≡ self.now.starts.items }
    {
        self.starts.as_slice()
    }

    /// The taken places in a span.
    pub(crate) fn within(&self, span: Span) -> &[u64]
        requires { IsStrictlyIncreasing self.now.taken.items }
        ensures { (p : ℕ → Bool) (n : ℕ) → self.now.taken.items ≡ where_below p n
            → result.now ≡ where_below (λ t. p t && in_span span t) n }
    {
        within(self.taken.as_slice(), span)
    }

    /// The first of the taken places at which functions begin, and of those in a span.
    pub(crate) fn first_open(&self, span: Span) -> Option<u64>
        requires { IsStrictlyIncreasing self.now.taken.items }
        ensures { (taken begun : List Bool) → ArePoints taken begun self.now
            → result ≡ slice_get (open_targets taken begun span) 0 }
    {
        lesser(first(self.starts()), first(self.within(span)))
    }
}
