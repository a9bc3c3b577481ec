//! What is known of a program's sites and taken places before the raw graph is lent.

ghost use Rattle.std.specs.Prelude.{◌≡◌, ◌<◌, ◌++◌, ◌∷◌, [], IfOk, filter, length, slice_index_or};
ghost use Rattle.std.specs.List.{All};
ghost use Rattle.cfi_closed.specs.Closed.{is_of};
ghost use Rattle.cfi_flow.specs.declared.draw.KeptSite.{KeptSite};
ghost use Rattle.cfi_flow.specs.Kept.{AreKept, is_open, no_kept, open_targets, site_with, sites_of, targets_of};
ghost use Rattle.cfi_flow.specs.Sites.{RawSite};

use crate::below::where_below;
use crate::span::Span;
use cfi_closed::is_of;
use cfi_graph::{SiteKind, Sort};
use rv_word::{NoMemory, Places};
use std::alloc::Global;

/// Where a site may go.
#[derive(Clone, Copy)]
pub(crate) enum Aim {
    /// To the members of the list with this index.
    Listed(u64),
    /// To the taken places at which functions begin, and to those in a span.
    Open(Span),
}

/// A site, as it is kept.
#[derive(Clone, Copy)]
pub(crate) struct KeptSite {
    pub(crate) place: u64,
    pub(crate) kind: SiteKind,
    pub(crate) aim: Aim,
}

/// The sites of a program, of each of its places whether it is taken and whether a function begins there, and the lists
/// of those sites that have a line of a policy.
#[derive(Drop)]
pub(crate) struct Drawing {
    pub(crate) sites: Vec<KeptSite>,
    pub(crate) lists: Vec<Places>,
    pub(crate) taken: Vec<bool>,
    pub(crate) begun: Vec<bool>,
}

impl Drawing {
    /// The drawing with one site more, which has a list of its own.
    pub(crate) fn with_listed(
        mut self,
        place: u64,
        kind: SiteKind,
        targets: Places,
    ) -> Result<Drawing, NoMemory>
        requires kept { AreKept self }
        requires place { place < length self.taken.items }
        requires targets { All (λ t. t < length self.taken.items) targets }
        ensures sites { IfOk result (λ d. sites_of d ≡ sites_of self ++ site_with place kind targets ∷ []) }
        ensures taken { IfOk result (λ d. d.taken.items ≡ self.taken.items) }
        ensures begun { IfOk result (λ d. d.begun.items ≡ self.begun.items) }
        ensures kept { IfOk result (λ d. AreKept d) }
    {
        let aim = Aim::Listed(self.lists.len() as u64);
        self.lists.push(targets)?;
        self.sites.push(KeptSite { place, kind, aim })?;
        Ok(self)
    }

    /// The drawing with one site more, which may go to the starts of functions and into a span.
    pub(crate) fn with_open(
        mut self,
        place: u64,
        kind: SiteKind,
        span: Span,
    ) -> Result<Drawing, NoMemory>
        requires kept { AreKept self }
        requires place { place < length self.taken.items }
        ensures sites { IfOk result (λ d. sites_of d ≡ sites_of self
            ++ site_with place kind (open_targets self.taken.items self.begun.items span) ∷ []) }
        ensures taken { IfOk result (λ d. d.taken.items ≡ self.taken.items) }
        ensures begun { IfOk result (λ d. d.begun.items ≡ self.begun.items) }
        ensures kept { IfOk result (λ d. AreKept d) }
    {
        let aim = Aim::Open(span);
        self.sites.push(KeptSite { place, kind, aim })?;
        Ok(self)
    }

    /// The drawing with the sites of a sort alone.
    pub(crate) fn for_sort(&self, alloc: Global, sort: Sort) -> Result<Drawing, NoMemory>
        requires { AreKept self.now }
        ensures sites { IfOk result (λ d. sites_of d ≡ filter (λ (s : RawSite). is_of sort s.kind) (sites_of self.now)) }
        ensures taken { IfOk result (λ d. d.taken.items ≡ self.now.taken.items) }
        ensures kept { IfOk result (λ d. AreKept d) }
    {
        let sites = sites_for(alloc, self.sites.as_slice(), sort)?;
        let lists = lists_of(alloc, self.lists.as_slice())?;
        let taken = Vec::from_slice(alloc, self.taken.as_slice())?;
        let begun = Vec::from_slice(alloc, self.begun.as_slice())?;
        Ok(Drawing {
            sites,
            lists,
            taken,
            begun,
        })
    }

    /// The targets of the site with this index.
    pub(crate) fn targets(&self, alloc: Global, k: u64) -> Result<Places, NoMemory>
        requires kept { AreKept self.now }
        requires there { k < length self.now.sites.items }
        ensures { IfOk result (λ v. v ≡ targets_of self.now.lists.items self.now.taken.items self.now.begun.items
            (slice_index_or self.now.sites.items k no_kept).aim) }
    {
        match self.sites[k as usize].aim {
            Aim::Listed(j) => copied(alloc, self.lists[j as usize].as_slice()),
            Aim::Open(span) => open_targets(
                alloc,
                self.taken.as_slice(),
                self.begun.as_slice(),
                span,
            ),
        }
    }
}

/// The sites of a sort.
fn sites_for(alloc: Global, sites: &[KeptSite], sort: Sort) -> Result<Vec<KeptSite>, NoMemory>
    ensures { IfOk result (λ v. v.items ≡ filter (λ (s : KeptSite). is_of sort s.kind) sites.now) }
{
    let own = sites
        .iter()
        .copied()
        .filter(|site| is_of(sort, site.kind))
        .collect(alloc)?;
    Ok(own)
}

/// The same lists once more.
fn lists_of(alloc: Global, lists: &[Places]) -> Result<Vec<Places>, NoMemory>
    ensures { IfOk result (λ v. v.items ≡ lists.now) }
{
    let mut all = Vec::new(alloc);
    for list in lists {
        all.push(copied(alloc, list.as_slice())?)?;
    }
    Ok(all)
}

/// The same places once more.
pub(crate) fn copied(alloc: Global, places: &[u64]) -> Result<Places, NoMemory>
    ensures { IfOk result (λ v. v ≡ places.now) }
{
    let places = Vec::from_slice(alloc, places)?;
    Ok(Places::of(places))
}

/// Whether a place is taken at which a function begins, or which is in a span.
fn is_open(taken: &[bool], begun: &[bool], span: Span, t: u64) -> bool
    requires taken { t < length taken.now }
    requires begun { t < length begun.now }
    ensures { result ≡ is_open taken.now begun.now span t }
{
    taken[t as usize] && (begun[t as usize] || span.from <= t && t < span.to)
}

/// The taken places at which functions begin, and those in a span.
fn open_targets(
    alloc: Global,
    taken: &[bool],
    begun: &[bool],
    span: Span,
) -> Result<Places, NoMemory>
    requires { length begun.now ≡ length taken.now }
    ensures { IfOk result (λ v. v ≡ open_targets taken.now begun.now span) }
{
    let found = where_below(
        alloc,
        taken.len() as u64,
        |t| is_open(taken, begun, span, t),
    )?;
    Ok(Places::of(found))
}
