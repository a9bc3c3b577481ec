ghost use Rattle.std.specs.Prelude.{◌≡◌, ◌<◌, false, IfOk, length, map, slice_index_or};
ghost use Rattle.std.specs.List.{All};
ghost use Rattle.cfi_flow.specs.Closing.{AreClasses, raw_for, sets_of};
ghost use Rattle.cfi_flow.specs.Found.{by_table};
ghost use Rattle.cfi_flow.specs.Kept.{AreKept, sites_of};
ghost use Rattle.cfi_flow.specs.Raw.{IsThere, site_of};

use crate::draw::Drawing;
use crate::found::sites_by;
use crate::join::joined;
use cfi_class::{Entry, classes};
use cfi_closed::Site;
use cfi_graph::{SiteKind, Sort};
use rv_word::{NoMemory, Numbers, Places};
use std::alloc::Global;
use std::marker::Model;

/// The raw graph of a program: its sites with their targets, and the list of system calls. What sites have in common is kept
/// once.
#[derive(Drop)]
pub struct Raw {
    drawing: Drawing,
    calls: Option<Numbers>,
}

impl Model for Raw {
    ghost use Rattle.cfi_flow.specs.Raw.{RawGraph};
    ghost use Rattle.cfi_flow.specs.Kept.{AreKept, sites_of};

    ghost Value = { RawGraph };

    ghost view = { λ r. record { sites = sites_of r.drawing; taken = r.drawing.taken.items; calls = r.calls } };

    ghost invariant = { λ r. AreKept r.drawing };
}

/// A site: its place, and its kind.
#[derive(Clone, Copy)]
pub struct RawSite {
    pub place: u64,
    pub kind: SiteKind,
}

impl Raw {
    /// The raw graph that is drawn, with a list of system calls.
    pub(crate) fn of(drawing: Drawing, calls: Option<Numbers>) -> Raw
        requires { AreKept drawing }
        ensures { result ≡ record { sites = sites_of drawing; taken = drawing.taken.items; calls = calls } }
    {
        Raw { drawing, calls }
    }

    /// The numbers of the system calls that the program may make, where it has a list of them.
    pub fn calls(&self) -> Option<Numbers>
        ensures { result ≡ self.now.calls }
    {
        self.calls
    }

    /// How many sites there are.
    pub fn sites(&self) -> u64
        ensures { result ≡ length self.now.sites }
    {
        self.drawing.sites.len() as u64
    }

    /// The site with this index; sites stand in the order of their places.
    pub fn site(&self, k: u64) -> RawSite
        requires { k < length self.now.sites }
        ensures place { result.place ≡ (site_of self.now k).place }
        ensures kind { result.kind ≡ (site_of self.now k).kind }
    {
        let site = self.drawing.sites[k as usize];
        RawSite {
            place: site.place,
            kind: site.kind,
        }
    }

    /// The targets of the site with this index by their places, rising. They are listed anew at each call.
    pub fn targets(&self, alloc: Global, k: u64) -> Result<Places, NoMemory>
        requires { k < length self.now.sites }
        ensures { IfOk result (λ v. v ≡ (site_of self.now k).targets) }
    {
        let targets = self.drawing.targets(alloc, k)?;
        Ok(targets)
    }

    /// How many places the program has.
    pub fn places(&self) -> u64
        ensures value { result ≡ length self.now.taken }
        ensures there { IsThere self.now }
    {
        self.drawing.taken.len() as u64
    }

    /// Whether a relocation takes the address of the instruction at this place.
    pub fn taken(&self, place: u64) -> bool
        requires { place < length self.now.taken }
        ensures { result ≡ slice_index_or self.now.taken place false }
    {
        self.drawing.taken[place as usize]
    }

    /// Of each place, whether it is taken.
    pub(crate) fn marks(&self) -> &[bool]
        ensures { result.now ≡ self.now.taken }
    {
        self.drawing.taken.as_slice()
    }

    /// The raw graph with the sites of a sort alone.
    pub(crate) fn for_sort(&self, alloc: Global, sort: Sort) -> Result<Raw, NoMemory>
        ensures { IfOk result (λ r. r ≡ raw_for sort self.now) }
    {
        let drawing = self.drawing.for_sort(alloc, sort)?;
        Ok(Raw {
            drawing,
            calls: self.calls,
        })
    }

    /// The classes of the targets.
    pub(crate) fn classes(&self, alloc: Global) -> Result<Vec<Places>, NoMemory>
        ensures are { IfOk result (λ v. AreClasses (sets_of self.now.sites) v.items) }
        ensures there { IfOk result (λ v. All (All (λ t. t < length self.now.taken)) v.items) }
    {
        let lists = joined(alloc, &self.drawing)?;
        let found = classes(alloc, lists.as_slice())?;
        Ok(found)
    }

    /// The sites, each with what a table has for the first of its targets.
    pub(crate) fn sites_by(&self, alloc: Global, table: &[Entry]) -> Result<Vec<Site>, NoMemory>
        requires { length table.now ≡ length self.now.taken }
        ensures { IfOk result (λ v. v.items ≡ map (by_table table.now) self.now.sites) }
    {
        let sites = sites_by(alloc, &self.drawing, table)?;
        Ok(sites)
    }
}
