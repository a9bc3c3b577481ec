//! A side of the closed graph: the computed transfers of one sort, with the classes of their targets.

ghost use Rattle.std.specs.Prelude.{◌≡◌, ◌<◌, ◌≤◌, ◌^◌, IfSome, Some, [], length, slice_get, slice_index_or};
ghost use Rattle.cfi_closed.specs.Closed.{class_at, class_of, is_same, is_target_of, side_reaches};
ghost use Rattle.cfi_closed.specs.Found.{AreFound, site_with};

use cfi_class::Entry;
use cfi_graph::Sort;
use rv_word::Places;
use std::marker::Model;

/// A site in the closed graph: its place, and the index of its class; without targets it has none.
#[derive(Clone, Copy)]
pub struct Site {
    pub place: u64,
    pub class: Option<u64>,
}

/// The computed transfers of one sort, and the classes of their targets.
#[derive(Drop)]
pub struct Side {
    sort: Sort,
    classes: Vec<Places>,
    sites: Vec<Site>,
    class_at: Vec<Entry>,
    site_at: Vec<Entry>,
}

impl Model for Side {
    ghost use Rattle.std.specs.Prelude.{length};
    ghost use Rattle.cfi_closed.specs.Closed as closed;
    ghost use Rattle.cfi_closed.specs.Found.{AreFound};

    ghost Value = { closed.Side };

    ghost view = { λ s. record { sort = s.sort; classes = s.classes.items; sites = s.sites.items } };

    ghost invariant = { λ s. AreFound s.classes.items s.sites.items (length s.class_at.items) s.class_at.items s.site_at.items };
}

/// Whether both are classes, and the same one.
fn same_class(class: Option<u64>, other: Option<u64>) -> bool
    ensures { result ≡ is_same class other }
{
    match (class, other) {
        (Some(class), Some(other)) => class == other,
        _ => false,
    }
}

impl Side {
    /// A side of its parts, with the tables of its classes and of its sites by their places.
    pub fn of(
        sort: Sort,
        classes: Vec<Places>,
        sites: Vec<Site>,
        class_at: Vec<Entry>,
        site_at: Vec<Entry>,
    ) -> Side
        requires { AreFound classes.items sites.items (length class_at.items) class_at.items site_at.items }
        ensures { result ≡ record { sort = sort; classes = classes.items; sites = sites.items } }
    {
        Side {
            sort,
            classes,
            sites,
            class_at,
            site_at,
        }
    }

    /// Which computed transfers it has.
    pub fn sort(&self) -> Sort
        ensures { result ≡ self.now.sort }
    {
        self.sort
    }

    /// How many classes there are.
    pub fn classes(&self) -> u64
        ensures value { result ≡ length self.now.classes }
        ensures few { result < 2 ^ 63 }
    {
        self.classes.len() as u64
    }

    /// The class with this index by its places, rising; classes stand in the order of their least members.
    pub fn class(&self, k: u64) -> &Places
        requires { k < length self.now.classes }
        ensures { result.now ≡ slice_index_or self.now.classes k [] }
    {
        &self.classes[k as usize]
    }

    /// How many sites there are.
    pub fn sites(&self) -> u64
        ensures { result ≡ length self.now.sites }
    {
        self.sites.len() as u64
    }

    /// The site with this index; sites stand in the order of their places.
    pub fn site(&self, k: u64) -> Site
        requires { k < length self.now.sites }
        ensures value { slice_get self.now.sites k ≡ Some result }
        ensures inside { IfSome result.class (λ k. k < length self.now.classes) }
    {
        self.sites[k as usize]
    }

    /// The index of the class that has this place, if one has it.
    pub fn class_at(&self, place: u64) -> Option<u64>
        ensures { result ≡ class_at self.now place }
    {
        if place < self.class_at.len() as u64 {
            self.class_at[place as usize].number()
        } else {
            None
        }
    }

    /// The index of the site at this place.
    fn site_at(&self, place: u64) -> Option<u64>
        ensures value { result ≡ site_with self.now.sites place }
        ensures below { IfSome result (λ k. k < length self.now.sites) }
    {
        if place < self.site_at.len() as u64 {
            self.site_at[place as usize].number()
        } else {
            None
        }
    }

    /// The index of the class of the site at this place. None: the site has no targets, or there is no site.
    pub fn class_of(&self, place: u64) -> Option<u64>
        ensures value { result ≡ class_of self.now place }
        ensures inside { IfSome result (λ k. k < length self.now.classes) }
    {
        match self.site_at(place) {
            Some(k) => self.site(k).class,
            None => None,
        }
    }

    /// Whether this place is a target of some class.
    pub fn is_target(&self, place: u64) -> bool
        ensures { result ≡ is_target_of place self.now }
    {
        self.class_at(place).is_some()
    }

    /// Whether the class that the site at a place reaches has another place.
    pub fn reaches(&self, place: u64, target: u64) -> bool
        ensures { result ≡ side_reaches place target self.now }
    {
        same_class(self.class_of(place), self.class_at(target))
    }
}
