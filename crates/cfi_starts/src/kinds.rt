//! What the rules ask by kinds of starts: which units stand in leaves, what may follow a unit, and where a direct
//! transfer may lead.

ghost use Rattle.std.specs.Prelude.{◌≡◌, ◌<◌, ◌==◌, ◌&&◌, ◌^◌, not};
ghost use Rattle.std.specs.List.{list_any};
ghost use Rattle.cfi_pending.specs.Kinds as kinds;
ghost use Rattle.cfi_pending.specs.Kinds.{begins_at, leaf_of};
ghost use Rattle.cfi_rules.specs.Lines.{holds_of, leaves_in};
ghost use Rattle.cfi_starts.specs.Entries.{
  fails_leaf_at,
  fails_target_at,
  fresh_at,
  goes_wrong_at,
  is_right_behind_at,
  is_whole,
  lacks_end_at,
  may_be_called_at,
  may_be_reached_at,
  may_call_at,
  may_go_at,
  next_at,
  stands_wrong_at,
};
ghost use Rattle.cfi_starts.specs.Spots.{Stands};
ghost use Rattle.cfi_starts.specs.Starts.{profile_in};

use crate::entries::{goes_on, may_stand};
use crate::leaves::LeafRange;
use crate::spot::Spot;
use crate::starts::Starts;
use rv_image::memory_map::CODE_START;

impl<'a> Starts<'a> {
    /// Whether a unit may not stand in the leaf in which it does, or outside of all leaves.
    pub fn stands_wrong(&self, here: &Spot) -> bool
        requires { Stands self.now here.now }
        ensures { result ≡ stands_wrong_at (profile_in self.now) self.now.listing (leaves_in self.now.graph.lines) here.now.address }
    {
        !may_stand(self.leaf(here), here.entry())
    }

    /// Whether a start is fresh.
    pub fn is_fresh(&self, address: u64) -> bool
        ensures { result ≡ fresh_at (profile_in self.now) self.now.listing (leaves_in self.now.graph.lines) address }
    {
        self.leaf_from(self.line_of(address), address).is_some()
            || self.enters_past(address, 0)
            || self.gate_at(address).is_some() && self.enters_past(address, 4)
    }

    fn is_fresh_spot(&self, here: &Spot) -> bool
        requires { Stands self.now here.now }
        ensures { result ≡ fresh_at (profile_in self.now) self.now.listing (leaves_in self.now.graph.lines) here.now.address }
    {
        let address = here.address;
        self.leaf(here).is_some() || here.enters() || here.is_gate() && self.enters_past(address, 4)
    }

    /// Whether a leaf with these ends is of whole units.
    pub fn is_whole(&self, from: u64, to: u64) -> bool
        ensures { result ≡ is_whole (profile_in self.now) self.now.listing from to }
    {
        let end = CODE_START + 4 * u64::from(self.count());
        self.is_start(from) && (self.is_start(to) || to == end)
    }

    /// Whether a leaf begins at an address and is not of whole units.
    fn lacks_end(&self, here: &Spot) -> bool
        requires { Stands self.now here.now }
        ensures { result ≡ list_any (lacks_end_at (profile_in self.now) self.now.listing here.now.address) self.now.graph.lines }
    {
        // Tells the proof that the graph is one.
        let _count = self.count();
        self.lacks_end_here(here)
    }

    /// The same, of the leaf in which the address lies.
    fn lacks_end_here(&self, here: &Spot) -> bool
        requires { Stands self.now here.now }
        ensures { result ≡ holds_of (leaf_of (leaves_in self.now.graph.lines) here.now.address) (λ l. (l.from == here.now.address) && not (is_whole (profile_in self.now) self.now.listing l.from l.to)) }
    {
        let address = here.address;
        match self.leaf(here) {
            Some(leaf) => leaf.from() == address && !self.is_whole(leaf.from(), leaf.to()),
            None => false,
        }
    }

    /// Whether a leaf begins at an address.
    fn begins_leaf(&self, address: u64) -> bool
        ensures { result ≡ list_any (begins_at address) (leaves_in self.now.graph.lines) }
    {
        // Tells the proof that the graph is one.
        let _count = self.count();
        self.begins_leaf_here(address)
    }

    /// The same, of the leaf in which the address lies.
    fn begins_leaf_here(&self, address: u64) -> bool
        ensures { result ≡ holds_of (leaf_of (leaves_in self.now.graph.lines) address) (begins_at address) }
    {
        match self.leaf_from(self.line_of(address), address) {
            Some(leaf) => leaf.from() == address && leaf.from() < leaf.to(),
            None => false,
        }
    }

    /// Whether what stands behind a unit, in this leaf or outside of all, is of its kind.
    fn is_right_behind(&self, leaf: Option<LeafRange>, here: &Spot, next: &Spot) -> bool
        requires here { Stands self.now here.now }
        requires next { Stands self.now next.now }
        requires behind { next.now.address ≡ next_at (profile_in self.now) self.now.listing here.now.address }
        ensures { result ≡ is_right_behind_at (profile_in self.now) self.now.listing (leaves_in self.now.graph.lines) leaf here.now.address }
    {
        let address = here.address;
        let end = next.address;
        match leaf {
            Some(leaf) => leaf.holds(end),
            None => { here.is_gate() && self.enters_past(address, 4) || !self.is_fresh_spot(next) }
        }
    }

    /// Whether a unit goes on to a start of the wrong kind, where `next` is what stands behind it.
    fn goes_wrong(&self, here: &Spot, next: &Spot) -> bool
        requires here { Stands self.now here.now }
        requires next { Stands self.now next.now }
        requires behind { next.now.address ≡ next_at (profile_in self.now) self.now.listing here.now.address }
        ensures { result ≡ goes_wrong_at (profile_in self.now) self.now.listing (leaves_in self.now.graph.lines) here.now.address }
    {
        goes_on(here.entry()) && !self.is_right_behind(self.leaf(here), here, next)
    }

    /// Whether a leaf begins at an address that is not of whole units, or the unit there goes on to a start of the
    /// wrong kind.
    pub fn fails_leaf(&self, address: u64) -> bool
        ensures { result ≡ fails_leaf_at (profile_in self.now) self.now.listing self.now.graph.lines address }
    {
        let here = self.spot_at(address);
        let next = self.spot_at(self.next_at(address));
        self.lacks_end(&here) || self.goes_wrong(&here, &next)
    }

    /// Whether a branch or a jump in a leaf, or outside of all, may lead to an address where a unit starts; its own
    /// line likely is the target's.
    fn may_be_reached(&self, leaf: Option<LeafRange>, line: u64, target: u64) -> bool
        ensures { result ≡ may_be_reached_at (profile_in self.now) self.now.listing (leaves_in self.now.graph.lines) leaf target }
    {
        match leaf {
            Some(leaf) => leaf.holds(target),
            None => !self.is_fresh_spot(&self.spot_near(line, target)),
        }
    }

    fn may_go(&self, here: &Spot, target: u64) -> bool
        requires { Stands self.now here.now }
        ensures { result ≡ may_go_at (profile_in self.now) self.now.listing (leaves_in self.now.graph.lines) here.now.address target }
    {
        let line = here.line;
        self.is_start(target) && self.may_be_reached(self.leaf(here), line, target)
    }

    /// Whether a call may lead to an address: where callees save sites, to what saves its site, or to a leaf.
    fn may_call(&self, here: &Spot, target: u64) -> bool
        requires { Stands self.now here.now }
        ensures { result ≡ may_call_at (profile_in self.now) (profile_in self.now).callee_saves self.now.listing (leaves_in self.now.graph.lines) here.now.address target }
    {
        if self.has_leaves() {
            self.is_start(target) && self.may_be_called(target)
        } else {
            self.may_go(here, target)
        }
    }

    fn may_be_called(&self, target: u64) -> bool
        ensures { result ≡ may_be_called_at (profile_in self.now) self.now.listing (leaves_in self.now.graph.lines) target }
    {
        self.enters_past(target, 0) || self.begins_leaf(target)
    }

    fn misses_edge(&self, here: &Spot, target: Option<u64>) -> bool
        requires { Stands self.now here.now }
        ensures { result ≡ holds_of target (λ x. not (may_go_at (profile_in self.now) self.now.listing (leaves_in self.now.graph.lines) here.now.address x)) }
    {
        match target {
            Some(target) => !self.may_go(here, target),
            None => false,
        }
    }

    fn misses_call(&self, here: &Spot, target: Option<u64>) -> bool
        requires { Stands self.now here.now }
        ensures { result ≡ holds_of target (λ x. not (may_call_at (profile_in self.now) (profile_in self.now).callee_saves self.now.listing (leaves_in self.now.graph.lines) here.now.address x)) }
    {
        match target {
            Some(target) => !self.may_call(here, target),
            None => false,
        }
    }

    /// Whether a direct transfer leads to no start, or to one of the wrong kind.
    pub fn fails_target(&self, here: &Spot) -> bool
        requires small { here.now.address < 2 ^ 32 }
        requires stands { Stands self.now here.now }
        ensures { result ≡ fails_target_at (profile_in self.now) self.now.listing self.now.graph.lines here.now.address }
    {
        self.misses_edge(here, here.edge()) || self.misses_call(here, self.call_of(here))
    }
}
