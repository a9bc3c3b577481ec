//! Addresses with what stands there, so that it is looked up once for all that is asked of it.

ghost use Rattle.std.specs.Prelude.{◌≡◌, ◌+◌, ◌*◌, ◌/◌, ◌<◌, ◌≤◌, ◌^◌, is_some};
ghost use Rattle.cfi_pending.specs.Kinds.{leaf_of};
ghost use Rattle.cfi_rules.specs.Lines.{leaves_in};
ghost use Rattle.cfi_starts.specs.Entries.{call_at, edge_in, end_of, gate_in, is_enter, next_at, next_in};
ghost use Rattle.cfi_starts.specs.Leaves.{ArePast};
ghost use Rattle.cfi_starts.specs.Spots.{Stands};
ghost use Rattle.cfi_starts.specs.Starts.{profile_in};

use crate::entries::{edge_in, gate_in, is_enter};
use crate::leaves::LeafRange;
use crate::starts::Starts;
use cfi_scan::Entry;
use least::first_below_u64;

/// An address with the entry of its word, and the line from which on its leaf is looked for.
#[derive(Clone, Copy)]
pub struct Spot {
    pub address: u64,
    pub entry: Entry,
    pub line: u64,
}

impl Spot {
    /// The entry of its word.
    pub fn entry(&self) -> Entry
        ensures { result ≡ self.now.entry }
    {
        self.entry
    }

    /// Whether the unit there saves a site.
    pub(crate) fn enters(&self) -> bool
        ensures { result ≡ is_enter self.now.entry }
    {
        is_enter(self.entry())
    }

    /// Whether it is a gate.
    pub(crate) fn is_gate(&self) -> bool
        ensures { result ≡ is_some (gate_in self.now.entry) }
    {
        gate_in(self.entry()).is_some()
    }

    /// Where it leads, if it is a branch or a jump.
    pub(crate) fn edge(&self) -> Option<u64>
        requires { self.now.address < 2 ^ 32 }
        ensures { result ≡ edge_in self.now.entry self.now.address }
    {
        edge_in(self.entry(), self.address)
    }
}

impl<'a> Starts<'a> {
    /// What stands at an address.
    pub fn spot_at(&self, address: u64) -> Spot
        ensures stands { Stands self.now result }
        ensures here { result.address ≡ address }
    {
        Spot {
            address,
            entry: self.entry_at(address),
            line: self.line_of(address),
        }
    }

    /// The same, where the line likely is another one's.
    pub(crate) fn spot_near(&self, line: u64, address: u64) -> Spot
        ensures stands { Stands self.now result }
        ensures here { result.address ≡ address }
    {
        Spot {
            address,
            entry: self.entry_at(address),
            line: self.line_near(line, address),
        }
    }

    /// The same, by going on from a line before which none is its leaf's.
    pub fn spot_from(&self, line: u64, address: u64) -> Spot
        requires { ArePast self.now.graph.lines line address }
        ensures stands { Stands self.now result }
        ensures here { result.address ≡ address }
    {
        Spot {
            address,
            entry: self.entry_at(address),
            line: self.line_from(line, address),
        }
    }

    /// Where the unit at an address ends.
    pub(crate) fn next_at(&self, address: u64) -> u64
        ensures { result ≡ next_at (profile_in self.now) self.now.listing address }
    {
        let start = self.units_from();
        start + 4 * self.next_word(address.saturating_sub(start) / 4)
    }

    /// The word at which the unit at a word ends.
    #[tactic(auto, unfolding(crate::specs::Entries::next_in))]
    fn next_word(&self, index: u64) -> u64
        requires small { index < 2 ^ 62 }
        ensures value { result ≡ next_in self.now.listing.entries (end_of (profile_in self.now) self.now.listing) index }
        ensures room { result < 2 ^ 32 }
    {
        let end = self.end();
        let behind = end.saturating_sub(index + 1);
        match first_below_u64(behind, |k| {
            self.listing().starts((index + 1 + k) as usize)
        }) {
            Some(k) => index + 1 + k,
            None => end,
        }
    }

    /// Where the last unit ends, in words behind the prologue.
    fn end(&self) -> u64
        ensures value { result ≡ end_of (profile_in self.now) self.now.listing }
        ensures room { result < 2 ^ 32 }
    {
        self.count_after().min(self.listing().done() as u64)
    }

    /// Where the opening or the call at a spot leads.
    pub(crate) fn call_of(&self, here: &Spot) -> Option<u64>
        requires small { here.now.address < 2 ^ 32 }
        requires stands { Stands self.now here.now }
        ensures { result ≡ call_at (profile_in self.now) self.now.listing here.now.address }
    {
        self.call_from(here.address, here.entry())
    }

    /// The leaf in which the address of a spot lies.
    pub(crate) fn leaf(&self, here: &Spot) -> Option<LeafRange>
        requires { Stands self.now here.now }
        ensures { result ≡ leaf_of (leaves_in self.now.graph.lines) here.now.address }
    {
        let line = here.line;
        let address = here.address;
        self.leaf_from(line, address)
    }
}
