//! Where units start, with the graph.

ghost use Rattle.std.specs.Prelude.{◌≡◌, ◌+◌, ◌*◌, ◌/◌, ◌%◌, ◌<◌, ◌≤◌, ◌^◌, ℕ, IfNone, IfSome, IsTrue, false, nat_lt, slice_get};
ghost use Rattle.std.specs.Option.{option_copied};
ghost use Rattle.rv_image.specs.MemoryMap.{CODE_SIZE, CODE_START};
ghost use Rattle.cfi_graph.specs.Graph.{IsGraph, has_leaves, is_rising};
ghost use Rattle.cfi_pending.specs.Kinds.{leaf_of};
ghost use Rattle.cfi_scan.specs.Pieces.{prologue_count};
ghost use Rattle.cfi_reader.specs.Entries.{is_started};
ghost use Rattle.cfi_reader.specs.declared.entry.Entry.TheVariants as E;
ghost use Rattle.cfi_starts.specs.Entries.{IsBefore, count_of, entry_at, or_inside, starts_at};
ghost use Rattle.cfi_rules.specs.Lines.{class_with, leaves_in, line_at, targets_for};
ghost use Rattle.cfi_starts.specs.Leaves.{ArePast};
ghost use Rattle.cfi_starts.specs.Starts.{AreStarts, profile_in};
ghost use Rattle.cfi_rules.specs.Split.{entry_of};

use crate::leaves::LeafRange;
use crate::{leaves, lines};
use cfi_graph::{Class, Graph, GraphLine};
use cfi_rules::Asks;
use cfi_scan::{Entry, Listing};
use rv_code::decode;
use rv_image::memory_map::CODE_START;
use rv_image::{GraphVersion, Versions};
use rv_instr::Instr;
use rv_word::sext;
use std::marker::Model;

/// Where the units of a code start, of which kind each is, and the graph.
#[derive(Drop)]
pub struct Starts<'a> {
    listing: Listing,
    graph: &'a Graph,
    heads: u64,
}

impl<'a> Model for Starts<'a> {
    ghost use Rattle.cfi_starts.specs.Starts.{AreStarts, StartParts};

    ghost Value = { StartParts };

    ghost view = { λ s. record { listing = s.listing; graph = s.graph.now } };

    ghost invariant = { λ s. AreStarts s.listing s.graph.now };
}

impl<'a> Starts<'a> {
    /// What a listing leaves, for a graph that gives its length.
    pub fn of(listing: Listing, graph: &'a Graph) -> Starts<'a>
        requires { AreStarts listing graph.now }
        ensures { result ≡ record { listing = listing; graph = graph.now } }
    {
        Starts {
            listing,
            graph,
            heads: leaves::heads_of(graph),
        }
    }

    /// How many words the code has.
    pub fn count(&self) -> u32
        ensures value { result ≡ self.now.listing.fed / 4 }
        ensures same_length { self.now.graph.code ≡ 4 * result }
        ensures room { 4 * result ≤ CODE_SIZE }
        ensures graph_is { IsGraph self.now.graph }
    {
        self.listing.fed() / 4
    }

    /// The versions of the image and the graph.
    pub fn versions(&self) -> Versions
        ensures { result ≡ self.now.listing.versions }
    {
        self.listing.versions()
    }

    /// Whether callees save the sites of calls: then the graph may have leaves.
    pub fn has_leaves(&self) -> bool
        ensures by_graph { result ≡ has_leaves self.now.graph.version }
        ensures by_profile { result ≡ (profile_in self.now).callee_saves }
    {
        match self.graph.version() {
            GraphVersion::OneLabel | GraphVersion::TwoLabels => false,
            GraphVersion::CalleeSaves => true,
        }
    }

    /// How many words the prologue has.
    pub fn front(&self) -> u32
        ensures count { result ≡ prologue_count (profile_in self.now) }
        ensures most { result ≤ 20 }
        ensures place { CODE_START + 4 * result ≡ (profile_in self.now).units_from }
    {
        self.listing.front_words() as u32
    }

    /// How many words follow the prologue.
    pub fn count_after(&self) -> u64
        ensures value { result ≡ count_of (profile_in self.now) self.now.listing }
        ensures room { result < 2 ^ 32 }
    {
        u64::from(self.count().saturating_sub(self.front()))
    }

    /// Where the first unit stands.
    pub fn units_from(&self) -> u64
        ensures at { result ≡ (profile_in self.now).units_from }
        ensures low { CODE_START + 44 ≤ result }
        ensures high { result ≤ CODE_START + 80 }
        ensures round { result % 4 ≡ 0 }
    {
        self.listing.units_start()
    }

    /// Where the opening calls the program's entry.
    fn opening_call(&self) -> u64
        ensures at { result ≡ (profile_in self.now).opening_call }
        ensures low { CODE_START ≤ result }
        ensures high { result ≤ CODE_START + 80 }
    {
        self.units_from() - 12
    }

    /// The prologue's closing.
    pub fn closing(&self) -> u64
        ensures { result ≡ (profile_in self.now).closing }
    {
        self.units_from() - 8
    }

    /// What is left of the code.
    pub fn listing(&self) -> &Listing
        ensures { result.now ≡ self.now.listing }
    {
        &self.listing
    }

    /// The graph.
    pub fn graph(&self) -> &'a Graph
        ensures value { result.now ≡ self.now.graph }
        ensures graph_is { IsGraph result.now }
    {
        self.graph
    }

    /// The entry of the word at an address.
    #[tactic(auto, unfolding(crate::specs::Entries::entry_at))]
    pub fn entry_at(&self, address: u64) -> Entry
        ensures { result ≡ entry_at (profile_in self.now) self.now.listing.entries address }
    {
        let start = self.units_from();
        if address >= start && address % 4 == 0 {
            or_inside(self.listing.entry(((address - start) / 4) as usize))
        } else {
            Entry::Inside
        }
    }

    /// The entry of the word so many bytes past an address.
    #[tactic(auto, unfolding(crate::specs::Entries::entry_at))]
    pub(crate) fn entry_past(&self, address: u64, bytes: u64) -> Entry
        requires few { bytes ≤ 12 }
        requires round { bytes % 4 ≡ 0 }
        ensures { result ≡ entry_at (profile_in self.now) self.now.listing.entries (address + bytes) }
    {
        let start = self.units_from() - bytes;
        if address >= start && address % 4 == 0 {
            or_inside(self.listing.entry(((address - start) / 4) as usize))
        } else {
            Entry::Inside
        }
    }

    /// The entry of a word, counted from the first after the prologue.
    #[tactic(auto, unfolding(crate::specs::Entries::entry_at))]
    pub fn word(&self, index: u64) -> Entry
        ensures { result ≡ entry_at (profile_in self.now) self.now.listing.entries ((profile_in self.now).units_from + 4 * index) }
    {
        or_inside(self.listing.entry(index as usize))
    }

    /// Whether an address is the start of a unit.
    #[tactic(auto, unfolding(crate::specs::Entries::entry_at), using(crate::proofs::Started::started))]
    pub fn is_start(&self, address: u64) -> bool
        ensures { result ≡ starts_at (profile_in self.now) self.now.listing address }
    {
        let start = self.units_from();
        if address >= start && address % 4 == 0 {
            self.listing.starts(((address - start) / 4) as usize)
        } else {
            false
        }
    }

    /// Where the last unit starts before a word, counted in words after the prologue.
    pub fn before(&self, index: u64) -> Option<u64>
        ensures some { IfSome result (λ k. IsBefore self.now.listing.entries index k) }
        ensures none { IfNone result ((k : ℕ) → k < index → is_started (slice_get self.now.listing.entries k) ≡ false) }
    {
        let mut at = index;
        while at > 0 {
            at -= 1;
            if self.listing.starts(at as usize) {
                return Some(at);
            }
        }
        None
    }

    /// Where the opening's call leads.
    pub fn entry(&self) -> Option<u64>
        ensures { result ≡ entry_of (profile_in self.now) self.now.listing.prologue }
    {
        let call = self.opening_call();
        let index = ((call - CODE_START) / 4) as usize;
        match decode(*self.listing.prologue().get(index)?)? {
            Instr::Jal(_, field) => Some(call.wrapping_add(sext(u64::from(field.bits()) * 2, 21))),
            _ => None,
        }
    }

    /// The first line that does not stand before that of any leaf in which an address lies; in a graph without
    /// leaves the first of all serves.
    pub(crate) fn line_of(&self, address: u64) -> u64
        ensures { ArePast self.now.graph.lines result address }
    {
        if self.has_leaves() {
            leaves::line_of(self.graph, self.heads, address)
        } else {
            0
        }
    }

    /// The same, by going on from a line before which all do.
    pub(crate) fn line_from(&self, from: u64, address: u64) -> u64
        requires { ArePast self.now.graph.lines from address }
        ensures { ArePast self.now.graph.lines result address }
    {
        leaves::line_from(self.graph, from, address)
    }

    /// The same of an address, where it likely is a given one: it is sought elsewhere only where this one is not it.
    pub(crate) fn line_near(&self, likely: u64, address: u64) -> u64
        ensures { ArePast self.now.graph.lines result address }
    {
        leaves::line_near(self.graph, self.heads, likely, address)
    }

    /// The leaf in which an address lies, looked for from a line before which none is its line.
    pub(crate) fn leaf_from(&self, from: u64, address: u64) -> Option<LeafRange>
        requires { ArePast self.now.graph.lines from address }
        ensures { result ≡ leaf_of (leaves_in self.now.graph.lines) address }
    {
        leaves::leaf_from(self.graph, from, address)
    }

    /// The line at an address.
    pub fn line_at(&self, address: u64) -> Option<&'a GraphLine>
        ensures { option_copied result ≡ line_at self.now.graph.lines address }
    {
        lines::line_at(self.graph, address)
    }

    /// The class with a label.
    pub fn class_with(&self, label: u32) -> Option<Class<'a>>
        ensures value { result ≡ class_with self.now.graph.lines label }
        ensures rising { IfSome result (λ class. IsTrue (is_rising nat_lt class.targets)) }
    {
        lines::class_with(self.graph, self.heads, label)
    }

    /// The targets of the class with a label, for a computed transfer that it serves.
    pub fn targets_for(&self, asked: Asks) -> Option<&'a [u64]>
        ensures value { option_copied result ≡ targets_for self.now.graph.lines asked.kind asked.which asked.label }
        ensures rising { IfSome result (λ targets. IsTrue (is_rising nat_lt targets.now)) }
    {
        lines::targets_for(self.graph, self.heads, asked)
    }
}

fn or_inside(entry: Option<Entry>) -> Entry
    ensures { result ≡ or_inside entry }
{
    match entry {
        Some(entry) => entry,
        None => Entry::Inside,
    }
}
