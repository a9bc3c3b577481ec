//! Look-ups among a graph's leaves, functions that call nothing.

ghost use Rattle.std.specs.Prelude.{◌≡◌, ◌≤◌, IsTrue, length, map, slice_get, true};
ghost use Rattle.cfi_graph.specs.Graph.{is_rising, key_below, key_of};
ghost use Rattle.cfi_pending.specs.Kinds.{in_leaf, leaf_of};
ghost use Rattle.cfi_rules.specs.Lines.{holds_of, leaves_in};
ghost use Rattle.cfi_starts.specs.Leaves.{ArePast, is_past, leaf_in};

use cfi_graph::{Graph, GraphLine, Key};
use std::marker::Model;

/// A function that calls nothing: where its first unit starts, and where its last one ends.
#[derive(Drop)]
pub(crate) struct LeafRange {
    from: u64,
    to: u64,
}

impl Model for LeafRange {
    ghost use Rattle.cfi_pending.specs.Kinds.{Leaf};

    ghost Value = { Leaf };

    ghost view = { λ l. record { from = l.from; to = l.to } };
}

impl LeafRange {
    /// Where its first unit starts.
    pub(crate) fn from(&self) -> u64
        ensures { result ≡ self.now.from }
    {
        self.from
    }

    /// Where its last unit ends.
    pub(crate) fn to(&self) -> u64
        ensures { result ≡ self.now.to }
    {
        self.to
    }

    /// Whether an address lies in it.
    pub(crate) fn holds(&self, address: u64) -> bool
        ensures { result ≡ in_leaf address self.now }
    {
        self.from <= address && address < self.to
    }
}

/// How many lines stand before those of classes. It tells where to look, and no answer rests on it.
pub(crate) fn heads_of(graph: &Graph) -> u64
    ensures { result ≤ length graph.now.lines }
{
    let mut low = 0;
    let mut high = graph.lines();
    while low < high {
        let middle = low + (high - low) / 2;
        if graph.line(middle).key().is_below(Key::Label(0)) {
            low = middle + 1;
        } else {
            high = middle;
        }
    }
    low
}

/// The first line that does not stand before that of any leaf in which an address lies: leaves rise and do not
/// meet, so its place is halved in, among so many lines.
pub(crate) fn line_of(graph: &Graph, heads: u64, address: u64) -> u64
    requires { IsTrue (is_rising key_below (map key_of graph.now.lines)) }
    ensures { ArePast graph.now.lines result address }
{
    let mut low = 0;
    let mut high = graph.lines().min(heads);
    while low < high {
        let middle = low + (high - low) / 2;
        let line = graph.line(middle);
        if is_past(line, address) {
            low = middle + 1;
        } else {
            high = middle;
        }
    }
    low
}

/// The same, where it likely is a given one: it is halved in only where this one is not it.
pub(crate) fn line_near(graph: &Graph, heads: u64, likely: u64, address: u64) -> u64
    requires { IsTrue (is_rising key_below (map key_of graph.now.lines)) }
    ensures { ArePast graph.now.lines result address }
{
    if are_past(graph, likely, address) && !is_past_at(graph, likely, address) {
        likely
    } else {
        line_of(graph, heads, address)
    }
}

/// Whether the line before one is past, and so all before that are.
fn are_past(graph: &Graph, count: u64, address: u64) -> bool
    requires { IsTrue (is_rising key_below (map key_of graph.now.lines)) }
    ensures { result ≡ true → ArePast graph.now.lines count address }
{
    count == 0 || is_past_at(graph, count - 1, address)
}

fn is_past_at(graph: &Graph, index: u64, address: u64) -> bool
    ensures { result ≡ holds_of (slice_get graph.now.lines index) (is_past address) }
{
    index < graph.lines() && is_past(graph.line(index), address)
}

/// The same, by going on from a line before which all do.
pub(crate) fn line_from(graph: &Graph, from: u64, address: u64) -> u64
    requires { ArePast graph.now.lines from address }
    ensures { ArePast graph.now.lines result address }
{
    let count = graph.lines();
    let mut index = from;
    while index < count {
        let line = graph.line(index);
        if !is_past(line, address) {
            return index;
        }
        index += 1;
    }
    index
}

/// The leaf in which an address lies, looked for from a line before which none is its line.
pub(crate) fn leaf_from(graph: &Graph, from: u64, address: u64) -> Option<LeafRange>
    requires ordered { IsTrue (is_rising key_below (map key_of graph.now.lines)) }
    requires passed { ArePast graph.now.lines from address }
    ensures { result ≡ leaf_of (leaves_in graph.now.lines) address }
{
    let count = graph.lines();
    let mut index = from;
    while index < count {
        let line = graph.line(index);
        if !is_past(line, address) {
            return leaf_in(line, address);
        }
        index += 1;
    }
    None
}

/// Whether a line stands before that of any leaf in which an address lies.
fn is_past(line: &GraphLine, address: u64) -> bool
    ensures { result ≡ is_past address line.now }
{
    match line {
        GraphLine::Calls(_) => true,
        GraphLine::Leaf(_, to) => *to <= address,
        _ => false,
    }
}

/// The leaf of a line, if an address lies in it.
fn leaf_in(line: &GraphLine, address: u64) -> Option<LeafRange>
    ensures { result ≡ leaf_in address line.now }
{
    match line {
        GraphLine::Leaf(from, to) if *from <= address && address < *to => Some(LeafRange {
            from: *from,
            to: *to,
        }),
        _ => None,
    }
}
