//! Whether what the rules ask by kinds of starts holds of code whose callees save the sites of calls, by one pass
//! over its words and one over the graph's leaves. A unit that goes on where it may not is met where it comes to.

ghost use Rattle.std.specs.Prelude.{◌≡◌, ◌+◌, ◌*◌, ◌<◌, ◌≤◌, ◌^◌, ℕ, false, is_some, true};
ghost use Rattle.cfi_graph.specs.Graph.{has_leaves};
ghost use Rattle.cfi_scan.specs.Calm.{is_calm};
ghost use Rattle.cfi_starts.specs.Entries.{count_of, enters_at, entry_at, gate_at, is_whole, lacks_end_at};
ghost use Rattle.cfi_starts.specs.Spots.{Stands};
ghost use Rattle.cfi_starts.specs.Starts.{profile_in};
ghost use Rattle.cfi_verify.specs.Pass.{
  AreShut,
  AreWhole,
  IsEntered,
  IsShut,
  IsShutAt,
  IsShutLeaf,
  KindHoldsAt,
  WordHolds,
  ends_in_stop,
};

use cfi_fails::is_barred;
use cfi_graph::GraphLine;
use cfi_scan::Entry;
use cfi_starts::{Spot, Starts, gate_in, goes_on};

/// Whether at each word after the prologue holds what the rules ask by kinds of starts, where units cover the code.
/// Where callers save the sites of calls, all starts are of one kind. `false` leaves it open.
pub(crate) fn kinds_hold(starts: &Starts<'_>) -> bool
    requires { ends_in_stop (profile_in starts.now) starts.now.listing ≡ true }
    ensures { result ≡ true → has_leaves starts.now.graph.version ≡ true → (k : ℕ) → k < count_of (profile_in starts.now) starts.now.listing → KindHoldsAt (profile_in starts.now) starts.now.listing starts.now.graph ((profile_in starts.now).units_from + 4 * k) }
{
    if !starts.has_leaves() {
        return true;
    }
    // Tells the proof that the graph is one.
    let _count = starts.count();
    if !leaves_hold(starts) {
        return false;
    }
    is_shut(starts, starts.count_after()) && words_hold(starts)
}

/// Whether each leaf is of whole units, and none goes on into it or out of it.
fn leaves_hold(starts: &Starts<'_>) -> bool
    ensures whole { result ≡ true → AreWhole (profile_in starts.now) starts.now.listing starts.now.graph.lines }
    ensures shut { result ≡ true → AreShut (profile_in starts.now) starts.now.listing starts.now.graph.lines }
{
    let graph = starts.graph();
    for k in 0..graph.lines() {
        if !leaf_holds(starts, graph.line(k)) {
            return false;
        }
    }
    true
}

/// The same of a leaf's line; of any other nothing is asked.
fn leaf_holds(starts: &Starts<'_>, line: &GraphLine) -> bool
    ensures whole { result ≡ true → (a : ℕ) → lacks_end_at (profile_in starts.now) starts.now.listing a line.now ≡ false }
    ensures shut { result ≡ true → IsShutLeaf (profile_in starts.now) starts.now.listing line.now }
{
    match line {
        GraphLine::Leaf(from, to) => is_shut_leaf(starts, *from, *to),
        _ => true,
    }
}

fn is_shut_leaf(starts: &Starts<'_>, from: u64, to: u64) -> bool
    ensures whole { result ≡ true → is_whole (profile_in starts.now) starts.now.listing from to ≡ true }
    ensures from { result ≡ true → IsShutAt (profile_in starts.now) starts.now.listing from }
    ensures to { result ≡ true → IsShutAt (profile_in starts.now) starts.now.listing to }
{
    starts.is_whole(from, to) && is_shut_at(starts, from) && is_shut_at(starts, to)
}

/// Whether no unit goes on to an address.
fn is_shut_at(starts: &Starts<'_>, address: u64) -> bool
    ensures { result ≡ true → IsShutAt (profile_in starts.now) starts.now.listing address }
{
    let start = starts.units_from();
    address < start || address % 4 != 0 || is_shut(starts, (address - start) / 4)
}

/// Whether none goes on to a word.
fn is_shut(starts: &Starts<'_>, index: u64) -> bool
    ensures { result ≡ true → IsShut (profile_in starts.now) starts.now.listing index }
{
    match starts.before(index) {
        Some(k) => !goes_on(starts.word(k)),
        None => true,
    }
}

/// Whether none does but a gate that stands directly before it.
fn is_entered(starts: &Starts<'_>, index: u64) -> bool
    ensures { result ≡ true → IsEntered (profile_in starts.now) starts.now.listing index }
{
    match starts.before(index) {
        Some(k) => {
            !goes_on(starts.word(k)) || gate_in(starts.word(k)).is_some() && k + 1 == index
        }
        None => true,
    }
}

/// Whether at each word holds what is asked of it by kinds of starts; that leaves are whole and shut stands apart.
fn words_hold(starts: &Starts<'_>) -> bool
    requires { has_leaves starts.now.graph.version ≡ true }
    ensures { result ≡ true → (k : ℕ) → k < count_of (profile_in starts.now) starts.now.listing → WordHolds (profile_in starts.now) starts.now.listing starts.now.graph k }
{
    // Tells the proof that the code is small.
    let _count = starts.count();
    let count = starts.count_after();
    let start = starts.units_from();
    let mut line = 0;
    let mut index = next_lively(starts, 0, count);
    while index < count {
        let here = starts.spot_from(line, start + 4 * index);
        if !word_holds(starts, &here, index) {
            return false;
        }
        line = here.line;
        index = next_lively(starts, index + 1, count);
    }
    true
}

/// The first of some words of whose unit the kinds of starts ask something, or their end.
fn next_lively(starts: &Starts<'_>, from: u64, to: u64) -> u64
    requires { from ≤ to }
    ensures low { from ≤ result }
    ensures high { result ≤ to }
    ensures calm { (k : ℕ) → from ≤ k → k < result → is_calm (entry_at (profile_in starts.now) starts.now.listing.entries ((profile_in starts.now).units_from + 4 * k)) ≡ true }
{
    starts.listing().next_lively(from as usize, to as usize) as u64
}

/// Whether what is asked of a word holds of it.
fn word_holds(starts: &Starts<'_>, here: &Spot, index: u64) -> bool
    requires small { here.now.address < 2 ^ 32 }
    requires stands { Stands starts.now here.now }
    requires at { here.now.address ≡ (profile_in starts.now).units_from + 4 * index }
    ensures { result ≡ true → WordHolds (profile_in starts.now) starts.now.listing starts.now.graph index }
{
    if is_barred(starts, here) {
        return false;
    }
    if starts.stands_wrong(here) {
        return false;
    }
    if starts.fails_target(here) {
        return false;
    }
    begins_right(starts, here, index)
}

/// Whether none goes on to an enter but its gate, nor to this.
fn begins_right(starts: &Starts<'_>, here: &Spot, index: u64) -> bool
    requires stands { Stands starts.now here.now }
    requires at { here.now.address ≡ (profile_in starts.now).units_from + 4 * index }
    ensures enter { result ≡ true → enters_at (profile_in starts.now) starts.now.listing here.now.address ≡ true → IsEntered (profile_in starts.now) starts.now.listing index }
    ensures gate { result ≡ true → is_some (gate_at (profile_in starts.now) starts.now.listing here.now.address) ≡ true → enters_at (profile_in starts.now) starts.now.listing (here.now.address + 4) ≡ true → IsShut (profile_in starts.now) starts.now.listing index }
{
    let address = here.address;
    match here.entry() {
        Entry::Enter => is_entered(starts, index),
        Entry::Gate(_) => !starts.enters_past(address, 4) || is_shut(starts, index),
        _ => true,
    }
}
