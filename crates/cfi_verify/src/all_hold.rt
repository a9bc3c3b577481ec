//! One pass that tells whether all rules hold, so that the first that fails is looked for only where one does.

ghost use Rattle.std.specs.Prelude.{◌≡◌, ◌+◌, ◌*◌, ◌<◌, ◌≤◌, ◌^◌, ℕ, IfSome, List, None, Some, false, length, true};
ghost use Rattle.cfi_reader.specs.Entries.{is_quiet};
ghost use Rattle.cfi_starts.specs.Entries.{count_of, entry_at, signs_at};
ghost use Rattle.cfi_fails.specs.Fails.{fails_gate_at};
ghost use Rattle.cfi_verify.specs.Scan.{Tells, numbers_in};
ghost use Rattle.cfi_rules.specs.Lines.{leaves_in, line_at};
ghost use Rattle.cfi_verify.specs.Pass.{HasPassed, HoldsAt, HoldsEarly, NoneStands, ends_in_stop};
ghost use Rattle.cfi_rules.specs.Rules.{Holds, lacks_gate};
ghost use Rattle.cfi_starts.specs.Starts.{profile_in};
ghost use Rattle.cfi_rules.specs.declared.reject.Rule.{Rule};

use crate::first::{RULES, first_index};
use crate::gates::target_without_gate;
use crate::kinds_hold::kinds_hold;
use cfi_fails::{fails_site_with, has_list, is_barred_at, is_outside, is_stop};
use cfi_graph::{GraphLine, Key};
use cfi_rules::Rule;
use cfi_scan::Entry;
use cfi_starts::Starts;
use cfi_unit::led;

/// Whether every rule holds, by one pass over the words and the graph's lines. `false` leaves it
/// open.
pub(crate) fn all_hold(starts: &Starts<'_>) -> bool
    ensures { result ≡ true → (words : List ℕ) → Tells (profile_in starts.now) (numbers_in starts.now.graph) starts.now.listing words → (rule : Rule) → Holds (profile_in starts.now) words starts.now.graph rule }
{
    let _count = starts.count();
    // Tells the proof that the profile and the graph agree on who saves the sites of calls.
    let _leaves = starts.has_leaves();
    if !prologue_holds(starts) || !ends_in_stop(starts) {
        return false;
    }
    lines_hold(starts) && kinds_hold(starts)
}

/// Whether no rule that is asked address by address fails at a word of the prologue.
fn prologue_holds(starts: &Starts<'_>) -> bool
    ensures { result ≡ true → (rule : Rule) → HoldsEarly (profile_in starts.now) starts.now.listing starts.now.graph rule }
{
    for rule in &RULES {
        if !holds_early(starts, *rule) {
            return false;
        }
    }
    true
}

fn holds_early(starts: &Starts<'_>, rule: Rule) -> bool
    ensures { result ≡ true → HoldsEarly (profile_in starts.now) starts.now.listing starts.now.graph rule }
{
    match rule {
        Rule::Gate => true,
        _ => first_index(starts, rule, u64::from(starts.front())).is_none(),
    }
}

/// Whether units cover the code and the last of them is a stop.
fn ends_in_stop(starts: &Starts<'_>) -> bool
    ensures { result ≡ ends_in_stop (profile_in starts.now) starts.now.listing }
{
    let done = starts.listing().done() as u64;
    let last = starts.listing().last() as u64;
    done == starts.count_after() && last < done && is_stop(starts.word(last))
}

/// Whether the rules that ask for transfers, gates and lines hold at each word after the prologue
/// and of each class. Lines stand in the order of their addresses: from one to the next no line
/// stands.
fn lines_hold(starts: &Starts<'_>) -> bool
    ensures words { result ≡ true → (k : ℕ) → k < count_of (profile_in starts.now) starts.now.listing → HoldsAt (profile_in starts.now) starts.now.listing starts.now.graph ((profile_in starts.now).units_from + 4 * k) }
    ensures gates { result ≡ true → (a : ℕ) → fails_gate_at (profile_in starts.now) starts.now.listing starts.now.graph a ≡ false }
{
    let mut next = 0;
    for k in 0..starts.graph().lines() {
        match after_line(starts, k, next) {
            Some(after) => next = after,
            None => return false,
        }
    }
    unlisted_hold(starts, next, starts.count_after())
}

/// The word after the line with an index, if the rules hold at its word and at those from `next`
/// to it; of a class, if its targets have its gates.
fn after_line(starts: &Starts<'_>, k: u64, next: u64) -> Option<u64>
    requires within { k < length starts.now.graph.lines }
    requires passed { HasPassed (profile_in starts.now) starts.now.listing starts.now.graph k next }
    ensures { IfSome result (λ after. HasPassed (profile_in starts.now) starts.now.listing starts.now.graph (k + 1) after) }
{
    let line = starts.graph().line(k);
    let Key::Address(address) = line.key() else {
        return after_class(starts, line, next);
    };
    let start = starts.units_from();
    if address < start {
        return Some(next);
    }
    let index = (address - start) / 4;
    if unlisted_hold(starts, next, index) && listed_holds(starts, address, line) {
        Some(index + 1)
    } else {
        None
    }
}

/// `next`, if each target of a class has the class's gate.
fn after_class(starts: &Starts<'_>, line: &GraphLine, next: u64) -> Option<u64>
    ensures { IfSome result (λ after. (after ≡ next) × ((a : ℕ) → lacks_gate starts.now.graph.version (signs_at (profile_in starts.now) starts.now.listing (leaves_in starts.now.graph.lines)) a line.now ≡ false)) }
{
    match target_without_gate(starts, line) {
        Some(_) => None,
        None => Some(next),
    }
}

/// Whether the rules hold at the word with a line.
fn listed_holds(starts: &Starts<'_>, address: u64, line: &GraphLine) -> bool
    requires low { (profile_in starts.now).units_from ≤ address }
    requires small { address < 2 ^ 32 }
    requires here { line_at starts.now.graph.lines address ≡ Some line.now }
    ensures { result ≡ true → HoldsAt (profile_in starts.now) starts.now.listing starts.now.graph address }
{
    match line {
        GraphLine::Edge(_, to) => starts.edge_at(address) == Some(*to) && starts.is_start(*to),
        GraphLine::Call(_, to) => match starts.entry_at(address) {
            Entry::Call(field) => {
                !starts.has_leaves() && led(address + 28, field) == *to && starts.is_start(*to)
            }
            Entry::LinkCall(field) => {
                starts.has_leaves() && led(address, field) == *to && starts.is_start(*to)
            }
            _ => false,
        },
        GraphLine::Site(..) => {
            !is_barred_at(starts, address) && !fails_site_with(starts, address, Some(line))
        }
        GraphLine::Calls(_) | GraphLine::Leaf(..) | GraphLine::Class(..) => false,
    }
}

/// Whether the rules hold at some words, at none of which a line stands.
fn unlisted_hold(starts: &Starts<'_>, from: u64, to: u64) -> bool
    requires small { to < 2 ^ 32 }
    requires unlisted { NoneStands (profile_in starts.now) starts.now.graph.lines from to }
    ensures { result ≡ true → (k : ℕ) → from ≤ k → k < to → HoldsAt (profile_in starts.now) starts.now.listing starts.now.graph ((profile_in starts.now).units_from + 4 * k) }
{
    let mut index = from;
    while index < to {
        index = next_busy(starts, index, to);
        if index < to {
            if !unlisted_holds(starts, index) {
                return false;
            }
            index += 1;
        }
    }
    true
}

/// The first of some words with the entry of a transfer or a gate, or their end.
fn next_busy(starts: &Starts<'_>, from: u64, to: u64) -> u64
    requires { from < to }
    ensures low { from ≤ result }
    ensures high { result ≤ to }
    ensures quiet { (k : ℕ) → from ≤ k → k < result → is_quiet (entry_at (profile_in starts.now) starts.now.listing.entries ((profile_in starts.now).units_from + 4 * k)) ≡ true }
{
    starts.listing().next_busy(from as usize, to as usize) as u64
}

fn unlisted_holds(starts: &Starts<'_>, index: u64) -> bool
    requires small { index < 2 ^ 32 }
    requires unlisted { line_at starts.now.graph.lines ((profile_in starts.now).units_from + 4 * index) ≡ None }
    ensures { result ≡ true → HoldsAt (profile_in starts.now) starts.now.listing starts.now.graph ((profile_in starts.now).units_from + 4 * index) }
{
    match starts.word(index) {
        Entry::Gate(label) => !is_outside(starts, label.bits(), starts.units_from() + 4 * index),
        Entry::Inside
        | Entry::Stop
        | Entry::Other
        | Entry::WritesLink
        | Entry::Return
        | Entry::Break
        | Entry::Stores => true,
        Entry::Enter | Entry::LeafReturn | Entry::LeanStores => starts.has_leaves(),
        Entry::Ecall => !has_list(starts),
        Entry::Guarded(same) => has_list(starts) && same,
        _ => false,
    }
}
