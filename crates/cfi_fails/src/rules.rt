//! Each rule, asked of one address.

ghost use Rattle.std.specs.Prelude.{◌≡◌, ◌≢◌, ◌+◌, ◌*◌, ◌<◌, ◌==◌, ◌^◌, is_some, not};
ghost use Rattle.std.specs.Option.{option_copied};
ghost use Rattle.cfi_starts.specs.Entries.{count_of};
ghost use Rattle.cfi_fails.specs.Fails.{fails_astray_at, fails_at, fails_end_at, fails_site_at, fails_unit_at, fails_unlisted_at, fails_unused_at, is_bad_end_at, is_barred, is_barred_at, is_of_others, is_stop_entry, may_not_call};
ghost use Rattle.cfi_graph.specs.Graph.{calls_in};
ghost use Rattle.cfi_rules.specs.Lines.{holds_of, is_outside, line_at};
ghost use Rattle.cfi_rules.specs.Rules.{
  fails_prologue,
  is_call_to,
  is_edge_to,
  is_site_with,
  same_word,
};
ghost use Rattle.cfi_starts.specs.Starts.{profile_in};
ghost use Rattle.cfi_rules.specs.declared.reject.Rule.TheVariants as R;

use crate::prologue::is_prologue_word;
use cfi_graph::GraphLine;
use cfi_rules::{Asks, Rule, jump_word};
use cfi_scan::Entry;
use cfi_starts::{Spot, Starts, is_beside};
use cfi_unit::TargetWord;
use rv_image::memory_map::CODE_START;

/// Whether a rule other than Gate fails at an address.
pub fn fails(starts: &Starts<'_>, rule: Rule, address: u64) -> bool
    requires by_address { rule ≢ R.Gate }
    requires small { address < 2 ^ 32 }
    ensures { result ≡ fails_at (profile_in starts.now) rule starts.now.listing starts.now.graph address }
{
    match rule {
        Rule::Prologue => fails_prologue(starts, address),
        Rule::Unit => fails_unit(starts, address),
        Rule::Leaf => starts.fails_leaf(address),
        Rule::Target => starts.fails_target(&starts.spot_at(address)),
        Rule::Unlisted => fails_unlisted(starts, address),
        Rule::Unused => fails_unused(starts, address),
        Rule::Site => fails_site(starts, address),
        Rule::Gate => unreachable!(),
        Rule::Astray => fails_astray(starts, address),
        Rule::End => fails_end(starts, address),
    }
}

fn fails_prologue(starts: &Starts<'_>, address: u64) -> bool
    ensures { result ≡ fails_prologue (profile_in starts.now) starts.now.listing.prologue address }
{
    if address < CODE_START || address > starts.units_from() - 4 || address % 4 != 0 {
        return false;
    }
    let index = ((address - CODE_START) / 4) as usize;
    !is_prologue_word(
        starts.versions(),
        index,
        starts.listing().prologue().get(index).copied(),
    )
}

fn fails_unit(starts: &Starts<'_>, address: u64) -> bool
    ensures { result ≡ fails_unit_at (profile_in starts.now) starts.now.listing starts.now.graph address }
{
    let done = starts.listing().done() as u64;
    done < starts.count_after() && address == starts.units_from() + 4 * done
        || is_barred_at(starts, address)
        || starts.stands_wrong(&starts.spot_at(address))
}

/// Whether the graph does not admit the unit at an address.
pub fn is_barred_at(starts: &Starts<'_>, address: u64) -> bool
    ensures { result ≡ is_barred_at (profile_in starts.now) starts.now.listing starts.now.graph address }
{
    is_of_others(starts, starts.entry_at(address)) || may_not_call(starts, starts.entry_at(address))
}

/// Whether the graph does not admit the unit at a spot.
pub fn is_barred(starts: &Starts<'_>, here: &Spot) -> bool
    ensures { result ≡ is_barred starts.now.graph.version (is_some (calls_in starts.now.graph.lines)) here.now.entry }
{
    is_of_others(starts, here.entry()) || may_not_call(starts, here.entry())
}

/// Whether no unit with this entry stands in code whose graph has the graph's version.
fn is_of_others(starts: &Starts<'_>, entry: Entry) -> bool
    ensures { result ≡ is_of_others starts.now.graph.version entry }
{
    match entry {
        Entry::Ijump(which, _) => {
            starts.has_leaves() || !same_word(which, jump_word(starts.graph().version()))
        }
        Entry::Call(_) | Entry::Icall(_) | Entry::Stores => starts.has_leaves(),
        Entry::LinkCall(_)
        | Entry::Enter
        | Entry::LeanIjump(_)
        | Entry::LeanIcall(_)
        | Entry::LeafReturn
        | Entry::LeanStores => !starts.has_leaves(),
        _ => false,
    }
}

/// Whether the graph's list of system calls, or that it has none, does not admit a unit with this entry.
fn may_not_call(starts: &Starts<'_>, entry: Entry) -> bool
    ensures { result ≡ may_not_call (is_some (calls_in starts.now.graph.lines)) entry }
{
    match entry {
        Entry::Ecall => has_list(starts),
        Entry::Guarded(same) => !(has_list(starts) && same),
        _ => false,
    }
}

/// Whether the graph has a list of system calls.
pub fn has_list(starts: &Starts<'_>) -> bool
    ensures { result ≡ is_some (calls_in starts.now.graph.lines) }
{
    starts.graph().calls().is_some()
}

fn lacks_edge(starts: &Starts<'_>, address: u64, target: Option<u64>) -> bool
    ensures { result ≡ holds_of target (λ to. not (is_edge_to (line_at starts.now.graph.lines address) to)) }
{
    match target {
        Some(target) => !is_edge_to(starts.line_at(address), target),
        None => false,
    }
}

fn lacks_call(starts: &Starts<'_>, address: u64, target: Option<u64>) -> bool
    ensures { result ≡ holds_of target (λ to. not (is_call_to (line_at starts.now.graph.lines address) to)) }
{
    match target {
        Some(target) => !is_call_to(starts.line_at(address), target),
        None => false,
    }
}

fn fails_unlisted(starts: &Starts<'_>, address: u64) -> bool
    requires { address < 2 ^ 32 }
    ensures { result ≡ fails_unlisted_at (profile_in starts.now) starts.now.listing starts.now.graph.lines address }
{
    lacks_edge(starts, address, starts.edge_at(address))
        || lacks_call(starts, address, starts.call_at(address))
}

fn fails_unused(starts: &Starts<'_>, address: u64) -> bool
    requires { address < 2 ^ 32 }
    ensures { result ≡ fails_unused_at (profile_in starts.now) starts.now.listing starts.now.graph.lines address }
{
    match starts.line_at(address) {
        Some(GraphLine::Edge(..)) => starts.edge_at(address).is_none(),
        Some(GraphLine::Call(..)) => starts.call_at(address).is_none(),
        _ => false,
    }
}

fn fails_site(starts: &Starts<'_>, address: u64) -> bool
    ensures { result ≡ fails_site_at (profile_in starts.now) starts.now.listing starts.now.graph.lines address }
{
    fails_site_with(starts, address, starts.line_at(address))
}

/// The same, of the line that stands there.
pub fn fails_site_with(starts: &Starts<'_>, address: u64, line: Option<&GraphLine>) -> bool
    requires { option_copied line ≡ line_at starts.now.graph.lines address }
    ensures { result ≡ fails_site_at (profile_in starts.now) starts.now.listing starts.now.graph.lines address }
{
    match starts.site_at(address) {
        Some(asked) => !(is_site_with(line, asked) && starts.targets_for(asked).is_some()),
        None => matches!(line, Some(GraphLine::Site(..))),
    }
}

fn fails_astray(starts: &Starts<'_>, address: u64) -> bool
    ensures { result ≡ fails_astray_at (profile_in starts.now) starts.now.listing starts.now.graph address }
{
    match starts.gate_at(address) {
        Some(label) => is_outside(starts, label, address),
        None => false,
    }
}

/// Whether a label is a class's, and at an address stands no word of its targets that is to bear it.
pub fn is_outside(starts: &Starts<'_>, label: u32, address: u64) -> bool
    ensures { result ≡ is_outside starts.now.graph.version starts.now.graph.lines label address }
{
    match starts.class_with(label) {
        Some(class) => is_beside(starts.graph().version(), &class, address),
        None => false,
    }
}

/// Whether the last unit starts at an address, ends the code and is no stop.
fn is_bad_end(starts: &Starts<'_>, address: u64) -> bool
    ensures { result ≡ is_bad_end_at (profile_in starts.now) starts.now.listing address }
{
    let done = starts.listing().done() as u64;
    let last = starts.listing().last() as u64;
    done == starts.count_after()
        && last < done
        && address == starts.units_from() + 4 * last
        && !is_stop(starts.entry_at(address))
}

fn fails_end(starts: &Starts<'_>, address: u64) -> bool
    ensures { result ≡ fails_end_at (profile_in starts.now) starts.now.listing address }
{
    is_bad_end(starts, address)
        || (address == starts.units_from() && starts.count() <= starts.front())
}

fn same_word(which: TargetWord, other: TargetWord) -> bool
    ensures { result ≡ same_word which other }
{
    which == other
}

pub fn is_stop(entry: Entry) -> bool
    ensures { result ≡ is_stop_entry entry }
{
    matches!(entry, Entry::Stop)
}

fn is_edge_to(line: Option<&GraphLine>, target: u64) -> bool
    ensures { result ≡ is_edge_to (option_copied line.entry) target }
{
    matches!(line, Some(GraphLine::Edge(_, to)) if *to == target)
}

fn is_call_to(line: Option<&GraphLine>, target: u64) -> bool
    ensures { result ≡ is_call_to (option_copied line.entry) target }
{
    matches!(line, Some(GraphLine::Call(_, to)) if *to == target)
}

fn is_site_with(line: Option<&GraphLine>, asked: Asks) -> bool
    ensures { result ≡ is_site_with (option_copied line.entry) asked }
{
    matches!(line, Some(GraphLine::Site(_, k, l)) if *k == asked.kind && *l == asked.label)
}
