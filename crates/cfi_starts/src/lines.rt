//! Look-ups among a graph's lines.

ghost use Rattle.std.specs.Prelude.{◌≡◌, ◌-◌, ◌<◌, ◌≤◌, ◌&&◌, IfSome, IsTrue, false, map, nat_le, nat_lt};
ghost use Rattle.std.specs.List.{list_all};
ghost use Rattle.std.specs.Option.{option_copied};
ghost use Rattle.cfi_graph.specs.Graph.{is_rising, key_below, key_of, targets_rise};
ghost use Rattle.cfi_rules.specs.Lines.{call_word, class_with, is_among, is_beside, is_range, line_at, line_with, read_of, serves, targets_for};

use cfi_graph::{Class, Graph, GraphLine, Key, SiteKind, Sort};
use cfi_rules::{Asks, jump_word};
use cfi_unit::TargetWord;
use rv_image::GraphVersion;

/// The line with a key that is no range, if there is one: it is sought where it likely stands and right behind. Keys rise, so
/// else its place is halved in.
fn line_with(graph: &Graph, key: Key, likely: u64) -> Option<&GraphLine>
    requires exact { is_range key ≡ false }
    requires ordered { IsTrue (is_rising key_below (map key_of graph.now.lines)) }
    ensures { option_copied result ≡ line_with graph.now.lines key }
{
    let mut low = 0;
    let mut high = graph.lines();
    while low < high {
        let middle = sought_at(low, high, likely);
        let line = graph.line(middle);
        let found = line.key();
        if found.is_below(key) {
            low = middle + 1;
        } else if key.is_below(found) {
            high = middle;
        } else {
            return Some(line);
        }
    }
    None
}

/// The place that is sought next of those from one on and before another.
fn sought_at(low: u64, high: u64, likely: u64) -> u64
    requires { low < high }
    ensures from { low ≤ result }
    ensures before { result < high }
{
    let next = if low < likely { likely } else { low };
    if next < high && next - likely < 2 {
        next
    } else {
        low + (high - low) / 2
    }
}

/// The line at an address: the first that is not a class's.
pub(crate) fn line_at(graph: &Graph, address: u64) -> Option<&GraphLine>
    requires { IsTrue (is_rising key_below (map key_of graph.now.lines)) }
    ensures { option_copied result ≡ line_at graph.now.lines address }
{
    line_with(graph, Key::Address(address), graph.lines())
}

/// The class with a label, behind so many lines.
pub(crate) fn class_with(graph: &Graph, heads: u64, label: u32) -> Option<Class<'_>>
    requires ordered { IsTrue (is_rising key_below (map key_of graph.now.lines)) }
    requires targets { IsTrue (list_all targets_rise graph.now.lines) }
    ensures value { result ≡ class_with graph.now.lines label }
    ensures rising { IfSome result (λ class. IsTrue (is_rising nat_lt class.targets)) }
{
    found_class(graph, heads, label)
}

fn found_class(graph: &Graph, heads: u64, label: u32) -> Option<Class<'_>>
    requires { IsTrue (is_rising key_below (map key_of graph.now.lines)) }
    ensures { result ≡ class_with graph.now.lines label }
{
    // Most graphs number their classes from 1.
    let likely = heads.saturating_add(u64::from(label).saturating_sub(1));
    line_with(graph, Key::Label(label), likely)?.class()
}

/// Which word of its destination a computed call's check reads, in code whose graph has this version.
fn call_word(version: GraphVersion) -> TargetWord
    ensures { result ≡ call_word version }
{
    match version {
        GraphVersion::OneLabel | GraphVersion::TwoLabels => TargetWord::First,
        GraphVersion::CalleeSaves => TargetWord::Third,
    }
}

/// Which word of each of its targets bears a class's label.
pub fn read_of(version: GraphVersion, sort: Sort) -> TargetWord
    ensures { result ≡ read_of version sort }
{
    match sort {
        Sort::Both => TargetWord::First,
        Sort::Calls => call_word(version),
        Sort::Jumps => jump_word(version),
    }
}

/// Whether classes of a sort serve computed transfers of this kind whose checks read this word.
fn serves(sort: Sort, kind: SiteKind, which: TargetWord) -> bool
    ensures { result ≡ serves sort kind which }
{
    match (sort, kind, which) {
        (Sort::Both, _, TargetWord::First) => true,
        (Sort::Calls, SiteKind::Call, TargetWord::First) => true,
        (Sort::Calls, SiteKind::Call, TargetWord::Third) => true,
        (Sort::Jumps, SiteKind::Jump, TargetWord::First) => true,
        (Sort::Jumps, SiteKind::Jump, TargetWord::Second) => true,
        _ => false,
    }
}

/// The targets of the class with a label, for a computed transfer that it serves.
pub(crate) fn targets_for(graph: &Graph, heads: u64, asked: Asks) -> Option<&[u64]>
    requires ordered { IsTrue (is_rising key_below (map key_of graph.now.lines)) }
    requires targets { IsTrue (list_all targets_rise graph.now.lines) }
    ensures value { option_copied result ≡ targets_for graph.now.lines asked.kind asked.which asked.label }
    ensures rising { IfSome result (λ targets. IsTrue (is_rising nat_lt targets.now)) }
{
    let class = class_with(graph, heads, asked.label)?;
    if serves(class.sort(), asked.kind, asked.which) {
        Some(class.targets())
    } else {
        None
    }
}

/// Whether at an address stands no word of a class's targets that is to bear its label.
pub fn is_beside(version: GraphVersion, class: &Class<'_>, address: u64) -> bool
    requires { IsTrue (is_rising nat_lt class.now.targets) }
    ensures { result ≡ is_beside version class.now address }
{
    match read_of(version, class.sort()) {
        TargetWord::First => !is_among(address, class.targets()),
        TargetWord::Second => !is_after(address, 4, class.targets()),
        TargetWord::Third => !is_after(address, 8, class.targets()),
    }
}

/// Whether an address is so many bytes past one of some that rise.
fn is_after(address: u64, bytes: u64, targets: &[u64]) -> bool
    requires { IsTrue (is_rising nat_lt targets.now) }
    ensures { result ≡ (nat_le bytes address && is_among (address - bytes) targets.now) }
{
    address >= bytes && is_among(address - bytes, targets)
}

/// Whether an address is among some that rise.
pub fn is_among(address: u64, targets: &[u64]) -> bool
    requires { IsTrue (is_rising nat_lt targets.now) }
    ensures { result ≡ is_among address targets.now }
{
    targets.binary_search(&address).is_ok()
}
