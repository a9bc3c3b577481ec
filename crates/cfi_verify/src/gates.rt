//! Gates with the label of a class.

ghost use Rattle.std.specs.Prelude.{◌≡◌, ◌&&◌, not};
ghost use Rattle.least.specs.Least.{IsLeast};
ghost use Rattle.cfi_rules.specs.Lines.{is_among, leaves_in};
ghost use Rattle.cfi_starts.specs.Entries.{signs_at};
ghost use Rattle.cfi_fails.specs.Fails.{fails_gate_at};
ghost use Rattle.cfi_rules.specs.Rules.{is_borne, is_label, lacks_gate};
ghost use Rattle.cfi_starts.specs.Starts.{profile_in};

use cfi_graph::GraphLine;
use cfi_starts::{Starts, read_of};
use cfi_unit::TargetWord;
use least::lesser;

/// Whether a gate's label is there and is this one.
fn is_label(gate: Option<u32>, label: u32) -> bool
    ensures { result ≡ is_label gate label }
{
    match gate {
        Some(found) => found == label,
        None => false,
    }
}

/// The least target of a class whose word that is to bear the class's label does not.
pub(crate) fn first_without_gate(starts: &Starts<'_>) -> Option<u64>
    ensures { IsLeast (fails_gate_at (profile_in starts.now) starts.now.listing starts.now.graph) result }
{
    let graph = starts.graph();
    let mut least = None;
    for k in 0..graph.lines() {
        least = lesser(least, target_without_gate(starts, graph.line(k)));
    }
    least
}

pub(crate) fn target_without_gate(starts: &Starts<'_>, line: &GraphLine) -> Option<u64>
    ensures { IsLeast (λ a. lacks_gate starts.now.graph.version (signs_at (profile_in starts.now) starts.now.listing (leaves_in starts.now.graph.lines)) a line.now) result }
{
    match line.class() {
        Some(class) => {
            without_gate(
                starts,
                read_of(starts.graph().version(), class.sort()),
                class.label(),
                class.targets(),
            )
        }
        None => None,
    }
}

/// The least of some addresses whose word of this place does not bear a label.
fn without_gate(starts: &Starts<'_>, which: TargetWord, label: u32, targets: &[u64]) -> Option<u64>
    ensures { IsLeast (λ a. is_among a targets.now && not (is_borne (signs_at (profile_in starts.now) starts.now.listing (leaves_in starts.now.graph.lines)) which a label)) result }
{
    let mut least = None;
    for target in targets {
        if !is_borne(starts, which, *target, label) {
            least = lesser(least, Some(*target));
        }
    }
    least
}

/// Whether this word of the target at an address bears a label: a first one is of a saved start, a second one
/// stands behind a unit's start, a third one directly before what saves a site.
fn is_borne(starts: &Starts<'_>, which: TargetWord, address: u64, label: u32) -> bool
    ensures { result ≡ is_borne (signs_at (profile_in starts.now) starts.now.listing (leaves_in starts.now.graph.lines)) which address label }
{
    match which {
        TargetWord::First => is_label(starts.gate_at(address), label) && !starts.is_fresh(address),
        TargetWord::Second => {
            starts.is_start(address) && is_label(starts.gate_past(address, 4), label)
        }
        TargetWord::Third => {
            is_label(starts.gate_past(address, 8), label) && starts.enters_past(address, 12)
        }
    }
}
