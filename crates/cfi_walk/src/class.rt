//! Look-ups of classes for a walk.

ghost use Rattle.std.specs.Prelude.{◌≡◌};
ghost use Rattle.cfi_rules.specs.Lines.{holds_of, is_among, targets_for};
ghost use Rattle.cfi_rules.specs.Walk.{is_some_target};

use cfi_verify::{Asks, Checked, is_among};

/// Whether an address is a target of the class that serves a computed transfer.
pub(crate) fn is_in_class(checked: &Checked<'_>, asked: Asks, address: u64) -> bool
    ensures { result ≡ holds_of (targets_for checked.now.graph.lines asked.kind asked.which asked.label) (is_among address) }
{
    match checked.targets_for(asked) {
        Some(targets) => is_among(address, targets),
        None => false,
    }
}

/// Whether the class that serves a computed transfer has a target.
pub(crate) fn has_target(checked: &Checked<'_>, asked: Asks) -> bool
    ensures { result ≡ holds_of (targets_for checked.now.graph.lines asked.kind asked.which asked.label) is_some_target }
{
    match checked.targets_for(asked) {
        Some(targets) => !targets.is_empty(),
        None => false,
    }
}
