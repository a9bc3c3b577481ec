//! What an entry says of its unit.

ghost use Rattle.std.specs.Prelude.{◌≡◌, ◌<◌, ◌^◌};
ghost use Rattle.cfi_starts.specs.Entries.{call_in, edge_in, gate_in, goes_on, is_enter, may_stand, site_in, stands_outside, stands_within};

use crate::leaves::LeafRange;
use cfi_graph::SiteKind;
use cfi_rules::Asks;
use cfi_scan::Entry;
use cfi_unit::{TargetWord, led, led_near};

/// Where the branch or the jump with this entry at an address leads.
pub(crate) fn edge_in(entry: Entry, address: u64) -> Option<u64>
    requires { address < 2 ^ 32 }
    ensures { result ≡ edge_in entry address }
{
    match entry {
        Entry::Near(field) => Some(led_near(address, field)),
        Entry::Branch(field) => Some(led(address + 4, field)),
        Entry::Jump(field) => Some(led(address, field)),
        _ => None,
    }
}

/// Where the call with this entry at an address leads.
pub(crate) fn call_in(entry: Entry, address: u64) -> Option<u64>
    requires { address < 2 ^ 32 }
    ensures { result ≡ call_in entry address }
{
    match entry {
        Entry::Call(field) => Some(led(address + 28, field)),
        Entry::LinkCall(field) => Some(led(address, field)),
        _ => None,
    }
}

/// What the computed transfer with this entry asks for.
pub(crate) fn site_in(entry: Entry) -> Option<Asks>
    ensures { result ≡ site_in entry }
{
    match entry {
        Entry::Ijump(which, label) => Some(Asks {
            kind: SiteKind::Jump,
            which,
            label: label.bits(),
        }),
        Entry::Icall(label) => Some(Asks {
            kind: SiteKind::Call,
            which: TargetWord::First,
            label: label.bits(),
        }),
        Entry::LeanIjump(label) => Some(Asks {
            kind: SiteKind::Jump,
            which: TargetWord::First,
            label: label.bits(),
        }),
        Entry::LeanIcall(label) => Some(Asks {
            kind: SiteKind::Call,
            which: TargetWord::Third,
            label: label.bits(),
        }),
        _ => None,
    }
}

/// The label of a gate's entry.
pub fn gate_in(entry: Entry) -> Option<u32>
    ensures { result ≡ gate_in entry }
{
    match entry {
        Entry::Gate(label) => Some(label.bits()),
        _ => None,
    }
}

/// Whether a unit with this entry saves a site.
pub(crate) fn is_enter(entry: Entry) -> bool
    ensures { result ≡ is_enter entry }
{
    matches!(entry, Entry::Enter)
}

/// Whether a unit with this entry may stand in a leaf.
pub(crate) fn stands_within(entry: Entry) -> bool
    ensures { result ≡ stands_within entry }
{
    !matches!(
        entry,
        Entry::Gate(_)
            | Entry::Call(_)
            | Entry::LinkCall(_)
            | Entry::Enter
            | Entry::Ijump(..)
            | Entry::Icall(_)
            | Entry::LeanIjump(_)
            | Entry::LeanIcall(_)
            | Entry::WritesLink
            | Entry::Return
    )
}

/// Whether it may stand outside of all leaves.
pub(crate) fn stands_outside(entry: Entry) -> bool
    ensures { result ≡ stands_outside entry }
{
    !matches!(entry, Entry::LeafReturn)
}

/// Whether a unit with this entry may go on to the one behind it, or a call come back there.
pub fn goes_on(entry: Entry) -> bool
    ensures { result ≡ goes_on entry }
{
    !matches!(
        entry,
        Entry::Inside
            | Entry::Jump(_)
            | Entry::Stop
            | Entry::Break
            | Entry::Return
            | Entry::LeafReturn
            | Entry::Call(_)
            | Entry::Ijump(..)
            | Entry::Icall(_)
            | Entry::LeanIjump(_)
    )
}

/// Whether it may stand in a leaf, or outside of all.
pub(crate) fn may_stand(leaf: Option<LeafRange>, entry: Entry) -> bool
    ensures { result ≡ may_stand leaf entry }
{
    match leaf {
        Some(_) => stands_within(entry),
        None => stands_outside(entry),
    }
}
