ghost use Rattle.std.specs.Prelude.{◌≡◌, ◌<◌, ◌≤◌, length, slice_get, Some};

use cfi_graph::line_after;
use rv_word::{Bytes, Numbers};
use std::alloc::Global;
use std::marker::Model;

/// The name of a place: a symbol, and an offset from it in bytes.
#[derive(Drop)]
pub struct PlaceName {
    /// The symbol's name.
    pub symbol: Bytes,
    /// The place's distance from it.
    pub offset: u32,
}

/// A list of places' names that owns its memory.
#[derive(Drop)]
pub struct PlaceNames {
    items: Vec<PlaceName>,
}

impl Model for PlaceNames {
    ghost use Rattle.std.specs.Prelude.{List};
    ghost use Rattle.cfi_policy.specs.declared.policy.PlaceName.{PlaceName};

    ghost Value = { List PlaceName };

    ghost view = { λ p. p.items.items };
}

impl PlaceNames {
    /// The list with these names, in their order.
    pub fn of(items: Vec<PlaceName>) -> Self
        ensures { result ≡ items.items }
    {
        PlaceNames { items }
    }

    /// The names, lent.
    pub fn as_slice(&self) -> &[PlaceName]
        ensures { result.now ≡ self.now }
    {
        self.items.as_slice()
    }
}

/// A line of a policy: a site, and where it may go.
#[derive(Drop)]
pub struct PolicyLine {
    /// The site.
    pub site: PlaceName,
    /// Its targets.
    pub targets: PlaceNames,
}

/// A policy: the numbers of the system calls that the program may make, where it has a list of them, and
/// sites with their targets, in any order.
#[derive(Drop)]
pub struct Policy {
    pub(crate) calls: Option<Numbers>,
    pub(crate) lines: Vec<PolicyLine>,
}

impl Model for Policy {
    ghost use Rattle.cfi_policy.specs.Policy.{PolicyParts};

    ghost Value = { PolicyParts };

    ghost view = { λ p. record { calls = p.calls; lines = p.lines.items } };
}

impl Policy {
    ghost use Rattle.cfi_policy.specs.Policy.{first_line, no_policy};

    /// The policy without a list and without lines. It takes no memory.
    pub fn none(alloc: Global) -> Policy
        ensures { result ≡ no_policy }
    {
        Policy {
            calls: None,
            lines: Vec::new(alloc),
        }
    }

    /// The numbers of the system calls that the program may make, where the policy has a list of them.
    pub fn calls(&self) -> Option<Numbers>
        ensures { result ≡ self.now.calls }
    {
        self.calls
    }

    /// The number of the first of its lines in its text.
    pub fn first_line(&self) -> u64
        ensures value { result ≡ first_line self.now.calls }
        ensures small { result ≤ 3 }
    {
        line_after(2, &self.calls)
    }

    /// The lines.
    pub fn as_slice(&self) -> &[PolicyLine]
        ensures { result.now ≡ self.now.lines }
    {
        self.lines.as_slice()
    }

    /// The number of lines.
    pub fn lines(&self) -> u64
        ensures { result ≡ length self.now.lines }
    {
        self.lines.len() as u64
    }

    /// The line with the index `k`, from 0.
    pub fn line(&self, k: u64) -> &PolicyLine
        requires { k < length self.now.lines }
        ensures { slice_get self.now.lines k ≡ Some result.now }
    {
        &self.lines.as_slice()[k as usize]
    }
}
