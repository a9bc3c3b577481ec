//! How far a branch reaches in one word.

ghost use Rattle.std.specs.Prelude.{◌≡◌, ℕ, ◌<◌, ◌^◌, IfOk, Some, length, map, slice_get, slice_index};
ghost use Rattle.cfi_layout.specs.declared.short.Short.{Short};
ghost use Rattle.cfi_layout.specs.Lengthening.{gap, is_far, reach, spans};

use crate::short::Short;
use rv_word::NoMemory;
use std::alloc::Global;

/// How many bytes the target of a branch may start after its word at most.
const REACH_AHEAD: u64 = 4092;
/// How many bytes the target of a branch may start before its word at most.
const REACH_BEHIND: u64 = 4096;

impl Short {
    /// How many bytes its word and the start of its target may be apart.
    pub(crate) fn reach(&self) -> u64
        ensures { result ≡ reach self.now }
    {
        if self.at < self.target {
            REACH_AHEAD
        } else {
            REACH_BEHIND
        }
    }

    /// Whether it is to be long where it is this many bytes from its target.
    pub(crate) fn is_far(&self, distance: u64) -> bool
        ensures { result ≡ is_far self.now distance }
    {
        self.keep || self.reach() < distance
    }

    /// Whether a part lies between it and its target.
    pub(crate) fn spans(&self, part: u32) -> bool
        ensures { result ≡ spans self.now part }
    {
        self.at < part && part < self.target || self.target <= part && part < self.at
    }

    /// How many bytes its word and the start of its target are apart.
    fn gap(&self, starts: &[u64]) -> u64
        requires at { self.now.at < length starts.now }
        requires target { self.now.target < length starts.now }
        requires low { slice_index starts.now self.now.at < 2 ^ 32 }
        ensures { result ≡ gap starts.now self.now }
    {
        let word = starts[self.at as usize] + u64::from(self.lead);
        let target = starts[self.target as usize];
        if self.at < self.target {
            target.saturating_sub(word)
        } else {
            word.saturating_sub(target)
        }
    }
}

/// The gap of each branch.
pub(crate) fn gaps(alloc: Global, starts: &[u64], branches: &[Short]) -> Result<Vec<u64>, NoMemory>
    requires parts { (i : ℕ) (b : Short) → slice_get branches.now i ≡ Some b →
        (b.at < length starts.now) × (b.target < length starts.now) }
    requires low { (k : ℕ) → slice_index starts.now k < 2 ^ 32 }
    ensures { IfOk result (λ v. v.items ≡ map (gap starts.now) branches.now) }
{
    let mut gaps = Vec::new(alloc);
    for branch in branches {
        gaps.push(branch.gap(starts))?;
    }
    Ok(gaps)
}
