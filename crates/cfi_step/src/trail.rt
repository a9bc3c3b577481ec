ghost use Rattle.std.specs.Prelude.{◌≡◌, ◌≤◌, ◌+◌, ◌++◌, ◌∷◌, [], ◌<◌, ◌^◌, ℕ, List, IfOk, min, if◌then◌else◌};
ghost use Rattle.cfi_step.specs.Trail.{IsTrailOf, told_of};

use crate::report::HartWalk;
use rv_word::{NoMemory, Places};
use std::alloc::Global;
use std::marker::Model;

/// How many addresses of a walk are kept.
const KEPT: u64 = 16;

/// What is kept of a walk: how many addresses it has, and the last of them. These stand in a ring: the address with number k,
/// from 0 on, at k modulo 16.
#[derive(Drop)]
pub(crate) struct Trail {
    count: u64,
    ring: [u64; KEPT as usize],
}

impl Model for Trail {
    ghost use Rattle.std.specs.Prelude.{◌%◌, min, take};
    ghost use Rattle.cfi_step.specs.Trail.{TrailParts, turned};

    ghost Value = { TrailParts };

    ghost view = { λ t. record { count = t.count; last = turned (t.count % 16) (take (min t.count 16) t.ring) } };
}

impl Trail {
    /// The trail of a walk without addresses.
    pub(crate) fn new() -> Trail
        ensures { IsTrailOf [] result }
    {
        Trail {
            count: 0,
            ring: [0; KEPT as usize],
        }
    }

    /// The walk goes on to an address.
    fn note(&mut self, address: u64)
        requires { self.old.count + 1 < 2 ^ 64 }
        ensures walk { (walk : List ℕ) → IsTrailOf walk self.old → IsTrailOf (walk ++ address ∷ []) self.new }
        ensures count { self.new.count ≡ self.old.count + 1 }
    {
        self.ring[(self.count % KEPT) as usize] = address;
        self.count += 1;
    }

    /// The walk goes on to an address, where something starts there.
    #[inline(always)]
    pub(crate) fn note_start(&mut self, address: u64, is_start: bool)
        requires { self.old.count + 1 < 2 ^ 64 }
        ensures walk { (walk : List ℕ) → IsTrailOf walk self.old → IsTrailOf (walk ++ (if is_start then address ∷ [] else [])) self.new }
        ensures count { self.new.count ≤ self.old.count + 1 }
    {
        if is_start {
            self.note(address);
        }
    }

    /// What is told of the walk.
    pub(crate) fn told(&self, alloc: Global) -> Result<HartWalk, NoMemory>
        ensures { IfOk result (λ walk. walk ≡ told_of self.now) }
    {
        Ok(HartWalk {
            walk: self.count,
            trail: self.last(alloc)?,
        })
    }

    /// The last addresses, oldest first.
    fn last(&self, alloc: Global) -> Result<Places, NoMemory>
        ensures { IfOk result (λ places. places ≡ self.now.last) }
    {
        let mut last = Vec::from_slice(alloc, &self.ring[..kept(self.count)])?;
        last.rotate_left((self.count % KEPT) as usize);
        Ok(Places::of(last))
    }
}

/// How many of so many addresses are kept.
fn kept(count: u64) -> usize
    ensures { result ≡ min count 16 }
{
    if count < KEPT {
        count as usize
    } else {
        KEPT as usize
    }
}
