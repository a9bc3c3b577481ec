//! The walks of a run's harts.

ghost use Rattle.std.specs.Prelude.{◌≡◌, ◌==◌, length, map, IfOk};
ghost use Rattle.cfi_step.specs.Trail.{told_of};

use crate::report::HartWalk;
use crate::trail::Trail;
use rv_word::NoMemory;
use std::alloc::Global;
use std::marker::Model;

/// The walks of all harts of a run, by the harts' numbers.
#[derive(Drop)]
pub struct HartWalks {
    items: Vec<HartWalk>,
}

impl Model for HartWalks {
    ghost use Rattle.std.specs.Prelude.{List};
    ghost use Rattle.cfi_step.specs.declared.report.HartWalk.{HartWalk};

    ghost Value = { List HartWalk };

    ghost view = { λ w. w.items.items };
}

impl HartWalks {
    /// What is told of walks of which these trails are kept.
    pub(crate) fn of(alloc: Global, trails: &[Trail]) -> Result<Self, NoMemory>
        ensures { IfOk result (λ walks. walks ≡ map told_of trails.now) }
    {
        let mut items = Vec::new(alloc);
        for trail in trails {
            items.push(trail.told(alloc)?)?;
        }
        Ok(HartWalks { items })
    }

    /// The walks, lent.
    pub fn as_slice(&self) -> &[HartWalk]
        ensures { result.now ≡ self.now }
    {
        self.items.as_slice()
    }

    /// How many harts there are.
    pub fn len(&self) -> usize
        ensures { result ≡ length self.now }
    {
        self.items.len()
    }

    /// Whether there is none.
    pub fn is_empty(&self) -> bool
        ensures { result ≡ (length self.now == 0) }
    {
        self.items.is_empty()
    }
}
