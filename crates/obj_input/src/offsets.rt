ghost use Rattle.std.specs.Prelude.{◌≡◌, ℕ};
ghost use Rattle.obj_input.specs.InOrder.{has};

use std::marker::Model;

/// Offsets in rising order, so that one is found in a few steps.
#[derive(Drop)]
pub(crate) struct Offsets {
    items: Vec<u64>,
}

impl Model for Offsets {
    ghost use Rattle.std.specs.Prelude.{List, ℕ};
    ghost use Rattle.std.specs.List.Sorted.{IsNonDecreasing};

    ghost Value = { List ℕ };

    ghost view = { λ o. o.items.items };

    ghost invariant = { λ o. IsNonDecreasing o.items.items };
}

impl Offsets {
    /// These offsets.
    pub(crate) fn of(mut items: Vec<u64>) -> Offsets
        ensures { (at : ℕ) → has result at ≡ has items.items at }
    {
        items.sort_unstable();
        Offsets { items }
    }

    /// Whether this one is among them.
    pub(crate) fn has(&self, at: u64) -> bool
        ensures { result ≡ has self.now at }
    {
        self.items.binary_search(&at).is_ok()
    }
}
