ghost use Rattle.std.specs.Prelude.{◌≡◌};

use crate::line::Sort;
use std::marker::Model;

/// The class of a line: which computed transfers it serves, its label, and the addresses of its targets.
#[derive(Drop)]
pub struct Class<'a> {
    sort: Sort,
    label: u32,
    targets: &'a [u64],
}

impl<'a> Model for Class<'a> {
    ghost use Rattle.cfi_graph.specs.Graph.{ClassLine};

    ghost Value = { ClassLine };

    ghost view = { λ c. record { sort = c.sort; label = c.label; targets = c.targets.now } };
}

impl<'a> Class<'a> {
    /// The class of this sort, label and targets.
    pub(crate) fn of(sort: Sort, label: u32, targets: &'a [u64]) -> Class<'a>
        ensures { result ≡ record { sort = sort; label = label; targets = targets.now } }
    {
        Class {
            sort,
            label,
            targets,
        }
    }

    /// Which computed transfers it serves.
    pub fn sort(&self) -> Sort
        ensures { result ≡ self.now.sort }
    {
        self.sort
    }

    /// Its label.
    pub fn label(&self) -> u32
        ensures { result ≡ self.now.label }
    {
        self.label
    }

    /// The addresses of its targets.
    pub fn targets(&self) -> &'a [u64]
        ensures { result.now ≡ self.now.targets }
    {
        self.targets
    }
}
