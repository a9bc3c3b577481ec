ghost use Rattle.std.specs.Prelude.{◌≡◌};
ghost use Rattle.cfi_graph.specs.Graph.{has_leaves};

use crate::class::Class;
use rv_image::GraphVersion;
use rv_word::{Numbers, Places};

/// The two kinds of transfer to a computed address.
#[derive(Clone, Copy, PartialEq, Eq)]
pub enum SiteKind {
    /// A computed call.
    Call,
    /// A computed jump.
    Jump,
}

/// Which computed transfers a class serves.
#[derive(Clone, Copy)]
pub enum Sort {
    /// Computed calls and computed jumps.
    Both,
    /// Computed calls.
    Calls,
    /// Computed jumps.
    Jumps,
}

impl Sort {
    ghost use Rattle.cfi_graph.specs.Graph.{is_sort_of};

    /// Whether graphs of this version have classes of the sort.
    pub fn is_of(self, version: GraphVersion) -> bool
        ensures { result ≡ is_sort_of version self }
    {
        match version {
            GraphVersion::OneLabel => matches!(self, Sort::Both),
            GraphVersion::TwoLabels | GraphVersion::CalleeSaves => {
                matches!(self, Sort::Calls | Sort::Jumps)
            }
        }
    }
}

/// Whether graphs of this version have lines of leaves.
pub(crate) fn has_leaves(version: GraphVersion) -> bool
    ensures { result ≡ has_leaves version }
{
    match version {
        GraphVersion::OneLabel | GraphVersion::TwoLabels => false,
        GraphVersion::CalleeSaves => true,
    }
}

/// A line of a graph.
#[derive(Drop)]
pub enum GraphLine {
    /// The numbers of the system calls that the program may make.
    Calls(Numbers),
    /// A function that saves no site, as it calls nothing: where its first unit starts, and where its last one ends.
    Leaf(u64, u64),
    /// A class: which transfers it serves, its label, and the addresses of its targets.
    Class(Sort, u32, Places),
    /// A transfer to a computed address: where its unit starts, its kind, and its class's label.
    Site(u64, SiteKind, u32),
    /// A branch or jump: where its unit starts, and its target.
    Edge(u64, u64),
    /// A direct call: where its unit starts, and its target.
    Call(u64, u64),
}

/// What a line is ordered by: the list of system calls before all others, then a leaf's range, a class's label, or
/// the first address of another line.
#[derive(Clone, Copy)]
pub enum Key {
    /// The list of system calls.
    Head,
    /// A leaf's range.
    Range(u64, u64),
    /// A class's label.
    Label(u32),
    /// The first address of another line.
    Address(u64),
}

impl GraphLine {
    ghost use Rattle.cfi_graph.specs.Graph.{class_in, is_class, is_site, key_of};

    /// What the line is ordered by.
    pub fn key(&self) -> Key
        ensures { result ≡ key_of self.now }
    {
        match self {
            GraphLine::Calls(_) => Key::Head,
            GraphLine::Leaf(from, to) => Key::Range(*from, *to),
            GraphLine::Class(_, label, _) => Key::Label(*label),
            GraphLine::Site(address, _, _) => Key::Address(*address),
            GraphLine::Edge(from, _) => Key::Address(*from),
            GraphLine::Call(from, _) => Key::Address(*from),
        }
    }

    /// The class of the line, where it is a class's.
    pub fn class(&self) -> Option<Class<'_>>
        ensures { result ≡ class_in self.now }
    {
        match self {
            GraphLine::Class(sort, label, targets) => {
                Some(Class::of(*sort, *label, targets.as_slice()))
            }
            _ => None,
        }
    }

    /// Whether the line is a class.
    pub fn is_class(&self) -> bool
        ensures { result ≡ is_class self.now }
    {
        self.class().is_some()
    }

    /// Whether the line is a site.
    pub fn is_site(&self) -> bool
        ensures { result ≡ is_site self.now }
    {
        matches!(self, GraphLine::Site(..))
    }
}

impl Key {
    ghost use Rattle.cfi_graph.specs.Graph.{key_below};

    /// Whether a line with this key may stand before one with the key `other`.
    pub fn is_below(self, other: Key) -> bool
        ensures { result ≡ key_below self other }
    {
        match (self, other) {
            (Key::Head, Key::Head) => false,
            (Key::Head, Key::Range(..)) => true,
            (Key::Head, Key::Label(_)) => true,
            (Key::Head, Key::Address(_)) => true,
            (Key::Range(..), Key::Head) => false,
            (Key::Label(_), Key::Head) => false,
            (Key::Address(_), Key::Head) => false,
            (Key::Range(_, end), Key::Range(next, after)) => end <= next && next < after,
            (Key::Range(..), Key::Label(_)) => true,
            (Key::Range(..), Key::Address(_)) => true,
            (Key::Label(_), Key::Range(..)) => false,
            (Key::Address(_), Key::Range(..)) => false,
            (Key::Label(label), Key::Label(next)) => label < next,
            (Key::Label(_), Key::Address(_)) => true,
            (Key::Address(_), Key::Label(_)) => false,
            (Key::Address(address), Key::Address(next)) => address < next,
        }
    }
}
