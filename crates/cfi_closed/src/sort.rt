//! Which computed transfers the sides of a closed graph have.

ghost use Rattle.std.specs.Prelude.{◌≡◌};
ghost use Rattle.cfi_closed.specs.Closed.{is_of, sorts_of};

use cfi_graph::{SiteKind, Sort};
use rv_image::GraphVersion;

const ONE: [Sort; 1] = [Sort::Both];

const TWO: [Sort; 2] = [Sort::Calls, Sort::Jumps];

/// The sorts of the sides under a version of graphs.
pub fn sorts_of(version: GraphVersion) -> &'static [Sort]
    ensures { result.now ≡ sorts_of version }
{
    match version {
        GraphVersion::OneLabel => &ONE,
        GraphVersion::TwoLabels | GraphVersion::CalleeSaves => &TWO,
    }
}

/// Whether a computed transfer of this kind is one of this sort.
pub fn is_of(sort: Sort, kind: SiteKind) -> bool
    ensures { result ≡ is_of sort kind }
{
    match sort {
        Sort::Both => true,
        Sort::Calls => kind == SiteKind::Call,
        Sort::Jumps => kind == SiteKind::Jump,
    }
}
