ghost use Rattle.std.specs.Prelude.{◌≡◌};
ghost use Rattle.cfi_flow.specs.Sites.{site_kind};

use cfi_graph::SiteKind;
use obj_input::ItemKind;

/// What kind of site an instruction is, if it goes to a computed address.
pub(crate) fn site_kind(kind: ItemKind) -> Option<SiteKind>
    ensures { result ≡ site_kind kind }
{
    match kind {
        ItemKind::Icall => Some(SiteKind::Call),
        ItemKind::Ijump => Some(SiteKind::Jump),
        _ => None,
    }
}
