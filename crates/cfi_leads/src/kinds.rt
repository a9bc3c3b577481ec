//! What kinds of places tell of pieces.

ghost use Rattle.std.specs.Prelude.{◌≡◌};
ghost use Rattle.cfi_leads.specs.Entries.{call_target, is_call};
ghost use Rattle.cfi_leads.specs.Leaves.{edge_target, ends_before, ends_leaf, is_edge, is_link, may_stand, stands_in_leaf, writes_link};

use obj_input::ItemKind;
use obj_program::Item;
use rv_code::decode;
use rv_instr::{Instr, Reg};

/// Whether a kind of place is a direct call's.
fn is_call(kind: ItemKind) -> bool
    ensures { result ≡ is_call kind }
{
    kind == ItemKind::Call
}

/// The target of a direct call.
pub(crate) fn call_target(item: &Item) -> Option<u64>
    ensures { result ≡ call_target item.now }
{
    if is_call(item.kind) {
        item.target
    } else {
        None
    }
}

/// Whether a kind of place is a branch's or a jump's.
fn is_edge(kind: ItemKind) -> bool
    ensures { result ≡ is_edge kind }
{
    matches!(kind, ItemKind::Branch | ItemKind::Jump)
}

/// The target of a branch or a jump.
pub(crate) fn edge_target(item: &Item) -> Option<u64>
    ensures { result ≡ edge_target item.now }
{
    if is_edge(item.kind) {
        item.target
    } else {
        None
    }
}

/// Whether a register is there, and is x1.
fn is_link(written: Option<Reg>) -> bool
    ensures { result ≡ is_link written }
{
    match written {
        Some(rd) => rd.number() == 1,
        None => false,
    }
}

/// Whether there is an instruction that writes x1.
fn writes_link(instr: Option<Instr>) -> bool
    ensures { result ≡ writes_link instr }
{
    match instr {
        Some(instr) => is_link(instr.writes()),
        None => false,
    }
}

/// Whether an instruction of a kind may stand in a leaf.
fn may_stand(kind: ItemKind, instr: Option<Instr>) -> bool
    ensures { result ≡ may_stand kind instr }
{
    match kind {
        ItemKind::Plain => !writes_link(instr),
        ItemKind::Store | ItemKind::System | ItemKind::Branch | ItemKind::Jump | ItemKind::Return =>
            true,
        _ => false,
    }
}

/// Whether the instruction of a place may.
pub(crate) fn stands_in_leaf(item: &Item) -> bool
    ensures { result ≡ stands_in_leaf item.now }
{
    may_stand(item.kind, decode(item.word))
}

/// Whether a leaf may end behind a kind of place.
pub(crate) fn ends_leaf(kind: ItemKind) -> bool
    ensures { result ≡ ends_leaf kind }
{
    matches!(kind, ItemKind::Jump | ItemKind::Return)
}

/// Whether no kind of place goes on to the leaf behind it.
pub(crate) fn ends_before(kind: ItemKind) -> bool
    ensures { result ≡ ends_before kind }
{
    matches!(
        kind,
        ItemKind::Jump | ItemKind::Return | ItemKind::Ijump | ItemKind::End
    )
}
