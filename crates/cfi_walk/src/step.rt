//! One step of the graph walk.

ghost use Rattle.std.specs.Prelude.{◌≡◌, ◌<◌, ◌^◌, ◌⊎◌};
ghost use Rattle.cfi_rules.specs.Rules.{pair_profile};
ghost use Rattle.cfi_rules.specs.Walk.{
  CallGoes,
  ComputedCallGoes,
  ComputedLinkGoes,
  Goes,
  GoesPast,
  JumpGoes,
  LeafGoes,
  LinkGoes,
  OpeningGoes,
  ReturnGoes,
  SaveGoes,
  To,
};
ghost use Rattle.cfi_walk.specs.Moves.{IsAnswer};

use crate::class::{has_target, is_in_class};
use crate::walk::{Move, Walk};
use cfi_emit::size;
use cfi_graph::SiteKind;
use cfi_unit::handlers::{self, BAD_RETURN, BAD_TARGET, DEEP};
use cfi_unit::{Place, SystemOp, TargetWord, Unit};
use cfi_verify::{Asks, Checked};
use rv_image::GraphVersion;

/// How many sites the shadow stack holds.
const MOST_PENDING: usize = handlers::MOST_PENDING as usize;

/// The step to one address.
fn to(walk: &Walk, target: u64, pc: u64) -> Option<Move>
    ensures { IsAnswer (λ newer. To target walk.now.pending pc newer) walk.now.pending result }
{
    if pc == target { Some(Move::Keep) } else { None }
}

/// The step to one of two addresses.
fn to_either(walk: &Walk, first: u64, second: u64, pc: u64) -> Option<Move>
    ensures { IsAnswer (λ newer. To first walk.now.pending pc newer ⊎ To second walk.now.pending pc newer) walk.now.pending result }
{
    if pc == first || pc == second {
        Some(Move::Keep)
    } else {
        None
    }
}

fn call(walk: &Walk, site: u64, target: u64, pc: u64) -> Option<Move>
    ensures { IsAnswer (λ newer. CallGoes site target walk.now.pending pc newer) walk.now.pending result }
{
    let depth = walk.depth();
    if depth == MOST_PENDING {
        to(walk, DEEP, pc)
    } else if depth < MOST_PENDING && pc == target {
        Some(Move::Push(site))
    } else {
        None
    }
}

/// A call that leaves its site in x1.
fn link(walk: &Walk, site: u64, target: u64, pc: u64) -> Option<Move>
    ensures { IsAnswer (λ newer. LinkGoes site target walk.now.pending pc newer) walk.now.pending result }
{
    if walk.depth() <= MOST_PENDING && pc == target {
        Some(Move::Push(site))
    } else {
        None
    }
}

/// What saves the newest site.
fn saved(walk: &Walk, past: u64, pc: u64) -> Option<Move>
    ensures { IsAnswer (λ newer. SaveGoes past walk.now.pending pc newer) walk.now.pending result }
{
    if walk.depth() <= MOST_PENDING {
        to(walk, past, pc)
    } else {
        to(walk, DEEP, pc)
    }
}

fn computed_jump(
    checked: &Checked<'_>,
    walk: &Walk,
    which: TargetWord,
    label: u32,
    pc: u64,
) -> Option<Move>
    ensures { IsAnswer (λ newer. JumpGoes checked.now.graph.lines which label walk.now.pending pc newer) walk.now.pending result }
{
    let asked = Asks {
        kind: SiteKind::Jump,
        which,
        label,
    };
    if pc == BAD_TARGET || is_in_class(checked, asked, pc) {
        Some(Move::Keep)
    } else {
        None
    }
}

fn computed_call(checked: &Checked<'_>, walk: &Walk, site: u64, label: u32, pc: u64) -> Option<Move>
    ensures { IsAnswer (λ newer. ComputedCallGoes checked.now.graph.lines site label walk.now.pending pc newer) walk.now.pending result }
{
    if pc == BAD_TARGET {
        return Some(Move::Keep);
    }
    let asked = Asks {
        kind: SiteKind::Call,
        which: TargetWord::First,
        label,
    };
    let depth = walk.depth();
    if depth == MOST_PENDING {
        return if has_target(checked, asked) {
            to(walk, DEEP, pc)
        } else {
            None
        };
    }
    if depth < MOST_PENDING && is_in_class(checked, asked, pc) {
        Some(Move::Push(site))
    } else {
        None
    }
}

/// A computed call that leaves its site in x1: it leads to the gate of its class behind a target.
fn computed_link(
    checked: &Checked<'_>,
    walk: &Walk,
    which: TargetWord,
    site: u64,
    label: u32,
    pc: u64,
) -> Option<Move>
    ensures { IsAnswer (λ newer. ComputedLinkGoes checked.now.graph.lines which site label walk.now.pending pc newer) walk.now.pending result }
{
    if pc == BAD_TARGET {
        return Some(Move::Keep);
    }
    let asked = Asks {
        kind: SiteKind::Call,
        which,
        label,
    };
    if walk.depth() <= MOST_PENDING && pc >= 8 && is_in_class(checked, asked, pc - 8) {
        Some(Move::Push(site))
    } else {
        None
    }
}

fn returned(walk: &Walk, pc: u64) -> Option<Move>
    ensures { IsAnswer (λ newer. ReturnGoes walk.now.pending pc newer) walk.now.pending result }
{
    if let Some(site) = walk.newest() {
        if pc == site {
            return Some(Move::Pop);
        }
    }
    to(walk, BAD_RETURN, pc)
}

/// A return from a function that calls nothing.
fn returned_from_leaf(walk: &Walk, pc: u64) -> Option<Move>
    ensures { IsAnswer (λ newer. LeafGoes walk.now.pending pc newer) walk.now.pending result }
{
    if walk.newest()? == pc {
        Some(Move::Pop)
    } else {
        None
    }
}

/// The step from a unit, with the address after it.
fn from_unit(checked: &Checked<'_>, walk: &Walk, unit: &Unit, past: u64, pc: u64) -> Option<Move>
    ensures { IsAnswer (λ newer. GoesPast checked.now.graph.lines unit.now past walk.now.pending pc newer) walk.now.pending result }
{
    match unit {
        Unit::Gate(_) | Unit::Plain(_) | Unit::System(SystemOp::Ecall) | Unit::Stores(..) => {
            to(walk, past, pc)
        }
        Unit::Branch(_, _, _, target) => to_either(walk, past, *target, pc),
        Unit::Near(_, _, _, target) => to_either(walk, past, *target, pc),
        Unit::Jump(target) => to(walk, *target, pc),
        Unit::Stop => to(walk, BAD_TARGET, pc),
        Unit::System(SystemOp::Ebreak) => None,
        Unit::Guarded(_) => to_either(walk, past, BAD_TARGET, pc),
        Unit::Call(target) => call(walk, past, *target, pc),
        Unit::Ijump(which, _, _, label) => {
            computed_jump(checked, walk, *which, label.bits(), pc)
        }
        Unit::Icall(_, _, label) => computed_call(checked, walk, past, label.bits(), pc),
        Unit::Return => returned(walk, pc),
        Unit::LeanIjump(_, _, label) => {
            computed_jump(checked, walk, TargetWord::First, label.bits(), pc)
        }
        Unit::LinkCall(target) => link(walk, past, *target, pc),
        Unit::Enter => saved(walk, past, pc),
        Unit::LeanIcall(_, _, label) => {
            computed_link(checked, walk, TargetWord::Third, past, label.bits(), pc)
        }
        Unit::LeafReturn => returned_from_leaf(walk, pc),
    }
}

/// The step from the opening, by who saves the sites of calls.
fn opened(checked: &Checked<'_>, walk: &Walk, entry: u64, pc: u64) -> Option<Move>
    ensures { IsAnswer (λ newer. OpeningGoes (pair_profile checked.now.image checked.now.graph).callee_saves (pair_profile checked.now.image checked.now.graph).closing entry walk.now.pending pc newer) walk.now.pending result }
{
    let closing = checked.closing();
    match checked.graph().version() {
        GraphVersion::CalleeSaves => link(walk, closing, entry, pc),
        GraphVersion::OneLabel => call(walk, closing, entry, pc),
        GraphVersion::TwoLabels => call(walk, closing, entry, pc),
    }
}

/// What the step of a walk to an address does with the pending sites, if there is such a step from
/// the place at which the walk stands.
pub(crate) fn step(checked: &Checked<'_>, walk: &Walk, place: &Place, pc: u64) -> Option<Move>
    requires { walk.now.at < 2 ^ 32 }
    ensures { IsAnswer (λ newer. Goes (pair_profile checked.now.image checked.now.graph) checked.now.graph.lines place.now walk.now.at walk.now.pending pc newer) walk.now.pending result }
{
    match place {
        Place::Handler => None,
        Place::Closing => None,
        Place::Opening(entry) => opened(checked, walk, *entry, pc),
        Place::Body(unit) => {
            let past = walk.address() + u64::from(size(unit));
            from_unit(checked, walk, unit, past, pc)
        }
    }
}
