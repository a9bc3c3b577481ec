ghost use Rattle.std.specs.Prelude.{◌≡◌, length};

use cfi_graph::{Graph, SiteKind, read_graph};
use cfi_unit::{TargetWord, Unit};
use cfi_verify::{Asks, Checked, Place, Reject, Rule, verify};
use rv_image::Image;
use rv_word::End;
use sample_programs::{B, B_GRAPH, code};
use std::alloc::Global;

/// What a computed call with label 1 asks for.
const OF_LABEL_1: Asks = Asks {
    kind: SiteKind::Call,
    which: TargetWord::First,
    label: 1,
};

/// Whether an accepted pair tells its parts, and what stands where.
fn tells_its_parts(checked: &Checked<'_>) -> bool {
    checked.image().code().len() == 0x5c
        && checked.graph().code() == 0x5c
        && matches!(checked.unit_at(0x4000_0044), Some(Unit::Return))
        && checked.unit_at(0x4000_0048).is_none()
        && matches!(
            checked.place_at(0x4000_000c),
            Some(Place::Opening(0x4000_0040))
        )
        && matches!(checked.place_at(0x4000_0038), Some(Place::Closing))
        && checked.targets_for(OF_LABEL_1).is_none()
}

/// How a pair is answered: accepted with its parts told, rejected by the rule on targets at 40000040h, or
/// in another way.
#[derive(Clone, Copy, PartialEq)]
enum Outcome {
    Accepted,
    Rejected,
    Other,
}

/// The outcome of an accepted pair.
fn accepted(checked: &Checked<'_>) -> Outcome {
    if tells_its_parts(checked) {
        Outcome::Accepted
    } else {
        Outcome::Other
    }
}

/// The outcome of a pair that is not accepted.
fn rejected(end: &End<Reject>) -> Outcome {
    match end {
        End::Fault(Reject::At(Rule::Target, 0x4000_0040)) => Outcome::Rejected,
        _ => Outcome::Other,
    }
}

/// How the verifier answers.
fn verified(alloc: Global, image: &Image<'_>, graph: &Graph) -> Outcome {
    match verify(alloc, image, graph) {
        Ok(checked) => accepted(&checked),
        Err(end) => rejected(&end),
    }
}

/// What becomes of the prologue with these units.
fn answer(alloc: Global, units: &[u32]) -> Outcome
    requires { length units.now ≡ 7 }
{
    match code(alloc, units) {
        Ok(bytes) => answer_of(alloc, &bytes),
        Err(_) => Outcome::Other,
    }
}

/// What becomes of code.
fn answer_of(alloc: Global, code: &[u8]) -> Outcome
    requires { length code.now ≡ 92 }
{
    match read_graph(alloc, B_GRAPH) {
        Ok(graph) => verified(alloc, &Image::of(code, &[]), &graph),
        Err(_) => Outcome::Other,
    }
}

#[test]
fn accepted_and_rejected(rt: HostRuntime) {
    assert!(rt; answer(rt.alloc(), &B) == Outcome::Accepted);
    let mut changed = B;
    changed[0] = 0x0080_006f;
    assert!(rt; answer(rt.alloc(), &changed) == Outcome::Rejected);
}
