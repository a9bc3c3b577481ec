ghost use Rattle.std.specs.Prelude.{◌≡◌, false, true};
ghost use Rattle.cfi_rules.specs.Rules.{pair_profile};
ghost use Rattle.cfi_rules.specs.Split.{code_words};
ghost use Rattle.cfi_rules.specs.Walks.{AreSteps, IsStep, IsWalked, WalkState, walk_start};
ghost use Rattle.cfi_walk.specs.Laws.{AreSites};
ghost use Rattle.cfi_walk.specs.Trail.{LeadTo, StopAt};
ghost use Rattle.cfi_walk.specs.declared.following.Followed.TheVariants.{Yes, No};

use crate::step::step;
use crate::walk::Walk;
use cfi_verify::Checked;

/// Whether a walk went on.
#[derive(Clone, Copy)]
pub enum Followed {
    /// It did.
    Yes,
    /// It stays where it was.
    No,
}

/// Goes on to `pc` where a step of the walk leads there, and otherwise leaves the walk as it is. Takes
/// no memory.
pub fn follow(checked: &Checked<'_>, walk: &mut Walk, pc: u64) -> Followed
    ensures yes { result ≡ Yes → IsStep (pair_profile checked.now.image checked.now.graph) (code_words checked.now.image.code) checked.now.graph.lines walk.old pc walk.new }
    ensures unchanged { result ≡ No → walk.new ≡ walk.old }
    ensures no { result ≡ No → (next : WalkState) → IsStep (pair_profile checked.now.image checked.now.graph) (code_words checked.now.image.code) checked.now.graph.lines walk.old pc next → ⊥ }
{
    // Tells the proof the bounds on the code's length.
    let _ = checked.image().code().len();
    let Some(place) = checked.place_at(walk.address()) else {
        return Followed::No;
    };
    match step(checked, walk, &place, pc) {
        Some(change) => {
            walk.go(change, pc);
            Followed::Yes
        }
        None => Followed::No,
    }
}

/// Goes on to each of these addresses, one after another, and tells whether a step led to each. Stays where there is
/// no step to the next. Takes no memory.
pub fn follow_all(checked: &Checked<'_>, walk: &mut Walk, addresses: &[u64]) -> bool
    ensures yes { result ≡ true → LeadTo (pair_profile checked.now.image checked.now.graph) (code_words checked.now.image.code) checked.now.graph.lines walk.old addresses.now walk.new }
    ensures no { result ≡ false → StopAt (pair_profile checked.now.image checked.now.graph) (code_words checked.now.image.code) checked.now.graph.lines walk.old addresses.now walk.new }

    // So the answer tells whether the addresses are steps, where an address fixes the step.
    ensures steps { result ≡ true → AreSteps (pair_profile checked.now.image checked.now.graph) (code_words checked.now.image.code) checked.now.graph.lines walk.old addresses.now }
    ensures only { result ≡ false → AreSites walk.old.pending →
        AreSteps (pair_profile checked.now.image checked.now.graph) (code_words checked.now.image.code) checked.now.graph.lines walk.old addresses.now → ⊥ }

    // From the opening on the walk of each hart in each run is followed.
    ensures runs { walk.old ≡ walk_start → IsWalked (pair_profile checked.now.image checked.now.graph) checked.now.image addresses.now → result ≡ true }
{
    checked.is_safe();
    // Tells the proof that the pair meets the rules.
    let _ = checked.image();
    for pc in addresses {
        match follow(checked, walk, *pc) {
            Followed::Yes => {}
            Followed::No => return false,
        }
    }
    true
}
