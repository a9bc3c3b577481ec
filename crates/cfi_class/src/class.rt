ghost use Rattle.std.specs.Prelude.{◌≡◌, ◌↔◌, ◌<◌, ℕ, IfOk, length, slice_index};
ghost use Rattle.std.specs.List.{All, AllPairs};
ghost use Rattle.std.specs.List.Sorted.{IsStrictlyIncreasing};
ghost use Rattle.cfi_class.specs.Classes.{AreInOne, IsIn, IsInSome, Joined};

use crate::groups::grouped;
use crate::passes::numbers_of;
use crate::targets::targets_of;
use rv_word::{NoMemory, Places};
use std::alloc::Global;

/// The classes of the targets of sets: each class rising, classes in order of their least members.
/// A set may be empty, have its members in any order, and come many times.
pub fn classes(alloc: Global, sets: &[Places]) -> Result<Vec<Places>, NoMemory>
    ensures joined { IfOk result (λ v. (a b : ℕ) → AreInOne v.items a b ↔ Joined sets.now a b) }
    ensures members { IfOk result (λ v. (a : ℕ) → IsInSome v.items a ↔ IsInSome sets.now a) }
    ensures apart { IfOk result (λ v. (i j a : ℕ) → IsIn v.items i a → IsIn v.items j a → i ≡ j) }
    ensures rising { IfOk result (λ v. All IsStrictlyIncreasing v.items) }
    ensures some { IfOk result (λ v. All (λ class. 0 < length class) v.items) }
    ensures in_order { IfOk result (λ v.
        AllPairs (λ class next. slice_index class 0 < slice_index next 0) v.items) }
{
    let targets = targets_of(alloc, sets)?;
    let numbers = numbers_of(alloc, sets, targets.as_slice())?;
    grouped(alloc, targets.as_slice(), numbers.as_slice())
}
