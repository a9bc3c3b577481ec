//! All targets of sets, each once.

ghost use Rattle.std.specs.Prelude.{◌≡◌, ◌↔◌, ℕ, IfOk};
ghost use Rattle.std.specs.List.{Contains};
ghost use Rattle.std.specs.List.Sorted.{IsStrictlyIncreasing};
ghost use Rattle.cfi_class.specs.Classes.{IsInSome};

use crate::repeats::is_repeated;
use rv_word::{NoMemory, Places};
use std::alloc::Global;

/// Puts members in rising order, each once.
fn drop_doubles(members: &mut Vec<u64>)
    ensures rising { IsStrictlyIncreasing members.new.items }
    ensures members { (a : ℕ) → Contains members.new.items a ↔ Contains members.old.items a }
{
    members.sort_unstable();
    members.dedup();
}

/// The targets that the sets have, each once, in rising order. Doubles are dropped whenever the list has
/// doubled, so it stays within a few times the targets and one set.
pub(crate) fn targets_of(alloc: Global, sets: &[Places]) -> Result<Vec<u64>, NoMemory>
    ensures rising { IfOk result (λ v. IsStrictlyIncreasing v.items) }
    ensures members { IfOk result (λ v. (a : ℕ) → Contains v.items a ↔ IsInSome sets.now a) }
{
    let mut targets = Vec::new(alloc);
    let mut known = 0;
    for k in 0..sets.len() {
        if !is_repeated(sets, k) {
            targets.extend_from_slice(sets[k].as_slice())?;
        }
        if targets.len() / 2 > known {
            drop_doubles(&mut targets);
            known = targets.len();
        }
    }
    drop_doubles(&mut targets);
    Ok(targets)
}
