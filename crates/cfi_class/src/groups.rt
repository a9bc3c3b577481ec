//! Numbered targets as classes.

ghost use Rattle.std.specs.Prelude.{◌≡◌, ◌<◌, IfOk, length};
ghost use Rattle.std.specs.List.{All};
ghost use Rattle.std.specs.List.Sorted.{IsStrictlyIncreasing};
ghost use Rattle.cfi_class.specs.Passes.{AreGroups};

use rv_word::{NoMemory, Places};
use std::alloc::Global;

/// The targets of each number as one list, in order of first targets.
pub(crate) fn grouped(
    alloc: Global,
    targets: &[u64],
    numbers: &[usize],
) -> Result<Vec<Places>, NoMemory>
    requires rising { IsStrictlyIncreasing targets.now }
    requires each { length numbers.now ≡ length targets.now }
    requires in_range { All (λ number. number < length targets.now) numbers.now }
    ensures { IfOk result (λ v. AreGroups targets.now numbers.now v.items) }
{
    let mut places: Vec<Option<usize>> = vec![in alloc; None; targets.len()]?;
    let mut groups: Vec<Places> = Vec::new(alloc);
    for i in 0..targets.len() {
        match places[numbers[i]] {
            Some(place) => groups[place].push(targets[i])?,
            None => {
                places[numbers[i]] = Some(groups.len());
                let mut group = Places::of(Vec::new(alloc));
                group.push(targets[i])?;
                groups.push(group)?;
            }
        }
    }
    Ok(groups)
}
