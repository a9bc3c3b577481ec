ghost use Rattle.std.specs.Prelude.{◌≡◌, ◌+◌, ◌^◌, ◌<◌, IfOk, length};
ghost use Rattle.std.specs.List.{All};
ghost use Rattle.std.specs.List.Sorted.{IsNonDecreasing, IsStrictlyIncreasing};
ghost use Rattle.cfi_class.specs.Labels.{AreLabels};

use rv_word::NoMemory;
use std::alloc::Global;

/// As many labels as are asked for, each the least number from 1 on that no earlier label is and
/// `used` lacks. `used` may have any numbers, in any order and more than once.
pub fn labels(alloc: Global, count: usize, used: &[u32]) -> Result<Vec<u32>, NoMemory>
    requires { count + length used.now < 2 ^ 20 }
    ensures count { IfOk result (λ v. length v.items ≡ count) }
    ensures least { IfOk result (λ v. AreLabels used.now v.items) }
    ensures rising { IfOk result (λ v. IsStrictlyIncreasing v.items) }
    ensures below { IfOk result (λ v. All (λ label. label < 2 ^ 20) v.items) }
{
    let mut taken = Vec::from_slice(alloc, used)?;
    taken.sort()?;
    given(alloc, count, taken.as_slice())
}

/// Labels for numbers in order.
fn given(alloc: Global, count: usize, used: &[u32]) -> Result<Vec<u32>, NoMemory>
    requires few { count + length used.now < 2 ^ 20 }
    requires in_order { IsNonDecreasing used.now }
    ensures count { IfOk result (λ v. length v.items ≡ count) }
    ensures least { IfOk result (λ v. AreLabels used.now v.items) }
    ensures rising { IfOk result (λ v. IsStrictlyIncreasing v.items) }
    ensures below { IfOk result (λ v. All (λ label. label < 2 ^ 20) v.items) }
{
    let mut labels = Vec::new(alloc);
    let mut next = 1;
    let mut at = 0;
    while labels.len() < count {
        if at < used.len() && used[at] <= next {
            if used[at] == next {
                next += 1;
            }
            at += 1;
        } else {
            labels.push(next)?;
            next += 1;
        }
    }
    Ok(labels)
}
