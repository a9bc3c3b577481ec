ghost use Rattle.std.specs.Prelude.{◌≡◌, ℕ, ◌<◌, ◌≤◌, false, not, IfOk, IsTrue, Some, length, slice_get};
ghost use Rattle.rv_image.specs.Form.{profile_for};
ghost use Rattle.rv_image.specs.MemoryMap.{CODE_SIZE};
ghost use Rattle.cfi_layout.specs.declared.short.Short.{Short};
ghost use Rattle.cfi_layout.specs.LongSet.{AreShorts, IsLongSet, is_branch, starts_under};
ghost use Rattle.cfi_layout.specs.Starts.{code_size, flag};

use crate::placement::Placement;
use crate::short::Short;
use crate::starts::starts_with;
use crate::worklist::lengthen;
use rv_image::Form;
use rv_word::NoMemory;
use std::alloc::Global;

/// Flags of parts, in which all but those of branches are long.
fn all_short(alloc: Global, count: usize, branches: &[Short]) -> Result<Vec<bool>, NoMemory>
    requires { (i : ℕ) (b : Short) → slice_get branches.now i ≡ Some b → b.at < count }
    ensures len { IfOk result (λ v. length v.items ≡ count) }
    ensures flags { IfOk result (λ v. (k : ℕ) → flag v.items k ≡ not (is_branch branches.now k)) }
{
    let mut long = vec![in alloc; true; count]?;
    for branch in branches {
        long[branch.at as usize] = false;
    }
    Ok(long)
}

/// Places parts with each branch short that can be: exactly the branches of the long set have their
/// whole size, in bytes, and any other a word less. The sizes are some that `place` takes. Where the
/// branches stand in the order of their parts it makes two or three passes, and looks at 2,048
/// branches for each that is made long.
pub fn shorten(
    alloc: Global,
    form: Form,
    sizes: &[u32],
    branches: &[Short],
) -> Result<Placement, NoMemory>
    requires shorts { AreShorts branches.now sizes.now }
    requires room { code_size (profile_for form).units_from sizes.now ≤ CODE_SIZE }
    ensures starts { IfOk result (λ p. p.starts ≡ starts_under (profile_for form).units_from (flag p.long) branches.now sizes.now) }
    ensures only { IfOk result (λ p. (k : ℕ) →
        flag p.long k ≡ false → IsTrue (is_branch branches.now k)) }
    ensures long { IfOk result (λ p. IsLongSet (profile_for form).units_from branches.now sizes.now (flag p.long)) }
{
    let mut long = all_short(alloc, sizes.len(), branches)?;
    'lengthening: loop {
        let starts = starts_with(alloc, form, sizes, long.as_slice())?;
        if !lengthen(alloc, branches, starts.as_slice(), &mut long)? {
            return Ok(Placement { starts, long });
        }
    }
}
