//! Sums: where parts of these sizes start.

ghost use Rattle.std.specs.Prelude.{◌≡◌, ℕ, ◌+◌, ◌-◌, ◌<◌, ◌≤◌, ◌^◌, if◌then◌else◌, IfOk, length, slice_index};
ghost use Rattle.rv_image.specs.Form.{profile_for};
ghost use Rattle.rv_image.specs.MemoryMap.{CODE_SIZE};
ghost use Rattle.cfi_layout.specs.Lengthening.{starts_with};
ghost use Rattle.cfi_layout.specs.LongSet.{sizes_where};
ghost use Rattle.cfi_layout.specs.Starts.{code_size, flag, starts_from};

use rv_image::Form;
use rv_image::memory_map::CODE_START;
use rv_word::NoMemory;
use std::alloc::Global;

/// How many bytes the code of parts of these sizes has, the prologue of a form's images counted.
pub fn code_size(form: Form, sizes: &[u32]) -> u128
    ensures { result ≡ code_size (profile_for form).units_from sizes.now }
{
    let parts: u128 = sizes.iter().map(|size| u128::from(*size)).sum();
    u128::from(form.units_from() - CODE_START) + parts
}

/// The addresses at which parts of these sizes start, and at which the last ends.
pub(crate) fn starts_of(alloc: Global, form: Form, sizes: &[u32]) -> Result<Vec<u64>, NoMemory>
    requires { code_size (profile_for form).units_from sizes.now ≤ CODE_SIZE }
    ensures { IfOk result (λ v. v.items ≡ starts_from (profile_for form).units_from sizes.now) }
{
    let mut starts = Vec::new(alloc);
    let mut at = form.units_from();
    for size in sizes {
        starts.push(at)?;
        at += u64::from(*size);
    }
    starts.push(at)?;
    Ok(starts)
}

/// The size of a part, in bytes: where it is not long it has one word less.
fn size_of(size: u32, is_long: bool) -> u32
    ensures { result ≡ (if is_long then size else size - 4) }
{
    if is_long {
        size
    } else {
        size.saturating_sub(4)
    }
}

/// The sizes of parts, in bytes: one that is not long has one word less.
pub(crate) fn sizes_of(alloc: Global, sizes: &[u32], long: &[bool]) -> Result<Vec<u32>, NoMemory>
    requires { length long.now ≡ length sizes.now }
    ensures { IfOk result (λ v. v.items ≡ sizes_where (flag long.now) 0 sizes.now) }
{
    let mut left = Vec::new(alloc);
    for (k, size) in sizes.iter().enumerate() {
        left.push(size_of(*size, long[k]))?;
    }
    Ok(left)
}

/// The addresses at which parts start, and at which the last ends, where one that is not long has one
/// word less.
pub(crate) fn starts_with(
    alloc: Global,
    form: Form,
    sizes: &[u32],
    long: &[bool],
) -> Result<Vec<u64>, NoMemory>
    requires count { length long.now ≡ length sizes.now }
    requires room { code_size (profile_for form).units_from sizes.now ≤ CODE_SIZE }
    ensures starts { IfOk result (λ v. v.items ≡ starts_with (profile_for form).units_from long.now sizes.now) }
    ensures len { IfOk result (λ v. length v.items ≡ length sizes.now + 1) }
    ensures low { IfOk result (λ v. (k : ℕ) → slice_index v.items k < 2 ^ 32) }
{
    let left = sizes_of(alloc, sizes, long)?;
    starts_of(alloc, form, left.as_slice())
}
