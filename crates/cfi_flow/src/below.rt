//! Numbers that meet a test, as a list.

ghost use Rattle.std.specs.Prelude.{◌≡◌, ◌<◌, ℕ, Bool, IfOk};
ghost use Rattle.cfi_flow.specs.Below.{where_below};

use rv_word::NoMemory;
use std::alloc::Global;

/// The numbers below `n` that meet a test, rising. The clause says so of each test that the closure computes.
pub(crate) fn where_below<F: Fn(u64) -> bool>(
    alloc: Global,
    n: u64,
    test: F,
) -> Result<Vec<u64>, NoMemory>
    requires { (k : ℕ) → k < n → F.pre test k }
    ensures { (p : ℕ → Bool) → ((k : ℕ) (holds : Bool) → k < n → F.post test k holds → holds ≡ p k)
        → IfOk result (λ v. v.items ≡ where_below p n) }
{
    let mut found = Vec::new(alloc);
    for k in 0..n {
        if test(k) {
            found.push(k)?;
        }
    }
    Ok(found)
}
