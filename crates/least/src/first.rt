ghost use Rattle.std.specs.Prelude.{◌≡◌, ◌<◌, ℕ, Bool, true, false, IfSome, IfNone};
ghost use Rattle.least.specs.First.{first_below};

/// The first index below `n` at which a test holds. The last clause says so of each test that the closure computes.
pub fn first_below<F: Fn(u32) -> bool>(n: u32, test: F) -> Option<u32>
    requires { (k : ℕ) → k < n → F.pre test k }
    ensures found { IfSome result (λ k. (k < n) × F.post test k true × ((j : ℕ) → j < k → F.post test j false)) }
    ensures none { IfNone result ((k : ℕ) → k < n → F.post test k false) }
    ensures first { (p : ℕ → Bool) → ((k : ℕ) (holds : Bool) → k < n → F.post test k holds → holds ≡ p k)
        → result ≡ first_below p n }
{
    for index in 0..n {
        if test(index) {
            return Some(index);
        }
    }
    None
}

/// The same of 64 bits.
pub fn first_below_u64<F: Fn(u64) -> bool>(n: u64, test: F) -> Option<u64>
    requires { (k : ℕ) → k < n → F.pre test k }
    ensures found { IfSome result (λ k. (k < n) × F.post test k true × ((j : ℕ) → j < k → F.post test j false)) }
    ensures none { IfNone result ((k : ℕ) → k < n → F.post test k false) }
    ensures first { (p : ℕ → Bool) → ((k : ℕ) (holds : Bool) → k < n → F.post test k holds → holds ≡ p k)
        → result ≡ first_below p n }
{
    for number in 0..n {
        if test(number) {
            return Some(number);
        }
    }
    None
}
