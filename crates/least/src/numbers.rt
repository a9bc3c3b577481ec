//! The least of numbers that are found.

ghost use Rattle.std.specs.Prelude.{◌≡◌, ◌<◌, ℕ, Option};
ghost use Rattle.least.specs.Least.{least_below, lesser};

/// The lesser of two numbers, of those that there are.
pub fn lesser(a: Option<u64>, b: Option<u64>) -> Option<u64>
    ensures { result ≡ lesser a b }
{
    match (a, b) {
        (None, other) => other,
        (Some(a), None) => Some(a),
        (Some(a), Some(b)) => Some(a.min(b)),
    }
}

/// The least of the numbers that a function gives for the indexes below `n`.
pub fn least_below<F: Fn(u32) -> Option<u64>>(n: u32, given: F) -> Option<u64>
    requires { (k : ℕ) → k < n → F.pre given k }
    ensures { (g : ℕ → Option ℕ) → ((k : ℕ) (one : Option ℕ) → k < n → F.post given k one → one ≡ g k)
        → result ≡ least_below g n }
{
    let mut least = None;
    for index in 0..n {
        least = lesser(least, given(index));
    }
    least
}

/// The same of 64 bits.
pub fn least_below_u64<F: Fn(u64) -> Option<u64>>(n: u64, given: F) -> Option<u64>
    requires { (k : ℕ) → k < n → F.pre given k }
    ensures { (g : ℕ → Option ℕ) → ((k : ℕ) (one : Option ℕ) → k < n → F.post given k one → one ≡ g k)
        → result ≡ least_below g n }
{
    let mut least = None;
    for number in 0..n {
        least = lesser(least, given(number));
    }
    least
}
