//! The first rule that fails, at its least address.

ghost use Rattle.std.specs.Prelude.{◌≡◌, ◌≢◌, ◌+◌, ◌*◌, ◌^◌, ◌<◌, ◌≤◌, ℕ, List, IfSome, MatchOption};
ghost use Rattle.least.specs.First.{first_below};
ghost use Rattle.least.specs.Least.{IsLeast};
ghost use Rattle.cfi_fails.specs.Fails.{fails_at};
ghost use Rattle.cfi_verify.specs.Scan.{Tells, numbers_in};
ghost use Rattle.cfi_rules.specs.Rules.{Holds, IsFirst, fails};
ghost use Rattle.cfi_starts.specs.Starts.{profile_in};
ghost use Rattle.cfi_rules.specs.declared.reject.Rule.{Rule};
ghost use Rattle.cfi_rules.specs.declared.reject.Rule.TheVariants as R;

use crate::all_hold::all_hold;
use crate::gates::first_without_gate;
use cfi_fails::fails;
use cfi_rules::Rule;
use cfi_starts::Starts;
use least::first_below_u64;
use rv_image::memory_map::CODE_START;

/// The rules in the order in which they are asked.
pub(crate) const RULES: [Rule; 10] = [
    Rule::Prologue,
    Rule::Unit,
    Rule::Leaf,
    Rule::Target,
    Rule::Unlisted,
    Rule::Unused,
    Rule::Site,
    Rule::Gate,
    Rule::Astray,
    Rule::End,
];

/// The first rule that fails, and the least address at which it does.
pub(crate) fn first_failure(starts: &Starts<'_>) -> Option<(Rule, u64)>
    ensures { (words : List ℕ) → Tells (profile_in starts.now) (numbers_in starts.now.graph) starts.now.listing words → MatchOption result ((rule : Rule) → Holds (profile_in starts.now) words starts.now.graph rule) (λ found. IsFirst (profile_in starts.now) words starts.now.graph found.0 found.1) }
{
    if all_hold(starts) {
        None
    } else {
        first_of_rules(starts)
    }
}

/// The same, by asking each rule in turn.
fn first_of_rules(starts: &Starts<'_>) -> Option<(Rule, u64)>
    ensures { (words : List ℕ) → Tells (profile_in starts.now) (numbers_in starts.now.graph) starts.now.listing words → MatchOption result ((rule : Rule) → Holds (profile_in starts.now) words starts.now.graph rule) (λ found. IsFirst (profile_in starts.now) words starts.now.graph found.0 found.1) }
{
    for rule in &RULES {
        if let Some(address) = first(starts, *rule) {
            return Some((*rule, address));
        }
    }
    None
}

/// The least address at which a rule fails.
fn first(starts: &Starts<'_>, rule: Rule) -> Option<u64>
    ensures { (words : List ℕ) → Tells (profile_in starts.now) (numbers_in starts.now.graph) starts.now.listing words → IsLeast (fails rule (profile_in starts.now) words starts.now.graph) result }
{
    match rule {
        Rule::Gate => first_without_gate(starts),
        _ => first_by_address(starts, rule),
    }
}

/// The same for a rule that is asked address by address: it fails only in the code or at the
/// prologue's missing words.
fn first_by_address(starts: &Starts<'_>, rule: Rule) -> Option<u64>
    requires { rule ≢ R.Gate }
    ensures { (words : List ℕ) → Tells (profile_in starts.now) (numbers_in starts.now.graph) starts.now.listing words → IsLeast (fails rule (profile_in starts.now) words starts.now.graph) result }
{
    let front = u64::from(starts.front());
    let count = u64::from(starts.count()).max(front + 1);
    let index = first_index(starts, rule, count)?;
    Some(CODE_START + 4 * index)
}

/// The index of the first of so many words from the start of code on at which a rule fails.
pub(crate) fn first_index(starts: &Starts<'_>, rule: Rule, count: u64) -> Option<u64>
    requires by_address { rule ≢ R.Gate }
    requires room { count ≤ 2 ^ 28 }
    ensures inside { IfSome result (λ k. k < count) }
    ensures first { result ≡ first_below (λ k. fails_at (profile_in starts.now) rule starts.now.listing starts.now.graph (0x40000000 + 4 * k)) count }
{
    first_below_u64(count, |index| fails(starts, rule, CODE_START + 4 * index))
}
